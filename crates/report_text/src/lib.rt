//! Reports, and the bytes that spell them.
#![tactic(auto)]

mod bodies;
mod details;
mod endings;
mod ends;
mod events;
mod heads;
mod inputs;
mod items;
mod names;
mod parts;
mod pieces;
mod queries;
mod questions;
mod reading;
mod report;
mod terms;
mod wide;
mod words;

pub use reading::{ReportRefusal, read_report};
pub use report::{Line, Report, write_path, write_report};
