//! The machine: a loop that takes one step after another, without recursion, until nothing waits; and the path of an input.
#![tactic(auto)]

mod handing;
mod machine;
mod parts;
mod taking;

pub use machine::run_plain;
