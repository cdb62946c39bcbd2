//! The control stack of the machine: what waits for a part of the script, what the machine is about to do, and what both stand
//! for.
#![tactic(auto)]

mod frames;
mod loops;
mod parts;
mod skipping;

pub use frames::{Frame, Frames, Work};
pub use loops::{DoLoop, ForLoop, OfLoop, WhileLoop};
pub use parts::{Aim, Gathered, Goal, Part};
pub use skipping::is_idle;
