//! Matching a pattern in a text by backtracking, with stacks of its own in place of recursion.
#![tactic(auto)]

mod caps;
mod frames;
mod lookups;
mod machine;
mod nodes;
mod search;
mod steps;
mod turns;

pub use caps::{Caps, Groups};
pub use search::exec;
