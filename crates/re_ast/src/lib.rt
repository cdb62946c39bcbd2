//! Patterns (regular expressions) as trees, and the definition of what a tree matches: the ordered
//! list of all its successes.
#![tactic(auto)]

mod copies;
mod laws;
mod patterns;

pub use laws::{classes_fold, ends_lie_ahead, repetition_unfolds, search_finds_the_first};
pub use patterns::{ClassSet, Flags, Node, Pattern};
