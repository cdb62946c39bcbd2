//! Laws of the ends of runs: an end outside the profile tells which guard failed. The functions have no work to do; their
//! clauses are what crates above cite.
#![tactic(auto)]

mod alike;
mod ends;

pub use alike::{ends_tell, paths_alike, unguarded_ends};
pub use ends::{ends_apart, tokens_rise};
