//! A solver: it finds values that make every clause true, or derives the empty clause, or spends its
//! budget of steps on new clauses.
#![tactic(auto)]

mod cutting;
mod finding;
mod learning;
mod propagating;
mod scores;
mod searching;
mod slots;
mod solving;
mod starting;
mod taking;
mod teaching;
mod touched;
mod trail;
mod watching;

pub use solving::{Answer, solve};
