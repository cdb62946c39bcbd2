//! The paths of a script within bounds.
#![tactic(auto)]

mod keys;
mod listing;

pub use listing::list_all;
