//! Laws of the reading: what the grammar of scripts spells is read, what is read is spelt, and each state that is
//! reached may still lead to a script. The functions have no work to do; their clauses are what crates above cite.
#![tactic(auto)]

mod read;
mod spelt;

pub use read::{soundness, viability};
pub use spelt::{certainty, completeness};
