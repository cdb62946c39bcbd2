//! Operators on whole numbers as clauses.
#![tactic(auto)]

mod bitwise;
mod encoding;
mod op;
mod safety;
mod shifts;
mod threads;

pub use encoding::encode_int;
pub use op::{IntBits, IntOp};
