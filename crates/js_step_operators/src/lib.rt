//! Steps of the parser behind an operand: operators, arrows and suffixes, and what ends with the operand before them.
#![tactic(auto)]

mod arrows;
mod binary;
mod closing;
mod infix;
mod logical;
mod suffixes;

pub use arrows::{on_arrow, to_arrow};
pub use closing::whole;
pub use infix::continued;
pub use suffixes::on_step;
