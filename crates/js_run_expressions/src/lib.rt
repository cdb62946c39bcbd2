//! Steps of the machine for expressions: how each form is begun, and how it goes on with the value of a part.
#![tactic(auto)]

mod chains;
mod constructing;
mod expressions;
mod functions;
mod lists;
mod operators;
mod values;

pub use chains::{builtin_key, chain, index_key};
pub use expressions::eval;
pub use lists::{argument, element, member};
pub use operators::{choose, link, logical, operand, operate};
