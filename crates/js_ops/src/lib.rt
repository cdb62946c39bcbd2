//! The operators and conversions of the language: on plain contents, and on shadows.
#![tactic(auto)]

mod answers;
mod arithmetic;
mod comparing;
mod conversions;
mod numbers;
mod one_operand;
mod row;
mod shadows;
mod texts;
mod two_operands;

pub use conversions::{is_nullish, old_number, to_boolean};
pub use shadows::{binary, step, to_flag, to_text, unary};
