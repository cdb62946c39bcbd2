//! The tokens of a script: where the next one stands in a list of code units, and what it says.
#![tactic(auto)]

mod classes;
mod escapes;
mod laws;
mod lexer;
mod marks;
mod names;
mod numbers;
mod patterns;
mod slices;
mod tables;
mod texts;
mod token;
mod trivia;
mod values;

pub use laws::{one_goal, one_token, one_value};
pub use lexer::next_token;
pub use token::{Goal, LexRefusal, Token, TokenKind};
pub use values::{flags_of, number_of, text_of};
