//! The ground of the parser's steps: what an operand is, what the frames around it say, and what a token makes of them
//! where an expression is due.
#![tactic(auto)]

mod context;
mod frames;
mod operands;
mod refusals;
mod stop;
mod wanting;

pub use context::{Context, context_of};
pub use frames::{
    ALL, CONDITIONAL, binary_links, close_to, level, logical_links, pushed, takes_assign,
    takes_unary,
};
pub use operands::{
    boxed, call_parts, continues, is_literal, is_of, parameter_of, target_of, value_of, wrapped,
};
pub use refusals::{
    discard, discard_braces, discard_call, discard_frame, discard_operand, discard_part,
    discard_token, discard_value, refused, refused_at, refused_in, stopped,
};
pub use stop::Stop;
pub use wanting::{
    below_due, called, heading, opens_list, piece, primary, reached, want, want_close_in,
    want_word, wants, word_of,
};
