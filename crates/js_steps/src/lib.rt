//! The parser's step, put together: what one token more makes of what has been read, and where a script may end.
#![tactic(auto)]

mod endings;
mod marks;
mod openings;
mod tokens;

pub use tokens::{ends, step};
