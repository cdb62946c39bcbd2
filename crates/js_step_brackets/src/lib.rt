//! Steps of the parser at brackets: the marks that end an expression between them, and the beginnings of objects,
//! functions and other operands of several tokens, with their parameters.
#![tactic(auto)]

mod brackets;
mod pieces;

pub use brackets::{
    close_round_in, comma_in, comma_round, on_close_square, on_colon, round_of, with_member,
};
pub use pieces::{arrow_due_on, object, open_on, parameter_on, parameters_on, piece_on};
