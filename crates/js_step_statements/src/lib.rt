//! Steps of the parser at statements: how one begins, what an expression makes of it, and what ends with it.
#![tactic(auto)]

mod joining;
mod sections;
mod statements;

pub use joining::{settle, trying};
pub use sections::{
    bare, boxed, close_round_part, comma_part, declaration_over, declares_more, is_let,
    is_statement, on_semicolon, over, over_of,
};
pub use statements::{after, below, braces_due, declaration, item, opening, want_part, with_stmt};
