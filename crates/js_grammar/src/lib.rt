//! The grammar of scripts, over tokens. Its definitions stand in `specs/`; the parser is proved against them.
#![tactic(auto)]

mod token;

pub use token::{Token, TokenKind, Word};
