//! The grammar of patterns (regular expressions): which texts spell a pattern, and its tree.
#![tactic(auto)]

mod characters;
mod classes;
mod escapes;
mod faults;
mod flags;
mod kinds;
mod laws;
mod parser;
mod pieces;
mod quantifiers;
mod reader;
mod refusal;
mod trees;

pub use laws::one_reason;
pub use parser::parse_pattern;
pub use refusal::PatternRefusal;
