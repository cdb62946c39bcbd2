//! Names that are declared where they may not be.
#![tactic(auto)]

mod expressions;
mod parts;
mod scopes;
mod script;
mod search;
mod statements;
mod tree;

pub use script::early_name;
