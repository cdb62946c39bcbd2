//! Scripts of the whole language from bytes. The parser reads one token a step, over a stack of frames.
#![tactic(auto)]

mod finding;
mod laws;
mod nesting;
mod parser;
mod reading;
mod refusal;
mod tokens;

pub use laws::one_refusal;
pub use parser::parse_script;
pub use refusal::ScriptRefusal;
