//! What each command answers, and the one call that the program makes: `run`.
#![tactic(auto)]

mod decide;
mod texts;
mod top;

pub use top::{Status, run};
