//! Steps of the machine for statements: how each kind is begun, and how it goes on behind its parts.
#![tactic(auto)]

mod arms;
mod statements;
mod tries;
mod values;

pub use arms::arm_test;
pub use statements::exec;
pub use tries::{catching, finishing, kept};
pub use values::{express_done, return_done, throw_done};
