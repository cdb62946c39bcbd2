//! Steps of the machine for calls: what was gathered is used, a function is entered, and its body ends.
#![tactic(auto)]

mod activation;
mod bodies;
mod calls;

pub use bodies::returned;
pub use calls::invoke;
