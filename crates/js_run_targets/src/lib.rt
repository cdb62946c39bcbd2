//! Steps of the machine for targets: `++`, `--` and assignments.
#![tactic(auto)]

mod assigning;
mod stepping;
mod targets;

pub use assigning::{compound_name_value, compound_property_value, name_value, property_value};
pub use targets::{assign, step, target, target_key};
