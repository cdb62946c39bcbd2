//! Declared inputs with their bounds, the file that declares them, the order of all inputs, and
//! the paths that runs take.
#![tactic(auto)]

mod bounds;
mod declaring;
mod equality;
mod inputs;
mod members;
mod names;
mod path;
mod query;
mod reading;
mod sizes;
mod taking;
mod texts;
mod threads;

pub use bounds::{Bounds, BoundsRefusal, Declared, Kind};
pub use equality::{is_same_event, is_same_path};
pub use inputs::{count, first_input, next_input};
pub use path::{
    Budget, Child, End, ErrorName, Event, Input, InputValue, Path, PickKind, Thrown, Why,
};
pub use query::Query;
pub use reading::read_bounds;
