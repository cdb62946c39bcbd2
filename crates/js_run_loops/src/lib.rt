//! Steps of the machine for loops.
#![tactic(auto)]

mod bodies;
mod copies;
mod do_loops;
mod for_loops;
mod heads;
mod items;
mod of_loops;
mod while_loops;

pub use do_loops::{begin_do, do_body, do_test};
pub use for_loops::{for_body, for_declared, for_test, for_update, for_value};
pub use heads::begin_for;
pub use of_loops::{begin_of, of_body, of_items};
pub use while_loops::{begin_while, while_body, while_test};
