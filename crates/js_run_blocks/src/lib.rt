//! Steps of the machine for blocks and declarations: names are opened, functions made, and statements run in their order.
#![tactic(auto)]

mod blocks;
mod declarations;
mod functions;
mod names;

pub use blocks::{enter, rest};
pub use declarations::{declare, declared};
pub use names::open_names;
