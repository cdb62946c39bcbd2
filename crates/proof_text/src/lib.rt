//! Proof blocks as text: clauses and a derivation, written and read back.
#![tactic(auto)]

mod block;
mod blocks;
mod lines;
mod literals;
mod numbers;
mod reading;

pub use block::{Block, BlockRefusal, line_at, read_block};
pub use blocks::write_block;
pub use lines::after;
pub use numbers::{number, signed};
pub use reading::block_front;
