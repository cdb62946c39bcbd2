//! What the parser has read so far, and in `specs/` what it reads token by token.
#![tactic(auto)]

mod frame;
mod mode;

pub use frame::{Below, Braces, Bracket, Closed, Declaring, Frame, Over, Part, Pending, Place};
pub use mode::{Ending, Header, Heading, Mode, Opening, Operand, Parser, Piece, Trying};
pub use pile::Pile;
