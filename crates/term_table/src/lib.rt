//! Values beside terms, the moves of a run, and the table of terms.
#![tactic(auto)]

mod moves;
mod outcome;
mod shadow;
mod table;
mod term;
mod text;
mod threads;

pub use moves::{Choice, Move, Moves};
pub use outcome::{Constraint, Outcome, Run};
pub use shadow::{Plain, Shadow};
pub use table::Table;
pub use term::{Term, TermId};
pub use text::Text;
