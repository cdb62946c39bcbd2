//! What operators, conversions and built-ins answer, and what a run leaves.

use crate::moves::{Move, Moves};
use crate::shadow::Shadow;
use crate::table::Table;
use crate::term::TermId;
use path_core::{End, ErrorName, Path};
use sqlite_items::Items;

/// The answer of a row: its moves, and then a value, an end or a throw.
#[derive(Drop)]
pub enum Outcome {
    Value {
        moves: Moves,
        value: Shadow,
    },
    /// The run stops with its exit. `failed` is the guard that didn't hold; without one no input that follows the path goes
    /// on.
    Stop {
        moves: Moves,
        failed: Option<TermId>,
        exit: End,
    },
    /// The engine throws an error.
    Raise {
        moves: Moves,
        error: ErrorName,
    },
}

/// A run on one input: its path, its moves over its table of terms, the guard that failed at its end, and its nodes.
#[derive(Drop)]
pub struct Run {
    pub path: Path,
    pub table: Table,
    pub moves: Items<Move>,
    pub failed: Option<TermId>,
    pub steps: u64,
}

/// What is asked of an input: that the term is true there.
#[derive(Clone, Copy)]
pub struct Constraint {
    pub root: TermId,
}
