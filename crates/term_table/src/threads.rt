//! Terms, tables, moves and runs cross threads. Nothing runs here: that the check takes these functions is what they are for.

use crate::moves::Move;
use crate::outcome::{Constraint, Run};
use crate::table::Table;
use crate::term::Term;

fn crosses<T: Send + Sync>(_value: &T) {}

fn all_cross(table: &Table, run: &Run, step: &Move, term: &Term, constraint: &Constraint) {
    crosses(table);
    crosses(run);
    crosses(step);
    crosses(term);
    crosses(constraint);
}
