//! Terms: what a value is at every input.

use js_units::Units;

/// The place of a term in its table.
#[derive(Clone, Copy)]
pub struct TermId(pub u64);

/// What a term is made of. So far there are constants alone.
#[derive(Drop, PartialEq, Eq, Hash)]
pub enum Term {
    Flag(bool),
    Int(i128),
    Text(Units),
}
