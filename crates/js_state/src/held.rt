//! What a state holds beside its heap.

use js_units::Units;
use path_core::{End, Event};
use term_table::{Choice, Plain, TermId};

/// An input of the run: its name, its plain value, and its number where its term is asked for.
#[derive(Drop)]
pub struct Supplied<'a> {
    pub name: &'a Units,
    pub value: Plain,
    pub number: Option<u32>,
}

/// A binding but for its value: its name, whether it may be assigned, and the binding next outwards (ECMA-262, section
/// 9.1.1.1).
#[derive(Clone, Copy)]
pub struct Bound<'a> {
    pub name: &'a Units,
    pub is_mutable: bool,
    pub outer: Option<u32>,
}

/// What a run did: a guard that held, an event, and at its end a guard that failed.
#[derive(Drop)]
pub enum RunMove {
    Guard { term: TermId, exit: End },
    Event { event: Event, choice: Choice },
    Failed { term: TermId, exit: End },
}
