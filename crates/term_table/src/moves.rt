//! What a run did on its way.

ghost use Rattle.std.specs.Prelude.{◌≡◌, [], ◌∷◌, ◌++◌, length, MatchOption, OnOk};

use crate::term::TermId;
use js_units::NoMemory;
use path_core::{End, Event};
use std::alloc::Global;
use std::collections::VecDeque;
use std::marker::Model;

/// The term whose value is an event's outcome.
#[derive(Clone, Copy)]
pub enum Choice {
    /// The outcome is 1 or 0.
    Flag(TermId),
    Number(TermId),
    Text(TermId),
}

/// A guard that held, with the end that it kept away, or an event that was made.
#[derive(Drop)]
pub enum Move {
    Guard { term: TermId, exit: End },
    Event { event: Event, choice: Choice },
}

/// Moves in their order. The first two stand in place, so that few moves take no memory.
#[derive(Drop)]
pub struct Moves {
    first: Option<Move>,
    second: Option<Move>,
    more: VecDeque<Move>,
}

impl Model for Moves {
    ghost use Rattle.std.specs.Prelude.{List};
    ghost use Rattle.term_table.specs.declared.moves.Move.{Move as SpecMove};
    ghost use Rattle.term_table.specs.Listing.{listed, IsPacked};

    ghost Value = { List SpecMove };

    ghost view = { λ m. listed m.first m.second m.more.items };

    ghost invariant = { λ m. IsPacked m.first m.second m.more.items };
}

impl Moves {
    /// No moves. Takes no memory.
    pub fn new(alloc: Global) -> Moves
        ensures { result ≡ [] }
    {
        Moves {
            first: None,
            second: None,
            more: VecDeque::new(alloc),
        }
    }

    /// How many moves there are.
    pub fn len(&self) -> usize
        ensures { result ≡ length self.now }
    {
        if self.first.is_none() {
            return 0;
        }
        if self.second.is_none() {
            return 1;
        }
        self.more.len() + 2
    }

    /// Adds a move at the end.
    pub fn push(&mut self, next: Move) -> Result<(), NoMemory>
        ensures { OnOk result (self.new ≡ self.old ++ next ∷ []) }
    {
        if self.first.is_none() {
            self.first = Some(next);
            return Ok(());
        }
        if self.second.is_none() {
            self.second = Some(next);
            return Ok(());
        }
        self.more.push_back(next)?;
        Ok(())
    }

    /// Takes the first move away.
    pub fn take(&mut self) -> Option<Move>
        ensures { MatchOption result ((self.old ≡ []) × (self.new ≡ [])) (λ first. self.old ≡ first ∷ self.new) }
    {
        let first = self.first.take();
        self.first = self.second.take();
        self.second = self.more.pop_front();
        first
    }
}
