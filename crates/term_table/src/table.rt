//! The table of terms.

ghost use Rattle.std.specs.Prelude.{◌≡◌, length, [], ◌∷◌, slice_get, Some, IfOk, OnErr, true, false};
ghost use Rattle.term_table.specs.declared.term.Term.TheVariants.{Flag};
ghost use Rattle.term_table.specs.Growing.{IsAdded, AreDistinct};

use crate::term::{Term, TermId};
use indexmap::IndexMap;
use js_units::NoMemory;
use path_core::Bounds;
use std::alloc::Global;
use std::marker::Model;

/// Terms by their places, no two of them equal. Contracts see the list of the terms.
#[derive(Drop)]
pub struct Table {
    terms: IndexMap<Term, ()>,
}

impl Model for Table {
    ghost use Rattle.std.specs.Prelude.{List};
    ghost use Rattle.std.specs.Map.{keys_of};
    ghost use Rattle.term_table.specs.declared.term.Term.{Term as SpecTerm};
    ghost use Rattle.term_table.specs.Growing.{HasFlags};

    ghost Value = { List SpecTerm };

    ghost view = { λ t. keys_of t.terms.entries };

    ghost invariant = { λ t. HasFlags (keys_of t.terms.entries) };
}

impl Table {
    /// The table of a run within the bounds: the two flags, false at place 0 and true at place 1.
    pub fn new(alloc: Global, _bounds: &Bounds) -> Result<Table, NoMemory>
        ensures { IfOk result (λ table. table ≡ Flag false ∷ Flag true ∷ []) }
    {
        let mut terms = IndexMap::new(alloc);
        terms.insert(Term::Flag(false), ())?;
        terms.insert(Term::Flag(true), ())?;
        Ok(Table { terms })
    }

    /// How many terms there are.
    pub fn len(&self) -> u64
        ensures len { result ≡ length self.now }
        ensures distinct { AreDistinct self.now }
    {
        self.terms.len() as u64
    }

    /// The term of a flag. Takes no memory and searches nothing.
    pub fn flag(&self, value: bool) -> TermId
        ensures { slice_get self.now result.0 ≡ Some (Flag value) }
    {
        let _flags = self.terms.len();
        if value { TermId(1) } else { TermId(0) }
    }

    /// The place of a term: that of an equal one, or a new one at the end. A refused call changes nothing.
    pub fn add(&mut self, term: Term) -> Result<TermId, NoMemory>
        ensures added { IfOk result (λ id. IsAdded self.old self.new term id.0) }
        ensures refused { OnErr result (self.new ≡ self.old) }
    {
        if let Some(at) = self.terms.get_index_of(&term) {
            return Ok(TermId(at as u64));
        }
        let id = self.terms.len() as u64;
        self.terms.insert(term, ())?;
        Ok(TermId(id))
    }
}
