//! The formula that grows.

ghost use Rattle.std.specs.Prelude.{◌≡◌, ◌+◌, ◌<◌, ◌≤◌, ◌^◌, ◌++◌, ◌∷◌, [], All, pos, OnOk, IfOk};
ghost use Rattle.cnf_core.specs.Literals.{Names};
ghost use Rattle.cnf_core.specs.Derivations.{IsWithin};
ghost use Rattle.bit_words.specs.Builds.{Stands};

use cnf_core::{Cnf, Lit};
use js_units::NoMemory;
use sqlite_items::Items;
use std::alloc::Global;
use std::marker::Model;

/// A formula to which variables and clauses are added. Contracts see the formula.
#[derive(Drop)]
pub struct Builder {
    pub(crate) alloc: Global,
    variables: u64,
    clauses: Items<Items<Lit>>,
}

impl Model for Builder {
    ghost use Rattle.std.specs.Prelude.{◌≤◌, ◌^◌};
    ghost use Rattle.cnf_core.specs.declared.clauses.Cnf.{Cnf};
    ghost use Rattle.cnf_core.specs.Derivations.{IsWithin};

    ghost Value = { Cnf };

    ghost view = { λ b. record { variables = b.variables; clauses = b.clauses } };

    ghost invariant = { λ b. IsWithin (record { variables = b.variables; clauses = b.clauses }) };
}

impl Builder {
    /// No variable and no clause. What is added takes its memory from `alloc`.
    pub fn new(alloc: Global) -> Builder
        ensures { result ≡ record { variables = 0; clauses = [] } }
    {
        Builder {
            alloc,
            variables: 0,
            clauses: Items::new(alloc),
        }
    }

    /// What the clauses take their memory from.
    pub fn allocator(&self) -> Global {
        self.alloc
    }

    /// One more bit, of either value: its positive literal.
    pub fn new_bit(&mut self) -> Lit
        requires space { self.old.variables < 2 ^ 62 }
        ensures literal { result ≡ pos self.new.variables }
        ensures variables { self.new.variables ≡ self.old.variables + 1 }
        ensures clauses { self.new.clauses ≡ self.old.clauses }
    {
        self.variables += 1;
        Lit::positive(self.variables)
    }

    /// One more clause.
    #[tactic(auto, using(crate::proofs::Standing::standing))]
    pub(crate) fn add_clause(&mut self, clause: Items<Lit>) -> Result<(), NoMemory>
        requires names { All (Names self.old.variables) clause }
        ensures clauses { OnOk result (self.new.clauses ≡ self.old.clauses ++ clause ∷ []) }
        ensures variables { self.new.variables ≡ self.old.variables }
        ensures stands { Stands self.old self.new }
    {
        self.clauses.push(clause)?;
        Ok(())
    }

    /// The formula.
    pub fn finish(self) -> Cnf
        ensures formula { result ≡ self }
        ensures within { IsWithin result }
    {
        Cnf {
            variables: self.variables,
            clauses: self.clauses,
        }
    }
}
