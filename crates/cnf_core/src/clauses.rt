//! Clauses and derivations.

ghost use Rattle.std.specs.Prelude.{◌↔◌, IsTrue, All};
ghost use Rattle.cnf_core.specs.Literals.{Names};
ghost use Rattle.cnf_core.specs.Derivations.{IsWithin, StepsWithin};

use crate::literal::Lit;
use sqlite_items::Items;

/// A formula in conjunctive normal form: clauses, each of which says that one of its literals is
/// true. They are numbered from 1.
#[derive(Drop)]
pub struct Cnf {
    /// How many variables there are. They are numbered from 1.
    pub variables: u64,
    pub clauses: Items<Items<Lit>>,
}

/// A clause, and the numbers of the clauses and earlier steps that show why it follows. A clause is
/// the set of its literals: a repeated one counts once.
///
/// A step is valid where its clause has no literal beside its opposite, it has at least one hint,
/// and, with each of its literals assumed false, every hinted clause but the last, in order, has
/// exactly one literal that isn't false, and that one isn't yet true (it is then made true); and
/// every literal of the last hinted clause is false.
#[derive(Drop)]
pub struct ProofStep {
    pub clause: Items<Lit>,
    pub hints: Items<u64>,
}

/// Steps. Their numbers go on behind those of the clauses.
#[derive(Drop)]
pub struct Derivation {
    pub steps: Items<ProofStep>,
}

fn names(most: u64, lit: Lit) -> bool
    ensures { IsTrue result ↔ Names most lit }
{
    lit.variable() <= most
}

fn is_in_range(most: u64, clause: &[Lit]) -> bool
    ensures { IsTrue result ↔ All (Names most) clause.now }
{
    clause.iter().all(|lit| names(most, *lit))
}

impl Cnf {
    /// Whether each literal names one of the variables.
    pub fn is_within(&self) -> bool
        ensures { IsTrue result ↔ IsWithin self.now }
    {
        let most = self.variables;
        self.clauses
            .as_slice()
            .iter()
            .all(|clause| is_in_range(most, clause.as_slice()))
    }
}

impl Derivation {
    /// Whether each literal names one of this many variables.
    pub fn is_within(&self, variables: u64) -> bool
        ensures { IsTrue result ↔ StepsWithin variables self.now.steps }
    {
        self.steps
            .as_slice()
            .iter()
            .all(|step| is_in_range(variables, step.clause.as_slice()))
    }
}
