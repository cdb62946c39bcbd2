//! The verdict on a derivation.

ghost use Rattle.std.specs.Prelude.{ℕ, ◌≡◌, ◌↔◌, ◌≤◌, All};
ghost use Rattle.cnf_core.specs.Literals.{Names, HasNoModel};
ghost use Rattle.cnf_core.specs.Validity.{is_valid};
ghost use Rattle.cnf_core.specs.Derivations.{IsWithin, StepsWithin, known_with, Refutes};
ghost use Rattle.proof_check.specs.Marking.{cleared};
ghost use Rattle.proof_check.specs.Verdicts.{IsVerdict, IsYes, IsNoEmpty, IsFirstInvalid};
ghost use Rattle.proof_check.specs.Verdicts.{HoldsWithoutEmpty};

use crate::assuming::{assume, none_opposed};
use crate::hints::follows;
use crate::marks::Marks;
use cnf_core::{Cnf, Derivation, ProofStep};

/// What `check` finds.
#[derive(Clone, Copy, Debug, PartialEq, Eq)]
pub enum Verdict {
    /// Every step is valid, and one is the empty clause.
    Yes,
    /// The first step that isn't valid, counted from 1.
    BadStep { step: u64 },
    /// Every step is valid, and none is the empty clause.
    NoEmpty,
}

/// Whether a step is valid behind these earlier ones.
fn is_valid_step(cnf: &Cnf, earlier: &[ProofStep], step: &ProofStep, marks: &mut Marks) -> bool
    requires cnf { IsWithin cnf.now }
    requires earlier { StepsWithin cnf.now.variables earlier.now }
    requires step { All (Names cnf.now.variables) step.now.clause }
    requires marks { cnf.now.variables ≤ marks.old.variables }
    ensures value { let known = known_with cnf.now earlier.now in
        result ≡ is_valid known step.now.clause step.now.hints }
    ensures same { marks.new.variables ≡ marks.old.variables }
{
    let clause = step.clause.as_slice();
    assume(marks, clause);
    none_opposed(marks, clause) && follows(cnf, earlier, step.hints.as_slice(), marks)
}

/// The verdict. It leaves marks behind.
fn judge(cnf: &Cnf, derivation: &Derivation, marks: &mut Marks) -> Verdict
    requires cnf { IsWithin cnf.now }
    requires derivation { StepsWithin cnf.now.variables derivation.now.steps }
    requires marks { cnf.now.variables ≤ marks.old.variables }
    ensures verdict { IsVerdict cnf.now derivation.now result }
    ensures same { marks.new.variables ≡ marks.old.variables }
{
    let mut found = false;
    let steps = derivation.steps.as_slice();
    for (i, step) in steps.iter().enumerate() {
        if !is_valid_step(cnf, &steps[..i], step, marks) {
            return Verdict::BadStep { step: i as u64 + 1 };
        }
        if step.clause.is_empty() {
            found = true;
        }
    }
    if found {
        Verdict::Yes
    } else {
        Verdict::NoEmpty
    }
}

/// Whether the derivation refutes the clauses; where it does, no assignment makes all of them true.
///
/// The marks serve at least the cnf's variables, which are all that the literals name. They are left
/// as they were made. A step takes time linear in its clause and in those that it hints at, and no
/// memory.
pub fn check(cnf: &Cnf, derivation: &Derivation, marks: &mut Marks) -> Verdict
    requires cnf { IsWithin cnf.now }
    requires derivation { StepsWithin cnf.now.variables derivation.now.steps }
    requires marks { cnf.now.variables ≤ marks.old.variables }
    ensures yes { IsYes result ↔ Refutes cnf.now derivation.now }
    ensures bad_step { (step : ℕ) →
        (result ≡ Verdict.BadStep step) ↔ IsFirstInvalid cnf.now derivation.now step }
    ensures no_empty { IsNoEmpty result ↔ HoldsWithoutEmpty cnf.now derivation.now }
    ensures sound { IsYes result → HasNoModel cnf.now.clauses }
    ensures same { marks.new ≡ cleared marks.old.variables }
{
    let verdict = judge(cnf, derivation, marks);
    marks.clear();
    verdict
}
