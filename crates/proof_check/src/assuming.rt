//! A step's clause, whose literals are assumed false.

ghost use Rattle.std.specs.Prelude.{◌≡◌, All};
ghost use Rattle.cnf_core.specs.Literals.{Names};
ghost use Rattle.cnf_core.specs.Validity.{among};
ghost use Rattle.proof_check.specs.Marking.{is_false, none_opposed};

use crate::marks::Marks;
use cnf_core::Lit;

/// Makes each literal of the clause false, and no other.
pub fn assume(marks: &mut Marks, clause: &[Lit])
    requires { All (Names marks.old.variables) clause.now }
    ensures value { is_false marks.new ≡ among clause.now }
    ensures same { marks.new.variables ≡ marks.old.variables }
{
    marks.clear();
    for lit in clause {
        marks.falsify(*lit);
    }
}

/// Whether no literal of the clause has an opposite that is false.
pub fn none_opposed(marks: &Marks, clause: &[Lit]) -> bool
    ensures { result ≡ none_opposed (is_false marks.now) clause.now }
{
    clause.iter().all(|lit| !marks.is_false(lit.opposite()))
}
