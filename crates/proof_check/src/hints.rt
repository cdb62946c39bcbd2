//! Hinted clauses, under the literals that are false.

ghost use Rattle.std.specs.Prelude.{◌≡◌, ◌≤◌, not, find, option_copied, option_and_then, [], ◌∷◌};
ghost use Rattle.cnf_core.specs.Validity.{numbered, also, is_falsified, is_unit, unit_of, leads};
ghost use Rattle.cnf_core.specs.Derivations.{IsWithin, StepsWithin, known_with};
ghost use Rattle.proof_check.specs.Marking.{is_false, TookHint};

use crate::marks::Marks;
use cnf_core::{Cnf, Lit, ProofStep};
use sqlite_items::{Items, at as item_at};

/// The clause of this number: those of the cnf, and then those of the earlier steps.
fn find_clause<'a>(cnf: &'a Cnf, earlier: &'a [ProofStep], number: u64) -> Option<&'a Items<Lit>>
    ensures { option_copied result ≡ numbered (known_with cnf.now earlier.now) number }
{
    let place = (number as usize).checked_sub(1)?;
    match place.checked_sub(cnf.clauses.len()) {
        None => cnf.clauses.get(place),
        Some(step) => match item_at(earlier, step) {
            None => None,
            Some(step) => Some(&step.clause),
        },
    }
}

fn is_falsified(marks: &Marks, clause: &[Lit]) -> bool
    ensures { result ≡ is_falsified (is_false marks.now) clause.now }
{
    clause.iter().all(|lit| marks.is_false(*lit))
}

fn first_left(marks: &Marks, clause: &[Lit]) -> Option<Lit>
    ensures { result ≡ find (λ l. not (is_false marks.now l)) clause.now }
{
    clause.iter().copied().find(|lit| !marks.is_false(*lit))
}

/// Whether every other literal of the clause is false.
fn is_only_left(marks: &Marks, clause: &[Lit], lit: Lit) -> bool
    ensures { result ≡ is_falsified (also (is_false marks.now) lit) clause.now }
{
    clause
        .iter()
        .all(|other| lit == *other || marks.is_false(*other))
}

fn is_unit(marks: &Marks, clause: &[Lit], lit: Lit) -> bool
    ensures { result ≡ is_unit (is_false marks.now) clause.now lit }
{
    !marks.is_false(lit.opposite()) && is_only_left(marks, clause, lit)
}

/// The one literal that isn't false, where there is exactly one and it isn't yet true.
fn unit(marks: &Marks, clause: &[Lit]) -> Option<Lit>
    ensures { result ≡ unit_of (is_false marks.now) clause.now }
{
    let lit = first_left(marks, clause)?;
    if is_unit(marks, clause, lit) {
        Some(lit)
    } else {
        None
    }
}

/// A hint that isn't the last: makes its clause's unit true, if there is one.
fn takes_hint(cnf: &Cnf, earlier: &[ProofStep], hint: u64, marks: &mut Marks) -> bool
    requires cnf { IsWithin cnf.now }
    requires earlier { StepsWithin cnf.now.variables earlier.now }
    requires marks { cnf.now.variables ≤ marks.old.variables }
    ensures took { let hinted = numbered (known_with cnf.now earlier.now) hint in
        TookHint (option_and_then (unit_of (is_false marks.old)) hinted) marks.old marks.new result }
    ensures same { marks.new.variables ≡ marks.old.variables }
{
    let Some(clause) = find_clause(cnf, earlier, hint) else {
        return false;
    };
    let Some(lit) = unit(marks, clause.as_slice()) else {
        return false;
    };
    marks.falsify(lit.opposite());
    true
}

/// The last hint: its clause has to be all false.
fn ends_at(cnf: &Cnf, earlier: &[ProofStep], hint: u64, marks: &Marks) -> bool
    ensures { result ≡ leads (known_with cnf.now earlier.now) (is_false marks.now) (hint ∷ []) }
{
    match find_clause(cnf, earlier, hint) {
        None => false,
        Some(clause) => is_falsified(marks, clause.as_slice()),
    }
}

/// Whether the hints lead from the literals that are false to a clause that is all false.
pub fn follows(cnf: &Cnf, earlier: &[ProofStep], hints: &[u64], marks: &mut Marks) -> bool
    requires cnf { IsWithin cnf.now }
    requires earlier { StepsWithin cnf.now.variables earlier.now }
    requires marks { cnf.now.variables ≤ marks.old.variables }
    ensures value { result ≡ leads (known_with cnf.now earlier.now) (is_false marks.old) hints.now }
    ensures same { marks.new.variables ≡ marks.old.variables }
{
    let mut left = hints;
    while let [hint, rest @ ..] = left {
        if rest.is_empty() {
            return ends_at(cnf, earlier, *hint, marks);
        }
        if !takes_hint(cnf, earlier, *hint, marks) {
            return false;
        }
        left = rest;
    }
    false
}
