//! Unit propagation by watched literals.

ghost use Rattle.std.specs.Prelude.{ℕ, ℤ, Bool, List, ◌≡◌, ◌≤◌, ◌∷◌, [], length};
ghost use Rattle.cnf_core.specs.Literals.{Names};
ghost use Rattle.cnf_core.specs.Derivations.{known_with, IsWithin, StepsWithin};
ghost use Rattle.sat_core.specs.Trails.{is_false};
ghost use Rattle.sat_core.specs.Watching.{ArePlaced};
ghost use Rattle.sat_core.specs.States.{Standing, Falling, LooksAt, OnAnswer, OnFound, Hit, Passed, Fallen, Stable, GuardedTo, Stopped, Rested, Falls};

use crate::finding::find_clause;
use crate::trail::{Entry, Trail};
use crate::watching::{Pair, Visit, Watches, look};
use cnf_core::{Cnf, Lit, ProofStep};
use js_units::NoMemory;
use sqlite_items::at as item_at;
use std::alloc::Global;

/// What the clause of this number asks for, where this literal became false.
fn look_at(
    cnf: &Cnf,
    steps: &[ProofStep],
    watches: &Watches,
    trail: &Trail,
    number: u64,
    lit: Lit,
) -> Visit
    requires { ArePlaced (known_with cnf.now steps.now) watches.now.pairs }
    ensures { LooksAt (known_with cnf.now steps.now) watches.now.pairs (is_false trail.now) number lit result }
{
    let clause = match find_clause(cnf, steps, number) {
        None => return Visit::Keep,
        Some(clause) => clause,
    };
    match item_at(watches.pairs.as_slice(), number as usize - 1) {
        None => Visit::Keep,
        Some(pair) => look(trail, clause.as_slice(), *pair, lit),
    }
}

/// The clause of this number, where this literal became false, is looked at and listed again. Answers
/// whether it is false.
fn pass(
    cnf: &Cnf,
    steps: &[ProofStep],
    watches: &mut Watches,
    trail: &mut Trail,
    number: u64,
    lit: Lit,
) -> Result<bool, NoMemory>
    requires named { Names trail.old.variables lit }
    requires standing { (rest : List ℕ) × Standing (known_with cnf.now steps.now) lit (number ∷ rest) watches.old trail.old }
    ensures { (p : ℤ → Bool) (rest : List ℕ) →
        Standing (known_with cnf.now steps.now) lit (number ∷ rest) watches.old trail.old →
        Falling (known_with cnf.now steps.now) p lit (number ∷ rest) watches.old trail.old →
        OnAnswer result (Hit (known_with cnf.now steps.now) lit rest watches.new trail.old trail.new number)
        (Passed (known_with cnf.now steps.now) p lit rest watches.new trail.old trail.new) }
{
    match look_at(cnf, steps, watches, trail, number, lit) {
        Visit::Keep => {
            watches.lists.push(lit, number)?;
            Ok(false)
        }
        Visit::Move { other, to } => {
            let pair = Pair {
                first: other,
                second: to,
            };
            watches.pairs.set(number as usize - 1, Some(pair));
            watches.lists.push(to, number)?;
            Ok(false)
        }
        Visit::Force { other } => {
            let reason = Some(number);
            trail.push(Entry { lit: other, reason })?;
            watches.lists.push(lit, number)?;
            Ok(false)
        }
        Visit::Conflict => {
            watches.lists.push(lit, number)?;
            Ok(true)
        }
    }
}

/// Looks at each clause that watches a literal that became false, until one is false.
fn falsify(
    alloc: Global,
    cnf: &Cnf,
    steps: &[ProofStep],
    watches: &mut Watches,
    trail: &mut Trail,
    lit: Lit,
) -> Result<Option<u64>, NoMemory>
    requires named { Names trail.old.variables lit }
    requires standing { Standing (known_with cnf.now steps.now) lit [] watches.old trail.old }
    requires falls { (p : ℤ → Bool) × Falls (known_with cnf.now steps.now) p lit watches.old.pairs trail.old }
    ensures { (p : ℤ → Bool) → Falls (known_with cnf.now steps.now) p lit watches.old.pairs trail.old →
        OnFound result (Hit (known_with cnf.now steps.now) lit [] watches.new trail.old trail.new)
        (Fallen (known_with cnf.now steps.now) p lit watches.new trail.old trail.new) }
{
    let list = watches.lists.take(alloc, lit);
    let mut conflict = None;
    for number in list.as_slice() {
        match conflict {
            Some(_) => watches.lists.push(lit, *number)?,
            None => {
                if pass(cnf, steps, watches, trail, *number, lit)? {
                    conflict = Some(*number);
                }
            }
        }
    }
    watches.lists.give_back(list);
    Ok(conflict)
}

/// Makes units true, each with its clause as the reason, until a clause is false, whose number is
/// answered, or none is and none has a unit. The entries before `head` have been seen to.
pub fn propagate(
    alloc: Global,
    cnf: &Cnf,
    steps: &[ProofStep],
    watches: &mut Watches,
    trail: &mut Trail,
    head: usize,
) -> Result<Option<u64>, NoMemory>
    requires standing { Stable (known_with cnf.now steps.now) watches.old trail.old }
    requires guarded { GuardedTo (known_with cnf.now steps.now) watches.old trail.old head }
    requires head { head ≤ length trail.old.entries }
    ensures { OnFound result (Stopped (known_with cnf.now steps.now) watches.new trail.old trail.new)
        (Rested (known_with cnf.now steps.now) watches.new trail.old trail.new) }
{
    let mut next = head;
    loop {
        let lit = match item_at(trail.entries(), next) {
            None => return Ok(None),
            Some(entry) => entry.lit.opposite(),
        };
        match falsify(alloc, cnf, steps, watches, trail, lit)? {
            Some(number) => return Ok(Some(number)),
            None => next += 1,
        }
    }
}
