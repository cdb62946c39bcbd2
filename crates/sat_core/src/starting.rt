//! The pass over all clauses with which a search starts.

ghost use Rattle.std.specs.Prelude.{ℤ, List, ◌≡◌, ◌+◌, ◌*◌, ◌++◌, ◌∷◌, [], length, find, not, true, Some, None, OnOk, IfNone, All};
ghost use Rattle.std.specs.Ordering.{int_eq};
ghost use Rattle.cnf_core.specs.Literals.{Names};
ghost use Rattle.cnf_core.specs.Validity.{is_falsified, numbered};
ghost use Rattle.cnf_core.specs.Derivations.{IsWithin};
ghost use Rattle.sat_core.specs.Trails.{unassigned, is_false, AreNamed};
ghost use Rattle.sat_core.specs.Rest.{Grows};
ghost use Rattle.sat_core.specs.Watching.{Stands, Guards};
ghost use Rattle.sat_core.specs.States.{OnAnswer, OnFound};
ghost use Rattle.sat_core.specs.Starting.{IsAlone, Starting, Clashing};

use crate::trail::{Entry, Trail};
use crate::watching::{Pair, Watches};
use cnf_core::{Cnf, Lit};
use js_units::NoMemory;
use sqlite_items::at as item_at;

/// The first literal that differs from this one.
fn other_than(clause: &[Lit], first: Lit) -> Option<Lit>
    ensures { result ≡ find (λ k. not (int_eq k first)) clause.now }
{
    clause.iter().copied().find(|lit| *lit != first)
}

/// The first two different literals.
fn first_pair(clause: &[Lit]) -> Option<Pair>
    ensures stands { Stands clause.now result }
    ensures alone { IfNone result (IsAlone clause.now) }
{
    let first = match item_at(clause, 0) {
        None => return None,
        Some(lit) => *lit,
    };
    match other_than(clause, first) {
        None => None,
        Some(second) => Some(Pair { first, second }),
    }
}

/// Makes the one literal of the clause of this number true. Answers whether the clause is false.
fn hold(trail: &mut Trail, clause: &[Lit], number: u64) -> Result<bool, NoMemory>
    requires alone { IsAlone clause.now }
    requires named { All (Names trail.old.variables) clause.now }
    ensures grows { (known : List (List ℤ)) → numbered known number ≡ Some clause.now →
        OnOk result (Grows known trail.old trail.new) }
    ensures holds { OnAnswer result (is_falsified (is_false trail.new) clause.now ≡ true)
        (Guards (is_false trail.new) (is_false trail.new) clause.now None) }
    ensures named { AreNamed trail.old.variables trail.old.entries →
        OnOk result (AreNamed trail.new.variables trail.new.entries) }
    ensures same { trail.new.variables ≡ trail.old.variables }
{
    let lit = match item_at(clause, 0) {
        None => return Ok(true),
        Some(lit) => *lit,
    };
    if trail.is_false(lit) {
        return Ok(true);
    }
    if trail.is_false(lit.opposite()) {
        return Ok(false);
    }
    let reason = Some(number);
    trail.push(Entry { lit, reason })?;
    Ok(false)
}

/// Watches one more clause, or makes its one literal true. Answers its number where it is false.
fn begin(watches: &mut Watches, trail: &mut Trail, clause: &[Lit]) -> Result<Option<u64>, NoMemory>
    requires wide { length watches.old.lists ≡ 2 * trail.old.variables + 1 }
    requires named { All (Names trail.old.variables) clause.now }
    ensures begun { (known : List (List ℤ)) → Starting known watches.old trail.old →
        OnFound result (Clashing (known ++ clause.now ∷ []) trail.new)
        (Starting (known ++ clause.now ∷ []) watches.new trail.new) }
    ensures same { trail.new.variables ≡ trail.old.variables }
{
    let pair = first_pair(clause);
    let number = watches.add(pair)?;
    match &pair {
        Some(_) => Ok(None),
        None => {
            if hold(trail, clause, number)? {
                return Ok(Some(number));
            }
            Ok(None)
        }
    }
}

/// Watches the cnf's clauses, and makes the literals of those with only one true. Answers the number
/// of a clause that is false.
pub fn set_up(cnf: &Cnf, watches: &mut Watches, trail: &mut Trail) -> Result<Option<u64>, NoMemory>
    requires cnf { IsWithin cnf.now }
    requires trail { trail.old ≡ unassigned cnf.now.variables }
    requires pairs { watches.old.pairs ≡ [] }
    requires wide { length watches.old.lists ≡ 2 * cnf.now.variables + 1 }
    ensures begun { OnFound result (Clashing cnf.now.clauses trail.new)
        (Starting cnf.now.clauses watches.new trail.new) }
    ensures same { trail.new.variables ≡ trail.old.variables }
{
    for clause in cnf.clauses.as_slice() {
        match begin(watches, trail, clause.as_slice())? {
            Some(number) => return Ok(Some(number)),
            None => {}
        }
    }
    Ok(None)
}
