//! Which literals are false.

ghost use Rattle.std.specs.Prelude.{◌≡◌, ◌*◌, ◌+◌, ◌<◌, ◌≤◌, [], length, All, IfOk, IfSome};
ghost use Rattle.cnf_core.specs.Literals.{Names};
ghost use Rattle.cnf_core.specs.Validity.{among, also};
ghost use Rattle.proof_check.specs.Marking.{place, cleared, is_false};

use cnf_core::Lit;
use js_units::NoMemory;
use std::alloc::Global;
use std::marker::Model;

/// Tells which literals of so many variables are false. `check` needs it beside its input.
///
/// Each literal has a place. It is false where the stamp at its place is the present one, and to
/// clear all marks is to go on to the next stamp. So the time for a step doesn't depend on the
/// number of variables.
#[derive(Drop)]
pub struct Marks {
    variables: u64,
    stamps: Vec<u64>,
    stamp: u64,
}

impl Model for Marks {
    ghost use Rattle.proof_check.specs.Marking.{Marking};
    ghost use Rattle.proof_check.specs.Stamps.{AreStamps, marked_by};

    ghost Value = { Marking };

    ghost view = { λ m. record { variables = m.variables; marked = marked_by m.stamps.items m.stamp } };

    ghost invariant = { λ m. AreStamps m.variables m.stamp m.stamps.items };
}

/// How many places the literals of this many variables have, if that fits 64 bits.
fn places_of(variables: u64) -> Option<usize>
    ensures { IfSome result (λ places. places ≡ 2 * variables + 1) }
{
    let doubled = (variables as usize).checked_mul(2)?;
    doubled.checked_add(1)
}

fn place_of(lit: Lit) -> usize
    ensures { result ≡ place lit }
{
    let doubled = 2 * lit.variable() as usize;
    if lit.is_negative() {
        doubled - 1
    } else {
        doubled
    }
}

/// A stamp that stands at no place. Where the stamps run out, all places are wiped.
fn next_stamp(stamps: &mut [u64], last: u64) -> u64
    requires { All (λ s. s ≤ last) stamps.old }
    ensures fresh { All (λ s. s < result) stamps.new }
    ensures length { length stamps.new ≡ length stamps.old }
{
    match last.checked_add(1) {
        Some(next) => next,
        None => {
            stamps.fill(0);
            1
        }
    }
}

impl Marks {
    /// Marks for this many variables. No literal is false.
    pub fn new(alloc: Global, variables: u64) -> Result<Marks, NoMemory>
        ensures { IfOk result (λ marks. marks ≡ cleared variables) }
    {
        let Some(places) = places_of(variables) else {
            return Err(NoMemory);
        };
        Ok(Marks {
            variables,
            stamps: vec![in alloc; 0; places]?,
            stamp: 1,
        })
    }

    pub(crate) fn is_false(&self, lit: Lit) -> bool
        ensures { result ≡ is_false self.now lit }
    {
        match self.stamps.get(place_of(lit)) {
            Some(stamp) => *stamp == self.stamp,
            None => false,
        }
    }

    /// Makes the literal false.
    pub(crate) fn falsify(&mut self, lit: Lit)
        requires { Names self.old.variables lit }
        ensures value { is_false self.new ≡ also (is_false self.old) lit }
        ensures same { self.new.variables ≡ self.old.variables }
    {
        self.stamps[place_of(lit)] = self.stamp;
    }

    /// Makes no literal false.
    pub(crate) fn clear(&mut self)
        ensures value { self.new ≡ cleared self.old.variables }
        ensures none { is_false self.new ≡ among [] }
    {
        self.stamp = next_stamp(&mut self.stamps, self.stamp);
    }
}
