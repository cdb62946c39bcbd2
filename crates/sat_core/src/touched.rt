//! The variables that a conflict touched.

ghost use Rattle.std.specs.Prelude.{◌≡◌, ◌-◌, true, length, slice_set, unsigned_abs, IfOk, All};
ghost use Rattle.cnf_core.specs.Literals.{Names};
ghost use Rattle.sat_core.specs.Cuts.{marked, Marks};

use crate::scores::Scores;
use crate::slots::{get, put};
use cnf_core::Lit;
use js_units::NoMemory;
use sqlite_items::{Items, at as item_at};
use std::alloc::Global;
use std::marker::Model;

/// A mark for each variable, and the places of those that were marked, so that to clear the marks costs
/// no more than to set them.
#[derive(Drop)]
pub struct Touched {
    marks: Items<bool>,
    places: Items<usize>,
    count: usize,
}

impl Model for Touched {
    ghost use Rattle.std.specs.Prelude.{Bool, List};

    ghost Value = { List Bool };

    ghost view = { λ t. t.marks };
}

fn is_marked(marks: &[bool], lit: Lit) -> bool
    ensures { result ≡ marked marks.now lit }
{
    match item_at(marks, lit.variable() as usize - 1) {
        Some(mark) => *mark,
        None => false,
    }
}

impl Touched {
    pub fn new(alloc: Global, variables: u64) -> Result<Touched, NoMemory>
        ensures { IfOk result (λ touched. length touched ≡ variables) }
    {
        Ok(Touched {
            marks: Items::from_vec(vec![in alloc; false; variables as usize]?),
            places: Items::from_vec(vec![in alloc; 0; variables as usize]?),
            count: 0,
        })
    }

    pub fn is_marked(&self, lit: Lit) -> bool
        ensures { result ≡ marked self.now lit }
    {
        is_marked(self.marks.as_slice(), lit)
    }

    /// Notes a place whose mark is to be cleared.
    fn note(&mut self, place: usize)
        ensures { self.new ≡ self.old }
    {
        put(&mut self.places, self.count, place);
        self.count = self.count.wrapping_add(1);
    }

    fn mark(&mut self, scores: &mut Scores, lit: Lit)
        requires { Names (length self.old) lit }
        ensures { self.new ≡ slice_set self.old (unsigned_abs lit - 1) true }
    {
        let place = lit.variable() as usize - 1;
        if !self.is_marked(lit) {
            self.note(place);
            scores.mark(lit);
        }
        self.marks.set(place, true);
    }

    /// Marks the variables of the clause.
    pub fn mark_all(&mut self, scores: &mut Scores, clause: &[Lit])
        requires { All (Names (length self.old)) clause.now }
        ensures { Marks self.old self.new clause.now }
    {
        for lit in clause {
            self.mark(scores, *lit);
        }
    }

    /// Clears the marks.
    pub fn clear(&mut self)
        ensures { length self.new ≡ length self.old }
    {
        for at in 0..self.count {
            put(&mut self.marks, get(&self.places, at, 0), false);
        }
        self.count = 0;
    }
}
