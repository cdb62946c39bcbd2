//! The two literals of each clause that are watched, and the clauses that watch each literal.

ghost use Rattle.std.specs.Prelude.{ℤ, ◌≡◌, ◌≢◌, ◌<◌, ◌+◌, ◌*◌, ◌++◌, ◌∷◌, [], length, find, not, ◌&&◌, slice_set, Some, IfOk, OnOk, IfSome, IfNone};
ghost use Rattle.std.specs.Ordering.{int_eq};
ghost use Rattle.cnf_core.specs.Literals.{Names};
ghost use Rattle.sat_core.specs.declared.watching.Pair.{Pair};
ghost use Rattle.sat_core.specs.Trails.{is_false};
ghost use Rattle.sat_core.specs.Watching.{list_place, list_at, listed_more, Stands, IsWatched, IsPairOf, Shows, replaces, listed_pair, IsRoom};

use crate::trail::Trail;
use cnf_core::Lit;
use js_units::NoMemory;
use sqlite_items::Items;
use std::alloc::Global;
use std::marker::Model;
use std::mem::replace;

/// The watched literals of a clause: two different ones.
#[derive(Clone, Copy)]
pub struct Pair {
    pub first: Lit,
    pub second: Lit,
}

/// The clauses that watch each literal, and an empty list whose memory serves again.
#[derive(Drop)]
pub struct Lists {
    lists: Vec<Items<u64>>,
    spare: Items<u64>,
}

impl Model for Lists {
    ghost use Rattle.std.specs.Prelude.{ℕ, List, ◌≡◌, []};

    ghost Value = { List (List ℕ) };

    ghost view = { λ l. l.lists.items };

    ghost invariant = { λ l. l.spare ≡ [] };
}

/// The pair of each clause, none where it has no two different literals, and the lists.
#[derive(Drop)]
pub struct Watches {
    pub pairs: Items<Option<Pair>>,
    pub lists: Lists,
}

/// The place of a literal's list.
fn list_of(lit: Lit) -> usize
    ensures { result ≡ list_place lit }
{
    let twice = lit.variable() as usize * 2;
    if lit.is_negative() { twice - 1 } else { twice }
}

/// The list without its items, but with its memory.
fn emptied(list: Items<u64>) -> Items<u64>
    ensures { result ≡ [] }
{
    let mut left = list;
    loop {
        match left.pop() {
            None => return left,
            Some(_) => {}
        }
    }
}

impl Lists {
    pub fn new(alloc: Global, variables: u64) -> Result<Lists, NoMemory>
        ensures { IfOk result (λ lists. length lists ≡ 2 * variables + 1) }
    {
        let mut lists = Vec::new(alloc);
        for _ in 0..variables {
            lists.push(Items::new(alloc))?;
            lists.push(Items::new(alloc))?;
        }
        lists.push(Items::new(alloc))?;
        Ok(Lists {
            lists,
            spare: Items::new(alloc),
        })
    }

    /// Takes the list of a literal, which is then empty.
    pub fn take(&mut self, alloc: Global, lit: Lit) -> Items<u64>
        requires { list_place lit < length self.old }
        ensures list { result ≡ list_at self.old lit }
        ensures rest { self.new ≡ slice_set self.old (list_place lit) [] }
    {
        let spare = replace(&mut self.spare, Items::new(alloc));
        replace(&mut self.lists[list_of(lit)], spare)
    }

    /// Keeps the memory of a list that was taken.
    pub fn give_back(&mut self, list: Items<u64>)
        ensures { self.new ≡ self.old }
    {
        self.spare = emptied(list);
    }

    pub fn push(&mut self, lit: Lit, number: u64) -> Result<(), NoMemory>
        requires { list_place lit < length self.old }
        ensures { OnOk result (self.new ≡ listed_more self.old lit number) }
    {
        self.lists[list_of(lit)].push(number)?;
        Ok(())
    }
}

impl Watches {
    pub fn new(alloc: Global, variables: u64) -> Result<Watches, NoMemory>
        ensures pairs { IfOk result (λ watches. watches.pairs ≡ []) }
        ensures wide { IfOk result (λ watches. length watches.lists ≡ 2 * variables + 1) }
    {
        Ok(Watches {
            pairs: Items::new(alloc),
            lists: Lists::new(alloc, variables)?,
        })
    }

    /// Watches the next clause, whose number is answered.
    pub fn add(&mut self, pair: Option<Pair>) -> Result<u64, NoMemory>
        requires { IsRoom self.old.lists pair }
        ensures pairs { OnOk result (self.new.pairs ≡ self.old.pairs ++ pair ∷ []) }
        ensures lists { OnOk result (self.new.lists ≡ listed_pair self.old.lists pair (length self.old.pairs + 1)) }
        ensures number { IfOk result (λ n. n ≡ length self.old.pairs + 1) }
    {
        self.pairs.push(pair)?;
        let number = self.pairs.len() as u64;
        match &pair {
            None => {}
            Some(pair) => {
                self.lists.push(pair.first, number)?;
                self.lists.push(pair.second, number)?;
            }
        }
        Ok(number)
    }
}

/// What a clause whose watched literal became false asks for.
pub enum Visit {
    /// Nothing: the other watched literal is true, or the literal isn't watched.
    Keep,
    /// To watch another literal in its place.
    Move { other: Lit, to: Lit },
    /// To make the other watched literal true.
    Force { other: Lit },
    /// The clause is false.
    Conflict,
}

/// The other literal of a pair with this one.
pub fn other_of(pair: Option<Pair>, lit: Lit) -> Option<Lit>
    ensures none { IfNone result ((w : Pair) → pair ≡ Some w → (w.first ≢ lit) × (w.second ≢ lit)) }
    ensures some { IfSome result (λ other. IsWatched pair other lit) }
{
    let pair = pair?;
    if pair.first == lit {
        return Some(pair.second);
    }
    if pair.second == lit {
        return Some(pair.first);
    }
    None
}

/// A literal beside this one that isn't false.
fn replacement(trail: &Trail, clause: &[Lit], other: Lit) -> Option<Lit>
    ensures { result ≡ find (replaces (is_false trail.now) other) clause.now }
{
    clause
        .iter()
        .copied()
        .find(|lit| *lit != other && !trail.is_false(*lit))
}

/// What this clause asks for, where its watched literal became false.
pub fn look(trail: &Trail, clause: &[Lit], pair: Option<Pair>, lit: Lit) -> Visit
    requires { Stands clause.now pair }
    ensures { Shows (is_false trail.now) clause.now pair lit result }
{
    let other = match other_of(pair, lit) {
        None => return Visit::Keep,
        Some(other) => other,
    };
    if trail.is_false(other.opposite()) {
        return Visit::Keep;
    }
    match replacement(trail, clause, other) {
        Some(to) => Visit::Move { other, to },
        None => {
            if trail.is_false(other) {
                Visit::Conflict
            } else {
                Visit::Force { other }
            }
        }
    }
}
