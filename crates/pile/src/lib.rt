//! A stack, as the parsers and the matcher keep one in place of recursion.
#![tactic(auto)]

ghost use Rattle.std.specs.Prelude.{◌≡◌, ◌<◌, ◌-◌, List, [], ◌∷◌, length, reverse, drop, slice_get, MatchOption, OnOk};

use std::alloc::{AllocError, Global};
use std::marker::Model;

/// A stack. Contracts see it as a list whose first item is the top.
#[derive(Drop)]
pub struct Pile<T> {
    items: Vec<T>,
}

impl<T> Model for Pile<T> {
    ghost use Rattle.std.specs.Prelude.{List, reverse};

    ghost Value = { List T };

    ghost view = { λ p. reverse p.items.items };
}

impl<T> Pile<T> {
    pub fn new(alloc: Global) -> Pile<T>
        ensures { result ≡ [] }
    {
        Pile {
            items: Vec::new(alloc),
        }
    }

    pub fn len(&self) -> usize
        ensures { result ≡ length self.now }
    {
        self.items.len()
    }

    pub fn top(&self) -> Option<&T>
        ensures { MatchOption result (self.now ≡ []) (λ top. (below : List T) × (self.now ≡ top.now ∷ below)) }
    {
        self.items.last()
    }

    /// The items, the bottom first.
    pub fn as_slice(&self) -> &[T]
        ensures { reverse result.now ≡ self.now }
    {
        self.items.as_slice()
    }

    pub fn pop(&mut self) -> Option<T>
        ensures { MatchOption result ((self.old ≡ []) × (self.new ≡ [])) (λ top. self.old ≡ top ∷ self.new) }
    {
        self.items.pop()
    }
}

impl<T: Drop> Pile<T> {
    pub fn push(&mut self, item: T) -> Result<(), AllocError>
        ensures { OnOk result (self.new ≡ item ∷ self.old) }
    {
        self.items.push(item)?;
        Ok(())
    }
}

impl<T: Copy> Pile<T> {
    /// Keeps the lowest `count` items.
    pub fn cut(&mut self, count: usize)
        ensures { self.new ≡ drop (length self.old - count) self.old }
    {
        self.items.truncate(count);
    }

    /// The item with `below` items under it.
    pub fn at(&self, below: usize) -> T
        requires { below < length self.now }
        ensures { slice_get (reverse self.now) below ≡ Some result }
    {
        self.items[below]
    }
}
