//! A machine's two stacks, and what is put on them.

ghost use Rattle.std.specs.Prelude.{◌≡◌, ◌+◌, ◌-◌, ◌≤◌, [], ◌∷◌, length, drop, OnOk, IfOk, MatchOption, if◌then◌else◌, true};
ghost use Rattle.re_ast.specs.Successes.{stay, move_to, where_fits};
ghost use Rattle.re_matcher.specs.Runs.{Run, tick, all_some, and_then};
ghost use Rattle.re_matcher.specs.Pending.{state, IsSound, Cuts, item_ends, ends_of, waiting, Pushes};
ghost use Rattle.re_matcher.specs.declared.frames.Choice.TheVariants.{Try};

use crate::frames::{Choice, Frame, Item, Spot};
use pile::Pile;
use re_ast::Flags;
use smallvec::SmallVec;
use std::alloc::{AllocError, Global};

/// Another of the same.
pub fn copy(alloc: Global, spot: &Spot) -> Result<Spot, AllocError>
    ensures { IfOk result (λ made. state made ≡ state spot.now) }
{
    Ok(Spot {
        place: spot.place,
        groups: SmallVec::from_slice(alloc, spot.groups.as_slice())?,
    })
}

/// The frames that wait and the choices that are left. What they stand for is the list of the
/// successes still to come (`waiting` in `specs/Pending.antt`).
#[derive(Drop)]
pub struct Machine<'a> {
    pub alloc: Global,
    pub frames: Pile<Frame<'a>>,
    pub choices: Pile<Choice>,
}

impl<'a> Machine<'a> {
    pub fn new(alloc: Global) -> Machine<'a>
        ensures frames { result.frames ≡ [] }
        ensures choices { result.choices ≡ [] }
    {
        Machine {
            alloc,
            frames: Pile::new(alloc),
            choices: Pile::new(alloc),
        }
    }

    /// The last choice. The frames that no choice needs any more go with it.
    pub fn pop(&mut self, text: &[u16], flags: Flags) -> Option<Choice>
        requires sound { IsSound flags text.now self.old.frames self.old.choices }
        ensures { MatchOption result ((self.old.choices ≡ []) × (self.new.frames ≡ self.old.frames) × (self.new.choices ≡ []))
            (λ top. Cuts flags text.now self.old.frames self.new.frames self.old.choices (top ∷ self.new.choices)) }
    {
        match self.choices.pop() {
            None => None,
            Some(top) => {
                self.frames.cut(top.kept());
                Some(top)
            }
        }
    }

    /// Goes on with `item` and then with `next`.
    pub fn go_item(&mut self, item: Item<'a>, next: usize, spot: Spot) -> Result<(), AllocError>
        ensures frames { OnOk result (self.new.frames ≡ record { item = item.entry; next = next } ∷ self.old.frames) }
        ensures choices { OnOk result (self.new.choices ≡ Try (length self.old.frames + 1) (length self.old.frames + 1) spot ∷ self.old.choices) }
    {
        self.frames.push(Frame { item, next })?;
        let frame = self.frames.len();
        self.choices.push(Choice::Try {
            frame,
            kept: frame,
            spot,
        })
    }

    /// Goes on with `next`.
    pub fn go_on(
        &mut self,
        text: &[u16],
        flags: Flags,
        next: usize,
        spot: Spot,
    ) -> Result<(), AllocError>
        requires sound { IsSound flags text.now self.old.frames self.old.choices }
        requires next { next ≤ length self.old.frames }
        requires place { spot.place ≤ length text.now }
        ensures { OnOk result (Pushes flags text.now self.old.frames self.new.frames self.old.choices self.new.choices next (Some (state spot) ∷ [])) }
    {
        let kept = self.frames.len();
        self.choices.push(Choice::Try {
            frame: next,
            kept,
            spot,
        })
    }

    /// Goes on with `next`, `by` units further, where the units there fit.
    pub fn go_if(
        &mut self,
        text: &[u16],
        flags: Flags,
        fits: bool,
        by: usize,
        next: usize,
        spot: Spot,
    ) -> Result<(), AllocError>
        requires sound { IsSound flags text.now self.old.frames self.old.choices }
        requires next { next ≤ length self.old.frames }
        requires place { spot.place ≤ length text.now }
        requires fits { fits ≡ true → spot.place + by ≤ length text.now }
        ensures { OnOk result (Pushes flags text.now self.old.frames self.new.frames self.old.choices self.new.choices next
            (all_some (if fits then stay (move_to (state spot) (spot.place + by)) else []))) }
    {
        if !fits {
            return Ok(());
        }
        let mut further = spot;
        further.place += by;
        self.go_on(text, flags, next, further)
    }

    /// Goes on with `next` where the place fits.
    pub fn go_where(
        &mut self,
        text: &[u16],
        flags: Flags,
        fits: bool,
        next: usize,
        spot: Spot,
    ) -> Result<(), AllocError>
        requires sound { IsSound flags text.now self.old.frames self.old.choices }
        requires next { next ≤ length self.old.frames }
        requires place { spot.place ≤ length text.now }
        ensures { OnOk result (Pushes flags text.now self.old.frames self.new.frames self.old.choices self.new.choices next
            (all_some (where_fits fits (state spot)))) }
    {
        if !fits {
            return Ok(());
        }
        self.go_on(text, flags, next, spot)
    }

    pub fn go_one(
        &mut self,
        text: &[u16],
        flags: Flags,
        item: Item<'a>,
        next: usize,
        spot: Spot,
    ) -> Result<(), AllocError>
        requires sound { IsSound flags text.now self.old.frames self.old.choices }
        requires next { next ≤ length self.old.frames }
        requires place { spot.place ≤ length text.now }
        ensures { OnOk result (Pushes flags text.now self.old.frames self.new.frames self.old.choices self.new.choices next
            (tick (item_ends flags text.now item.entry (state spot)))) }
    {
        self.go_item(item, next, spot)?;
        Ok(())
    }

    /// Goes on with `first`, then with `second`, and then with `next`.
    pub fn go_two(
        &mut self,
        text: &[u16],
        flags: Flags,
        first: Item<'a>,
        second: Item<'a>,
        next: usize,
        spot: Spot,
    ) -> Result<(), AllocError>
        requires sound { IsSound flags text.now self.old.frames self.old.choices }
        requires next { next ≤ length self.old.frames }
        requires place { spot.place ≤ length text.now }
        ensures { OnOk result (Pushes flags text.now self.old.frames self.new.frames self.old.choices self.new.choices next
            (tick (and_then (λ t. tick (item_ends flags text.now second.entry t)) (item_ends flags text.now first.entry (state spot))))) }
    {
        self.frames.push(Frame { item: second, next })?;
        let frame = self.frames.len();
        self.go_item(first, frame, spot)?;
        Ok(())
    }
}
