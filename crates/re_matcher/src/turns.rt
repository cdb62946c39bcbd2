//! The turns of a repetition (ECMA-262, section 22.2.2.3.1, RepeatMatcher).

ghost use Rattle.std.specs.Prelude.{◌≡◌, ◌-◌, ◌≤◌, ◌==◌, ◌&&◌, nat_le, nat_lt, length, OnOk, IfOk, if◌then◌else◌, Some, None};
ghost use Rattle.re_ast.specs.Successes.{clear, less, is_none_left};
ghost use Rattle.re_matcher.specs.Runs.{is_at};
ghost use Rattle.re_matcher.specs.Pending.{state, IsSound, item_ends, Pushes};
ghost use Rattle.re_matcher.specs.declared.frames.Item.TheVariants as Item;

use crate::frames::{Item, Spot, Turn};
use crate::machine::Machine;
use re_ast::Flags;
use smallvec::SmallVec;
use std::alloc::{AllocError, Global};

impl<'a> Machine<'a> {
    /// Goes on with the turns that are left.
    pub fn go_turns(
        &mut self,
        text: &[u16],
        flags: Flags,
        turn: Turn<'a>,
        next: usize,
        spot: Spot,
    ) -> Result<(), AllocError>
        requires sound { IsSound flags text.now self.old.frames self.old.choices }
        requires next { next ≤ length self.old.frames }
        requires place { spot.place ≤ length text.now }
        ensures { OnOk result (Pushes flags text.now self.old.frames self.new.frames self.old.choices self.new.choices next
            (item_ends flags text.now (Item.Turn turn.entry) (state spot))) }
    {
        if is_back_at(turn.start, spot.place) {
            return Ok(());
        }
        if is_spent(turn.max) {
            self.go_on(text, flags, next, spot)?;
            return Ok(());
        }
        let rest = Item::Turn(turn_after(turn, spot.place));
        let inner = cleared_copy(self.alloc, &spot, turn.first, turn.past)?;
        if 0 < turn.min {
            self.go_two(text, flags, Item::Enter(turn.body), rest, next, inner)?;
            return Ok(());
        }
        if turn.lazy {
            self.go_two(text, flags, Item::Enter(turn.body), rest, next, inner)?;
            self.go_on(text, flags, next, spot)?;
            return Ok(());
        }
        self.go_on(text, flags, next, spot)?;
        self.go_two(text, flags, Item::Enter(turn.body), rest, next, inner)?;
        Ok(())
    }
}

fn is_back_at(start: Option<usize>, place: usize) -> bool
    ensures { result ≡ is_at start place }
{
    match start {
        None => false,
        Some(start) => place == start,
    }
}

fn is_spent(max: Option<u32>) -> bool
    ensures { result ≡ is_none_left max }
{
    match max {
        None => false,
        Some(n) => n == 0,
    }
}

/// What is left after one turn from `place`.
fn turn_after(turn: Turn<'_>, place: usize) -> Turn<'_>
    ensures { result ≡ record turn.entry { min = turn.entry.min - 1; max = less turn.entry.max; start = if turn.entry.min == 0 then Some place else None } }
{
    Turn {
        min: turn.min.saturating_sub(1),
        max: match turn.max {
            None => None,
            Some(n) => Some(n.saturating_sub(1)),
        },
        start: if turn.min == 0 { Some(place) } else { None },
        ..turn
    }
}

/// Another, with the groups from `first` up to `past` undefined.
fn cleared_copy(alloc: Global, spot: &Spot, first: u32, past: u32) -> Result<Spot, AllocError>
    ensures { IfOk result (λ made. state made ≡ clear first past (state spot.now)) }
{
    let mut groups = SmallVec::new(alloc);
    for (i, span) in spot.groups.as_slice().iter().enumerate() {
        let kept = kept_outside(first, past, i + 1, *span);
        groups.push(kept)?;
    }
    Ok(Spot {
        place: spot.place,
        groups,
    })
}

fn kept_outside(
    first: u32,
    past: u32,
    number: usize,
    span: Option<(usize, usize)>,
) -> Option<(usize, usize)>
    ensures { result ≡ (if nat_le first number && nat_lt number past then None else span) }
{
    if first as usize <= number && number < past as usize {
        return None;
    }
    span
}
