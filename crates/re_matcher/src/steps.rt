//! The steps of a machine, up to the first success.

ghost use Rattle.std.specs.Prelude.{◌≡◌, ◌<◌, ◌≤◌, [], ◌∷◌, length, OnOk, IfOk, MatchOption, option_map, slice_get};
ghost use Rattle.re_ast.specs.Successes.{capture};
ghost use Rattle.re_matcher.specs.Runs.{tick, somes};
ghost use Rattle.re_matcher.specs.Pending.{state, IsSound, item_ends, ends_of, waiting, Becomes, Tells};
ghost use Rattle.re_matcher.specs.declared.frames.Progress.TheVariants.{Going};

use crate::frames::{Choice, Frame, Item, Progress, Spot};
use crate::machine::Machine;
use re_ast::Flags;
use std::alloc::AllocError;

impl<'a> Machine<'a> {
    fn go(
        &mut self,
        text: &[u16],
        flags: Flags,
        item: Item<'a>,
        next: usize,
        spot: Spot,
    ) -> Result<(), AllocError>
        requires sound { IsSound flags text.now self.old.frames self.old.choices }
        requires next { next ≤ length self.old.frames }
        requires place { spot.place ≤ length text.now }
        ensures { OnOk result (Becomes flags text.now self.old.frames self.new.frames self.old.choices self.new.choices next
            (item_ends flags text.now item.entry (state spot))) }
    {
        match item {
            Item::Enter(node) => {
                self.enter(text, flags, node, next, spot)?;
                Ok(())
            }
            Item::AllOf(parts) => {
                self.go_parts(text, flags, parts, next, spot)?;
                Ok(())
            }
            Item::AnyOf(parts) => {
                self.go_alternatives(text, flags, parts, next, spot)?;
                Ok(())
            }
            Item::Close { index, from } => {
                let closed = captured_at(spot, index, from);
                self.go_on(text, flags, next, closed)?;
                Ok(())
            }
            Item::Turn(turn) => {
                self.go_turns(text, flags, turn, next, spot)?;
                Ok(())
            }
        }
    }

    /// Goes on with `frame`.
    fn step(
        &mut self,
        text: &[u16],
        flags: Flags,
        frame: usize,
        spot: Spot,
    ) -> Result<(), AllocError>
        requires sound { IsSound flags text.now self.old.frames self.old.choices }
        requires frame { 0 < frame }
        requires within { frame ≤ length self.old.frames }
        requires place { spot.place ≤ length text.now }
        ensures waiting { OnOk result (tick (waiting flags text.now self.new.frames self.new.choices [])
            ≡ waiting flags text.now self.old.frames self.old.choices (ends_of flags text.now self.old.frames frame (state spot))) }
        ensures sound { OnOk result (IsSound flags text.now self.new.frames self.new.choices) }
    {
        let Frame { item, next } = self.frames.at(frame - 1);
        self.go(text, flags, item, next, spot)?;
        Ok(())
    }

    /// One way ended here: a lookahead is settled by it, or it is what was sought.
    fn settle(&mut self, text: &[u16], flags: Flags, spot: Spot) -> Result<Option<Spot>, AllocError>
        requires sound { IsSound flags text.now self.old.frames self.old.choices }
        requires place { spot.place ≤ length text.now }
        ensures found { IfOk result (λ r. MatchOption r
            (Tells Going (waiting flags text.now self.old.frames self.old.choices (Some (state spot) ∷ [])) (waiting flags text.now self.new.frames self.new.choices []))
            (λ f. slice_get (somes (waiting flags text.now self.old.frames self.old.choices (Some (state spot) ∷ []))) 0 ≡ Some (state f))) }
        ensures sound { OnOk result (IsSound flags text.now self.new.frames self.new.choices) }
    {
        'choices: while let Some(choice) = self.pop(text, flags) {
            match choice {
                Choice::Try {
                    frame: _,
                    kept: _,
                    spot: _,
                } => {}
                Choice::Mark {
                    negative,
                    frame,
                    kept: _,
                    spot: held,
                } => {
                    if negative {
                        return Ok(None);
                    }
                    let mut again = spot;
                    again.place = held.place;
                    let kept = self.frames.len();
                    self.choices.push(Choice::Try {
                        frame,
                        kept,
                        spot: again,
                    })?;
                    return Ok(None);
                }
            }
        }
        Ok(Some(spot))
    }

    /// Takes up the last choice.
    fn advance(&mut self, text: &[u16], flags: Flags) -> Result<Progress, AllocError>
        requires sound { IsSound flags text.now self.old.frames self.old.choices }
        ensures told { IfOk result (λ p. Tells p (waiting flags text.now self.old.frames self.old.choices []) (waiting flags text.now self.new.frames self.new.choices [])) }
        ensures sound { OnOk result (IsSound flags text.now self.new.frames self.new.choices) }
    {
        match self.pop(text, flags) {
            None => Ok(Progress::Ended(None)),
            Some(
                Choice::Mark {
                    negative,
                    frame,
                    kept: _,
                    spot,
                },
            ) => {
                if !negative {
                    return Ok(Progress::Going);
                }
                let kept = self.frames.len();
                self.choices.push(Choice::Try { frame, kept, spot })?;
                Ok(Progress::Going)
            }
            Some(
                Choice::Try {
                    frame,
                    kept: _,
                    spot,
                },
            ) => {
                if frame == 0 {
                    match self.settle(text, flags, spot)? {
                        None => Ok(Progress::Going),
                        Some(found) => Ok(Progress::Ended(Some(found))),
                    }
                } else {
                    self.step(text, flags, frame, spot)?;
                    Ok(Progress::Going)
                }
            }
        }
    }

    /// The first success, if there is one.
    pub fn run(&mut self, text: &[u16], flags: Flags) -> Result<Option<Spot>, AllocError>
        requires sound { IsSound flags text.now self.old.frames self.old.choices }
        ensures { IfOk result (λ r. option_map state r ≡ slice_get (somes (waiting flags text.now self.old.frames self.old.choices [])) 0) }
    {
        'steps: loop {
            match self.advance(text, flags)? {
                Progress::Going => {}
                Progress::Ended(found) => return Ok(found),
            }
        }
    }
}

/// The same place, with the group captured from `from` to there.
fn captured_at(spot: Spot, index: u32, from: usize) -> Spot
    ensures captures { state result ≡ capture index from (state spot) }
{
    let mut closed = spot;
    let at = (index as usize).saturating_sub(1);
    if at < closed.groups.len() {
        closed.groups[at] = Some((from, closed.place));
    }
    closed
}
