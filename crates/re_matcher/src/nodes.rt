//! What the machine does with a node of each kind.

ghost use Rattle.std.specs.Prelude.{◌≡◌, ◌≤◌, length, OnOk};
ghost use Rattle.re_ast.specs.Tree.{tree_of};
ghost use Rattle.re_ast.specs.Successes.{again, captured};
ghost use Rattle.re_matcher.specs.Runs.{tick, all_some, looked, runs};
ghost use Rattle.re_matcher.specs.Pending.{state, IsSound, item_ends, Pushes, Becomes};
ghost use Rattle.re_matcher.specs.declared.frames.Item.TheVariants.{AllOf, AnyOf};

use crate::caps::Groups;
use crate::frames::{Choice, Item, Spot, Turn};
use crate::lookups;
use crate::machine::{Machine, copy};
use re_ast::{Flags, Node};
use std::alloc::AllocError;

impl<'a> Machine<'a> {
    /// Goes on with what `body` has at its head, or with nothing else where it has nothing.
    fn go_look(
        &mut self,
        text: &[u16],
        flags: Flags,
        negative: bool,
        body: &'a Node,
        next: usize,
        spot: Spot,
    ) -> Result<(), AllocError>
        requires sound { IsSound flags text.now self.old.frames self.old.choices }
        requires next { next ≤ length self.old.frames }
        requires place { spot.place ≤ length text.now }
        ensures { OnOk result (Becomes flags text.now self.old.frames self.new.frames self.old.choices self.new.choices next
            (looked negative (state spot) (tick (runs flags text.now (tree_of body.entry.now) (state spot))))) }
    {
        let held = copy(self.alloc, &spot)?;
        let kept = self.frames.len();
        self.choices.push(Choice::Mark {
            negative,
            frame: next,
            kept,
            spot: held,
        })?;
        self.go_item(Item::Enter(body), 0, spot)?;
        Ok(())
    }

    /// Goes on with each alternative in order.
    pub fn go_alternatives(
        &mut self,
        text: &[u16],
        flags: Flags,
        parts: &'a [Node],
        next: usize,
        spot: Spot,
    ) -> Result<(), AllocError>
        requires sound { IsSound flags text.now self.old.frames self.old.choices }
        requires next { next ≤ length self.old.frames }
        requires place { spot.place ≤ length text.now }
        ensures { OnOk result (Pushes flags text.now self.old.frames self.new.frames self.old.choices self.new.choices next
            (item_ends flags text.now (AnyOf parts.entry) (state spot))) }
    {
        match parts {
            [] => Ok(()),
            [only, rest @ ..] => {
                let held = copy(self.alloc, &spot)?;
                self.go_one(text, flags, Item::AnyOf(rest), next, held)?;
                self.go_one(text, flags, Item::Enter(only), next, spot)?;
                Ok(())
            }
        }
    }

    /// Goes on with each part in a row.
    pub fn go_parts(
        &mut self,
        text: &[u16],
        flags: Flags,
        parts: &'a [Node],
        next: usize,
        spot: Spot,
    ) -> Result<(), AllocError>
        requires sound { IsSound flags text.now self.old.frames self.old.choices }
        requires next { next ≤ length self.old.frames }
        requires place { spot.place ≤ length text.now }
        ensures { OnOk result (Pushes flags text.now self.old.frames self.new.frames self.old.choices self.new.choices next
            (item_ends flags text.now (AllOf parts.entry) (state spot))) }
    {
        match parts {
            [] => {
                self.go_on(text, flags, next, spot)?;
                Ok(())
            }
            [part, rest @ ..] => {
                let first = Item::Enter(part);
                self.go_two(text, flags, first, Item::AllOf(rest), next, spot)?;
                Ok(())
            }
        }
    }

    /// Goes on with what the group captured before.
    fn go_back(
        &mut self,
        text: &[u16],
        flags: Flags,
        index: u32,
        next: usize,
        spot: Spot,
    ) -> Result<(), AllocError>
        requires sound { IsSound flags text.now self.old.frames self.old.choices }
        requires next { next ≤ length self.old.frames }
        requires place { spot.place ≤ length text.now }
        ensures { OnOk result (Pushes flags text.now self.old.frames self.new.frames self.old.choices self.new.choices next
            (all_some (again flags text.now (captured (state spot).captures index) (state spot)))) }
    {
        match span_of(&spot.groups, index) {
            None => {
                self.go_on(text, flags, next, spot)?; // the empty string
                Ok(())
            }
            Some((from, to)) => {
                let part = lookups::part(text, from, to);
                let fits = lookups::stands_again(text, flags, spot.place, part);
                self.go_if(text, flags, fits, part.len(), next, spot)?;
                Ok(())
            }
        }
    }

    /// Goes on with `node` and then with `next`.
    pub fn enter(
        &mut self,
        text: &[u16],
        flags: Flags,
        node: &'a Node,
        next: usize,
        spot: Spot,
    ) -> Result<(), AllocError>
        requires sound { IsSound flags text.now self.old.frames self.old.choices }
        requires next { next ≤ length self.old.frames }
        requires place { spot.place ≤ length text.now }
        ensures { OnOk result (Becomes flags text.now self.old.frames self.new.frames self.old.choices self.new.choices next
            (runs flags text.now (tree_of node.entry.now) (state spot))) }
    {
        let place = spot.place;
        match node {
            Node::Empty => {
                self.go_on(text, flags, next, spot)?;
                Ok(())
            }
            Node::Unit(unit) => {
                let fits = lookups::is_unit(text, flags, place, *unit);
                self.go_if(text, flags, fits, 1, next, spot)?;
                Ok(())
            }
            Node::Dot => {
                self.go_if(text, flags, lookups::is_dot(text, place), 1, next, spot)?;
                Ok(())
            }
            Node::Class(set) => {
                let fits = lookups::is_class(text, flags, place, set);
                self.go_if(text, flags, fits, 1, next, spot)?;
                Ok(())
            }
            Node::LineStart => {
                let fits = lookups::at_line_start(text, flags, place);
                self.go_where(text, flags, fits, next, spot)?;
                Ok(())
            }
            Node::LineEnd => {
                let fits = lookups::at_line_end(text, flags, place);
                self.go_where(text, flags, fits, next, spot)?;
                Ok(())
            }
            Node::Word => {
                self.go_where(text, flags, lookups::at_boundary(text, place), next, spot)?;
                Ok(())
            }
            Node::NotWord => {
                self.go_where(text, flags, !lookups::at_boundary(text, place), next, spot)?;
                Ok(())
            }
            Node::Group { index, body } => {
                let index = *index;
                let close = Item::Close { index, from: place };
                self.go_two(text, flags, Item::Enter(body.get()), close, next, spot)?;
                Ok(())
            }
            Node::Back(index) => {
                self.go_back(text, flags, *index, next, spot)?;
                Ok(())
            }
            Node::Look { negative, body } => {
                self.go_look(text, flags, *negative, body.get(), next, spot)?;
                Ok(())
            }
            Node::Repeat {
                body,
                min,
                max,
                lazy,
                first,
                past,
            } => {
                let turn = Turn {
                    body: body.get(),
                    min: *min,
                    max: *max,
                    lazy: *lazy,
                    first: *first,
                    past: *past,
                    start: None,
                };
                self.go_turns(text, flags, turn, next, spot)?;
                Ok(())
            }
            Node::Seq(parts) => {
                self.go_parts(text, flags, parts.as_slice(), next, spot)?;
                Ok(())
            }
            Node::Alt(parts) => {
                self.go_alternatives(text, flags, parts.as_slice(), next, spot)?;
                Ok(())
            }
        }
    }
}

/// What the group captured.
fn span_of(groups: &Groups, index: u32) -> Option<(usize, usize)>
    ensures { result ≡ captured groups.now.items index }
{
    match groups.as_slice().get((index as usize).saturating_sub(1)) {
        None => None,
        Some(span) => *span,
    }
}
