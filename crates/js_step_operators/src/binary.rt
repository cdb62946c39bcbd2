//! Binary operators behind an operand.

ghost use Rattle.std.specs.Prelude.{◌≡◌, ◌∷◌};
ghost use Rattle.js_reading.specs.Operands.{closed, opens_binary, place_binary, on_binary};
ghost use Rattle.js_reading.specs.declared.frame.Frame.TheVariants as frame;
ghost use Rattle.js_step_operands.specs.Answers.{Gives, Makes};
ghost use Rattle.js_step_operators.specs.Chains.{continues_binary, link_binary};

use crate::closing::closed;
use js_ast::{BinaryOp, Expr};
use js_reading::{Closed, Frame, Operand, Parser, Pending, Pile};
use js_step_operands::{Stop, binary_links, discard_value, level, pushed, stopped, wants};
use sqlite_items::{Boxed, Items};
use std::alloc::Global;

/// A chain begins.
fn opens_binary(
    alloc: Global,
    op: BinaryOp,
    site: u32,
    start: u32,
    first: Boxed<Expr>,
    frames: Pile<Frame>,
) -> Result<Parser, Stop>
    ensures { Makes result (opens_binary op site start first frames) }
{
    let links = Items::new(alloc);
    wants(
        Frame::Pending(Pending::Binary {
            start,
            first,
            links,
            site,
            op,
        }),
        frames,
    )
}

/// A chain begins inside a frame that is put back.
fn opens_binary_in(
    alloc: Global,
    op: BinaryOp,
    site: u32,
    start: u32,
    first: Boxed<Expr>,
    frame: Frame,
    frames: Pile<Frame>,
) -> Result<Parser, Stop>
    ensures { Makes result (opens_binary op site start first (frame ∷ frames)) }
{
    match pushed(frames, frame) {
        Ok(frames) => opens_binary(alloc, op, site, start, first, frames),
        Err(stop) => {
            discard_value(first);
            Err(stop)
        }
    }
}

/// Whether the chain goes on with the operator.
fn continues_binary(pending: &Pending, op: BinaryOp) -> bool
    ensures { result ≡ continues_binary pending.now op }
{
    match pending {
        Pending::Binary { op: earlier, .. } => level(*earlier) == level(op),
        _ => false,
    }
}

/// The chain with the right side that its last operator awaited, and an operator more.
fn link_binary(
    pending: Pending,
    right: Boxed<Expr>,
    site: u32,
    op: BinaryOp,
) -> Result<Pending, Stop>
    ensures { Makes result (link_binary pending right site op) }
{
    match pending {
        Pending::Binary {
            start,
            first,
            links,
            site: before,
            op: earlier,
        } => match binary_links(links, before, earlier, right) {
            Ok(links) => Ok(Pending::Binary {
                start,
                first,
                links,
                site,
                op,
            }),
            Err(stop) => {
                discard_value(first);
                Err(stop)
            }
        },
        other => {
            discard_value(right);
            Ok(other)
        }
    }
}

/// A chain begins, or goes on, where an operator stands to the left.
fn place_binary_in(
    alloc: Global,
    op: BinaryOp,
    site: u32,
    start: u32,
    value: Boxed<Expr>,
    pending: Pending,
    frames: Pile<Frame>,
) -> Result<Parser, Stop>
    ensures { Makes result (place_binary op site start value (frame.Pending pending ∷ frames)) }
{
    if continues_binary(&pending, op) {
        return match link_binary(pending, value, site, op) {
            Ok(pending) => wants(Frame::Pending(pending), frames),
            Err(stop) => stopped(stop, frames),
        };
    }
    opens_binary_in(
        alloc,
        op,
        site,
        start,
        value,
        Frame::Pending(pending),
        frames,
    )
}

/// A chain begins, or goes on.
fn place_binary(alloc: Global, op: BinaryOp, site: u32, closed: Closed) -> Result<Parser, Stop>
    ensures { Makes result (place_binary op site closed.start closed.value closed.frames) }
{
    let Closed {
        start,
        value,
        frames,
    } = closed;
    let mut frames = frames;
    match frames.pop() {
        None => opens_binary(alloc, op, site, start, value, frames),
        Some(Frame::Pending(pending)) => {
            place_binary_in(alloc, op, site, start, value, pending, frames)
        }
        Some(frame) => opens_binary_in(alloc, op, site, start, value, frame, frames),
    }
}

/// A binary operator.
pub fn on_binary(
    alloc: Global,
    op: BinaryOp,
    site: u32,
    start: u32,
    operand: Operand,
    frames: Pile<Frame>,
) -> Result<Parser, Stop>
    ensures { Gives (λ x. x) result (on_binary op site start operand frames) }
{
    match closed(alloc, level(op), start, operand, frames) {
        Ok(closed) => place_binary(alloc, op, site, closed),
        Err(stop) => Err(stop),
    }
}
