//! `&&`, `||` and `??` behind an operand.

ghost use Rattle.std.specs.Prelude.{◌≡◌, ◌∷◌};
ghost use Rattle.js_reading.specs.Operands.{closed, goes_on, goes_inside, level_of, opens_logical, place_logical, on_logical};
ghost use Rattle.js_reading.specs.declared.frame.Frame.TheVariants as frame;
ghost use Rattle.js_step_operands.specs.Answers.{Gives, Makes};
ghost use Rattle.js_step_operators.specs.Chains.{continues_logical, takes_logical, link_logical};

use crate::closing::closed;
use js_ast::{Expr, LogicalOp};
use js_reading::{Closed, Frame, Operand, Parser, Pending, Pile};
use js_step_operands::{Stop, discard_value, logical_links, pushed, refused_at, stopped, wants};
use sqlite_items::{Boxed, Items};
use std::alloc::Global;

/// Whether a chain of the one goes on with the other.
fn goes_on(chain: LogicalOp, op: LogicalOp) -> bool
    ensures { result ≡ goes_on chain op }
{
    match chain {
        LogicalOp::And => matches!(op, LogicalOp::And),
        LogicalOp::Or => matches!(op, LogicalOp::Or),
        LogicalOp::Coalesce => matches!(op, LogicalOp::Coalesce),
    }
}

/// Whether a chain of the other may stand inside the one.
fn goes_inside(chain: LogicalOp, op: LogicalOp) -> bool
    ensures { result ≡ goes_inside chain op }
{
    match chain {
        LogicalOp::Or => matches!(op, LogicalOp::And),
        _ => false,
    }
}

fn level_of(op: LogicalOp) -> u8
    ensures { result ≡ level_of op }
{
    match op {
        LogicalOp::Or => 10,
        _ => 9,
    }
}

fn opens_logical(
    alloc: Global,
    op: LogicalOp,
    site: u32,
    start: u32,
    first: Boxed<Expr>,
    frames: Pile<Frame>,
) -> Result<Parser, Stop>
    ensures { Makes result (opens_logical op site start first frames) }
{
    let links = Items::new(alloc);
    wants(
        Frame::Pending(Pending::Logical {
            start,
            first,
            links,
            site,
            op,
        }),
        frames,
    )
}

/// A chain begins inside a frame that is put back.
fn opens_logical_in(
    alloc: Global,
    op: LogicalOp,
    site: u32,
    start: u32,
    first: Boxed<Expr>,
    frame: Frame,
    frames: Pile<Frame>,
) -> Result<Parser, Stop>
    ensures { Makes result (opens_logical op site start first (frame ∷ frames)) }
{
    match pushed(frames, frame) {
        Ok(frames) => opens_logical(alloc, op, site, start, first, frames),
        Err(stop) => {
            discard_value(first);
            Err(stop)
        }
    }
}

/// Whether the chain goes on with the operator.
fn continues_logical(pending: &Pending, op: LogicalOp) -> bool
    ensures { result ≡ continues_logical pending.now op }
{
    match pending {
        Pending::Logical { op: earlier, .. } => goes_on(*earlier, op),
        _ => false,
    }
}

/// Whether another chain may begin inside.
fn takes_logical(pending: &Pending, op: LogicalOp) -> bool
    ensures { result ≡ takes_logical pending.now op }
{
    match pending {
        Pending::Logical { op: earlier, .. } => goes_inside(*earlier, op),
        _ => true,
    }
}

/// The chain with the right side that its last operator awaited, and an operator more.
fn link_logical(
    pending: Pending,
    right: Boxed<Expr>,
    site: u32,
    op: LogicalOp,
) -> Result<Pending, Stop>
    ensures { Makes result (link_logical pending right site op) }
{
    match pending {
        Pending::Logical {
            start,
            first,
            links,
            site: before,
            op: earlier,
        } => match logical_links(links, before, earlier, right) {
            Ok(links) => Ok(Pending::Logical {
                start,
                first,
                links,
                site,
                op,
            }),
            Err(stop) => {
                discard_value(first);
                Err(stop)
            }
        },
        other => {
            discard_value(right);
            Ok(other)
        }
    }
}

/// A chain begins, or goes on, where an operator stands to the left.
fn place_logical_in(
    alloc: Global,
    op: LogicalOp,
    site: u32,
    start: u32,
    value: Boxed<Expr>,
    pending: Pending,
    frames: Pile<Frame>,
) -> Result<Parser, Stop>
    ensures { Gives (λ x. x) result (place_logical op site start value (frame.Pending pending ∷ frames)) }
{
    if continues_logical(&pending, op) {
        return match link_logical(pending, value, site, op) {
            Ok(pending) => wants(Frame::Pending(pending), frames),
            Err(stop) => stopped(stop, frames),
        };
    }
    if takes_logical(&pending, op) {
        return opens_logical_in(
            alloc,
            op,
            site,
            start,
            value,
            Frame::Pending(pending),
            frames,
        );
    }
    discard_value(value);
    refused_at(Some(Frame::Pending(pending)), frames)
}

fn place_logical(alloc: Global, op: LogicalOp, site: u32, closed: Closed) -> Result<Parser, Stop>
    ensures { Gives (λ x. x) result (place_logical op site closed.start closed.value closed.frames) }
{
    let Closed {
        start,
        value,
        frames,
    } = closed;
    let mut frames = frames;
    match frames.pop() {
        None => opens_logical(alloc, op, site, start, value, frames),
        Some(Frame::Pending(pending)) => {
            place_logical_in(alloc, op, site, start, value, pending, frames)
        }
        Some(frame) => opens_logical_in(alloc, op, site, start, value, frame, frames),
    }
}

/// `&&`, `||` or `??`.
pub fn on_logical(
    alloc: Global,
    op: LogicalOp,
    site: u32,
    start: u32,
    operand: Operand,
    frames: Pile<Frame>,
) -> Result<Parser, Stop>
    ensures { Gives (λ x. x) result (on_logical op site start operand frames) }
{
    match closed(alloc, level_of(op), start, operand, frames) {
        Ok(closed) => place_logical(alloc, op, site, closed),
        Err(stop) => Err(stop),
    }
}
