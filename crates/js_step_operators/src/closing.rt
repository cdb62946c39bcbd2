//! What ends with an operand.

ghost use Rattle.std.specs.Prelude.{true, ◌∷◌};
ghost use Rattle.js_reading.specs.Operands.{settled, closed, whole, value_of};
ghost use Rattle.js_reading.specs.declared.frame.Frame.TheVariants as frame;
ghost use Rattle.js_step_operands.specs.Answers.{Gives, Makes};

use js_ast::{Expr, StepOp, Target};
use js_reading::{Closed, Frame, Operand, Pile};
use js_step_operands::{
    ALL, Stop, boxed, close_to, discard, discard_frame, discard_operand, pushed, target_of,
    value_of,
};
use sqlite_items::Boxed;
use std::alloc::Global;

/// `++` or `--` before its target.
fn prefix_step(
    alloc: Global,
    site: u32,
    op: StepOp,
    target: Target<Boxed<Expr>>,
) -> Result<Boxed<Expr>, Stop>
    ensures { Makes result (Expr.Step site site op true target) }
{
    boxed(
        alloc,
        Expr::Step {
            start: site,
            site,
            op,
            is_prefix: true,
            target,
        },
    )
}

/// The operand's tree.
fn plain(alloc: Global, start: u32, operand: Operand, frames: Pile<Frame>) -> Result<Closed, Stop>
    ensures { Makes result (record { start = start; value = value_of operand; frames = frames }) }
{
    match value_of(alloc, operand) {
        Ok(value) => Ok(Closed {
            start,
            value,
            frames,
        }),
        Err(stop) => {
            discard(frames);
            Err(stop)
        }
    }
}

/// `++` or `--` ends with its operand.
fn stepped(
    alloc: Global,
    site: u32,
    op: StepOp,
    operand: Operand,
    frames: Pile<Frame>,
) -> Result<Closed, Stop>
    ensures { Gives (λ x. x) result (settled site operand (frame.Step site op ∷ frames)) }
{
    match target_of(alloc, operand) {
        Ok(target) => match prefix_step(alloc, site, op, target) {
            Ok(value) => Ok(Closed {
                start: site,
                value,
                frames,
            }),
            Err(stop) => {
                discard(frames);
                Err(stop)
            }
        },
        Err(stop) => {
            discard(frames);
            Err(stop)
        }
    }
}

/// The operand's tree, or that of the `++` or `--` before it.
fn settled(alloc: Global, start: u32, operand: Operand, frames: Pile<Frame>) -> Result<Closed, Stop>
    ensures { Gives (λ x. x) result (settled start operand frames) }
{
    let mut frames = frames;
    let around = frames.pop();
    match around {
        None => plain(alloc, start, operand, frames),
        Some(Frame::Step { site, op }) => {
            discard_frame(around);
            stepped(alloc, site, op, operand, frames)
        }
        Some(frame) => match pushed(frames, frame) {
            Ok(frames) => plain(alloc, start, operand, frames),
            Err(stop) => {
                discard_operand(operand);
                Err(stop)
            }
        },
    }
}

/// What is tighter than the level ends with the operand.
pub fn closed(
    alloc: Global,
    level: u8,
    start: u32,
    operand: Operand,
    frames: Pile<Frame>,
) -> Result<Closed, Stop>
    ensures { Gives (λ x. x) result (closed level start operand frames) }
{
    match settled(alloc, start, operand, frames) {
        Ok(
            Closed {
                start,
                value,
                frames,
            },
        ) => close_to(alloc, level, start, value, frames),
        Err(stop) => Err(stop),
    }
}

/// All ends with the operand that may.
pub fn whole(
    alloc: Global,
    start: u32,
    operand: Operand,
    frames: Pile<Frame>,
) -> Result<Closed, Stop>
    ensures { Gives (λ x. x) result (whole start operand frames) }
{
    closed(alloc, ALL, start, operand, frames)
}
