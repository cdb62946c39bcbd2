//! `++`, `--` and suffixes behind an operand.

ghost use Rattle.std.specs.Prelude.{false};
ghost use Rattle.js_reading.specs.Operands.{reached, on_step, on_dot, on_round, on_square};
ghost use Rattle.js_reading.specs.declared.mode.Operand.TheVariants as operand;
ghost use Rattle.js_step_operands.specs.Answers.{Gives, Makes};

use js_ast::{Expr, StepOp, Target};
use js_reading::{Bracket, Frame, Operand, Parser, Piece, Pile};
use js_step_operands::{
    Stop, boxed, call_parts, piece, reached, refused, stopped, takes_unary, target_of, wants,
};
use sqlite_items::{Boxed, Items};
use std::alloc::Global;

/// The tree of a target and the `++` or `--` behind it.
fn postfix(
    alloc: Global,
    op: StepOp,
    site: u32,
    start: u32,
    target: Target<Boxed<Expr>>,
    frames: Pile<Frame>,
) -> Result<Parser, Stop>
    ensures { Makes result (reached start (operand.Stepped (Expr.Step start site op false target)) frames) }
{
    let step = Expr::Step {
        start,
        site,
        op,
        is_prefix: false,
        target,
    };
    match boxed(alloc, step) {
        Ok(value) => Ok(reached(start, Operand::Stepped(value), frames)),
        Err(stop) => stopped(stop, frames),
    }
}

/// `++` or `--` behind an operand.
pub fn on_step(
    alloc: Global,
    op: StepOp,
    site: u32,
    start: u32,
    operand: Operand,
    frames: Pile<Frame>,
) -> Result<Parser, Stop>
    ensures { Gives (λ x. x) result (on_step op site start operand frames) }
{
    match target_of(alloc, operand) {
        Ok(target) => {
            if takes_unary(&frames) {
                return postfix(alloc, op, site, start, target, frames);
            }
            drop(target);
            refused(frames)
        }
        Err(stop) => stopped(stop, frames),
    }
}

/// `.`.
pub fn on_dot(
    alloc: Global,
    site: u32,
    start: u32,
    operand: Operand,
    frames: Pile<Frame>,
) -> Result<Parser, Stop>
    ensures { Gives (λ x. x) result (on_dot site start operand frames) }
{
    match call_parts(alloc, operand) {
        Ok((first, suffixes)) => piece(
            Piece::Property {
                start,
                first,
                suffixes,
                site,
            },
            frames,
        ),
        Err(stop) => stopped(stop, frames),
    }
}

/// `(` of a call.
pub fn on_round(
    alloc: Global,
    site: u32,
    start: u32,
    operand: Operand,
    frames: Pile<Frame>,
) -> Result<Parser, Stop>
    ensures { Gives (λ x. x) result (on_round site start operand frames) }
{
    match call_parts(alloc, operand) {
        Ok((first, suffixes)) => {
            let arguments = Items::new(alloc);
            wants(
                Frame::Bracket(Bracket::Call {
                    start,
                    first,
                    suffixes,
                    site,
                    arguments,
                }),
                frames,
            )
        }
        Err(stop) => stopped(stop, frames),
    }
}

/// `[`.
pub fn on_square(
    alloc: Global,
    site: u32,
    start: u32,
    operand: Operand,
    frames: Pile<Frame>,
) -> Result<Parser, Stop>
    ensures { Gives (λ x. x) result (on_square site start operand frames) }
{
    match call_parts(alloc, operand) {
        Ok((first, suffixes)) => wants(
            Frame::Bracket(Bracket::Index {
                start,
                first,
                suffixes,
                site,
            }),
            frames,
        ),
        Err(stop) => stopped(stop, frames),
    }
}
