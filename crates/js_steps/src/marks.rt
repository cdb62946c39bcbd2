//! Marks that end an expression between brackets, or a part of a statement.

ghost use Rattle.js_reading.specs.Reading.{close_round_of, on_close_round, comma_of, on_comma};
ghost use Rattle.js_step_operands.specs.Answers.{Gives};

use js_ast::Expr;
use js_reading::{Frame, Operand, Parser, Pile};
use js_step_brackets::{close_round_in, comma_in, comma_round, round_of};
use js_step_operands::{Stop, discard_frame, discard_value, reached, refused_at, stopped, wrapped};
use js_step_operators::whole;
use js_step_statements::{close_round_part, comma_part};
use sqlite_items::Boxed;
use std::alloc::Global;

fn close_round_of(alloc: Global, value: Boxed<Expr>, frames: Pile<Frame>) -> Result<Parser, Stop>
    ensures { Gives (λ x. x) result (close_round_of value frames) }
{
    let mut frames = frames;
    match frames.pop() {
        Some(Frame::Bracket(bracket)) => close_round_in(alloc, value, bracket, frames),
        Some(Frame::Part(part)) => close_round_part(alloc, value, part, frames),
        other => {
            discard_value(value);
            refused_at(other, frames)
        }
    }
}

/// `)`.
pub fn on_close_round(
    alloc: Global,
    start: u32,
    operand: Operand,
    frames: Pile<Frame>,
) -> Result<Parser, Stop>
    ensures { Gives (λ x. x) result (on_close_round start operand frames) }
{
    if let Some(site) = round_of(&frames) {
        let mut frames = frames;
        discard_frame(frames.pop());
        return match wrapped(alloc, operand) {
            Ok(operand) => Ok(reached(site, operand, frames)),
            Err(stop) => stopped(stop, frames),
        };
    }
    match whole(alloc, start, operand, frames) {
        Ok(closed) => close_round_of(alloc, closed.value, closed.frames),
        Err(stop) => Err(stop),
    }
}

fn comma_of(alloc: Global, value: Boxed<Expr>, frames: Pile<Frame>) -> Result<Parser, Stop>
    ensures { Gives (λ x. x) result (comma_of value frames) }
{
    let mut frames = frames;
    match frames.pop() {
        Some(Frame::Bracket(bracket)) => comma_in(alloc, value, bracket, frames),
        Some(Frame::Part(part)) => comma_part(alloc, value, part, frames),
        other => {
            discard_value(value);
            refused_at(other, frames)
        }
    }
}

/// `,`.
pub fn on_comma(
    alloc: Global,
    start: u32,
    operand: Operand,
    frames: Pile<Frame>,
) -> Result<Parser, Stop>
    ensures { Gives (λ x. x) result (on_comma start operand frames) }
{
    if let Some(site) = round_of(&frames) {
        let mut frames = frames;
        discard_frame(frames.pop());
        return comma_round(alloc, site, operand, frames);
    }
    match whole(alloc, start, operand, frames) {
        Ok(closed) => comma_of(alloc, closed.value, closed.frames),
        Err(stop) => Err(stop),
    }
}
