//! Tokens that go on with the expression behind an operand.

ghost use Rattle.js_reading.specs.Operands.{on_question, on_assign};
ghost use Rattle.js_reading.specs.Reading.{continues_by};
ghost use Rattle.js_step_operands.specs.Answers.{Gives};

use crate::binary::on_binary;
use crate::closing::closed;
use crate::logical::on_logical;
use crate::suffixes::{on_dot, on_round, on_square};
use js_ast::BinaryOp;
use js_grammar::TokenKind;
use js_reading::{Bracket, Closed, Frame, Operand, Parser, Pending, Pile};
use js_step_operands::{
    CONDITIONAL, Stop, discard_operand, discard_token, refused, stopped, takes_assign, target_of,
    wants,
};
use std::alloc::Global;

fn on_question(
    alloc: Global,
    site: u32,
    start: u32,
    operand: Operand,
    frames: Pile<Frame>,
) -> Result<Parser, Stop>
    ensures { Gives (λ x. x) result (on_question site start operand frames) }
{
    match closed(alloc, CONDITIONAL, start, operand, frames) {
        Ok(
            Closed {
                start,
                value,
                frames,
            },
        ) => wants(
            Frame::Bracket(Bracket::Question {
                start,
                site,
                test: value,
            }),
            frames,
        ),
        Err(stop) => Err(stop),
    }
}

fn on_assign(
    alloc: Global,
    op: Option<BinaryOp>,
    site: u32,
    start: u32,
    operand: Operand,
    frames: Pile<Frame>,
) -> Result<Parser, Stop>
    ensures { Gives (λ x. x) result (on_assign op site start operand frames) }
{
    match target_of(alloc, operand) {
        Ok(target) => {
            if takes_assign(&frames) {
                return wants(
                    Frame::Pending(Pending::Assign {
                        start,
                        site,
                        op,
                        target,
                    }),
                    frames,
                );
            }
            drop(target);
            refused(frames)
        }
        Err(stop) => stopped(stop, frames),
    }
}

fn continues(
    alloc: Global,
    site: u32,
    start: u32,
    operand: Operand,
    frames: Pile<Frame>,
    kind: &TokenKind,
) -> Result<Parser, Stop>
    ensures { Gives (λ x. x) result (continues_by site start operand frames kind.now) }
{
    match kind {
        TokenKind::Dot => on_dot(alloc, site, start, operand, frames),
        TokenKind::OpenRound => on_round(alloc, site, start, operand, frames),
        TokenKind::OpenSquare => on_square(alloc, site, start, operand, frames),
        TokenKind::Binary(op) => on_binary(alloc, *op, site, start, operand, frames),
        TokenKind::Logical(op) => on_logical(alloc, *op, site, start, operand, frames),
        TokenKind::Assign(op) => on_assign(alloc, *op, site, start, operand, frames),
        TokenKind::Question => on_question(alloc, site, start, operand, frames),
        _ => {
            discard_operand(operand);
            refused(frames)
        }
    }
}

/// A token that goes on with the expression.
pub fn continued(
    alloc: Global,
    site: u32,
    start: u32,
    operand: Operand,
    frames: Pile<Frame>,
    kind: TokenKind,
) -> Result<Parser, Stop>
    ensures { Gives (λ x. x) result (continues_by site start operand frames kind) }
{
    let read = continues(alloc, site, start, operand, frames, &kind);
    discard_token(kind);
    read
}
