//! What the frames around a part say of it.

ghost use Rattle.std.specs.Prelude.{◌≡◌, ℕ, ◌+◌, ◌∷◌, ◌++◌, [], nat_lt, Some, IfOk};
ghost use Rattle.js_ast.specs.declared.parts.Link.{Link as SpecLink};
ghost use Rattle.js_grammar.specs.Phrases.{level};
ghost use Rattle.js_reading.specs.Frames.{context, begun, begins, tightness_of, tightness, begin_of, join, close_to, takes_assign, takes_unary};
ghost use Rattle.js_step_operands.specs.Answers.{Gives, Makes};

use crate::operands::boxed;
use crate::refusals::{discard, discard_value};
use crate::stop::Stop;
use js_ast::{BinaryOp, Expr, Link, LogicalOp};
use js_reading::{Closed, Frame, Pending, Pile};
use sqlite_items::{Boxed, Items};
use std::alloc::Global;

/// Every operator is tighter than this.
pub const CONDITIONAL: u8 = 11;

/// All that may end with an expression is.
pub const ALL: u8 = 13;

/// The row of a binary operator, the tightest first.
pub fn level(op: BinaryOp) -> u8
    ensures { result ≡ level op }
{
    match op {
        BinaryOp::Multiply | BinaryOp::Divide | BinaryOp::Remainder => 1,
        BinaryOp::Add | BinaryOp::Subtract => 2,
        BinaryOp::ShiftLeft | BinaryOp::ShiftRight | BinaryOp::ShiftRightZero => 3,
        BinaryOp::Less | BinaryOp::Greater | BinaryOp::LessEqual | BinaryOp::GreaterEqual => 4,
        BinaryOp::Equal | BinaryOp::NotEqual => 5,
        BinaryOp::BitAnd => 6,
        BinaryOp::BitXor => 7,
        BinaryOp::BitOr => 8,
    }
}

fn tightness_of(op: LogicalOp) -> u8
    ensures { result ≡ tightness_of op }
{
    match op {
        LogicalOp::And => 9,
        LogicalOp::Or | LogicalOp::Coalesce => 10,
    }
}

fn tightness(pending: &Pending) -> u8
    ensures { result ≡ tightness pending.now }
{
    match pending {
        Pending::Prefix { .. } => 0,
        Pending::Binary { op, .. } => level(*op),
        Pending::Logical { op, .. } => tightness_of(*op),
        _ => 12,
    }
}

fn begin_of(pending: &Pending) -> u32
    ensures { result ≡ begin_of pending.now }
{
    match pending {
        Pending::Prefix { site, .. } => *site,
        Pending::Binary { start, .. } => *start,
        Pending::Logical { start, .. } => *start,
        Pending::Conditional { start, .. } => *start,
        Pending::Assign { start, .. } => *start,
        Pending::Arrow { start, .. } => *start,
    }
}

/// A frame more.
pub fn pushed(frames: Pile<Frame>, frame: Frame) -> Result<Pile<Frame>, Stop>
    ensures { Makes result (frame ∷ frames) }
{
    let mut frames = frames;
    match frames.push(frame) {
        Ok(()) => Ok(frames),
        Err(_) => {
            discard(frames);
            Err(Stop::NoMemory)
        }
    }
}

/// The operator with its right side, behind those before it.
pub fn binary_links(
    links: Items<Link<BinaryOp, Boxed<Expr>>>,
    site: u32,
    op: BinaryOp,
    right: Boxed<Expr>,
) -> Result<Items<Link<BinaryOp, Boxed<Expr>>>, Stop>
    ensures { Makes result (links ++ record { site = site; op = op; right = right } ∷ []) }
{
    let mut links = links;
    links.push(Link { site, op, right })?;
    Ok(links)
}

/// The same for `&&`, `||` and `??`.
pub fn logical_links(
    links: Items<Link<LogicalOp, Boxed<Expr>>>,
    site: u32,
    op: LogicalOp,
    right: Boxed<Expr>,
) -> Result<Items<Link<LogicalOp, Boxed<Expr>>>, Stop>
    ensures { Makes result (links ++ record { site = site; op = op; right = right } ∷ []) }
{
    let mut links = links;
    links.push(Link { site, op, right })?;
    Ok(links)
}

/// The whole, once its right side is there.
fn join(alloc: Global, pending: Pending, value: Boxed<Expr>) -> Result<Boxed<Expr>, Stop>
    ensures { Makes result (join pending value) }
{
    let whole = match pending {
        Pending::Prefix { site, op } => Expr::Unary {
            site,
            op,
            operand: value,
        },
        Pending::Binary {
            first,
            links,
            site,
            op,
            ..
        } => match binary_links(links, site, op, value) {
            Ok(links) => Expr::Binary { first, links },
            Err(stop) => {
                discard_value(first);
                return Err(stop);
            }
        },
        Pending::Logical {
            first,
            links,
            site,
            op,
            ..
        } => match logical_links(links, site, op, value) {
            Ok(links) => Expr::Logical { first, links },
            Err(stop) => {
                discard_value(first);
                return Err(stop);
            }
        },
        Pending::Conditional {
            start,
            site,
            test,
            consequent,
        } => {
            Expr::Conditional {
                start,
                site,
                test,
                consequent,
                alternate: value,
            }
        }
        Pending::Assign {
            start,
            site,
            op,
            target,
        } => {
            Expr::Assign {
                start,
                site,
                op,
                target,
                value,
            }
        }
        Pending::Arrow { start, parameters } => Expr::Arrow {
            site: start,
            parameters,
            value,
        },
    };
    boxed(alloc, whole)
}

/// An expression inside a frame that is put back.
fn closed_in(
    start: u32,
    value: Boxed<Expr>,
    frame: Frame,
    frames: Pile<Frame>,
) -> Result<Closed, Stop>
    ensures { Makes result (record { start = start; value = value; frames = frame ∷ frames }) }
{
    match pushed(frames, frame) {
        Ok(frames) => Ok(Closed {
            start,
            value,
            frames,
        }),
        Err(stop) => {
            discard_value(value);
            Err(stop)
        }
    }
}

/// What is tighter ends with the expression.
pub fn close_to(
    alloc: Global,
    level: u8,
    start: u32,
    value: Boxed<Expr>,
    frames: Pile<Frame>,
) -> Result<Closed, Stop>
    ensures { Makes result (close_to level start value frames) }
{
    let mut frames = frames;
    match frames.pop() {
        None => Ok(Closed {
            start,
            value,
            frames,
        }),
        Some(Frame::Pending(pending)) => {
            if tightness(&pending) >= level {
                return closed_in(start, value, Frame::Pending(pending), frames);
            }
            let begin = begin_of(&pending);
            match join(alloc, pending, value) {
                Ok(whole) => close_to(alloc, level, begin, whole, frames),
                Err(stop) => {
                    discard(frames);
                    Err(stop)
                }
            }
        }
        Some(frame) => closed_in(start, value, frame, frames),
    }
}

/// Whether an assignment, a conditional or an arrow may begin.
pub fn takes_assign(frames: &Pile<Frame>) -> bool
    ensures { result ≡ takes_assign frames.now }
{
    match frames.top() {
        Some(Frame::Pending(pending)) => tightness(pending) >= CONDITIONAL,
        Some(Frame::Step { .. }) => false,
        _ => true,
    }
}

/// Whether an operator may stand before an operand, or a step behind it.
pub fn takes_unary(frames: &Pile<Frame>) -> bool
    ensures { result ≡ takes_unary frames.now }
{
    match frames.top() {
        Some(Frame::Step { .. }) => false,
        _ => true,
    }
}
