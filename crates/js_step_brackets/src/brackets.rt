//! Marks that end an expression between brackets.

ghost use Rattle.std.specs.Prelude.{◌≡◌, ◌∷◌, ◌++◌, []};
ghost use Rattle.js_reading.specs.Operands.{close_round_in, close_square_in, is_alone, on_square_close, on_colon_in, on_colon, comma_in, comma_names, comma_round, round_of, at, wants, want_close_in};
ghost use Rattle.js_reading.specs.declared.frame.Bracket.TheVariants as bracket;
ghost use Rattle.js_reading.specs.declared.frame.Frame.TheVariants as frame;
ghost use Rattle.js_reading.specs.declared.mode.Mode.TheVariants as mode;
ghost use Rattle.js_reading.specs.declared.mode.Piece.TheVariants as piece;
ghost use Rattle.js_step_brackets.specs.Lists.{with_expression};
ghost use Rattle.js_step_operands.specs.Answers.{Gives, Makes};

use js_ast::{Access, Expr, Identifier, Member, Suffix};
use js_reading::{Bracket, Frame, Header, Heading, Operand, Parser, Pending, Piece, Pile};
use js_step_operands::{
    Stop, discard_call, discard_operand, discard_value, heading, is_literal, piece, primary,
    reached, refused, refused_at, refused_in, stopped, takes_assign, want_close_in, wants,
};
use js_step_operators::whole;
use sqlite_items::{Boxed, Items};
use std::alloc::Global;

/// An expression more.
fn listed(items: Items<Boxed<Expr>>, value: Boxed<Expr>) -> Result<Items<Boxed<Expr>>, Stop>
    ensures { Makes result (items ++ value ∷ []) }
{
    let mut items = items;
    items.push(value)?;
    Ok(items)
}

/// An argument more.
fn with_argument(
    start: u32,
    first: Boxed<Expr>,
    suffixes: Items<Suffix<Boxed<Expr>>>,
    site: u32,
    arguments: Items<Boxed<Expr>>,
    value: Boxed<Expr>,
) -> Result<Bracket, Stop>
    ensures { Makes result (bracket.Call start first suffixes site (arguments ++ value ∷ [])) }
{
    match listed(arguments, value) {
        Ok(arguments) => Ok(Bracket::Call {
            start,
            first,
            suffixes,
            site,
            arguments,
        }),
        Err(stop) => {
            discard_call(first, suffixes);
            Err(stop)
        }
    }
}

/// The list with an expression more.
fn with_expression(bracket: Bracket, value: Boxed<Expr>) -> Result<Bracket, Stop>
    ensures { Makes result (with_expression bracket value) }
{
    match bracket {
        Bracket::Array { site, items } => match listed(items, value) {
            Ok(items) => Ok(Bracket::Array { site, items }),
            Err(stop) => Err(stop),
        },
        Bracket::Call {
            start,
            first,
            suffixes,
            site,
            arguments,
        } => with_argument(start, first, suffixes, site, arguments, value),
        Bracket::New {
            site,
            name,
            arguments,
        } => match listed(arguments, value) {
            Ok(arguments) => Ok(Bracket::New {
                site,
                name,
                arguments,
            }),
            Err(stop) => {
                drop(name);
                Err(stop)
            }
        },
        other => {
            discard_value(value);
            Ok(other)
        }
    }
}

/// `)` behind the last expression of a list.
fn close_list(
    alloc: Global,
    value: Boxed<Expr>,
    bracket: Bracket,
    frames: Pile<Frame>,
) -> Result<Parser, Stop>
    ensures { Gives (λ x. x) result (want_close_in (with_expression bracket value) frames) }
{
    match with_expression(bracket, value) {
        Ok(bracket) => want_close_in(alloc, bracket, frames),
        Err(stop) => stopped(stop, frames),
    }
}

/// `)` behind the expression that a bracket awaits.
pub fn close_round_in(
    alloc: Global,
    value: Boxed<Expr>,
    bracket: Bracket,
    frames: Pile<Frame>,
) -> Result<Parser, Stop>
    ensures { Gives (λ x. x) result (close_round_in value bracket frames) }
{
    match bracket {
        Bracket::Round { site } => Ok(reached(site, Operand::Primary(value), frames)),
        Bracket::Call { .. } => close_list(alloc, value, bracket, frames),
        Bracket::New { .. } => close_list(alloc, value, bracket, frames),
        other => {
            discard_value(value);
            refused_in(other, frames)
        }
    }
}

/// The site of the `(` directly before the operand.
pub fn round_of(frames: &Pile<Frame>) -> Option<u32>
    ensures { result ≡ round_of frames.now }
{
    match frames.top() {
        Some(Frame::Bracket(Bracket::Round { site })) => Some(*site),
        _ => None,
    }
}

fn close_square_in(
    alloc: Global,
    is_static: bool,
    value: Boxed<Expr>,
    frames: Pile<Frame>,
) -> Result<Parser, Stop>
    ensures { Gives (λ x. x) result (close_square_in is_static value frames) }
{
    let mut frames = frames;
    match frames.pop() {
        Some(Frame::Bracket(Bracket::Array { site, items })) => {
            match listed(items, value) {
                Ok(items) => primary(alloc, site, Expr::Array { site, items }, frames),
                Err(stop) => stopped(stop, frames),
            }
        }
        Some(
            Frame::Bracket(
                Bracket::Index {
                    start,
                    first,
                    suffixes,
                    site,
                },
            ),
        ) => {
            let operand = Operand::Access {
                first,
                earlier: suffixes,
                last: Access::Index {
                    site,
                    is_static,
                    key: value,
                },
            };
            Ok(reached(start, operand, frames))
        }
        other => {
            discard_value(value);
            refused_at(other, frames)
        }
    }
}

fn is_alone(frames: &Pile<Frame>) -> bool
    ensures { result ≡ is_alone frames.now }
{
    match frames.top() {
        Some(Frame::Bracket(_)) => true,
        _ => false,
    }
}

/// `]`.
pub fn on_close_square(
    alloc: Global,
    start: u32,
    operand: Operand,
    frames: Pile<Frame>,
) -> Result<Parser, Stop>
    ensures { Gives (λ x. x) result (on_square_close start operand frames) }
{
    let is_static = is_literal(&operand) && is_alone(&frames);
    match whole(alloc, start, operand, frames) {
        Ok(closed) => close_square_in(alloc, is_static, closed.value, closed.frames),
        Err(stop) => Err(stop),
    }
}

fn on_colon_in(value: Boxed<Expr>, frames: Pile<Frame>) -> Result<Parser, Stop>
    ensures { Gives (λ x. x) result (on_colon_in value frames) }
{
    let mut frames = frames;
    match frames.pop() {
        Some(Frame::Bracket(Bracket::Question { start, site, test })) => wants(
            Frame::Pending(Pending::Conditional {
                start,
                site,
                test,
                consequent: value,
            }),
            frames,
        ),
        other => {
            discard_value(value);
            refused_at(other, frames)
        }
    }
}

/// `:`.
pub fn on_colon(
    alloc: Global,
    start: u32,
    operand: Operand,
    frames: Pile<Frame>,
) -> Result<Parser, Stop>
    ensures { Gives (λ x. x) result (on_colon start operand frames) }
{
    match whole(alloc, start, operand, frames) {
        Ok(closed) => on_colon_in(closed.value, closed.frames),
        Err(stop) => Err(stop),
    }
}

/// A member more.
pub fn with_member(
    members: Items<Member<Boxed<Expr>>>,
    member: Member<Boxed<Expr>>,
) -> Result<Items<Member<Boxed<Expr>>>, Stop>
    ensures { Makes result (members ++ member ∷ []) }
{
    let mut members = members;
    members.push(member)?;
    Ok(members)
}

/// A key or the end of the object is due.
pub fn key_due(
    site: u32,
    members: Items<Member<Boxed<Expr>>>,
    frames: Pile<Frame>,
) -> Result<Parser, Stop>
    ensures { Makes result (at (mode.Piece (piece.Key site members)) frames) }
{
    piece(Piece::Key { site, members }, frames)
}

/// `,` behind an expression of a list.
fn comma_list(value: Boxed<Expr>, bracket: Bracket, frames: Pile<Frame>) -> Result<Parser, Stop>
    ensures { Makes result (wants (frame.Bracket (with_expression bracket value)) frames) }
{
    match with_expression(bracket, value) {
        Ok(bracket) => wants(Frame::Bracket(bracket), frames),
        Err(stop) => stopped(stop, frames),
    }
}

/// `,` behind a member.
pub fn comma_member(
    site: u32,
    members: Items<Member<Boxed<Expr>>>,
    member: Member<Boxed<Expr>>,
    frames: Pile<Frame>,
) -> Result<Parser, Stop>
    ensures { Makes result (at (mode.Piece (piece.Key site (members ++ member ∷ []))) frames) }
{
    match with_member(members, member) {
        Ok(members) => key_due(site, members, frames),
        Err(stop) => stopped(stop, frames),
    }
}

/// `,` behind the expression that a bracket awaits.
pub fn comma_in(
    alloc: Global,
    value: Boxed<Expr>,
    bracket: Bracket,
    frames: Pile<Frame>,
) -> Result<Parser, Stop>
    ensures { Gives (λ x. x) result (comma_in value bracket frames) }
{
    match bracket {
        Bracket::Array { .. } => comma_list(value, bracket, frames),
        Bracket::Call { .. } => comma_list(value, bracket, frames),
        Bracket::New { .. } => comma_list(value, bracket, frames),
        Bracket::Member {
            site,
            members,
            key_site,
            key,
        } => {
            let member = Member::Value {
                site: key_site,
                key,
                value,
            };
            comma_member(site, members, member, frames)
        }
        other => {
            discard_value(value);
            refused_in(other, frames)
        }
    }
}

/// A parameter more.
pub fn with_name(names: Items<Identifier>, name: Identifier) -> Result<Items<Identifier>, Stop>
    ensures { Makes result (names ++ name ∷ []) }
{
    let mut names = names;
    names.push(name)?;
    Ok(names)
}

/// A comma behind the first name between parentheses: those of an arrow.
fn comma_names(
    alloc: Global,
    start: u32,
    name: Identifier,
    frames: Pile<Frame>,
) -> Result<Parser, Stop>
    ensures { Gives (λ x. x) result (comma_names start name frames) }
{
    if takes_assign(&frames) {
        return match with_name(Items::new(alloc), name) {
            Ok(names) => {
                let header = Header::Arrow { start };
                heading(Heading::Parameters { header, names }, frames)
            }
            Err(stop) => stopped(stop, frames),
        };
    }
    drop(name);
    refused(frames)
}

/// `,` behind an operand directly behind `(`.
pub fn comma_round(
    alloc: Global,
    site: u32,
    operand: Operand,
    frames: Pile<Frame>,
) -> Result<Parser, Stop>
    ensures { Gives (λ x. x) result (comma_round site operand frames) }
{
    match operand {
        Operand::Name(name) => comma_names(alloc, site, name, frames),
        other => {
            discard_operand(other);
            refused(frames)
        }
    }
}
