//! The beginnings of operands, and parameters.

ghost use Rattle.std.specs.Prelude.{◌≡◌, Err};
ghost use Rattle.js_grammar.specs.Phrases.{is_proto};
ghost use Rattle.js_reading.specs.Operands.{object, name_key, text_key, key_on, to_value, name_key_on, other_key_on, new_on, new_name_on, property, property_on, function_on, piece_on, headed, open_on, parameters_on, parameter_on, arrow_due_on};
ghost use Rattle.js_step_operands.specs.Answers.{Gives};
ghost use Rattle.js_step_operands.specs.declared.stop.Stop.TheVariants as stop;

use crate::brackets::{comma_member, with_member, with_name};
use js_ast::{Access, Expr, Identifier, Key, Member, Suffix};
use js_grammar::TokenKind;
use js_reading::{Braces, Bracket, Frame, Header, Heading, Operand, Parser, Piece, Pile};
use js_step_operands::{
    Stop, discard_call, discard_token, heading, piece, primary, reached, refused, stopped, wants,
};
use js_step_operators::to_arrow;
use js_units::Units;
use sqlite_items::{Boxed, Items};
use std::alloc::Global;

fn is_proto(name: &Units) -> bool
    ensures { result ≡ is_proto name.now }
{
    name.equals_bytes(b"__proto__")
}

/// An object whose members are all there.
pub fn object(
    alloc: Global,
    site: u32,
    members: Items<Member<Boxed<Expr>>>,
    frames: Pile<Frame>,
) -> Result<Parser, Stop>
    ensures { Gives (λ x. x) result (object site members frames) }
{
    primary(alloc, site, Expr::Object { site, members }, frames)
}

/// The token can't stand here, in an object.
fn refused_member(members: Items<Member<Boxed<Expr>>>, frames: Pile<Frame>) -> Result<Parser, Stop>
    ensures { result ≡ Err stop.Syntax }
{
    drop(members);
    refused(frames)
}

fn name_key(
    site: u32,
    members: Items<Member<Boxed<Expr>>>,
    at: u32,
    name: Units,
    frames: Pile<Frame>,
) -> Result<Parser, Stop>
    ensures { Gives (λ x. x) result (name_key site members at name frames) }
{
    if is_proto(&name) {
        drop(name);
        return refused_member(members, frames);
    }
    let name = Identifier { site: at, name };
    piece(
        Piece::NameKey {
            site,
            members,
            name,
        },
        frames,
    )
}

fn text_key(
    site: u32,
    members: Items<Member<Boxed<Expr>>>,
    at: u32,
    name: Units,
    frames: Pile<Frame>,
) -> Result<Parser, Stop>
    ensures { Gives (λ x. x) result (text_key site members at name frames) }
{
    if is_proto(&name) {
        drop(name);
        return refused_member(members, frames);
    }
    let key = Key::Text(name);
    piece(
        Piece::OtherKey {
            site,
            members,
            key_site: at,
            key,
        },
        frames,
    )
}

fn key_on(
    alloc: Global,
    site: u32,
    members: Items<Member<Boxed<Expr>>>,
    at: u32,
    frames: Pile<Frame>,
    kind: TokenKind,
) -> Result<Parser, Stop>
    ensures { Gives (λ x. x) result (key_on site members at frames kind) }
{
    match kind {
        TokenKind::Name(name) => name_key(site, members, at, name, frames),
        TokenKind::Word { units, .. } => text_key(site, members, at, units, frames),
        TokenKind::Text(text) => text_key(site, members, at, text, frames),
        TokenKind::Number(number) => {
            let key = Key::Number(number);
            piece(
                Piece::OtherKey {
                    site,
                    members,
                    key_site: at,
                    key,
                },
                frames,
            )
        }
        TokenKind::CloseBrace => object(alloc, site, members, frames),
        other => {
            discard_token(other);
            refused_member(members, frames)
        }
    }
}

fn to_value(
    site: u32,
    members: Items<Member<Boxed<Expr>>>,
    key_site: u32,
    key: Key,
    frames: Pile<Frame>,
) -> Result<Parser, Stop>
    ensures { Gives (λ x. x) result (to_value site members key_site key frames) }
{
    wants(
        Frame::Bracket(Bracket::Member {
            site,
            members,
            key_site,
            key,
        }),
        frames,
    )
}

fn name_key_on(
    alloc: Global,
    site: u32,
    members: Items<Member<Boxed<Expr>>>,
    name: Identifier,
    frames: Pile<Frame>,
    kind: &TokenKind,
) -> Result<Parser, Stop>
    ensures { Gives (λ x. x) result (name_key_on site members name frames kind.now) }
{
    match kind {
        TokenKind::Colon => {
            let Identifier {
                site: key_site,
                name,
            } = name;
            to_value(site, members, key_site, Key::Text(name), frames)
        }
        TokenKind::Comma => comma_member(site, members, Member::Shorthand(name), frames),
        TokenKind::CloseBrace => match with_member(members, Member::Shorthand(name)) {
            Ok(members) => object(alloc, site, members, frames),
            Err(stop) => stopped(stop, frames),
        },
        _ => {
            drop(name);
            refused_member(members, frames)
        }
    }
}

fn other_key_on(
    site: u32,
    members: Items<Member<Boxed<Expr>>>,
    key_site: u32,
    key: Key,
    frames: Pile<Frame>,
    kind: &TokenKind,
) -> Result<Parser, Stop>
    ensures { Gives (λ x. x) result (other_key_on site members key_site key frames kind.now) }
{
    match kind {
        TokenKind::Colon => to_value(site, members, key_site, key, frames),
        _ => {
            drop(key);
            refused_member(members, frames)
        }
    }
}

fn new_on(site: u32, at: u32, frames: Pile<Frame>, kind: TokenKind) -> Result<Parser, Stop>
    ensures { Gives (λ x. x) result (new_on site at frames kind) }
{
    match kind {
        TokenKind::Name(name) => {
            let name = Identifier { site: at, name };
            piece(Piece::NewName { site, name }, frames)
        }
        other => {
            discard_token(other);
            refused(frames)
        }
    }
}

fn new_name_on(
    alloc: Global,
    site: u32,
    name: Identifier,
    frames: Pile<Frame>,
    kind: &TokenKind,
) -> Result<Parser, Stop>
    ensures { Gives (λ x. x) result (new_name_on site name frames kind.now) }
{
    match kind {
        TokenKind::OpenRound => {
            let arguments = Items::new(alloc);
            wants(
                Frame::Bracket(Bracket::New {
                    site,
                    name,
                    arguments,
                }),
                frames,
            )
        }
        _ => {
            drop(name);
            refused(frames)
        }
    }
}

fn property(
    start: u32,
    first: Boxed<Expr>,
    suffixes: Items<Suffix<Boxed<Expr>>>,
    site: u32,
    name: Units,
    frames: Pile<Frame>,
) -> Result<Parser, Stop>
    ensures { Gives (λ x. x) result (property start first suffixes site name frames) }
{
    let last = Access::Property { site, name };
    let operand = Operand::Access {
        first,
        earlier: suffixes,
        last,
    };
    Ok(reached(start, operand, frames))
}

fn property_on(
    start: u32,
    first: Boxed<Expr>,
    suffixes: Items<Suffix<Boxed<Expr>>>,
    site: u32,
    frames: Pile<Frame>,
    kind: TokenKind,
) -> Result<Parser, Stop>
    ensures { Gives (λ x. x) result (property_on start first suffixes site frames kind) }
{
    match kind {
        TokenKind::Name(name) => property(start, first, suffixes, site, name, frames),
        TokenKind::Word { units, .. } => property(start, first, suffixes, site, units, frames),
        other => {
            discard_token(other);
            discard_call(first, suffixes);
            refused(frames)
        }
    }
}

fn function_on(
    alloc: Global,
    site: u32,
    at: u32,
    frames: Pile<Frame>,
    kind: TokenKind,
) -> Result<Parser, Stop>
    ensures { Gives (λ x. x) result (function_on site at frames kind) }
{
    match kind {
        TokenKind::Name(name) => {
            let name = Some(Identifier { site: at, name });
            heading(Heading::Open(Header::Value { site, name }), frames)
        }
        TokenKind::OpenRound => {
            let header = Header::Value { site, name: None };
            let names = Items::new(alloc);
            heading(Heading::Parameters { header, names }, frames)
        }
        other => {
            discard_token(other);
            refused(frames)
        }
    }
}

/// A token behind the beginning of an operand.
pub fn piece_on(
    alloc: Global,
    piece: Piece,
    at: u32,
    frames: Pile<Frame>,
    kind: TokenKind,
) -> Result<Parser, Stop>
    ensures { Gives (λ x. x) result (piece_on piece at frames kind) }
{
    match piece {
        Piece::Key { site, members } => key_on(alloc, site, members, at, frames, kind),
        Piece::NameKey {
            site,
            members,
            name,
        } => {
            let parser = name_key_on(alloc, site, members, name, frames, &kind);
            discard_token(kind);
            parser
        }
        Piece::OtherKey {
            site,
            members,
            key_site,
            key,
        } => {
            let parser = other_key_on(site, members, key_site, key, frames, &kind);
            discard_token(kind);
            parser
        }
        Piece::New { site } => new_on(site, at, frames, kind),
        Piece::NewName { site, name } => {
            let parser = new_name_on(alloc, site, name, frames, &kind);
            discard_token(kind);
            parser
        }
        Piece::Property {
            start,
            first,
            suffixes,
            site,
        } => { property_on(start, first, suffixes, site, frames, kind) }
        Piece::Function { site } => function_on(alloc, site, at, frames, kind),
    }
}

fn headed(header: Header, parameters: Items<Identifier>) -> Heading
    ensures { result ≡ headed header parameters }
{
    match header {
        Header::Function { site, name } => {
            Heading::Braces(Braces::Function {
                site,
                name,
                parameters,
            })
        }
        Header::Value { site, name } => Heading::Braces(Braces::Value {
            site,
            name,
            parameters,
        }),
        Header::Arrow { start } => Heading::Arrow {
            start,
            names: parameters,
        },
    }
}

/// `(` in front of parameters.
pub fn open_on(
    alloc: Global,
    header: Header,
    frames: Pile<Frame>,
    kind: &TokenKind,
) -> Result<Parser, Stop>
    ensures { Gives (λ x. x) result (open_on header frames kind.now) }
{
    match kind {
        TokenKind::OpenRound => {
            let names = Items::new(alloc);
            heading(Heading::Parameters { header, names }, frames)
        }
        _ => {
            drop(header);
            refused(frames)
        }
    }
}

/// The token can't stand here, between parameters.
fn refused_parameter(
    header: Header,
    names: Items<Identifier>,
    frames: Pile<Frame>,
) -> Result<Parser, Stop>
    ensures { result ≡ Err stop.Syntax }
{
    drop(header);
    drop(names);
    refused(frames)
}

/// A parameter, or the end of them.
pub fn parameters_on(
    header: Header,
    names: Items<Identifier>,
    at: u32,
    frames: Pile<Frame>,
    kind: TokenKind,
) -> Result<Parser, Stop>
    ensures { Gives (λ x. x) result (parameters_on header names at frames kind) }
{
    match kind {
        TokenKind::Name(name) => match with_name(names, Identifier { site: at, name }) {
            Ok(names) => heading(Heading::Parameter { header, names }, frames),
            Err(stop) => {
                drop(header);
                stopped(stop, frames)
            }
        },
        TokenKind::CloseRound => heading(headed(header, names), frames),
        other => {
            discard_token(other);
            refused_parameter(header, names, frames)
        }
    }
}

/// A token behind a parameter.
pub fn parameter_on(
    header: Header,
    names: Items<Identifier>,
    frames: Pile<Frame>,
    kind: &TokenKind,
) -> Result<Parser, Stop>
    ensures { Gives (λ x. x) result (parameter_on header names frames kind.now) }
{
    match kind {
        TokenKind::Comma => heading(Heading::Parameters { header, names }, frames),
        TokenKind::CloseRound => heading(headed(header, names), frames),
        _ => refused_parameter(header, names, frames),
    }
}

/// The arrow behind parameters.
pub fn arrow_due_on(
    line: bool,
    start: u32,
    names: Items<Identifier>,
    frames: Pile<Frame>,
    kind: &TokenKind,
) -> Result<Parser, Stop>
    ensures { Gives (λ x. x) result (arrow_due_on line start names frames kind.now) }
{
    match kind {
        TokenKind::Arrow => to_arrow(line, start, names, frames),
        _ => {
            drop(names);
            refused(frames)
        }
    }
}
