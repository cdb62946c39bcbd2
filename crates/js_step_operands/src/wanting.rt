//! Tokens where an expression, or what is left of one, is due.

ghost use Rattle.std.specs.Prelude.{◌≡◌, ◌∷◌, ◌++◌, [], Some, None};
ghost use Rattle.js_reading.specs.Operands.{at, reached, wants, word_of, prefixed, stepped, want_binary, primary, literal, want_word, want_brace, called, want_close_in, want_square, no_test, below_due, no_update, want_close, want_mark, want};
ghost use Rattle.js_grammar.specs.declared.token.Word.TheVariants as word;
ghost use Rattle.js_reading.specs.declared.mode.Mode.TheVariants as mode;
ghost use Rattle.js_reading.specs.declared.frame.Frame.TheVariants as frame;
ghost use Rattle.js_reading.specs.declared.frame.Bracket.TheVariants as bracket;
ghost use Rattle.js_reading.specs.declared.mode.Piece.TheVariants as pieces;
ghost use Rattle.js_step_operands.specs.Answers.{Gives, Makes};

use crate::context::context_of;
use crate::frames::{pushed, takes_assign, takes_unary};
use crate::operands::{boxed, suffixed};
use crate::refusals::{
    discard_part, discard_token, discard_value, refused, refused_at, refused_in, stopped,
};
use crate::stop::Stop;
use js_ast::{BinaryOp, Expr, Identifier, StepOp, Suffix, UnaryOp};
use js_grammar::{TokenKind, Word};
use js_reading::{
    Below, Braces, Bracket, Frame, Heading, Mode, Operand, Parser, Part, Pending, Piece, Pile,
};
use sqlite_items::{Boxed, Items};
use std::alloc::Global;

/// The reserved word, where the token is one.
pub fn word_of(kind: &TokenKind) -> Option<Word>
    ensures { result ≡ word_of kind.now }
{
    match kind {
        TokenKind::Word { word, .. } => Some(*word),
        _ => None,
    }
}

/// What a frame awaits is due.
pub fn wants(frame: Frame, frames: Pile<Frame>) -> Result<Parser, Stop>
    ensures { Makes result (wants frame frames) }
{
    match pushed(frames, frame) {
        Ok(frames) => Ok(Parser {
            mode: Mode::Want,
            frames,
        }),
        Err(stop) => Err(stop),
    }
}

/// An operand is there.
pub fn reached(start: u32, operand: Operand, frames: Pile<Frame>) -> Parser
    ensures { result ≡ reached start operand frames }
{
    Parser {
        mode: Mode::Operand { start, operand },
        frames,
    }
}

/// One that isn't a target.
pub fn primary(alloc: Global, start: u32, value: Expr, frames: Pile<Frame>) -> Result<Parser, Stop>
    ensures { Gives (λ x. x) result (primary start value frames) }
{
    match boxed(alloc, value) {
        Ok(value) => Ok(reached(start, Operand::Primary(value), frames)),
        Err(stop) => stopped(stop, frames),
    }
}

fn literal(alloc: Global, start: u32, value: Expr, frames: Pile<Frame>) -> Result<Parser, Stop>
    ensures { Gives (λ x. x) result (literal start value frames) }
{
    match boxed(alloc, value) {
        Ok(value) => Ok(reached(start, Operand::Literal(value), frames)),
        Err(stop) => stopped(stop, frames),
    }
}

fn prefixed(op: UnaryOp, site: u32, frames: Pile<Frame>) -> Result<Parser, Stop>
    ensures { Gives (λ x. x) result (prefixed op site frames) }
{
    if takes_unary(&frames) {
        return wants(Frame::Pending(Pending::Prefix { site, op }), frames);
    }
    refused(frames)
}

fn stepped(op: StepOp, site: u32, frames: Pile<Frame>) -> Result<Parser, Stop>
    ensures { Gives (λ x. x) result (stepped op site frames) }
{
    if takes_unary(&frames) {
        return wants(Frame::Step { site, op }, frames);
    }
    refused(frames)
}

fn want_binary(op: BinaryOp, site: u32, frames: Pile<Frame>) -> Result<Parser, Stop>
    ensures { Gives (λ x. x) result (want_binary op site frames) }
{
    match op {
        BinaryOp::Add => prefixed(UnaryOp::Plus, site, frames),
        BinaryOp::Subtract => prefixed(UnaryOp::Minus, site, frames),
        _ => refused(frames),
    }
}

fn want_this(alloc: Global, site: u32, frames: Pile<Frame>) -> Result<Parser, Stop>
    ensures { Gives (λ x. x) result (want_word word.This site frames) }
{
    if context_of(&frames).has_this {
        return primary(alloc, site, Expr::This { site }, frames);
    }
    refused(frames)
}

/// The beginning of an operand.
pub fn piece(piece: Piece, frames: Pile<Frame>) -> Result<Parser, Stop>
    ensures { Makes result (at (mode.Piece piece) frames) }
{
    Ok(Parser {
        mode: Mode::Piece(piece),
        frames,
    })
}

/// A part of a head.
pub fn heading(heading: Heading, frames: Pile<Frame>) -> Result<Parser, Stop>
    ensures { Makes result (at (mode.Heading heading) frames) }
{
    Ok(Parser {
        mode: Mode::Heading(heading),
        frames,
    })
}

/// A word where an expression is due.
pub fn want_word(alloc: Global, word: Word, site: u32, frames: Pile<Frame>) -> Result<Parser, Stop>
    ensures { Gives (λ x. x) result (want_word word site frames) }
{
    match word {
        Word::This => want_this(alloc, site, frames),
        Word::Null => primary(alloc, site, Expr::Null { site }, frames),
        Word::True => primary(alloc, site, Expr::True { site }, frames),
        Word::False => primary(alloc, site, Expr::False { site }, frames),
        Word::TypeOf => prefixed(UnaryOp::TypeOf, site, frames),
        Word::New => piece(Piece::New { site }, frames),
        Word::Function => piece(Piece::Function { site }, frames),
        _ => refused(frames),
    }
}

/// Statements begin between braces.
pub fn opens_list(alloc: Global, braces: Braces, frames: Pile<Frame>) -> Result<Parser, Stop>
    ensures { Makes result (at mode.Statement (frame.List braces [] ∷ frames)) }
{
    let list = Frame::List {
        braces,
        body: Items::new(alloc),
    };
    match pushed(frames, list) {
        Ok(frames) => Ok(Parser {
            mode: Mode::Statement,
            frames,
        }),
        Err(stop) => Err(stop),
    }
}

/// An object begins.
fn opens_object(alloc: Global, site: u32, frames: Pile<Frame>) -> Result<Parser, Stop>
    ensures { Makes result (at (mode.Piece (pieces.Key site [])) frames) }
{
    let members = Items::new(alloc);
    piece(Piece::Key { site, members }, frames)
}

/// An arrow's body directly behind `=>`, else an object.
fn want_brace(alloc: Global, site: u32, frames: Pile<Frame>) -> Result<Parser, Stop>
    ensures { Gives (λ x. x) result (want_brace site frames) }
{
    let mut frames = frames;
    match frames.pop() {
        None => opens_object(alloc, site, frames),
        Some(Frame::Pending(Pending::Arrow { start, parameters })) => {
            opens_list(alloc, Braces::Arrow { start, parameters }, frames)
        }
        Some(frame) => match pushed(frames, frame) {
            Ok(frames) => opens_object(alloc, site, frames),
            Err(stop) => Err(stop),
        },
    }
}

/// A call with its arguments.
pub fn called(
    start: u32,
    first: Boxed<Expr>,
    suffixes: Items<Suffix<Boxed<Expr>>>,
    site: u32,
    arguments: Items<Boxed<Expr>>,
    frames: Pile<Frame>,
) -> Result<Parser, Stop>
    ensures { Gives (λ x. x) result (called start first suffixes site arguments frames) }
{
    match suffixed(suffixes, Suffix::Call { site, arguments }) {
        Ok(suffixes) => Ok(reached(start, Operand::Call { first, suffixes }, frames)),
        Err(stop) => {
            discard_value(first);
            stopped(stop, frames)
        }
    }
}

fn no_parameters(alloc: Global, start: u32, frames: Pile<Frame>) -> Result<Parser, Stop>
    ensures { Gives (λ x. x) result (want_close_in (bracket.Round start) frames) }
{
    if takes_assign(&frames) {
        let names = Items::new(alloc);
        return Ok(Parser {
            mode: Mode::Heading(Heading::Arrow { start, names }),
            frames,
        });
    }
    refused(frames)
}

/// `)` directly behind `(` or `,`, or behind the last expression of a list.
pub fn want_close_in(alloc: Global, bracket: Bracket, frames: Pile<Frame>) -> Result<Parser, Stop>
    ensures { Gives (λ x. x) result (want_close_in bracket frames) }
{
    match bracket {
        Bracket::Round { site } => no_parameters(alloc, site, frames),
        Bracket::Call {
            start,
            first,
            suffixes,
            site,
            arguments,
        } => { called(start, first, suffixes, site, arguments, frames) }
        Bracket::New {
            site,
            name,
            arguments,
        } => {
            primary(
                alloc,
                site,
                Expr::New {
                    site,
                    name,
                    arguments,
                },
                frames,
            )
        }
        other => refused_in(other, frames),
    }
}

/// `]` directly behind `[` or `,`.
fn want_square(alloc: Global, frames: Pile<Frame>) -> Result<Parser, Stop>
    ensures { Gives (λ x. x) result (want_square frames) }
{
    let mut frames = frames;
    match frames.pop() {
        Some(Frame::Bracket(Bracket::Array { site, items })) => {
            primary(alloc, site, Expr::Array { site, items }, frames)
        }
        other => refused_at(other, frames),
    }
}

/// A `for` with no test.
fn no_test(frames: Pile<Frame>) -> Result<Parser, Stop>
    ensures { Gives (λ x. x) result (no_test frames) }
{
    let mut frames = frames;
    match frames.pop() {
        Some(Frame::Part(Part::ForTest { site, head })) => {
            wants(
                Frame::Part(Part::ForUpdate {
                    site,
                    head,
                    test: None,
                }),
                frames,
            )
        }
        other => refused_at(other, frames),
    }
}

/// A statement below another is due.
pub fn below_due(below: Below, frames: Pile<Frame>) -> Result<Parser, Stop>
    ensures { Gives (λ x. x) result (below_due below frames) }
{
    match pushed(frames, Frame::Below(below)) {
        Ok(frames) => Ok(Parser {
            mode: Mode::Below,
            frames,
        }),
        Err(stop) => Err(stop),
    }
}

/// A `for` with no update.
fn no_update(part: Part, frames: Pile<Frame>) -> Result<Parser, Stop>
    ensures { Gives (λ x. x) result (no_update part frames) }
{
    match part {
        Part::ForUpdate { site, head, test } => {
            below_due(
                Below::For {
                    site,
                    head,
                    test,
                    update: None,
                },
                frames,
            )
        }
        other => {
            discard_part(other);
            refused(frames)
        }
    }
}

fn want_close(alloc: Global, frames: Pile<Frame>) -> Result<Parser, Stop>
    ensures { Gives (λ x. x) result (want_close frames) }
{
    let mut frames = frames;
    match frames.pop() {
        Some(Frame::Bracket(bracket)) => want_close_in(alloc, bracket, frames),
        Some(Frame::Part(part)) => no_update(part, frames),
        other => refused_at(other, frames),
    }
}

/// A mark where an expression is due.
fn want_mark(
    alloc: Global,
    site: u32,
    frames: Pile<Frame>,
    kind: &TokenKind,
) -> Result<Parser, Stop>
    ensures { Gives (λ x. x) result (want_mark site frames kind.now) }
{
    match kind {
        TokenKind::Binary(op) => want_binary(*op, site, frames),
        TokenKind::Not => prefixed(UnaryOp::Not, site, frames),
        TokenKind::Complement => prefixed(UnaryOp::Complement, site, frames),
        TokenKind::Step(op) => stepped(*op, site, frames),
        TokenKind::OpenRound => wants(Frame::Bracket(Bracket::Round { site }), frames),
        TokenKind::OpenSquare => {
            let items = Items::new(alloc);
            wants(Frame::Bracket(Bracket::Array { site, items }), frames)
        }
        TokenKind::OpenBrace => want_brace(alloc, site, frames),
        TokenKind::CloseRound => want_close(alloc, frames),
        TokenKind::CloseSquare => want_square(alloc, frames),
        TokenKind::Semicolon => no_test(frames),
        _ => refused(frames),
    }
}

/// The token where an expression, or what is left of one, is due.
pub fn want(alloc: Global, site: u32, frames: Pile<Frame>, kind: TokenKind) -> Result<Parser, Stop>
    ensures { Gives (λ x. x) result (want site frames kind) }
{
    match kind {
        TokenKind::Name(name) => {
            Ok(reached(site, Operand::Name(Identifier { site, name }), frames))
        }
        TokenKind::Word { word, .. } => want_word(alloc, word, site, frames),
        TokenKind::Number(value) => literal(alloc, site, Expr::Number { site, value }, frames),
        TokenKind::Text(value) => literal(alloc, site, Expr::Text { site, value }, frames),
        mark => {
            let wanted = want_mark(alloc, site, frames, &mark);
            discard_token(mark);
            wanted
        }
    }
}
