//! Tokens behind the beginnings and the ends of statements.

ghost use Rattle.std.specs.Prelude.{◌≡◌, Err};
ghost use Rattle.js_grammar.specs.declared.token.TokenKind.TheVariants as k;
ghost use Rattle.js_reading.specs.Statements.{test_on, for_on, for_word, for_head_on, declare_on, named_semicolon, named_comma, goes_of, ends_bare, named_ends, named_on, function_name_on, opening_on};
ghost use Rattle.js_step_operands.specs.Answers.{Gives};
ghost use Rattle.js_step_operands.specs.declared.stop.Stop.TheVariants as stop;

use js_ast::{DeclarationKind, Identifier, LoopHead};
use js_grammar::{TokenKind, Word};
use js_reading::{Declaring, Frame, Header, Heading, Mode, Opening, Parser, Part, Pile, Place};
use js_step_operands::{
    Stop, discard_part, discard_token, heading, is_of, pushed, refused, stopped, want_word, wants,
};
use js_step_statements::{
    after, bare, declaration, declaration_over, declares_more, is_let, is_statement, opening,
    want_part,
};
use js_units::Units;
use std::alloc::Global;

fn test_on(frames: Pile<Frame>, kind: &TokenKind) -> Result<Parser, Stop>
    ensures { Gives (λ x. x) result (test_on frames kind.now) }
{
    match kind {
        TokenKind::OpenRound => Ok(Parser {
            mode: Mode::Want,
            frames,
        }),
        _ => refused(frames),
    }
}

fn for_on(site: u32, frames: Pile<Frame>, kind: &TokenKind) -> Result<Parser, Stop>
    ensures { Gives (λ x. x) result (for_on site frames kind.now) }
{
    match kind {
        TokenKind::OpenRound => opening(Opening::ForHead { site }, frames),
        _ => refused(frames),
    }
}

fn for_word(
    alloc: Global,
    word: Word,
    site: u32,
    at: u32,
    frames: Pile<Frame>,
) -> Result<Parser, Stop>
    ensures { Gives (λ x. x) result (for_word word site at frames) }
{
    match word {
        Word::Let => declaration(alloc, Place::Loop, site, DeclarationKind::Let, frames),
        Word::Const => declaration(alloc, Place::Loop, site, DeclarationKind::Const, frames),
        word => match pushed(frames, Frame::Part(Part::ForFirst { site })) {
            Ok(frames) => want_word(alloc, word, at, frames),
            Err(stop) => Err(stop),
        },
    }
}

/// The first token in the head of a `for`.
fn for_head_on(
    alloc: Global,
    site: u32,
    at: u32,
    frames: Pile<Frame>,
    kind: TokenKind,
) -> Result<Parser, Stop>
    ensures { Gives (λ x. x) result (for_head_on site at frames kind) }
{
    match kind {
        TokenKind::Semicolon => {
            let head = LoopHead::Nothing;
            wants(Frame::Part(Part::ForTest { site, head }), frames)
        }
        TokenKind::Word { word, .. } => {
            discard_token(kind);
            for_word(alloc, word, site, at, frames)
        }
        _ => want_part(alloc, Part::ForFirst { site }, at, frames, kind),
    }
}

fn declare_on(
    declaring: Declaring,
    at: u32,
    frames: Pile<Frame>,
    kind: TokenKind,
) -> Result<Parser, Stop>
    ensures { Gives (λ x. x) result (declare_on declaring at frames kind) }
{
    match kind {
        TokenKind::Name(name) => {
            if !is_statement(declaring.place) && is_of(&name) {
                drop(name);
                drop(declaring);
                return refused(frames);
            }
            let name = Identifier { site: at, name };
            opening(Opening::Named { declaring, name }, frames)
        }
        other => {
            discard_token(other);
            drop(declaring);
            refused(frames)
        }
    }
}

/// The token can't stand here, behind a declared name.
fn refused_named(
    declaring: Declaring,
    name: Identifier,
    frames: Pile<Frame>,
) -> Result<Parser, Stop>
    ensures { result ≡ Err stop.Syntax }
{
    discard_part(Part::Declare { declaring, name });
    refused(frames)
}

fn named_semicolon(
    alloc: Global,
    declaring: Declaring,
    name: Identifier,
    frames: Pile<Frame>,
) -> Result<Parser, Stop>
    ensures { Gives (λ x. x) result (named_semicolon declaring name frames) }
{
    if is_let(declaring.kind) {
        return declaration_over(alloc, declaring, name, None, frames);
    }
    refused_named(declaring, name, frames)
}

fn named_comma(declaring: Declaring, name: Identifier, frames: Pile<Frame>) -> Result<Parser, Stop>
    ensures { Gives (λ x. x) result (named_comma declaring name frames) }
{
    if is_let(declaring.kind) {
        return declares_more(declaring, name, None, frames);
    }
    refused_named(declaring, name, frames)
}

/// Whether a name goes on as a `for` over items.
fn goes_of(declaring: &Declaring, name: &Units) -> bool
    ensures { result ≡ goes_of declaring.now name.now }
{
    !is_statement(declaring.place) && declaring.declarators.is_empty() && is_of(name)
}

/// Whether no semicolon is needed before the token, where no expression is.
pub fn ends_bare(line: bool, kind: &TokenKind) -> bool
    ensures { result ≡ ends_bare line kind.now }
{
    match kind {
        TokenKind::CloseBrace => true,
        _ => line,
    }
}

fn named_ends(
    alloc: Global,
    line: bool,
    declaring: Declaring,
    name: Identifier,
    site: u32,
    frames: Pile<Frame>,
    kind: TokenKind,
) -> Result<Parser, Stop>
    ensures { Gives (λ x. x) result (named_ends line declaring name site frames kind) }
{
    if is_statement(declaring.place) && is_let(declaring.kind) && ends_bare(line, &kind) {
        return match bare(alloc, declaring, name) {
            Ok(stmt) => after(alloc, site, stmt, frames, kind),
            Err(stop) => {
                discard_token(kind);
                stopped(stop, frames)
            }
        };
    }
    discard_token(kind);
    refused_named(declaring, name, frames)
}

/// A name behind a declared name.
fn named_word(
    alloc: Global,
    line: bool,
    declaring: Declaring,
    name: Identifier,
    site: u32,
    frames: Pile<Frame>,
    word: Units,
) -> Result<Parser, Stop>
    ensures { Gives (λ x. x) result (named_on line declaring name site frames (k.Name word)) }
{
    if goes_of(&declaring, &word) {
        drop(word);
        let Declaring {
            site: begin,
            kind,
            declarators,
            ..
        } = declaring;
        drop(declarators);
        return wants(
            Frame::Part(Part::ForOf {
                site: begin,
                kind,
                name,
            }),
            frames,
        );
    }
    let kind = TokenKind::Name(word);
    named_ends(alloc, line, declaring, name, site, frames, kind)
}

/// A token behind a declared name.
fn named_on(
    alloc: Global,
    line: bool,
    declaring: Declaring,
    name: Identifier,
    site: u32,
    frames: Pile<Frame>,
    kind: TokenKind,
) -> Result<Parser, Stop>
    ensures { Gives (λ x. x) result (named_on line declaring name site frames kind) }
{
    match kind {
        TokenKind::Assign(None) => wants(Frame::Part(Part::Declare { declaring, name }), frames),
        TokenKind::Comma => named_comma(declaring, name, frames),
        TokenKind::Semicolon => named_semicolon(alloc, declaring, name, frames),
        TokenKind::Name(word) => named_word(alloc, line, declaring, name, site, frames, word),
        kind => named_ends(alloc, line, declaring, name, site, frames, kind),
    }
}

fn function_name_on(
    site: u32,
    at: u32,
    frames: Pile<Frame>,
    kind: TokenKind,
) -> Result<Parser, Stop>
    ensures { Gives (λ x. x) result (function_name_on site at frames kind) }
{
    match kind {
        TokenKind::Name(name) => {
            let name = Identifier { site: at, name };
            heading(Heading::Open(Header::Function { site, name }), frames)
        }
        other => {
            discard_token(other);
            refused(frames)
        }
    }
}

/// A token behind the beginning of a statement.
pub fn opening_on(
    alloc: Global,
    line: bool,
    opening: Opening,
    at: u32,
    frames: Pile<Frame>,
    kind: TokenKind,
) -> Result<Parser, Stop>
    ensures { Gives (λ x. x) result (opening_on line opening at frames kind) }
{
    match opening {
        Opening::Test => {
            let parser = test_on(frames, &kind);
            discard_token(kind);
            parser
        }
        Opening::For { site } => {
            let parser = for_on(site, frames, &kind);
            discard_token(kind);
            parser
        }
        Opening::ForHead { site } => for_head_on(alloc, site, at, frames, kind),
        Opening::Declare(declaring) => declare_on(declaring, at, frames, kind),
        Opening::Named { declaring, name } => {
            named_on(alloc, line, declaring, name, at, frames, kind)
        }
        Opening::Function { site } => function_name_on(site, at, frames, kind),
    }
}
