//! Statements that begin, and tokens behind those that are over.

ghost use Rattle.std.specs.Prelude.{◌∷◌, ◌++◌, [], true, false};
ghost use Rattle.js_reading.specs.Operands.{at, want, word_of};
ghost use Rattle.js_reading.specs.Reading.{below_by};
ghost use Rattle.js_grammar.specs.declared.token.Word.TheVariants as word;
ghost use Rattle.js_reading.specs.declared.frame.Frame.TheVariants as frame;
ghost use Rattle.js_reading.specs.declared.mode.Mode.TheVariants as mode;
ghost use Rattle.js_reading.specs.Statements.{settle, test_due, jump_in_loop, loop_word, inner_word, inner, declaration, item_word, item, next_item, on_else, on_while, after, braces_due};
ghost use Rattle.js_step_operands.specs.Answers.{Gives, Makes};

use crate::joining::{close_braces, over_with, settle, with_arm};
use crate::sections::boxed;
use js_ast::{DeclarationKind, Stmt};
use js_grammar::{TokenKind, Word};
use js_reading::{
    Below, Braces, Declaring, Ending, Frame, Heading, Mode, Opening, Parser, Part, Pile, Place,
};
use js_step_operands::{
    Stop, below_due, context_of, discard, discard_braces, discard_frame, discard_token, heading,
    opens_list, pushed, refused, refused_at, stopped, want, want_word, word_of,
};
use sqlite_items::{Boxed, Items};
use std::alloc::Global;

fn test_due(part: Part, frames: Pile<Frame>) -> Result<Parser, Stop>
    ensures { Gives (λ x. x) result (test_due part frames) }
{
    match pushed(frames, Frame::Part(part)) {
        Ok(frames) => Ok(Parser {
            mode: Mode::Opening(Opening::Test),
            frames,
        }),
        Err(stop) => Err(stop),
    }
}

fn ending(ending: Ending, frames: Pile<Frame>) -> Result<Parser, Stop>
    ensures { Makes result (at (mode.Ending ending) frames) }
{
    Ok(Parser {
        mode: Mode::Ending(ending),
        frames,
    })
}

/// A statement has begun.
pub fn opening(opening: Opening, frames: Pile<Frame>) -> Result<Parser, Stop>
    ensures { Makes result (at (mode.Opening opening) frames) }
{
    Ok(Parser {
        mode: Mode::Opening(opening),
        frames,
    })
}

fn jump(alloc: Global, stmt: Stmt, frames: Pile<Frame>) -> Result<Parser, Stop>
    ensures { Gives (λ x. x) result (jump_in_loop stmt frames) }
{
    if context_of(&frames).in_loop {
        return match boxed(alloc, stmt) {
            Ok(stmt) => ending(Ending::Jump(stmt), frames),
            Err(stop) => stopped(stop, frames),
        };
    }
    drop(stmt);
    refused(frames)
}

fn begins_return(site: u32, frames: Pile<Frame>) -> Result<Parser, Stop>
    ensures { Gives (λ x. x) result (inner_word word.Return site frames) }
{
    if context_of(&frames).in_function {
        return ending(Ending::Return { site }, frames);
    }
    refused(frames)
}

/// An expression begins that is a part of a statement.
pub fn want_part(
    alloc: Global,
    part: Part,
    site: u32,
    frames: Pile<Frame>,
    kind: TokenKind,
) -> Result<Parser, Stop>
    ensures { Gives (λ x. x) result (want site (frame.Part part ∷ frames) kind) }
{
    match pushed(frames, Frame::Part(part)) {
        Ok(frames) => want(alloc, site, frames, kind),
        Err(stop) => {
            discard_token(kind);
            Err(stop)
        }
    }
}

/// `{` is due.
pub fn braces_due(braces: Braces, frames: Pile<Frame>) -> Result<Parser, Stop>
    ensures { Gives (λ x. x) result (braces_due braces frames) }
{
    heading(Heading::Braces(braces), frames)
}

fn loop_word(alloc: Global, word: Word, site: u32, frames: Pile<Frame>) -> Result<Parser, Stop>
    ensures { Gives (λ x. x) result (loop_word word site frames) }
{
    match word {
        Word::If => {
            let arms = Items::new(alloc);
            test_due(Part::If { arms, site }, frames)
        }
        Word::While => test_due(Part::While { site }, frames),
        Word::Do => below_due(Below::Do { site }, frames),
        Word::For => opening(Opening::For { site }, frames),
        word => match pushed(frames, Frame::Part(Part::Express { site })) {
            Ok(frames) => want_word(alloc, word, site, frames),
            Err(stop) => Err(stop),
        },
    }
}

/// A word at the front of a statement that is no declaration.
fn inner_word(alloc: Global, word: Word, site: u32, frames: Pile<Frame>) -> Result<Parser, Stop>
    ensures { Gives (λ x. x) result (inner_word word site frames) }
{
    match word {
        Word::Break => jump(alloc, Stmt::Break { site }, frames),
        Word::Continue => jump(alloc, Stmt::Continue { site }, frames),
        Word::Return => begins_return(site, frames),
        Word::Throw => ending(Ending::Throw { site }, frames),
        Word::Try => braces_due(Braces::Try { site }, frames),
        Word::Function => refused(frames),
        word => loop_word(alloc, word, site, frames),
    }
}

/// A statement that is no declaration begins.
pub fn inner(alloc: Global, site: u32, frames: Pile<Frame>, kind: TokenKind) -> Result<Parser, Stop>
    ensures { Gives (λ x. x) result (inner site frames kind) }
{
    match kind {
        TokenKind::OpenBrace => { opens_list(alloc, Braces::Block { site }, frames) }
        TokenKind::Semicolon => { over_with(alloc, Stmt::Nothing { site }, frames) }
        TokenKind::Word { word, .. } => {
            discard_token(kind);
            inner_word(alloc, word, site, frames)
        }
        _ => want_part(alloc, Part::Express { site }, site, frames, kind),
    }
}

/// The same below a frame that is put back.
fn inner_below(
    alloc: Global,
    site: u32,
    frame: Frame,
    frames: Pile<Frame>,
    kind: TokenKind,
) -> Result<Parser, Stop>
    ensures { Gives (λ x. x) result (inner site (frame ∷ frames) kind) }
{
    match pushed(frames, frame) {
        Ok(frames) => inner(alloc, site, frames, kind),
        Err(stop) => {
            discard_token(kind);
            Err(stop)
        }
    }
}

/// A statement below another begins; `if` behind `else` goes on with the chain.
pub fn below(alloc: Global, site: u32, frames: Pile<Frame>, kind: TokenKind) -> Result<Parser, Stop>
    ensures { Gives (λ x. x) result (below_by site frames kind (word_of kind)) }
{
    match word_of(&kind) {
        Some(Word::If) => {
            let mut frames = frames;
            match frames.pop() {
                Some(Frame::Below(Below::Else { arms })) => {
                    discard_token(kind);
                    test_due(Part::If { arms, site }, frames)
                }
                Some(frame) => inner_below(alloc, site, frame, frames, kind),
                None => inner(alloc, site, frames, kind),
            }
        }
        _ => inner(alloc, site, frames, kind),
    }
}

/// Names are declared.
pub fn declaration(
    alloc: Global,
    place: Place,
    site: u32,
    kind: DeclarationKind,
    frames: Pile<Frame>,
) -> Result<Parser, Stop>
    ensures { Gives (λ x. x) result (declaration place site kind frames) }
{
    let declarators = Items::new(alloc);
    opening(
        Opening::Declare(Declaring {
            place,
            site,
            kind,
            declarators,
        }),
        frames,
    )
}

/// A word at the front of a statement of a list.
fn item_word(alloc: Global, word: Word, site: u32, frames: Pile<Frame>) -> Result<Parser, Stop>
    ensures { Gives (λ x. x) result (item_word word site frames) }
{
    match word {
        Word::Let => declaration(alloc, Place::Statement, site, DeclarationKind::Let, frames),
        Word::Const => declaration(
            alloc,
            Place::Statement,
            site,
            DeclarationKind::Const,
            frames,
        ),
        Word::Function => opening(Opening::Function { site }, frames),
        word => inner_word(alloc, word, site, frames),
    }
}

/// A statement of a list begins, or the list ends.
pub fn item(alloc: Global, site: u32, frames: Pile<Frame>, kind: TokenKind) -> Result<Parser, Stop>
    ensures { Gives (λ x. x) result (item site frames kind) }
{
    match kind {
        TokenKind::CloseBrace => close_braces(alloc, frames),
        TokenKind::Word { word, .. } => {
            discard_token(kind);
            item_word(alloc, word, site, frames)
        }
        _ => inner(alloc, site, frames, kind),
    }
}

/// A statement more.
pub fn with_stmt(body: Items<Stmt>, stmt: Boxed<Stmt>) -> Result<Items<Stmt>, Stop>
    ensures { Makes result (body ++ stmt ∷ []) }
{
    let mut body = body;
    body.push(stmt.into_inner())?;
    Ok(body)
}

/// The list with a statement more.
fn listed(
    braces: Braces,
    body: Items<Stmt>,
    stmt: Boxed<Stmt>,
    frames: Pile<Frame>,
) -> Result<Pile<Frame>, Stop>
    ensures { Makes result (frame.List braces (body ++ stmt ∷ []) ∷ frames) }
{
    match with_stmt(body, stmt) {
        Ok(body) => pushed(frames, Frame::List { braces, body }),
        Err(stop) => {
            discard_braces(braces);
            discard(frames);
            Err(stop)
        }
    }
}

/// The next statement of the list begins, or the list ends.
fn next_item(
    alloc: Global,
    site: u32,
    stmt: Boxed<Stmt>,
    frames: Pile<Frame>,
    kind: TokenKind,
) -> Result<Parser, Stop>
    ensures { Gives (λ x. x) result (next_item site stmt frames kind) }
{
    let mut frames = frames;
    match frames.pop() {
        Some(Frame::List { braces, body }) => match listed(braces, body, stmt, frames) {
            Ok(frames) => item(alloc, site, frames, kind),
            Err(stop) => {
                discard_token(kind);
                Err(stop)
            }
        },
        other => {
            discard_token(kind);
            drop(stmt);
            refused_at(other, frames)
        }
    }
}

/// The same below a frame that is put back.
fn next_item_below(
    alloc: Global,
    site: u32,
    stmt: Boxed<Stmt>,
    frame: Frame,
    frames: Pile<Frame>,
    kind: TokenKind,
) -> Result<Parser, Stop>
    ensures { Gives (λ x. x) result (next_item site stmt (frame ∷ frames) kind) }
{
    match pushed(frames, frame) {
        Ok(frames) => next_item(alloc, site, stmt, frames, kind),
        Err(stop) => {
            discard_token(kind);
            Err(stop)
        }
    }
}

fn on_else(stmt: Boxed<Stmt>, frames: Pile<Frame>) -> Result<Parser, Stop>
    ensures { Gives (λ x. x) result (on_else stmt frames) }
{
    let mut frames = frames;
    match frames.pop() {
        Some(Frame::Below(Below::Then { arms, site, test })) => {
            match with_arm(arms, site, test, stmt) {
                Ok(arms) => below_due(Below::Else { arms }, frames),
                Err(stop) => stopped(stop, frames),
            }
        }
        other => {
            drop(stmt);
            refused_at(other, frames)
        }
    }
}

fn on_while(
    alloc: Global,
    site: u32,
    stmt: Boxed<Stmt>,
    frames: Pile<Frame>,
    kind: TokenKind,
) -> Result<Parser, Stop>
    ensures { Gives (λ x. x) result (on_while site stmt frames kind) }
{
    let mut frames = frames;
    let around = frames.pop();
    match around {
        Some(Frame::Below(Below::Do { site: begin })) => {
            discard_frame(around);
            discard_token(kind);
            test_due(
                Part::Do {
                    site: begin,
                    body: stmt,
                    test_site: site,
                },
                frames,
            )
        }
        Some(frame) => next_item_below(alloc, site, stmt, frame, frames, kind),
        None => {
            discard_token(kind);
            drop(stmt);
            refused(frames)
        }
    }
}

fn after_else(alloc: Global, stmt: Boxed<Stmt>, frames: Pile<Frame>) -> Result<Parser, Stop>
    ensures { Gives (λ x. x) result (on_else (settle true stmt frames).value (settle true stmt frames).frames) }
{
    match settle(alloc, true, stmt, frames) {
        Ok(over) => on_else(over.value, over.frames),
        Err(stop) => Err(stop),
    }
}

fn after_while(
    alloc: Global,
    site: u32,
    stmt: Boxed<Stmt>,
    frames: Pile<Frame>,
    kind: TokenKind,
) -> Result<Parser, Stop>
    ensures { Gives (λ x. x) result (on_while site (settle false stmt frames).value (settle false stmt frames).frames kind) }
{
    match settle(alloc, false, stmt, frames) {
        Ok(over) => on_while(alloc, site, over.value, over.frames, kind),
        Err(stop) => {
            discard_token(kind);
            Err(stop)
        }
    }
}

fn after_list(
    alloc: Global,
    site: u32,
    stmt: Boxed<Stmt>,
    frames: Pile<Frame>,
    kind: TokenKind,
) -> Result<Parser, Stop>
    ensures { Gives (λ x. x) result (next_item site (settle false stmt frames).value (settle false stmt frames).frames kind) }
{
    match settle(alloc, false, stmt, frames) {
        Ok(over) => next_item(alloc, site, over.value, over.frames, kind),
        Err(stop) => {
            discard_token(kind);
            Err(stop)
        }
    }
}

/// A token behind a statement that is over.
pub fn after(
    alloc: Global,
    site: u32,
    stmt: Boxed<Stmt>,
    frames: Pile<Frame>,
    kind: TokenKind,
) -> Result<Parser, Stop>
    ensures { Gives (λ x. x) result (after site stmt frames kind) }
{
    match word_of(&kind) {
        Some(Word::Else) => {
            discard_token(kind);
            after_else(alloc, stmt, frames)
        }
        Some(Word::While) => after_while(alloc, site, stmt, frames, kind),
        _ => after_list(alloc, site, stmt, frames, kind),
    }
}
