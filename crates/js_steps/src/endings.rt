//! Tokens behind statements that may be over, and between the parts of a `try`.

ghost use Rattle.std.specs.Prelude.{◌≡◌, Some, None, Err};
ghost use Rattle.js_ast.specs.declared.statement.Stmt.TheVariants as stmt;
ghost use Rattle.js_reading.specs.Operands.{word_of};
ghost use Rattle.js_reading.specs.Statements.{after, do_on, jump_on, return_on, throw_on, ending_on, braces_on, tried_on, catch_head_on, catch_open_on, catch_name_on, caught_by, trying_on};
ghost use Rattle.js_step_operands.specs.Answers.{Gives};
ghost use Rattle.js_step_operands.specs.declared.stop.Stop.TheVariants as stop;

use crate::openings::ends_bare;
use js_ast::{Catch, Identifier, Stmt};
use js_grammar::{TokenKind, Word};
use js_reading::{Braces, Ending, Frame, Parser, Part, Pile, Trying};
use js_step_operands::{
    Stop, discard_braces, discard_token, opens_list, refused, stopped, word_of,
};
use js_step_statements::{after, boxed, braces_due, over, trying, want_part};
use sqlite_items::{Boxed, Items};
use std::alloc::Global;

fn do_on(
    alloc: Global,
    stmt: Boxed<Stmt>,
    site: u32,
    frames: Pile<Frame>,
    kind: TokenKind,
) -> Result<Parser, Stop>
    ensures { Gives (λ x. x) result (do_on stmt site frames kind) }
{
    match kind {
        TokenKind::Semicolon => Ok(over(stmt, frames)),
        _ => after(alloc, site, stmt, frames, kind),
    }
}

fn jump_on(
    alloc: Global,
    line: bool,
    stmt: Boxed<Stmt>,
    site: u32,
    frames: Pile<Frame>,
    kind: TokenKind,
) -> Result<Parser, Stop>
    ensures { Gives (λ x. x) result (jump_on line stmt site frames kind) }
{
    match kind {
        TokenKind::Semicolon => {
            discard_token(kind);
            Ok(over(stmt, frames))
        }
        _ => {
            if ends_bare(line, &kind) {
                return after(alloc, site, stmt, frames, kind);
            }
            discard_token(kind);
            drop(stmt);
            refused(frames)
        }
    }
}

/// A statement that was not in a box, and the token behind it.
fn after_stmt(
    alloc: Global,
    stmt: Stmt,
    site: u32,
    frames: Pile<Frame>,
    kind: TokenKind,
) -> Result<Parser, Stop>
    ensures { Gives (λ x. x) result (after site stmt frames kind) }
{
    match boxed(alloc, stmt) {
        Ok(stmt) => after(alloc, site, stmt, frames, kind),
        Err(stop) => {
            discard_token(kind);
            stopped(stop, frames)
        }
    }
}

/// A `return` with no value.
pub fn bare_return(site: u32) -> Stmt
    ensures { result ≡ stmt.Return site None }
{
    Stmt::Return { site, value: None }
}

fn return_on(
    alloc: Global,
    line: bool,
    begin: u32,
    site: u32,
    frames: Pile<Frame>,
    kind: TokenKind,
) -> Result<Parser, Stop>
    ensures { Gives (λ x. x) result (return_on line begin site frames kind) }
{
    match kind {
        TokenKind::Semicolon => {
            discard_token(kind);
            match boxed(alloc, bare_return(begin)) {
                Ok(stmt) => Ok(over(stmt, frames)),
                Err(stop) => stopped(stop, frames),
            }
        }
        _ => {
            if ends_bare(line, &kind) {
                return after_stmt(alloc, bare_return(begin), site, frames, kind);
            }
            want_part(alloc, Part::Return { site: begin }, site, frames, kind)
        }
    }
}

fn throw_on(
    alloc: Global,
    line: bool,
    begin: u32,
    site: u32,
    frames: Pile<Frame>,
    kind: TokenKind,
) -> Result<Parser, Stop>
    ensures { Gives (λ x. x) result (throw_on line begin site frames kind) }
{
    if line {
        discard_token(kind);
        return refused(frames);
    }
    want_part(alloc, Part::Throw { site: begin }, site, frames, kind)
}

/// A token behind a statement that may be over.
pub fn ending_on(
    alloc: Global,
    line: bool,
    ending: Ending,
    site: u32,
    frames: Pile<Frame>,
    kind: TokenKind,
) -> Result<Parser, Stop>
    ensures { Gives (λ x. x) result (ending_on line ending site frames kind) }
{
    match ending {
        Ending::Over(stmt) => after(alloc, site, stmt, frames, kind),
        Ending::Do(stmt) => do_on(alloc, stmt, site, frames, kind),
        Ending::Jump(stmt) => jump_on(alloc, line, stmt, site, frames, kind),
        Ending::Return { site: begin } => return_on(alloc, line, begin, site, frames, kind),
        Ending::Throw { site: begin } => throw_on(alloc, line, begin, site, frames, kind),
    }
}

/// `{` that is due.
pub fn braces_on(
    alloc: Global,
    braces: Braces,
    frames: Pile<Frame>,
    kind: &TokenKind,
) -> Result<Parser, Stop>
    ensures { Gives (λ x. x) result (braces_on braces frames kind.now) }
{
    match kind {
        TokenKind::OpenBrace => opens_list(alloc, braces, frames),
        _ => {
            discard_braces(braces);
            refused(frames)
        }
    }
}

/// The token can't stand here, between the parts of a `try`.
fn refused_try(body: Items<Stmt>, frames: Pile<Frame>) -> Result<Parser, Stop>
    ensures { result ≡ Err stop.Syntax }
{
    drop(body);
    refused(frames)
}

fn tried_on(
    site: u32,
    body: Items<Stmt>,
    frames: Pile<Frame>,
    kind: &TokenKind,
) -> Result<Parser, Stop>
    ensures { Gives (λ x. x) result (tried_on site body frames kind.now) }
{
    match word_of(kind) {
        Some(Word::Catch) => trying(Trying::CatchHead { site, body }, frames),
        Some(Word::Finally) => braces_due(
            Braces::Finally {
                site,
                body,
                catch: None,
            },
            frames,
        ),
        _ => refused_try(body, frames),
    }
}

fn catch_head_on(
    alloc: Global,
    site: u32,
    body: Items<Stmt>,
    frames: Pile<Frame>,
    kind: &TokenKind,
) -> Result<Parser, Stop>
    ensures { Gives (λ x. x) result (catch_head_on site body frames kind.now) }
{
    match kind {
        TokenKind::OpenRound => trying(Trying::CatchOpen { site, body }, frames),
        TokenKind::OpenBrace => {
            opens_list(
                alloc,
                Braces::Catch {
                    site,
                    body,
                    name: None,
                },
                frames,
            )
        }
        _ => refused_try(body, frames),
    }
}

fn catch_open_on(
    site: u32,
    body: Items<Stmt>,
    at: u32,
    frames: Pile<Frame>,
    kind: TokenKind,
) -> Result<Parser, Stop>
    ensures { Gives (λ x. x) result (catch_open_on site body at frames kind) }
{
    match kind {
        TokenKind::Name(name) => {
            let name = Identifier { site: at, name };
            trying(Trying::CatchName { site, body, name }, frames)
        }
        other => {
            discard_token(other);
            refused_try(body, frames)
        }
    }
}

fn catch_name_on(
    site: u32,
    body: Items<Stmt>,
    name: Identifier,
    frames: Pile<Frame>,
    kind: &TokenKind,
) -> Result<Parser, Stop>
    ensures { Gives (λ x. x) result (catch_name_on site body name frames kind.now) }
{
    match kind {
        TokenKind::CloseRound => {
            braces_due(
                Braces::Catch {
                    site,
                    body,
                    name: Some(name),
                },
                frames,
            )
        }
        _ => {
            drop(name);
            refused_try(body, frames)
        }
    }
}

/// A `try` with no `finally`.
pub fn caught(site: u32, body: Items<Stmt>, catch: Catch<Items<Stmt>>) -> Stmt
    ensures { result ≡ stmt.Try site body (Some catch) None }
{
    Stmt::Try {
        site,
        body,
        catch: Some(catch),
        finally: None,
    }
}

fn caught_on(
    alloc: Global,
    begin: u32,
    body: Items<Stmt>,
    catch: Catch<Items<Stmt>>,
    site: u32,
    frames: Pile<Frame>,
    kind: TokenKind,
) -> Result<Parser, Stop>
    ensures { Gives (λ x. x) result (caught_by begin body catch site frames kind (word_of kind)) }
{
    match word_of(&kind) {
        Some(Word::Finally) => {
            discard_token(kind);
            let catch = Some(catch);
            braces_due(
                Braces::Finally {
                    site: begin,
                    body,
                    catch,
                },
                frames,
            )
        }
        _ => after_stmt(alloc, caught(begin, body, catch), site, frames, kind),
    }
}

/// A token between the parts of a `try`.
pub fn trying_on(
    alloc: Global,
    trying: Trying,
    at: u32,
    frames: Pile<Frame>,
    kind: TokenKind,
) -> Result<Parser, Stop>
    ensures { Gives (λ x. x) result (trying_on trying at frames kind) }
{
    match trying {
        Trying::Tried { site, body } => {
            let parser = tried_on(site, body, frames, &kind);
            discard_token(kind);
            parser
        }
        Trying::CatchHead { site, body } => {
            let parser = catch_head_on(alloc, site, body, frames, &kind);
            discard_token(kind);
            parser
        }
        Trying::CatchOpen { site, body } => catch_open_on(site, body, at, frames, kind),
        Trying::CatchName { site, body, name } => {
            let parser = catch_name_on(site, body, name, frames, &kind);
            discard_token(kind);
            parser
        }
        Trying::Caught { site, body, catch } => {
            caught_on(alloc, site, body, catch, at, frames, kind)
        }
    }
}
