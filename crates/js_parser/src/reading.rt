//! A text, token by token.

ghost use Rattle.std.specs.Prelude.{◌≡◌, ◌≤◌, ◌<◌, ◌^◌, length, Some};
ghost use Rattle.js_units.specs.Utf8.{utf8_size};
ghost use Rattle.js_step_operands.specs.Answers.{Makes};
ghost use Rattle.js_reading.specs.Reading.{start};
ghost use Rattle.js_parser.specs.Places.{byte_at};
ghost use Rattle.js_parser.specs.Outcomes.{taken, judged, unless_refused, refusal_of, over};
ghost use Rattle.js_parser.specs.Answers.{Answers, Advances, Reads};

use crate::finding::{Found, next_found};
use crate::nesting::is_too_deep;
use crate::refusal::{ScriptRefusal, stopped};
use crate::tokens::goal_of;
use js_ast::Stmt;
use js_grammar::Token;
use js_reading::{Braces, Parser, Pile};
use js_step_operands::{Stop, opens_list};
use js_steps::{ends, step};
use js_units::Units;
use sqlite_items::Items;
use std::alloc::Global;

/// What has been read of a text.
#[derive(Drop)]
pub struct Progress {
    pub parser: Parser,
    /// The place behind it, in code units.
    pub end: usize,
    /// The same place in bytes.
    pub bytes: usize,
}

/// What one token more gives.
#[derive(Drop)]
pub enum Turn {
    More(Progress),
    /// The script is over.
    Over(Items<Stmt>),
}

/// The parser in front of a script.
fn begin(alloc: Global) -> Result<Parser, Stop>
    ensures { Makes result start }
{
    opens_list(alloc, Braces::Script, Pile::new(alloc))
}

/// The refusal at a token that was taken.
fn refusal_of(is_wide: bool, at: usize, parser: &Parser) -> Option<ScriptRefusal>
    ensures { result ≡ refusal_of is_wide at parser.now }
{
    if is_wide {
        return Some(ScriptRefusal::WideNumber { at });
    }
    if is_too_deep(parser) {
        return Some(ScriptRefusal::TooDeep { at });
    }
    None
}

fn unless_refused(is_wide: bool, at: usize, parser: Parser) -> Result<Parser, ScriptRefusal>
    ensures { result ≡ unless_refused (refusal_of is_wide at parser) parser }
{
    match refusal_of(is_wide, at, &parser) {
        None => Ok(parser),
        Some(refusal) => {
            drop(parser);
            Err(refusal)
        }
    }
}

/// The refusal that comes first at a token: that of its step, then that of the token itself.
fn judged(is_wide: bool, at: usize, stepped: Result<Parser, Stop>) -> Result<Parser, ScriptRefusal>
    ensures { result ≡ judged is_wide at stepped }
{
    match stepped {
        Ok(parser) => unless_refused(is_wide, at, parser),
        Err(stop) => Err(stopped(stop, at)),
    }
}

/// The parser behind one token more, or the refusal that comes first at it.
fn taken(
    alloc: Global,
    parser: Parser,
    is_wide: bool,
    token: Token,
) -> Result<Parser, ScriptRefusal>
    ensures { Answers result (taken is_wide parser token) }
{
    let at = token.start as usize;
    judged(is_wide, at, step(alloc, parser, token))
}

/// The script, if it may end here.
fn over(alloc: Global, parser: Parser, at: usize) -> Result<Items<Stmt>, ScriptRefusal>
    ensures { Answers result (over parser at) }
{
    match ends(alloc, parser) {
        Ok(body) => Ok(body),
        Err(Stop::Syntax) => Err(ScriptRefusal::Syntax { at }),
        Err(Stop::NoMemory) => Err(ScriptRefusal::NoMemory),
    }
}

/// One token more.
fn advance(alloc: Global, text: &Units, progress: Progress) -> Result<Turn, ScriptRefusal>
    requires within { progress.end ≤ length text.now }
    requires known { progress.bytes ≡ byte_at text.now progress.end }
    requires few { utf8_size text.now < 2 ^ 31 }
    ensures { Advances text.now progress.end progress.parser result }
{
    let Progress { parser, end, bytes } = progress;
    match next_found(alloc, text, goal_of(&parser.mode), end, bytes) {
        Ok(
            Found::Token {
                token,
                is_wide,
                end,
                bytes,
            },
        ) => {
            match taken(alloc, parser, is_wide, token) {
                Ok(parser) => Ok(Turn::More(Progress { parser, end, bytes })),
                Err(refusal) => Err(refusal),
            }
        }
        Ok(Found::Over { at }) => match over(alloc, parser, at) {
            Ok(body) => Ok(Turn::Over(body)),
            Err(refusal) => Err(refusal),
        },
        Err(refusal) => {
            drop(parser);
            Err(refusal)
        }
    }
}

/// The statements that the text's tokens spell.
pub fn read(alloc: Global, text: &Units) -> Result<Items<Stmt>, ScriptRefusal>
    requires { utf8_size text.now < 2 ^ 31 }
    ensures { Reads text.now 0 start result }
{
    let parser = match begin(alloc) {
        Ok(parser) => parser,
        Err(_) => return Err(ScriptRefusal::NoMemory),
    };
    let mut progress = Progress {
        parser,
        end: 0,
        bytes: 0,
    };
    'tokens: loop {
        match advance(alloc, text, progress) {
            Ok(Turn::More(next)) => progress = next,
            Ok(Turn::Over(body)) => return Ok(body),
            Err(refusal) => return Err(refusal),
        }
    }
}
