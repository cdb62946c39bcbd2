//! The next token of a text, with its byte offset.

ghost use Rattle.std.specs.Prelude.{◌≡◌, ◌≢◌, ◌≤◌, ◌<◌, ◌^◌, length, IfOk};
ghost use Rattle.js_units.specs.Utf8.{utf8_size};
ghost use Rattle.js_lexer.specs.Tokens.{IsNext};
ghost use Rattle.js_lexer.specs.declared.token.Goal.{Goal as SpecGoal};
ghost use Rattle.js_lexer.specs.declared.token.TokenKind.TheVariants as lexed;
ghost use Rattle.js_parser.specs.Places.{byte_at};
ghost use Rattle.js_parser.specs.Outcomes.{is_wide};
ghost use Rattle.js_parser.specs.Finding.{IsFound};

use crate::refusal::ScriptRefusal;
use crate::tokens::kind_of;
use js_grammar::Token;
use js_lexer::{Goal, TokenKind, next_token};
use js_units::{Units, utf8_size};
use std::alloc::Global;

/// What follows a place of a text.
#[derive(Drop)]
pub enum Found {
    /// The end, at a byte offset.
    Over {
        at: usize,
    },
    /// A token, and the place behind it in code units and in bytes.
    Token {
        token: Token,
        is_wide: bool,
        end: usize,
        bytes: usize,
    },
}

/// The byte offset of a place behind another one whose offset is known.
#[tactic(auto, using(crate::proofs::Offsets::offset_on, crate::proofs::Offsets::offset_within))]
fn offset(text: &Units, from: usize, bytes: usize, to: usize) -> usize
    requires order { from ≤ to }
    requires within { to ≤ length text.now }
    requires known { bytes ≡ byte_at text.now from }
    requires few { utf8_size text.now < 2 ^ 31 }
    ensures place { result ≡ byte_at text.now to }
    ensures small { result < 2 ^ 31 }
{
    bytes + utf8_size(&text.as_slice()[from..to])
}

fn is_wide(kind: TokenKind) -> bool
    ensures { result ≡ is_wide kind }
{
    matches!(kind, TokenKind::WideNumber)
}

/// The lexer's token as the grammar sees it.
fn token_of(
    alloc: Global,
    text: &Units,
    goal: Goal,
    from: usize,
    at: usize,
    next: js_lexer::Token,
) -> Result<Found, ScriptRefusal>
    requires is_next { IsNext text.now from goal next }
    requires kind { next.kind ≢ lexed.Finish }
    requires further { next.start < next.end }
    requires known { at ≡ byte_at text.now next.start }
    requires small { at < 2 ^ 31 }
    requires few { utf8_size text.now < 2 ^ 31 }
    ensures { IsFound text.now from goal result }
{
    let kind = kind_of(alloc, text, &next)?;
    let bytes = offset(text, next.start, at, next.end);
    Ok(Found::Token {
        token: Token {
            kind,
            start: at as u32,
            line_before: next.line_before,
        },
        is_wide: is_wide(next.kind),
        end: next.end,
        bytes,
    })
}

/// The next token from a place on whose byte offset is known, at the goal; the end; or the refusal of what is neither.
pub fn next_found(
    alloc: Global,
    text: &Units,
    goal: Goal,
    end: usize,
    bytes: usize,
) -> Result<Found, ScriptRefusal>
    requires within { end ≤ length text.now }
    requires known { bytes ≡ byte_at text.now end }
    requires few { utf8_size text.now < 2 ^ 31 }
    ensures { IsFound text.now end goal result }
{
    match next_token(text, end, goal) {
        Ok(next) => {
            let at = offset(text, end, bytes, next.start);
            match next.kind {
                TokenKind::Finish => Ok(Found::Over { at }),
                _ => token_of(alloc, text, goal, end, at, next),
            }
        }
        Err(refusal) => {
            let at = offset(text, end, bytes, refusal.at);
            Err(ScriptRefusal::Syntax { at })
        }
    }
}
