//! White space, line ends and comments (ECMA-262, sections 12.2 to 12.5).

ghost use Rattle.std.specs.Prelude.{◌≡◌, false};
ghost use Rattle.std.specs.Option.{option_map};
ghost use Rattle.js_lexer.specs.Trivia.{IsTrivia};
ghost use Rattle.js_lexer.specs.Skipping.{after_pair, to_line_end, to_close, comment_at, piece_at};

use crate::classes::{SLASH, STAR, is_comment_unit};
use js_units::{is_line_end, is_white_space};

const HASH: u16 = 0x23;

const EXCLAMATION_MARK: u16 = 0x21;

/// What is behind two units, where they stand at the front.
fn after_pair(first: u16, second: u16, units: &[u16]) -> Option<&[u16]>
    ensures { option_map (λ x. x.now) result ≡ after_pair first second units.now }
{
    match units {
        [a, b, rest @ ..] if *a == first && *b == second => Some(rest),
        _ => None,
    }
}

fn to_line_end(units: &[u16]) -> &[u16]
    ensures { result.now ≡ to_line_end units.now }
{
    let mut left = units;
    while let [first, rest @ ..] = left {
        if !is_comment_unit(*first) {
            return left;
        }
        left = rest;
    }
    left
}

/// What is behind the first `*/`, and whether a line end stands before it.
fn to_close(units: &[u16]) -> Option<(bool, &[u16])>
    ensures { option_map (λ x. (x.0, x.1.now)) result ≡ to_close false units.now }
{
    let mut line_end = false;
    let mut left = units;
    while let [first, rest @ ..] = left {
        if let Some(after) = after_pair(STAR, SLASH, left) {
            return Some((line_end, after));
        }
        line_end = line_end || is_line_end(*first);
        left = rest;
    }
    None
}

/// A comment at the front: whether it holds a line end, and what is behind it.
#[tactic(auto, unfolding(crate::specs::Skipping::comment_at))]
fn comment(at_start: bool, units: &[u16]) -> Option<(bool, &[u16])>
    ensures { option_map (λ x. (x.0, x.1.now)) result ≡ comment_at at_start units.now }
{
    if let Some(rest) = after_pair(SLASH, SLASH, units) {
        return Some((false, to_line_end(rest)));
    }
    if let Some(rest) = after_pair(SLASH, STAR, units) {
        return to_close(rest);
    }
    if !at_start {
        return None;
    }
    let rest = after_pair(HASH, EXCLAMATION_MARK, units)?;
    Some((false, to_line_end(rest)))
}

/// A piece of trivia at the front.
#[tactic(auto, unfolding(crate::specs::Skipping::piece_at))]
fn piece(at_start: bool, units: &[u16]) -> Option<(bool, &[u16])>
    ensures { option_map (λ x. (x.0, x.1.now)) result ≡ piece_at at_start units.now }
{
    match units {
        [] => None,
        [first, rest @ ..] if is_white_space(*first) => Some((false, rest)),
        [first, rest @ ..] if is_line_end(*first) => Some((true, rest)),
        _ => comment(at_start, units),
    }
}

/// What is behind all trivia at the front, and whether a line end stands in them.
pub fn after_trivia(at_start: bool, units: &[u16]) -> (bool, &[u16])
    ensures { IsTrivia at_start units.now result.0 result.1.now }
{
    let mut first = at_start;
    let mut line_end = false;
    let mut left = units;
    while let Some((ends_line, rest)) = piece(first, left) {
        first = false;
        line_end = line_end || ends_line;
        left = rest;
    }
    (line_end, left)
}
