//! Marks and what is refused in their place (ECMA-262, sections 12.8 and B.1.1).

ghost use Rattle.std.specs.Prelude.{◌≡◌};
ghost use Rattle.std.specs.Option.{option_map};
ghost use Rattle.js_lexer.specs.Words.{comment_close, optional_chain, longest_refused, mark_at};

use crate::tables::{begins_with, longest_mark, longest_refused_mark};
use crate::token::{Lexeme, TokenKind};
use js_units::is_digit;

/// The length of `-->` at the start of a line.
#[tactic(auto, unfolding(crate::specs::Words::comment_close))]
fn comment_close(starts_line: bool, units: &[u16]) -> usize
    ensures { result ≡ comment_close starts_line units.now }
{
    if starts_line && begins_with(b"-->", units) {
        3
    } else {
        0
    }
}

/// The length of `?.` that no digit follows.
#[tactic(auto, unfolding(crate::specs::Words::optional_chain))]
fn optional_chain(units: &[u16]) -> usize
    ensures { result ≡ optional_chain units.now }
{
    if !begins_with(b"?.", units) {
        return 0;
    }
    match &units[2..] {
        [next, ..] if is_digit(*next) => 0,
        _ => 2,
    }
}

/// The length of the longest that is refused at the front, 0 for none.
#[tactic(auto, unfolding(crate::specs::Words::longest_refused))]
fn longest_refused(starts_line: bool, units: &[u16]) -> usize
    ensures { result ≡ longest_refused starts_line units.now }
{
    let other = comment_close(starts_line, units).max(optional_chain(units));
    longest_refused_mark(units).max(other)
}

/// The longest mark at the front, or what is refused there.
#[tactic(auto, unfolding(crate::specs::Words::mark_at), using(crate::proofs::Entries::mark_le, crate::proofs::Entries::refused_le))]
pub fn mark(starts_line: bool, units: &[u16]) -> Option<(Lexeme, &[u16])>
    ensures { option_map (λ x. (x.0, x.1.now)) result ≡ mark_at starts_line units.now }
{
    let mark = longest_mark(units);
    let refused = longest_refused(starts_line, units);
    if mark < refused {
        return Some((Lexeme::Refused, &units[refused..]));
    }
    if 0 < mark {
        return Some((Lexeme::Token(TokenKind::Mark), &units[mark..]));
    }
    None
}
