//! The pieces of a pattern's text (ECMA-262, sections 22.2.1 and B.1.2). Each function reads at the
//! front of units, and answers what is behind.

ghost use Rattle.std.specs.Prelude.{◌≡◌, ◌<◌, ◌≤◌, length, IfSome};
ghost use Rattle.std.specs.Option.{option_map};
ghost use Rattle.re_parser.specs.Escapes.{class_escape_of, character_at};
ghost use Rattle.re_parser.specs.Quantifiers.{braces_at, digits_from};
ghost use Rattle.re_parser.specs.Pieces.{class_escape_or, character_piece, back_piece, marked_group_at, group_at, class_at, escape_at, brace_piece, plain_at, piece_at};

use crate::characters::{BACKSLASH, OPEN_BRACE, QUESTION};
use crate::escapes::{character, class_escape_of};
use crate::kinds::{Assertion, Atom, GroupKind, Piece};
use crate::quantifiers::{braces, digits};

const OPEN_PARENTHESIS: u16 = 0x28;

const OPEN_BRACKET: u16 = 0x5b;

const CARET: u16 = 0x5e;

/// Behind `(?`.
fn marked_group(units: &[u16]) -> Option<(Piece, &[u16])>
    ensures read { option_map (λ x. (x.0, x.1.now)) result ≡ marked_group_at units.now }
    ensures shorter { IfSome result (λ x. length x.1.now ≤ length units.now) }
{
    match units {
        [58, rest @ ..] => Some((Piece::Open(GroupKind::Plain), rest)),
        [61, rest @ ..] => Some((Piece::Open(GroupKind::Ahead), rest)),
        [33, rest @ ..] => Some((Piece::Open(GroupKind::NotAhead), rest)),
        _ => None,
    }
}

/// Behind `(`.
#[tactic(auto, unfolding(crate::specs::Pieces::group_at))]
fn group(units: &[u16]) -> Option<(Piece, &[u16])>
    ensures read { option_map (λ x. (x.0, x.1.now)) result ≡ group_at units.now }
    ensures shorter { IfSome result (λ x. length x.1.now ≤ length units.now) }
{
    match units {
        [first, rest @ ..] if *first == QUESTION => marked_group(rest),
        _ => Some((Piece::Open(GroupKind::Capturing), units)),
    }
}

/// Behind `[`.
#[tactic(auto, unfolding(crate::specs::Pieces::class_at))]
fn class(units: &[u16]) -> Option<(Piece, &[u16])>
    ensures read { option_map (λ x. (x.0, x.1.now)) result ≡ class_at units.now }
    ensures shorter { IfSome result (λ x. length x.1.now ≤ length units.now) }
{
    match units {
        [first, rest @ ..] if *first == CARET => Some((Piece::Class(true), rest)),
        _ => Some((Piece::Class(false), units)),
    }
}

/// Behind a backslash, an escape that is no assertion and no backreference.
fn character_or_class<'a>(
    first: u16,
    units: &'a [u16],
    rest: &'a [u16],
) -> Option<(Piece, &'a [u16])>
    ensures read { option_map (λ x. (x.0, x.1.now)) result ≡ class_escape_or (class_escape_of first) rest.now (character_piece (character_at units.now)) }
    ensures shorter { length rest.now < length units.now → IfSome result (λ x. length x.1.now < length units.now) }
{
    if let Some(escape) = class_escape_of(first) {
        return Some((Piece::Atom(Atom::Escape(escape)), rest));
    }
    match character(units) {
        Some((unit, behind)) => Some((Piece::Atom(Atom::Unit(unit)), behind)),
        None => None,
    }
}

/// Behind a backslash, a backreference.
fn back(units: &[u16]) -> Option<(Piece, &[u16])>
    ensures read { option_map (λ x. (x.0, x.1.now)) result ≡ back_piece (digits_from 0 units.now) }
    ensures shorter { IfSome result (λ x. length x.1.now ≤ length units.now) }
{
    let (number, rest) = digits(units);
    Some((Piece::Atom(Atom::Back(number)), rest))
}

/// Behind a backslash.
#[tactic(auto, unfolding(crate::specs::Pieces::escape_at))]
fn escape(units: &[u16]) -> Option<(Piece, &[u16])>
    ensures read { option_map (λ x. (x.0, x.1.now)) result ≡ escape_at units.now }
    ensures shorter { IfSome result (λ x. length x.1.now ≤ length units.now) }
{
    match units {
        [] => None,
        [98, rest @ ..] => Some((Piece::Assertion(Assertion::Word), rest)),
        [66, rest @ ..] => Some((Piece::Assertion(Assertion::NotWord), rest)),
        [first, ..] if 49 <= *first && *first <= 57 => back(units),
        [first, rest @ ..] => character_or_class(*first, units, rest),
    }
}

/// Behind `{`, which stands for itself unless it begins braces that count.
fn brace(rest: &[u16]) -> Option<(Piece, &[u16])>
    ensures read { option_map (λ x. (x.0, x.1.now)) result ≡ brace_piece (braces_at rest.now) rest.now }
    ensures shorter { IfSome result (λ x. length x.1.now ≤ length rest.now) }
{
    match braces(rest) {
        Some(_) => None,
        None => Some((Piece::Atom(Atom::Unit(OPEN_BRACE)), rest)),
    }
}

/// A unit that begins no escape, group, class or braces.
#[tactic(auto, unfolding(crate::specs::Pieces::plain_at))]
fn plain(first: u16, rest: &[u16]) -> Option<(Piece, &[u16])>
    ensures read { option_map (λ x. (x.0, x.1.now)) result ≡ plain_at first rest.now }
    ensures shorter { IfSome result (λ x. length x.1.now ≤ length rest.now) }
{
    let piece = match first {
        124 => Piece::Bar,
        41 => Piece::Close,
        94 => Piece::Assertion(Assertion::LineStart),
        36 => Piece::Assertion(Assertion::LineEnd),
        46 => Piece::Atom(Atom::Dot),
        42 | 43 | 63 => return None,
        _ => Piece::Atom(Atom::Unit(first)),
    };
    Some((piece, rest))
}

/// The piece in front.
#[tactic(auto, unfolding(crate::specs::Pieces::piece_at))]
pub fn piece(units: &[u16]) -> Option<(Piece, &[u16])>
    ensures read { option_map (λ x. (x.0, x.1.now)) result ≡ piece_at units.now }
    ensures shorter { IfSome result (λ x. length x.1.now < length units.now) }
{
    match units {
        [] => None,
        [first, rest @ ..] if *first == BACKSLASH => escape(rest),
        [first, rest @ ..] if *first == OPEN_PARENTHESIS => group(rest),
        [first, rest @ ..] if *first == OPEN_BRACKET => class(rest),
        [first, rest @ ..] if *first == OPEN_BRACE => brace(rest),
        [first, rest @ ..] => plain(*first, rest),
    }
}
