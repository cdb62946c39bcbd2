//! The characters of texts, with their escapes (ECMA-262, section 12.9.4).

ghost use Rattle.std.specs.Prelude.{◌≡◌, ◌≤◌, ◌==◌};
ghost use Rattle.std.specs.Option.{option_map};
ghost use Rattle.js_units.specs.CodeUnits.{encode};
ghost use Rattle.js_lexer.specs.Texts.{escaped, is_plain};
ghost use Rattle.js_lexer.specs.Escapes.{units_of, byte_at, unit_at, point_at, unicode_at, zero_at, line_end_at, escape_at, character_at, inside_at, close_at};
ghost use Rattle.js_lexer.specs.Runs.{starts};

use crate::classes::{BACKSLASH, CARRIAGE_RETURN, LINE_FEED};
use crate::numbers::{Base, after_digits, capped_value};
use js_units::{digit_value, is_digit, is_hexadecimal, is_line_end};

/// The code units for which a character of a text stands.
#[derive(Clone, Copy)]
pub enum Meaning {
    Nothing,
    One(u16),
    Two(u16, u16),
}

const ZERO: u16 = 0x30;

const LOWER_U: u16 = 0x75;

const LOWER_X: u16 = 0x78;

const OPEN_BRACE: u16 = 0x7b;

const CLOSE_BRACE: u16 = 0x7d;

/// The greatest code point of Unicode.
const MAX_POINT: u64 = 0x10_ffff;

/// One unit, or a pair of surrogates (ECMA-262, section 11.1.1).
fn encode(point: u64) -> Meaning
    requires { point ≤ 1114111 }
    ensures { units_of result ≡ encode point }
{
    if point < 0x1_0000 {
        return Meaning::One(point as u16);
    }
    let above = point - 0x1_0000;
    Meaning::Two(
        (0xd800 + above / 0x400) as u16,
        (0xdc00 + above % 0x400) as u16,
    )
}

/// Two hexadecimal digits.
#[tactic(auto, unfolding(crate::specs::Escapes::byte_at))]
fn byte(units: &[u16]) -> Option<(Meaning, &[u16])>
    ensures { option_map (λ x. (units_of x.0, x.1.now)) result ≡ byte_at units.now }
{
    match units {
        [a, b, rest @ ..] if is_hexadecimal(*a) && is_hexadecimal(*b) => {
            Some((Meaning::One(digit_value(*a) * 16 + digit_value(*b)), rest))
        }
        _ => None,
    }
}

/// Four hexadecimal digits.
#[tactic(auto, unfolding(crate::specs::Escapes::unit_at))]
fn unit(units: &[u16]) -> Option<(Meaning, &[u16])>
    ensures { option_map (λ x. (units_of x.0, x.1.now)) result ≡ unit_at units.now }
{
    match units {
        [a, b, c, d, rest @ ..]
            if is_hexadecimal(*a)
                && is_hexadecimal(*b)
                && is_hexadecimal(*c)
                && is_hexadecimal(*d) => {
            let high = digit_value(*a) * 4096 + digit_value(*b) * 256;
            let low = digit_value(*c) * 16 + digit_value(*d);
            Some((Meaning::One(high + low), rest))
        }
        _ => None,
    }
}

/// Hexadecimal digits of at most 10FFFF, and `}`.
#[tactic(auto, unfolding(crate::specs::Escapes::point_at))]
fn point(units: &[u16]) -> Option<(Meaning, &[u16])>
    ensures { option_map (λ x. (units_of x.0, x.1.now)) result ≡ point_at units.now }
{
    match units {
        [first, ..] if is_hexadecimal(*first) => {}
        _ => return None,
    }
    let value = capped_value(Base::Hexadecimal, units);
    match after_digits(Base::Hexadecimal, units) {
        [close, rest @ ..] if *close == CLOSE_BRACE && value <= MAX_POINT => Some((
            encode(value),
            rest,
        )),
        _ => None,
    }
}

/// What stands behind `\u`.
#[tactic(auto, unfolding(crate::specs::Escapes::unicode_at))]
fn unicode(units: &[u16]) -> Option<(Meaning, &[u16])>
    ensures { option_map (λ x. (units_of x.0, x.1.now)) result ≡ unicode_at units.now }
{
    match units {
        [] => None,
        [first, rest @ ..] if *first == OPEN_BRACE => point(rest),
        [_, ..] => unit(units),
    }
}

/// `\0` with no digit behind it.
fn zero(digit: u16, rest: &[u16]) -> Option<(Meaning, &[u16])>
    ensures { option_map (λ x. (units_of x.0, x.1.now)) result ≡ zero_at digit rest.now }
{
    if digit != ZERO {
        return None;
    }
    match rest {
        [next, ..] if is_digit(*next) => None,
        _ => Some((Meaning::One(0), rest)),
    }
}

/// What is behind a line end, of which CR LF is one.
fn after_line_end(first: u16, rest: &[u16]) -> &[u16]
    ensures { result.now ≡ line_end_at first rest.now }
{
    match rest {
        [second, after @ ..] if first == CARRIAGE_RETURN && *second == LINE_FEED => after,
        _ => rest,
    }
}

/// What a unit behind a backslash stands for: `n` `t` `r` `b` `f` and `v` for a control character, and
/// any other for itself.
#[tactic(auto, unfolding(crate::specs::Texts::escaped))]
fn escaped(unit: u16) -> u16
    ensures { result ≡ escaped unit }
{
    match unit {
        110 => 10,
        116 => 9,
        114 => 13,
        98 => 8,
        102 => 12,
        118 => 11,
        _ => unit,
    }
}

/// What stands behind a backslash.
#[tactic(auto, unfolding(crate::specs::Escapes::escape_at))]
fn escape(units: &[u16]) -> Option<(Meaning, &[u16])>
    ensures { option_map (λ x. (units_of x.0, x.1.now)) result ≡ escape_at units.now }
{
    match units {
        [] => None,
        [first, rest @ ..] if *first == LOWER_X => byte(rest),
        [first, rest @ ..] if *first == LOWER_U => unicode(rest),
        [first, rest @ ..] if is_digit(*first) => zero(*first, rest),
        [first, rest @ ..] if is_line_end(*first) => {
            Some((Meaning::Nothing, after_line_end(*first, rest)))
        }
        [first, rest @ ..] => Some((Meaning::One(escaped(*first)), rest)),
    }
}

#[tactic(auto, unfolding(crate::specs::Texts::is_plain))]
fn is_plain(unit: u16) -> bool
    ensures { result ≡ is_plain unit }
{
    !(unit == BACKSLASH || unit == LINE_FEED || unit == CARRIAGE_RETURN)
}

/// A character at the front: what it stands for, and what is behind it.
#[tactic(auto, unfolding(crate::specs::Escapes::character_at))]
fn character(units: &[u16]) -> Option<(Meaning, &[u16])>
    ensures { option_map (λ x. (units_of x.0, x.1.now)) result ≡ character_at units.now }
{
    match units {
        [first, rest @ ..] if *first == BACKSLASH => escape(rest),
        [first, rest @ ..] if is_plain(*first) => Some((Meaning::One(*first), rest)),
        _ => None,
    }
}

fn starts_with_quote(quote: u16, units: &[u16]) -> bool
    ensures { result ≡ starts (λ u. u == quote) units.now }
{
    match units {
        [first, ..] => *first == quote,
        [] => false,
    }
}

/// A character at the front that isn't the closing quote.
#[tactic(auto, unfolding(crate::specs::Escapes::inside_at))]
pub fn inside(quote: u16, units: &[u16]) -> Option<(Meaning, &[u16])>
    ensures { option_map (λ x. (units_of x.0, x.1.now)) result ≡ inside_at quote units.now }
{
    if starts_with_quote(quote, units) {
        return None;
    }
    character(units)
}

/// What is behind the closing quote at the front.
pub fn close(quote: u16, units: &[u16]) -> Option<&[u16]>
    ensures { option_map (λ x. x.now) result ≡ close_at quote units.now }
{
    match units {
        [first, rest @ ..] if *first == quote => Some(rest),
        _ => None,
    }
}
