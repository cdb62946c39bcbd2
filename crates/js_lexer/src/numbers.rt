//! Whole numbers, decimal and hexadecimal (ECMA-262, section 12.9.3).

ghost use Rattle.std.specs.Prelude.{◌≡◌, ◌<◌, ◌≤◌, ◌^◌};
ghost use Rattle.std.specs.Option.{option_map};
ghost use Rattle.js_lexer.specs.Runs.{skip_while};
ghost use Rattle.js_lexer.specs.Numbers.{radix, is_digit_of, leads_with_zero};
ghost use Rattle.js_lexer.specs.Digits.{capped_from, digits_at, after_prefix, number_at};
ghost use Rattle.js_lexer.specs.Words.{numeral_at};

use crate::classes::continues_number;
use crate::token::{Lexeme, TokenKind};
use js_units::{digit_value, is_digit, is_hexadecimal};

/// The base in which a number is written.
#[derive(Clone, Copy)]
pub enum Base {
    Decimal,
    Hexadecimal,
}

const ZERO: u16 = 0x30;

const LOWER_X: u16 = 0x78;

const UPPER_X: u16 = 0x58;

/// The greatest number that isn't wide, and the one above it.
const MAX_SAFE: u64 = 9_007_199_254_740_991;

const LEAST_WIDE: u64 = 9_007_199_254_740_992;

fn radix(base: Base) -> u64
    ensures value { result ≡ radix base }
    ensures small { result ≤ 16 }
{
    match base {
        Base::Decimal => 10,
        Base::Hexadecimal => 16,
    }
}

fn is_digit_of(base: Base, unit: u16) -> bool
    ensures { result ≡ is_digit_of base unit }
{
    match base {
        Base::Decimal => is_digit(unit),
        Base::Hexadecimal => is_hexadecimal(unit),
    }
}

/// What is behind the digits at the front.
pub fn after_digits(base: Base, units: &[u16]) -> &[u16]
    ensures { result.now ≡ skip_while (is_digit_of base) units.now }
{
    let mut left = units;
    while let [first, rest @ ..] = left {
        if !is_digit_of(base, *first) {
            return left;
        }
        left = rest;
    }
    left
}

/// What the digits at the front stand for, or 2^53 where that is more.
#[tactic(auto, using(crate::proofs::Numerals::hexadecimal_of))]
pub fn capped_value(base: Base, units: &[u16]) -> u64
    ensures value { result ≡ capped_from base 0 units.now }
    ensures small { result ≤ 2 ^ 53 }
{
    let mut value = 0;
    let mut left = units;
    while let [first, rest @ ..] = left {
        if !is_digit_of(base, *first) {
            return value;
        }
        value = (value * radix(base) + u64::from(digit_value(*first))).min(LEAST_WIDE);
        left = rest;
    }
    value
}

/// At least one digit, behind which no number goes on: the capped value, and what is behind it.
#[tactic(auto, unfolding(crate::specs::Digits::digits_at))]
fn digits(base: Base, units: &[u16]) -> Option<(u64, &[u16])>
    ensures { option_map (λ x. (x.0, x.1.now)) result ≡ digits_at base units.now }
{
    let rest = after_digits(base, units);
    if rest.len() == units.len() {
        return None;
    }
    match rest {
        [first, ..] if continues_number(*first) => None,
        _ => Some((capped_value(base, units), rest)),
    }
}

/// What is behind `0x` or `0X`.
fn after_prefix(units: &[u16]) -> Option<&[u16]>
    ensures { option_map (λ x. x.now) result ≡ after_prefix units.now }
{
    match units {
        [zero, x, rest @ ..] if *zero == ZERO && (*x == LOWER_X || *x == UPPER_X) => Some(rest),
        _ => None,
    }
}

fn leads_with_zero(units: &[u16]) -> bool
    ensures { result ≡ leads_with_zero units.now }
{
    match units {
        [zero, next, ..] => *zero == ZERO && is_digit(*next),
        _ => false,
    }
}

/// A number at the front: its value, or 2^53 where that is more, and what is behind it.
#[tactic(auto, unfolding(crate::specs::Digits::number_at))]
pub fn number(units: &[u16]) -> Option<(u64, &[u16])>
    ensures { option_map (λ x. (x.0, x.1.now)) result ≡ number_at units.now }
{
    if let Some(behind) = after_prefix(units) {
        return digits(Base::Hexadecimal, behind);
    }
    if leads_with_zero(units) {
        return None;
    }
    digits(Base::Decimal, units)
}

/// A number at the front, wide or not.
#[tactic(auto, unfolding(crate::specs::Words::numeral_at))]
pub fn numeral(units: &[u16]) -> Option<(Lexeme, &[u16])>
    ensures { option_map (λ x. (x.0, x.1.now)) result ≡ numeral_at units.now }
{
    let (value, rest) = number(units)?;
    if value <= MAX_SAFE {
        Some((Lexeme::Token(TokenKind::Number), rest))
    } else {
        Some((Lexeme::Token(TokenKind::WideNumber), rest))
    }
}
