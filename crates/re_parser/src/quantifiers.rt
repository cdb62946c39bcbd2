//! Quantifiers (ECMA-262, sections 22.2.1 and B.1.2). Each function reads at the front of units, and
//! answers what is behind.

ghost use Rattle.std.specs.Prelude.{◌≡◌, ◌<◌, ◌≤◌, ◌+◌, ◌*◌, ◌-◌, min, true, length, Some, IfSome};
ghost use Rattle.std.specs.Option.{option_map};
ghost use Rattle.js_units.specs.Characters.{is_digit};
ghost use Rattle.re_parser.specs.Quantifiers.{digits_from, number_at, closed_by, behind_least, braces_at, is_most, is_proper, lazy_by, braced_by, quantifier_at};

use crate::characters::{CLOSE_BRACE, OPEN_BRACE, QUESTION};
use crate::kinds::{Braces, Quantifier};
use js_units::is_digit;

const PLUS: u16 = 0x2b;

const COMMA: u16 = 0x2c;

const STAR: u16 = 0x2a;

/// The greatest number of a quantifier, and the one above it.
const MAX_COUNT: u32 = 65_535;

const LEAST_WIDE: u32 = 65_536;

/// The number of the digits in front, or 65,536 where it is more.
pub fn digits(units: &[u16]) -> (u32, &[u16])
    ensures value { (result.0, result.1.now) ≡ digits_from 0 units.now }
    ensures shorter { length result.1.now ≤ length units.now }
{
    let mut value: u32 = 0;
    let mut left = units;
    while let [first, rest @ ..] = left {
        if !is_digit(*first) {
            return (value, left);
        }
        value = next_value(value, *first);
        left = rest;
    }
    (value, left)
}

/// A number with one digit more.
#[tactic(auto, unfolding(js_units::specs::Characters::is_digit))]
fn next_value(value: u32, digit: u16) -> u32
    requires digit { is_digit digit ≡ true }
    requires small { value ≤ 65536 }
    ensures value { result ≡ min (value * 10 + (digit - 48)) 65536 }
    ensures small { result ≤ 65536 }
{
    (value * 10 + u32::from(digit - 48)).min(LEAST_WIDE)
}

/// At least one digit.
#[tactic(auto, unfolding(crate::specs::Quantifiers::number_at))]
fn number(units: &[u16]) -> Option<(u32, &[u16])>
    ensures read { option_map (λ x. (x.0, x.1.now)) result ≡ number_at units.now }
    ensures shorter { IfSome result (λ x. length x.1.now ≤ length units.now) }
{
    match units {
        [first, ..] if is_digit(*first) => Some(digits(units)),
        _ => None,
    }
}

/// A `}`.
fn closed(least: u32, most: Option<u32>, units: &[u16]) -> Option<(Braces, &[u16])>
    ensures read { option_map (λ x. (x.0, x.1.now)) result ≡ closed_by least most units.now }
    ensures shorter { IfSome result (λ x. length x.1.now < length units.now) }
{
    match units {
        [first, rest @ ..] if *first == CLOSE_BRACE => Some((Braces { least, most }, rest)),
        _ => None,
    }
}

/// What stands in braces behind the first number.
fn behind_least(least: u32, units: &[u16]) -> Option<(Braces, &[u16])>
    ensures read { option_map (λ x. (x.0, x.1.now)) result ≡ behind_least least units.now }
    ensures shorter { IfSome result (λ x. length x.1.now < length units.now) }
{
    match units {
        [first, rest @ ..] if *first == COMMA => match number(rest) {
            Some((most, behind)) => closed(least, Some(most), behind),
            None => closed(least, None, rest),
        },
        _ => closed(least, Some(least), units),
    }
}

/// Behind a `{`: the numbers, and `}`.
#[tactic(auto, unfolding(crate::specs::Quantifiers::braces_at))]
pub fn braces(units: &[u16]) -> Option<(Braces, &[u16])>
    ensures read { option_map (λ x. (x.0, x.1.now)) result ≡ braces_at units.now }
    ensures shorter { IfSome result (λ x. length x.1.now < length units.now) }
{
    let (least, rest) = number(units)?;
    behind_least(least, rest)
}

fn is_most(least: u32, most: Option<u32>) -> bool
    ensures { result ≡ is_most least most }
{
    match most {
        None => true,
        Some(most) => most <= MAX_COUNT && least <= most,
    }
}

/// Whether no number is too large, and the first isn't above the second.
fn is_proper(braces: Braces) -> bool
    ensures { result ≡ is_proper braces }
{
    braces.least <= MAX_COUNT && is_most(braces.least, braces.most)
}

/// A quantifier, which a `?` makes lazy.
fn lazy(min: u32, max: Option<u32>, units: &[u16]) -> Option<(Quantifier, &[u16])>
    ensures read { option_map (λ x. (x.0, x.1.now)) result ≡ lazy_by min max units.now }
    ensures shorter { IfSome result (λ x. length x.1.now ≤ length units.now) }
{
    match units {
        [first, rest @ ..] if *first == QUESTION => {
            let lazy = true;
            Some((Quantifier { min, max, lazy }, rest))
        }
        _ => {
            let lazy = false;
            Some((Quantifier { min, max, lazy }, units))
        }
    }
}

/// Behind a `{`.
fn braced(units: &[u16]) -> Option<(Quantifier, &[u16])>
    ensures read { option_map (λ x. (x.0, x.1.now)) result ≡ braced_by (braces_at units.now) }
    ensures shorter { IfSome result (λ x. length x.1.now ≤ length units.now) }
{
    let (numbers, rest) = braces(units)?;
    if is_proper(numbers) {
        lazy(numbers.least, numbers.most, rest)
    } else {
        None
    }
}

/// A quantifier.
#[tactic(auto, unfolding(crate::specs::Quantifiers::quantifier_at))]
pub fn quantifier(units: &[u16]) -> Option<(Quantifier, &[u16])>
    ensures read { option_map (λ x. (x.0, x.1.now)) result ≡ quantifier_at units.now }
    ensures shorter { IfSome result (λ x. length x.1.now ≤ length units.now) }
{
    match units {
        [first, rest @ ..] if *first == STAR => lazy(0, None, rest),
        [first, rest @ ..] if *first == PLUS => lazy(1, None, rest),
        [first, rest @ ..] if *first == QUESTION => lazy(0, Some(1), rest),
        [first, rest @ ..] if *first == OPEN_BRACE => braced(rest),
        _ => None,
    }
}
