//! Quoted texts read back.

ghost use Rattle.std.specs.Prelude.{◌≡◌, ◌<◌, true, IfOk};
ghost use Rattle.std.specs.Option.{option_map};
ghost use Rattle.js_units.specs.Quoted.{is_printable};
ghost use Rattle.js_units.specs.Unquoted.{IsUnescaped, is_lower_hex, lower_value, unprinted, coded_at, escaped_at, unit_at, closed, inside_at, quoted_at, whole};

use crate::memory::NoMemory;
use crate::quoting::is_printable;
use crate::units::Units;
use std::alloc::Global;

const QUOTE: u8 = 34;

const BACKSLASH: u8 = 92;

const LOWER_U: u8 = 117;

fn is_lower_hex(byte: u8) -> bool
    ensures { result ≡ is_lower_hex byte }
{
    (48 <= byte && byte <= 57) || (97 <= byte && byte <= 102)
}

fn lower_value(digit: u8) -> u16
    requires { is_lower_hex digit ≡ true }
    ensures value { result ≡ lower_value digit }
    ensures small { result < 16 }
{
    if digit <= 57 {
        u16::from(digit - 48)
    } else {
        u16::from(digit - 87)
    }
}

/// Four hexadecimal digits of a unit that isn't printable.
#[tactic(auto, unfolding(crate::specs::Unquoted::coded_at))]
fn coded(bytes: &[u8]) -> Option<(u16, &[u8])>
    ensures { option_map (λ x. (x.0, x.1.now)) result ≡ coded_at bytes.now }
{
    match bytes {
        [a, b, c, d, rest @ ..]
            if is_lower_hex(*a) && is_lower_hex(*b) && is_lower_hex(*c) && is_lower_hex(*d) => {
            let high = lower_value(*a) * 4096 + lower_value(*b) * 256;
            let low = lower_value(*c) * 16 + lower_value(*d);
            unprinted(high + low, rest)
        }
        _ => None,
    }
}

fn unprinted(unit: u16, rest: &[u8]) -> Option<(u16, &[u8])>
    ensures { option_map (λ x. (x.0, x.1.now)) result ≡ unprinted unit rest.now }
{
    if is_printable(unit) {
        return None;
    }
    Some((unit, rest))
}

/// What stands behind a backslash.
#[tactic(auto, unfolding(crate::specs::Unquoted::escaped_at))]
fn escaped(bytes: &[u8]) -> Option<(u16, &[u8])>
    ensures { option_map (λ x. (x.0, x.1.now)) result ≡ escaped_at bytes.now }
{
    match bytes {
        [first, rest @ ..] if *first == LOWER_U => coded(rest),
        [first, rest @ ..] if *first == QUOTE || *first == BACKSLASH => {
            Some((u16::from(*first), rest))
        }
        _ => None,
    }
}

/// A unit at the front, between quotes.
#[tactic(auto, unfolding(crate::specs::Unquoted::unit_at))]
fn unit(bytes: &[u8]) -> Option<(u16, &[u8])>
    ensures { option_map (λ x. (x.0, x.1.now)) result ≡ unit_at bytes.now }
{
    match bytes {
        [first, rest @ ..] if *first == BACKSLASH => escaped(rest),
        [first, rest @ ..] if is_printable(u16::from(*first)) && *first != QUOTE => {
            Some((u16::from(*first), rest))
        }
        _ => None,
    }
}

fn close(text: Units, bytes: &[u8]) -> Option<(Units, &[u8])>
    ensures { option_map (λ x. (x.0, x.1.now)) result ≡ closed text bytes.now }
{
    match bytes {
        [first, rest @ ..] if *first == QUOTE => Some((text, rest)),
        _ => None,
    }
}

/// The units up to the closing quote, and what is behind that.
fn inside(alloc: Global, bytes: &[u8]) -> Result<Option<(Units, &[u8])>, NoMemory>
    ensures { IfOk result (λ found. option_map (λ x. (x.0, x.1.now)) found ≡ inside_at bytes.now) }
{
    let mut text = Units::new(alloc);
    let mut left = bytes;
    while let Some((next, behind)) = unit(left) {
        text.push(next)?;
        left = behind;
    }
    Ok(close(text, left))
}

/// The string whose quoted text stands at the front of the bytes, and what is behind it: none where
/// they begin with no quoted text.
#[tactic(auto, unfolding(crate::specs::Unquoted::quoted_at))]
pub fn unescape_front(alloc: Global, bytes: &[u8]) -> Result<Option<(Units, &[u8])>, NoMemory>
    ensures { IfOk result (λ found. option_map (λ x. (x.0, x.1.now)) found ≡ quoted_at bytes.now) }
{
    match bytes {
        [first, rest @ ..] if *first == QUOTE => inside(alloc, rest),
        _ => Ok(None),
    }
}

fn whole(found: Option<(Units, &[u8])>) -> Option<Units>
    ensures { result ≡ whole (option_map (λ x. (x.0, x.1.now)) found.entry) }
{
    match found {
        Some((text, [])) => Some(text),
        _ => None,
    }
}

/// The string of which the bytes are the quoted text. No string has two, and most bytes are that of
/// none: a unit that is printed as itself has no other spelling, and digits are in lower case.
pub fn unescape(alloc: Global, bytes: &[u8]) -> Result<Option<Units>, NoMemory>
    ensures { IfOk result (λ found. IsUnescaped bytes.now found) }
{
    let found = unescape_front(alloc, bytes)?;
    Ok(whole(found))
}
