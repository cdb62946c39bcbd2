//! Where reading stops: the place of a refusal, as the number of units from it on.

ghost use Rattle.std.specs.Prelude.{◌≡◌, ◌≤◌, length};
ghost use Rattle.re_parser.specs.Agreement.{is_question};
ghost use Rattle.re_parser.specs.Escapes.{starts, member_at};
ghost use Rattle.re_parser.specs.Faults.{from_close, piece_fault, member_fault, hexadecimal_value, byte_fault, unit_fault, escaped_end_fault, end_fault, range_fault, class_fault};
ghost use Rattle.re_parser.specs.declared.refusal.Fault.TheVariants as fault;

use crate::characters::{BACKSLASH, CLOSE_BRACE, OPEN_BRACE, QUESTION};
use crate::escapes::{behind_first, member};
use crate::kinds::Member;
use crate::refusal::Fault;
use js_units::{digit_value, is_hexadecimal};

const OPEN_PARENTHESIS: u16 = 0x28;

const LOWER_U: u16 = 0x75;

const LOWER_X: u16 = 0x78;

fn syntax(units: &[u16]) -> Fault
    ensures { result ≡ fault.Syntax (length units.now) }
{
    Fault::Syntax { left: units.len() }
}

/// The fault where no piece is in front. Where a group is too deep, that is why it is refused, and not
/// for its mark.
#[tactic(auto, unfolding(crate::specs::Faults::piece_fault))]
pub fn piece_fault(deep: bool, units: &[u16]) -> Fault
    ensures { result ≡ piece_fault deep units.now }
{
    match units {
        [] => syntax(units),
        [first, ..] if *first == BACKSLASH => Fault::BadEscape { left: units.len() },
        [first, rest @ ..] if *first == OPEN_PARENTHESIS && !deep && begins_mark(rest) => {
            syntax(behind_first(rest))
        }
        [first, rest @ ..] if *first == OPEN_BRACE => braces_fault(rest),
        _ => syntax(units),
    }
}

fn begins_mark(units: &[u16]) -> bool
    ensures { result ≡ starts is_question units.now }
{
    match units {
        [first, ..] => *first == QUESTION,
        [] => false,
    }
}

/// Braces that count, where no atom is in front of them or their numbers don't fit: they are refused
/// at the `}`, since before it the `{` may stand for itself.
fn braces_fault(units: &[u16]) -> Fault
    ensures { result ≡ fault.Syntax (length (from_close units.now)) }
{
    let mut left = units;
    while let [first, rest @ ..] = left {
        if *first == CLOSE_BRACE {
            return syntax(left);
        }
        left = rest;
    }
    syntax(left)
}

/// The fault where neither a member nor `]` is in front.
#[tactic(auto, unfolding(crate::specs::Faults::class_fault))]
pub fn class_fault(units: &[u16]) -> Fault
    ensures { result ≡ class_fault units.now }
{
    match member(units) {
        None => member_fault(units),
        Some((start, range)) => range_fault(start, behind_first(range)),
    }
}

/// The fault where what is behind a `-` is no end of a range.
fn range_fault(start: Member, end: &[u16]) -> Fault
    ensures { result ≡ range_fault start end.now (member_at end.now) }
{
    match member(end) {
        None => member_fault(end),
        Some(_) => match start {
            Member::One(low) => end_fault(low, end),
            Member::Many(_) => member_fault(end),
        },
    }
}

#[tactic(auto, unfolding(crate::specs::Faults::member_fault))]
fn member_fault(units: &[u16]) -> Fault
    ensures { result ≡ member_fault units.now }
{
    match units {
        [first, ..] if *first == BACKSLASH => Fault::BadEscape { left: units.len() },
        _ => syntax(units),
    }
}

/// A range whose end is below its start is refused at the first unit of its end from which on it can
/// only be too low.
#[tactic(auto, unfolding(crate::specs::Faults::end_fault))]
fn end_fault(low: u16, end: &[u16]) -> Fault
    ensures { result ≡ end_fault low end.now }
{
    match end {
        [first, rest @ ..] if *first == BACKSLASH => escaped_end_fault(low, rest),
        _ => syntax(end),
    }
}

/// Behind a backslash.
fn escaped_end_fault(low: u16, units: &[u16]) -> Fault
    ensures { result ≡ escaped_end_fault low units.now }
{
    match units {
        [first, digits @ ..] if *first == LOWER_U => unit_fault(low, digits),
        [first, digits @ ..] if *first == LOWER_X && low <= 0xff => byte_fault(low, digits),
        _ => syntax(units),
    }
}

/// The first of two digits from which on the number can only be below `low`.
#[tactic(auto, unfolding(crate::specs::Faults::byte_fault))]
fn byte_fault(low: u16, digits: &[u16]) -> Fault
    ensures { result ≡ byte_fault low digits.now }
{
    match digits {
        [] => syntax(digits),
        [a, rest @ ..] => {
            let greatest = hexadecimal_value(*a) * 16 + 15;
            if greatest < u32::from(low) {
                syntax(digits)
            } else {
                syntax(rest)
            }
        }
    }
}

/// The first of four digits from which on the number can only be below `low`.
#[tactic(auto, unfolding(crate::specs::Faults::unit_fault))]
fn unit_fault(low: u16, digits: &[u16]) -> Fault
    ensures { result ≡ unit_fault low digits.now }
{
    match digits {
        [a, b, c, rest @ ..] => {
            let first = hexadecimal_value(*a) * 4096;
            if first + 4095 < u32::from(low) {
                return Fault::Syntax { left: digits.len() };
            }
            let second = first + hexadecimal_value(*b) * 256;
            if second + 255 < u32::from(low) {
                return Fault::Syntax {
                    left: digits.len() - 1,
                };
            }
            let third = second + hexadecimal_value(*c) * 16;
            if third + 15 < u32::from(low) {
                return Fault::Syntax {
                    left: digits.len() - 2,
                };
            }
            syntax(rest)
        }
        _ => Fault::Syntax { left: 0 },
    }
}

fn hexadecimal_value(unit: u16) -> u32
    ensures value { result ≡ hexadecimal_value unit }
    ensures small { result ≤ 15 }
{
    if is_hexadecimal(unit) {
        u32::from(digit_value(unit))
    } else {
        0
    }
}
