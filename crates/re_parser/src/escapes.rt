//! Escapes and the members of classes (ECMA-262, sections 22.2.1 and B.1.2). Each function reads at the
//! front of units, and answers what is behind.

ghost use Rattle.std.specs.Prelude.{◌≡◌, ◌<◌, ◌≤◌, length, drop, IfSome};
ghost use Rattle.std.specs.Option.{option_map};
ghost use Rattle.re_parser.specs.Escapes.{starts, byte_at, unit_at, null_at, character_at, class_escape_of, escaped_member_at, member_at, begins_range, range_of, item_at};

use crate::characters::{BACKSLASH, CLOSE_BRACKET, HYPHEN, control_of, is_sign};
use crate::kinds::{ClassEscape, ClassItem, Member};
use js_units::{digit_value, is_digit, is_hexadecimal};

const LOWER_B: u16 = 0x62;

const LOWER_U: u16 = 0x75;

const LOWER_X: u16 = 0x78;

const ZERO: u16 = 0x30;

const BACKSPACE: u16 = 0x08;

/// Two hexadecimal digits.
#[tactic(auto, unfolding(crate::specs::Escapes::byte_at))]
fn byte(units: &[u16]) -> Option<(u16, &[u16])>
    ensures read { option_map (λ x. (x.0, x.1.now)) result ≡ byte_at units.now }
    ensures shorter { IfSome result (λ x. length x.1.now < length units.now) }
{
    match units {
        [a, b, rest @ ..] if is_hexadecimal(*a) && is_hexadecimal(*b) => {
            Some((digit_value(*a) * 16 + digit_value(*b), rest))
        }
        _ => None,
    }
}

/// Four hexadecimal digits.
#[tactic(auto, unfolding(crate::specs::Escapes::unit_at))]
fn unit(units: &[u16]) -> Option<(u16, &[u16])>
    ensures read { option_map (λ x. (x.0, x.1.now)) result ≡ unit_at units.now }
    ensures shorter { IfSome result (λ x. length x.1.now < length units.now) }
{
    match units {
        [a, b, c, d, rest @ ..]
            if is_hexadecimal(*a)
                && is_hexadecimal(*b)
                && is_hexadecimal(*c)
                && is_hexadecimal(*d) => {
            let high = digit_value(*a) * 4096 + digit_value(*b) * 256;
            let low = digit_value(*c) * 16 + digit_value(*d);
            Some((high + low, rest))
        }
        _ => None,
    }
}

/// Behind `\0`, where no digit stands.
fn null(units: &[u16]) -> Option<(u16, &[u16])>
    ensures read { option_map (λ x. (x.0, x.1.now)) result ≡ null_at units.now }
    ensures shorter { IfSome result (λ x. length x.1.now ≤ length units.now) }
{
    match units {
        [next, ..] if is_digit(*next) => None,
        _ => Some((0, units)),
    }
}

/// Behind a backslash, what stands for one unit.
#[tactic(auto, unfolding(crate::specs::Escapes::character_at))]
pub fn character(units: &[u16]) -> Option<(u16, &[u16])>
    ensures read { option_map (λ x. (x.0, x.1.now)) result ≡ character_at units.now }
    ensures shorter { IfSome result (λ x. length x.1.now < length units.now) }
{
    match units {
        [] => None,
        [first, rest @ ..] if *first == LOWER_X => byte(rest),
        [first, rest @ ..] if *first == LOWER_U => unit(rest),
        [first, rest @ ..] if *first == ZERO => null(rest),
        [first, rest @ ..] if is_sign(*first) => Some((*first, rest)),
        [first, rest @ ..] => match control_of(*first) {
            Some(unit) => Some((unit, rest)),
            None => None,
        },
    }
}

/// The class escape of a letter behind a backslash.
#[tactic(auto, unfolding(crate::specs::Escapes::class_escape_of))]
pub fn class_escape_of(unit: u16) -> Option<ClassEscape>
    ensures { result ≡ class_escape_of unit }
{
    match unit {
        100 => Some(ClassEscape::Digit),
        68 => Some(ClassEscape::NotDigit),
        115 => Some(ClassEscape::Space),
        83 => Some(ClassEscape::NotSpace),
        119 => Some(ClassEscape::WordUnit),
        87 => Some(ClassEscape::NotWordUnit),
        _ => None,
    }
}

/// Behind a backslash in a class.
#[tactic(auto, unfolding(crate::specs::Escapes::escaped_member_at))]
fn escaped_member(units: &[u16]) -> Option<(Member, &[u16])>
    ensures read { option_map (λ x. (x.0, x.1.now)) result ≡ escaped_member_at units.now }
    ensures shorter { IfSome result (λ x. length x.1.now < length units.now) }
{
    let [first, rest @ ..] = units else {
        return None;
    };
    if *first == LOWER_B {
        return Some((Member::One(BACKSPACE), rest));
    }
    if let Some(escape) = class_escape_of(*first) {
        return Some((Member::Many(escape), rest));
    }
    match character(units) {
        Some((unit, behind)) => Some((Member::One(unit), behind)),
        None => None,
    }
}

/// A member of a class.
#[tactic(auto, unfolding(crate::specs::Escapes::member_at))]
pub fn member(units: &[u16]) -> Option<(Member, &[u16])>
    ensures read { option_map (λ x. (x.0, x.1.now)) result ≡ member_at units.now }
    ensures shorter { IfSome result (λ x. length x.1.now < length units.now) }
{
    match units {
        [] => None,
        [first, rest @ ..] if *first == BACKSLASH => escaped_member(rest),
        [first, ..] if *first == CLOSE_BRACKET => None,
        [first, rest @ ..] => Some((Member::One(*first), rest)),
    }
}

/// Whether a `-` stands in front that no `]` follows.
fn begins_range(units: &[u16]) -> bool
    ensures { result ≡ begins_range units.now }
{
    match units {
        [] => false,
        [first] => *first == HYPHEN,
        [first, second, ..] => *first == HYPHEN && *second != CLOSE_BRACKET,
    }
}

/// Two members with `-` between them: a range of which the end isn't below the start, unless one of
/// them is a class escape.
fn range_of(start: Member, end: Member) -> Option<ClassItem>
    ensures { result ≡ range_of start end }
{
    match (start, end) {
        (Member::One(low), Member::One(high)) => {
            if low <= high {
                Some(ClassItem::Range(low, high))
            } else {
                None
            }
        }
        (Member::One(_), Member::Many(_)) => Some(ClassItem::Apart(start, end)),
        (Member::Many(_), _) => Some(ClassItem::Apart(start, end)),
    }
}

/// The units behind the first one.
pub fn behind_first(units: &[u16]) -> &[u16]
    ensures value { result.now ≡ drop 1 units.now }
    ensures shorter { length result.now ≤ length units.now }
{
    match units {
        [_, rest @ ..] => rest,
        [] => units,
    }
}

/// A member of a class, or two with `-` between them.
#[tactic(auto, unfolding(crate::specs::Escapes::item_at))]
pub fn class_item(units: &[u16]) -> Option<(ClassItem, &[u16])>
    ensures read { option_map (λ x. (x.0, x.1.now)) result ≡ item_at units.now }
    ensures shorter { IfSome result (λ x. length x.1.now < length units.now) }
{
    let (start, rest) = member(units)?;
    if !begins_range(rest) {
        return Some((ClassItem::Single(start), rest));
    }
    let (end, behind) = member(behind_first(rest))?;
    let item = range_of(start, end)?;
    Some((item, behind))
}
