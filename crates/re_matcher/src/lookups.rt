//! Tests of the text at one place.

ghost use Rattle.std.specs.Prelude.{◌≡◌, ◌+◌, ◌<◌, ◌≤◌, length, slice_get, slice_range, not, true};
ghost use Rattle.std.specs.List.{starts_with};
ghost use Rattle.js_units.specs.Characters.{is_line_end};
ghost use Rattle.re_ast.specs.Characters.{canonical, is_alike, other_case, fits_at, in_ranges, has_member, in_class, is_word};
ghost use Rattle.re_ast.specs.Successes.{has_at, is_line_start, is_line_stop, is_boundary, word_before};

use js_units::is_line_end;
use re_ast::{ClassSet, Flags};

/// Under `i` small letters of ASCII become capitals (ECMA-262, section 22.2.2.7.3, Canonicalize).
fn canonical(ignore_case: bool, unit: u16) -> u16
    ensures { result ≡ canonical ignore_case unit }
{
    if ignore_case && 97 <= unit && unit <= 122 {
        unit - 32
    } else {
        unit
    }
}

fn is_alike(ignore_case: bool, a: u16, b: u16) -> bool
    ensures { result ≡ is_alike ignore_case a b }
{
    canonical(ignore_case, a) == canonical(ignore_case, b)
}

/// The other unit with the same canonical unit.
fn other_case(ignore_case: bool, unit: u16) -> Option<u16>
    ensures { result ≡ other_case ignore_case unit }
{
    if ignore_case && 97 <= unit && unit <= 122 {
        return Some(unit - 32);
    }
    if ignore_case && 65 <= unit && unit <= 90 {
        return Some(unit + 32);
    }
    None
}

pub fn is_unit(text: &[u16], flags: Flags, place: usize, unit: u16) -> bool
    ensures value { result ≡ fits_at (slice_get text.now place) (λ v. is_alike flags.ignore_case v unit) }
    ensures within { result ≡ true → place < length text.now }
{
    match text.get(place) {
        None => false,
        Some(u) => is_alike(flags.ignore_case, *u, unit),
    }
}

pub fn is_dot(text: &[u16], place: usize) -> bool
    ensures value { result ≡ fits_at (slice_get text.now place) (λ v. not (is_line_end v)) }
    ensures within { result ≡ true → place < length text.now }
{
    match text.get(place) {
        None => false,
        Some(u) => !is_line_end(*u),
    }
}

fn in_some(ranges: &[(u16, u16)], unit: u16) -> bool
    ensures { result ≡ in_ranges ranges.now unit }
{
    ranges
        .iter()
        .any(|range| range.0 <= unit && unit <= range.1)
}

fn is_other_in(ranges: &[(u16, u16)], other: Option<u16>) -> bool
    ensures { result ≡ fits_at other (in_ranges ranges.now) }
{
    match other {
        None => false,
        Some(unit) => in_some(ranges, unit),
    }
}

fn has_member(ignore_case: bool, ranges: &[(u16, u16)], unit: u16) -> bool
    ensures { result ≡ has_member ignore_case ranges.now unit }
{
    in_some(ranges, unit) || is_other_in(ranges, other_case(ignore_case, unit))
}

fn is_in_class(ignore_case: bool, set: &ClassSet, unit: u16) -> bool
    ensures { result ≡ in_class ignore_case set.now unit }
{
    has_member(ignore_case, set.ranges.as_slice(), unit) != set.negated
}

pub fn is_class(text: &[u16], flags: Flags, place: usize, set: &ClassSet) -> bool
    ensures value { result ≡ fits_at (slice_get text.now place) (in_class flags.ignore_case set.now) }
    ensures within { result ≡ true → place < length text.now }
{
    match text.get(place) {
        None => false,
        Some(u) => is_in_class(flags.ignore_case, set, *u),
    }
}

/// The units from `from` up to `to`, as far as there are any.
pub fn part<'t>(text: &'t [u16], from: usize, to: usize) -> &'t [u16]
    ensures { result.now ≡ slice_range text.now from to }
{
    if to <= from {
        &[]
    } else if to <= text.len() {
        &text[from..to]
    } else if from <= text.len() {
        &text[from..]
    } else {
        &[]
    }
}

fn begins_alike(ignore_case: bool, units: &[u16], part: &[u16]) -> bool
    ensures value { result ≡ starts_with (is_alike ignore_case) units.now part.now }
    ensures within { result ≡ true → length part.now ≤ length units.now }
{
    let mut left = units;
    let mut due = part;
    while let [unit, rest @ ..] = due {
        let [first, others @ ..] = left else {
            return false;
        };
        if !is_alike(ignore_case, *unit, *first) {
            return false;
        }
        left = others;
        due = rest;
    }
    true
}

/// These units stand at `place` too (ECMA-262, section 22.2.2.7.2, BackreferenceMatcher).
pub fn stands_again(text: &[u16], flags: Flags, place: usize, part: &[u16]) -> bool
    requires place { place ≤ length text.now }
    ensures value { result ≡ has_at flags text.now place part.now }
    ensures within { result ≡ true → place + length part.now ≤ length text.now }
{
    begins_alike(flags.ignore_case, &text[place..], part)
}

fn is_line_end_at(text: &[u16], place: usize) -> bool
    ensures { result ≡ fits_at (slice_get text.now place) is_line_end }
{
    match text.get(place) {
        None => false,
        Some(u) => is_line_end(*u),
    }
}

pub fn at_line_start(text: &[u16], flags: Flags, place: usize) -> bool
    ensures { result ≡ is_line_start flags text.now place }
{
    match place.checked_sub(1) {
        None => true,
        Some(before) => flags.multiline && is_line_end_at(text, before),
    }
}

pub fn at_line_end(text: &[u16], flags: Flags, place: usize) -> bool
    ensures { result ≡ is_line_stop flags text.now place }
{
    place == text.len() || (flags.multiline && is_line_end_at(text, place))
}

fn is_word_unit(unit: u16) -> bool
    ensures { result ≡ is_word unit }
{
    matches!(unit, 48..=57 | 65..=90 | 95 | 97..=122)
}

fn is_word_at(text: &[u16], place: usize) -> bool
    ensures { result ≡ fits_at (slice_get text.now place) is_word }
{
    match text.get(place) {
        None => false,
        Some(u) => is_word_unit(*u),
    }
}

fn is_word_before(text: &[u16], place: usize) -> bool
    ensures { result ≡ word_before text.now place }
{
    match place.checked_sub(1) {
        None => false,
        Some(before) => is_word_at(text, before),
    }
}

pub fn at_boundary(text: &[u16], place: usize) -> bool
    ensures { result ≡ is_boundary text.now place }
{
    let after = is_word_at(text, place);
    if is_word_before(text, place) {
        !after
    } else {
        after
    }
}
