//! Patterns between slashes (ECMA-262, section 12.9.5).

ghost use Rattle.std.specs.Prelude.{◌≡◌, false, ℕ, List};
ghost use Rattle.std.specs.Option.{option_map};
ghost use Rattle.js_lexer.specs.Classes.{is_flag};
ghost use Rattle.js_lexer.specs.Runs.{skip_while, starts};
ghost use Rattle.js_lexer.specs.Patterns.{is_body_unit, class_behind, begins_comment, IsPattern};
ghost use Rattle.js_lexer.specs.Bodies.{taken_along, body_at, slash_at, BodyEndsAt, PatternEndsAt, HasPattern};

use crate::classes::{BACKSLASH, SLASH, STAR, is_flag};
use crate::slices::{units_from, units_to};
use js_units::is_line_end;

const OPEN_BRACKET: u16 = 0x5b;

const CLOSE_BRACKET: u16 = 0x5d;

#[tactic(auto, unfolding(crate::specs::Patterns::is_body_unit))]
fn is_body_unit(in_class: bool, unit: u16) -> bool
    ensures { result ≡ is_body_unit in_class unit }
{
    !(is_line_end(unit) || unit == BACKSLASH || (unit == SLASH && !in_class))
}

#[tactic(auto, unfolding(crate::specs::Patterns::class_behind))]
fn class_behind(in_class: bool, unit: u16) -> bool
    ensures { result ≡ class_behind in_class unit }
{
    match unit {
        OPEN_BRACKET => true,
        CLOSE_BRACKET => false,
        _ => in_class,
    }
}

/// What is behind a unit that a backslash takes along.
fn taken_along(in_class: bool, units: &[u16]) -> Option<(bool, &[u16])>
    ensures { option_map (λ x. (x.0, x.1.now)) result ≡ taken_along in_class units.now }
{
    match units {
        [first, rest @ ..] if !is_line_end(*first) => Some((in_class, rest)),
        _ => None,
    }
}

/// A unit of a body, or an escape: whether what follows is in a class, and what is behind it.
#[tactic(auto, unfolding(crate::specs::Bodies::body_at))]
fn step(in_class: bool, units: &[u16]) -> Option<(bool, &[u16])>
    ensures { option_map (λ x. (x.0, x.1.now)) result ≡ body_at in_class units.now }
{
    match units {
        [first, rest @ ..] if *first == BACKSLASH => taken_along(in_class, rest),
        [first, rest @ ..] if is_body_unit(in_class, *first) => {
            Some((class_behind(in_class, *first), rest))
        }
        _ => None,
    }
}

/// What is behind a slash at the front that is in no class.
fn slash(in_class: bool, units: &[u16]) -> Option<&[u16]>
    ensures { option_map (λ x. x.now) result ≡ slash_at in_class units.now }
{
    match units {
        [first, rest @ ..] if *first == SLASH && !in_class => Some(rest),
        _ => None,
    }
}

/// What is behind the slash that closes a body.
fn after_body(units: &[u16]) -> Option<&[u16]>
    ensures { BodyEndsAt false units.now (option_map (λ x. x.now) result) }
{
    let mut in_class = false;
    let mut left = units;
    while let Some((next_in_class, behind)) = step(in_class, left) {
        in_class = next_in_class;
        left = behind;
    }
    slash(in_class, left)
}

/// What is behind the letters and digits at the front.
fn after_flags(units: &[u16]) -> &[u16]
    ensures { result.now ≡ skip_while is_flag units.now }
{
    let mut left = units;
    while let [first, rest @ ..] = left {
        if !is_flag(*first) {
            return left;
        }
        left = rest;
    }
    left
}

/// Whether the units would begin a comment behind a slash.
#[tactic(auto, unfolding(crate::specs::Patterns::begins_comment))]
fn begins_comment(units: &[u16]) -> bool
    ensures { result ≡ starts begins_comment units.now }
{
    match units {
        [first, ..] => *first == STAR || *first == SLASH,
        _ => false,
    }
}

/// What is behind the flags of a pattern whose opening slash stands before the units.
pub fn after_pattern(units: &[u16]) -> Option<&[u16]>
    ensures { PatternEndsAt units.now (option_map (λ x. x.now) result) }
{
    if begins_comment(units) {
        return None;
    }
    let behind = after_body(units)?;
    Some(after_flags(behind))
}

/// The body and the flags of the pattern at the front.
pub fn pattern_parts(units: &[u16]) -> (&[u16], &[u16])
    requires { HasPattern units.now }
    ensures body { (body flags rest : List ℕ) → IsPattern units.now body flags rest → result.0.now ≡ body }
    ensures flags { (body flags rest : List ℕ) → IsPattern units.now body flags rest → result.1.now ≡ flags }
{
    let inside = units_from(units, 1);
    match after_body(inside) {
        Some(behind) => {
            let body = units_to(inside, inside.len() - behind.len() - 1);
            let flags = units_to(behind, behind.len() - after_flags(behind).len());
            (body, flags)
        }
        None => unreachable!(),
    }
}
