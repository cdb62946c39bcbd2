//! One input of a bounds file: its name, its kind, and its values.

ghost use Rattle.std.specs.Prelude.{◌≡◌, ◌≤◌, ◌≤ℤ◌, ℕ, List, length, true, codes, IfOk, IfSome, nat_eq};
ghost use Rattle.std.specs.Option.{option_and_then};
ghost use Rattle.std.specs.List.{list_any, IsDistinct};
ghost use Rattle.serde_json.specs.Find.{get, as_integer};
ghost use Rattle.serde_json.specs.View.{view, number_view};
ghost use Rattle.path_core.specs.Accepted.{AreSafe, IsAccepted};
ghost use Rattle.path_core.specs.Form.{Gives, IsField, is_safe, is_declared, is_free, name_of, kind_of, number_of, range_of, numbers_of, length_of, alphabet_of, are_distinct, is_alphabet, spelt, lengths_of, texts_of, values_of_kind, declared_of};
ghost use Rattle.path_core.specs.Inputs.{IsRange};
ghost use Rattle.path_core.specs.Names.{is_name};

use crate::bounds::{BoundsRefusal, Declared, Kind};
use crate::members::{is_kind, refused, text_of};
use crate::names::is_name;
use js_units::Units;
use serde_json::{Number, Value};
use std::alloc::Global;

fn is_declared(name: &[u8], found: &[Declared]) -> bool
    ensures { result ≡ is_declared name.now found.now }
{
    let mut left = found;
    while let [first, rest @ ..] = left {
        if first.name.equals_bytes(name) {
            return true;
        }
        left = rest;
    }
    false
}

/// Whether an input may have the name behind those found.
fn is_free(name: &str, found: &[Declared]) -> bool
    ensures { result ≡ is_free name.now found.now }
{
    is_name(name) && name.len() <= 32 && !is_declared(name.as_bytes(), found)
}

#[tactic(auto, using(crate::proofs::File::field_fails), unfolding(crate::specs::Form::name_of))]
fn name_of(alloc: Global, found: &[Declared], input: &Value) -> Result<Units, BoundsRefusal>
    ensures form { Gives (λ x. x) result (name_of found.now (view input.now)) }
    ensures name { IfOk result (λ name. is_name name ≡ true) }
{
    match text_of(input, "name") {
        Some(name) => {
            if is_free(name, found) {
                Ok(Units::from_bytes(alloc, name.as_bytes())?)
            } else {
                Err(refused(alloc, "name"))
            }
        }
        None => Err(refused(alloc, "name")),
    }
}

/// That the kind is one of the two.
#[tactic(auto, using(crate::proofs::File::field_fails), unfolding(crate::specs::Form::kind_of))]
fn check_kind(alloc: Global, input: &Value) -> Result<(), BoundsRefusal>
    ensures { Gives (λ x. x) result (kind_of (view input.now)) }
{
    if is_kind(input, "int") || is_kind(input, "text") {
        Ok(())
    } else {
        Err(refused(alloc, "kind"))
    }
}

fn whole_of(number: &Number) -> Option<i128>
    ensures { result ≡ as_integer (number_view number.now) }
{
    match number.as_i64() {
        Some(number) => Some(i128::from(number)),
        None => match number.as_u64() {
            Some(number) => Some(i128::from(number)),
            None => None,
        },
    }
}

#[tactic(auto, using(crate::proofs::File::field_fails), unfolding(crate::specs::Form::number_of))]
fn number(alloc: Global, input: &Value, name: &str) -> Result<i128, BoundsRefusal>
    ensures { Gives (λ x. x) result (number_of name.now (view input.now)) }
{
    let number = match input.get(name) {
        Some(member) => member.as_number(),
        None => None,
    };
    let whole = match number {
        Some(number) => whole_of(number),
        None => None,
    };
    match whole {
        Some(whole) => Ok(whole),
        None => Err(refused(alloc, name)),
    }
}

const MAX_SAFE: i128 = 9007199254740991;

fn is_safe(number: i128) -> bool
    ensures { result ≡ is_safe number }
{
    -MAX_SAFE <= number && number <= MAX_SAFE
}

#[tactic(auto, unfolding(crate::specs::Form::range_of))]
fn range(name: &Units, low: i128, high: i128) -> Result<Kind, BoundsRefusal>
    ensures form { Gives (λ x. x) result (range_of name.now low high) }
    ensures range { IfOk result IsRange }
    ensures safe { IfOk result AreSafe }
{
    if low <= high && is_safe(low) && is_safe(high) {
        Ok(Kind::Int {
            low: low as i64,
            high: high as i64,
        })
    } else {
        Err(BoundsRefusal::Range { name: name.copy()? })
    }
}

/// The whole numbers that an input may be.
#[tactic(auto, unfolding(crate::specs::Form::numbers_of))]
fn numbers(alloc: Global, name: &Units, input: &Value) -> Result<Kind, BoundsRefusal>
    ensures form { Gives (λ x. x) result (numbers_of name.now (view input.now)) }
    ensures range { IfOk result IsRange }
    ensures safe { IfOk result AreSafe }
{
    let low = number(alloc, input, "low")?;
    let high = number(alloc, input, "high")?;
    range(name, low, high)
}

/// A length from 0 to 64.
fn length_of(number: i128) -> Option<u32>
    ensures value { result ≡ length_of number }
    ensures short { IfSome result (λ n. n ≤ 64) }
{
    if 0 <= number && number <= 64 {
        Some(number as u32)
    } else {
        None
    }
}

#[tactic(auto, using(crate::proofs::File::field_fails), unfolding(crate::specs::Form::alphabet_of))]
fn alphabet_of(alloc: Global, input: &Value) -> Result<Units, BoundsRefusal>
    ensures { Gives (λ x. x) result (alphabet_of (view input.now)) }
{
    match text_of(input, "alphabet") {
        Some(text) => Ok(Units::from_text(alloc, text)?),
        None => Err(refused(alloc, "alphabet")),
    }
}

fn is_unit_among(unit: u16, units: &[u16]) -> bool
    ensures { result ≡ list_any (nat_eq unit) units.now }
{
    let mut left = units;
    while let [first, rest @ ..] = left {
        if unit == *first {
            return true;
        }
        left = rest;
    }
    false
}

fn are_distinct(units: &[u16]) -> bool
    ensures { result ≡ are_distinct units.now }
{
    let mut left = units;
    while let [first, rest @ ..] = left {
        if is_unit_among(*first, rest) {
            return false;
        }
        left = rest;
    }
    true
}

/// Whether the units are 1 to 256, all different.
fn is_alphabet(units: &Units) -> bool
    ensures { result ≡ is_alphabet units.now }
{
    1 <= units.len() && units.len() <= 256 && are_distinct(units.as_slice())
}

/// The texts of these lengths over an alphabet.
fn spelt(name: &Units, least: u32, most: u32, alphabet: Units) -> Result<Kind, BoundsRefusal>
    requires ordered { least ≤ most }
    requires short { most ≤ 64 }
    ensures form { Gives (λ x. x) result (spelt name.now least most alphabet) }
    ensures range { IfOk result IsRange }
    ensures safe { IfOk result AreSafe }
{
    if is_alphabet(&alphabet) {
        Ok(Kind::Text {
            least,
            most,
            alphabet,
        })
    } else {
        Err(BoundsRefusal::Alphabet { name: name.copy()? })
    }
}

/// The texts between two lengths.
fn lengths(name: &Units, least: i128, most: i128, alphabet: Units) -> Result<Kind, BoundsRefusal>
    ensures form { Gives (λ x. x) result (lengths_of name.now (length_of least) (length_of most) alphabet) }
    ensures range { IfOk result IsRange }
    ensures safe { IfOk result AreSafe }
{
    match (length_of(least), length_of(most)) {
        (Some(least), Some(most)) => {
            if least <= most {
                spelt(name, least, most, alphabet)
            } else {
                Err(BoundsRefusal::Range { name: name.copy()? })
            }
        }
        _ => Err(BoundsRefusal::Range { name: name.copy()? }),
    }
}

/// The texts that an input may be.
#[tactic(auto, unfolding(crate::specs::Form::texts_of))]
fn texts(alloc: Global, name: &Units, input: &Value) -> Result<Kind, BoundsRefusal>
    ensures form { Gives (λ x. x) result (texts_of name.now (view input.now)) }
    ensures range { IfOk result IsRange }
    ensures safe { IfOk result AreSafe }
{
    let least = number(alloc, input, "least")?;
    let most = number(alloc, input, "most")?;
    let alphabet = alphabet_of(alloc, input)?;
    lengths(name, least, most, alphabet)
}

/// What an input may be, by its kind.
fn values(alloc: Global, name: &Units, input: &Value) -> Result<Kind, BoundsRefusal>
    ensures form { Gives (λ x. x) result (values_of_kind name.now (view input.now)) }
    ensures range { IfOk result IsRange }
    ensures safe { IfOk result AreSafe }
{
    if is_kind(input, "int") {
        numbers(alloc, name, input)
    } else {
        texts(alloc, name, input)
    }
}

/// An input behind those found.
#[tactic(auto, unfolding(crate::specs::Form::declared_of))]
pub(crate) fn declared(
    alloc: Global,
    found: &[Declared],
    input: &Value,
) -> Result<Declared, BoundsRefusal>
    ensures form { Gives (λ x. x) result (declared_of found.now (view input.now)) }
    ensures accepted { IfOk result IsAccepted }
{
    let name = name_of(alloc, found, input)?;
    check_kind(alloc, input)?;
    let kind = values(alloc, &name, input)?;
    Ok(Declared { name, kind })
}
