//! The inputs within bounds: how many they are, the first one, and each next one.

ghost use Rattle.std.specs.Prelude.{◌≡◌, ◌<◌, ◌+◌, ◌^◌, ◌-◌, List, ◌∷◌, ◌++◌, length, take, drop, min, All, IfOk, OnOk, OnErr, Ok, true, false};
ghost use Rattle.path_core.specs.declared.bounds.Kind.TheVariants as kinds;
ghost use Rattle.path_core.specs.Inputs.{Values, values_of, within, IsWithin, IsNext, IsLast, IsRange};
ghost use Rattle.path_core.specs.Order.{first_value, next_value, first_of, next_of};

use crate::bounds::{Bounds, Declared, Kind};
use crate::path::{Input, InputValue};
use crate::texts::{first_text, next_text, texts_count};
use js_units::NoMemory;
use sqlite_items::Items;
use std::alloc::Global;

/// How many whole numbers there are from one to another, from 1 to 2^64.
fn numbers_count(low: i64, high: i64) -> u128
    requires { IsRange (kinds.Int low high) }
    ensures { result ≡ min (length (values_of (kinds.Int low high))) (2 ^ 128 - 1) }
{
    (i128::from(high) - i128::from(low) + 1) as u128
}

/// How many values a kind has, or the greatest u128 where they are more.
fn size(kind: &Kind) -> u128
    requires { IsRange kind.now }
    ensures { result ≡ min (length (values_of kind.now)) (2 ^ 128 - 1) }
{
    match kind {
        Kind::Int { low, high } => numbers_count(*low, *high),
        Kind::Text {
            least,
            most,
            alphabet,
        } => texts_count(*least, *most, alphabet.as_slice()),
    }
}

/// How many inputs there are, or the greatest u128 where they are more. Takes no memory.
pub fn count(bounds: &Bounds) -> u128
    requires { All (λ d. IsRange d.kind) bounds.now.inputs }
    ensures { result ≡ min (length (within bounds.now.inputs)) (2 ^ 128 - 1) }
{
    let mut total: u128 = 1;
    let mut left = bounds.inputs.as_slice();
    while let [first, rest @ ..] = left {
        total = total.saturating_mul(size(&first.kind));
        left = rest;
    }
    total
}

/// The first value of a kind.
fn first_value(alloc: Global, kind: &Kind) -> Result<InputValue, NoMemory>
    ensures { IfOk result (λ value. value ≡ first_value kind.now) }
{
    match kind {
        Kind::Int { low, .. } => Ok(InputValue::Int(*low)),
        Kind::Text {
            least,
            alphabet,
            ..
        } => {
            let text = first_text(alloc, alphabet.as_slice(), *least as usize)?;
            Ok(InputValue::Text(text))
        }
    }
}

/// The value behind another, if there is one.
fn next_value(
    alloc: Global,
    kind: &Kind,
    value: &InputValue,
) -> Result<Option<InputValue>, NoMemory>
    ensures { IfOk result (λ next. next ≡ next_value kind.now value.now) }
{
    match (kind, value) {
        (Kind::Int { high, .. }, InputValue::Int(number)) => {
            if *number < *high {
                Ok(Some(InputValue::Int(*number + 1)))
            } else {
                Ok(None)
            }
        }
        (Kind::Text { most, alphabet, .. }, InputValue::Text(text)) => {
            match next_text(alloc, *most, alphabet.as_slice(), text.as_slice())? {
                Some(next) => Ok(Some(InputValue::Text(next))),
                None => Ok(None),
            }
        }
        (Kind::Int { .. }, InputValue::Text(_)) => Ok(None),
        (Kind::Text { .. }, InputValue::Int(_)) => Ok(None),
    }
}

/// Adds the first value of each name.
fn push_firsts(
    alloc: Global,
    declared: &[Declared],
    values: &mut Items<InputValue>,
) -> Result<(), NoMemory>
    ensures { OnOk result (values.new ≡ values.old ++ first_of declared.now) }
{
    let mut left = declared;
    while let [first, rest @ ..] = left {
        let value = first_value(alloc, &first.kind)?;
        values.push(value)?;
        left = rest;
    }
    Ok(())
}

/// The first value of each name.
fn first_values(alloc: Global, declared: &[Declared]) -> Result<Items<InputValue>, NoMemory>
    ensures { IfOk result (λ values. values ≡ first_of declared.now) }
{
    let mut values = Items::new(alloc);
    push_firsts(alloc, declared, &mut values)?;
    Ok(values)
}

/// The first input.
pub fn first_input(alloc: Global, bounds: &Bounds) -> Result<Input, NoMemory>
    requires { All (λ d. IsRange d.kind) bounds.now.inputs }
    ensures first { IfOk result (λ input. (rest : List Values) × (within bounds.now.inputs ≡ input.values ∷ rest)) }
    ensures within { IfOk result (λ input. IsWithin bounds.now.inputs input.values) }
{
    let values = first_values(alloc, bounds.inputs.as_slice())?;
    Ok(Input { values })
}

fn copy_of(value: &InputValue) -> Result<InputValue, NoMemory>
    ensures { IfOk result (λ copy. copy ≡ value.now) }
{
    match value {
        InputValue::Int(number) => Ok(InputValue::Int(*number)),
        InputValue::Text(text) => {
            let text = text.copy()?;
            Ok(InputValue::Text(text))
        }
    }
}

fn copies(alloc: Global, values: &[InputValue]) -> Result<Items<InputValue>, NoMemory>
    ensures { IfOk result (λ copies. copies ≡ values.now) }
{
    let mut copies = Items::new(alloc);
    let mut left = values;
    while let [first, rest @ ..] = left {
        let copy = copy_of(first)?;
        copies.push(copy)?;
        left = rest;
    }
    Ok(copies)
}

/// The values with another one at a place, and the first value of each name behind it.
fn moved(
    alloc: Global,
    declared: &[Declared],
    values: &[InputValue],
    at: usize,
    next: InputValue,
) -> Result<Items<InputValue>, NoMemory>
    requires each { length values.now ≡ length declared.now }
    requires place { at < length declared.now }
    ensures { IfOk result (λ moved. moved ≡ take at values.now ++ next ∷ first_of (drop (at + 1) declared.now)) }
{
    let mut moved = copies(alloc, &values[..at])?;
    moved.push(next)?;
    push_firsts(alloc, &declared[at + 1..], &mut moved)?;
    Ok(moved)
}

/// The next values, by the last name that has one.
fn next_values(
    alloc: Global,
    declared: &[Declared],
    values: &[InputValue],
) -> Result<Option<Items<InputValue>>, NoMemory>
    requires { length values.now ≡ length declared.now }
    ensures { IfOk result (λ next. next ≡ next_of declared.now values.now) }
{
    let mut at = declared.len();
    while at > 0 {
        at -= 1;
        let found = next_value(alloc, &declared[at].kind, &values[at])?;
        if let Some(next) = found {
            let moved = moved(alloc, declared, values, at, next)?;
            return Ok(Some(moved));
        }
    }
    Ok(None)
}

/// The next input, in place, with Ok(true). At the last one Ok(false), and the input stays. It stays
/// also where memory runs out.
pub fn next_input(alloc: Global, bounds: &Bounds, input: &mut Input) -> Result<bool, NoMemory>
    requires ranges { All (λ d. IsRange d.kind) bounds.now.inputs }
    requires within { IsWithin bounds.now.inputs input.old.values }
    ensures more { result ≡ Ok true → IsNext (within bounds.now.inputs) input.old.values input.new.values }
    ensures last { result ≡ Ok false → IsLast (within bounds.now.inputs) input.old.values }
    ensures last_stays { result ≡ Ok false → input.new ≡ input.old }
    ensures err { OnErr result (input.new ≡ input.old) }
    ensures within { IsWithin bounds.now.inputs input.new.values }
{
    let next = next_values(alloc, bounds.inputs.as_slice(), input.values.as_slice())?;
    match next {
        Some(values) => {
            input.values = values;
            Ok(true)
        }
        None => Ok(false),
    }
}
