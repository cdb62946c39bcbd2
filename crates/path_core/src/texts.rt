//! The strings over an alphabet, in their order: by their length, then by the place of their units in the alphabet.

ghost use Rattle.std.specs.Prelude.{◌≡◌, ◌≤◌, ◌<◌, ◌-◌, ◌^◌, ◌∷◌, ◌++◌, suc, length, take, min, IfOk, OnOk};
ghost use Rattle.std.specs.List.{flat_map};
ghost use Rattle.path_core.specs.Inputs.{texts_of, lengths_from};
ghost use Rattle.path_core.specs.Order.{first_unit, next_unit, lowest, next_same, next_text};

use js_units::{NoMemory, Units};
use std::alloc::Global;

/// How many strings of `least` to `most` units there are, or the greatest u128 where they are more.
pub(crate) fn texts_count(least: u32, most: u32, alphabet: &[u16]) -> u128
    requires ordered { least ≤ most }
    requires short { most ≤ 64 }
    ensures { result ≡ min (length (flat_map (texts_of alphabet.now) (lengths_from least (suc most - least)))) (2 ^ 128 - 1) }
{
    let units = alphabet.len() as u128;
    let mut total: u128 = 0;
    let mut from = most + 1;
    while from > least {
        from -= 1;
        total = total.saturating_add(units.saturating_pow(from));
    }
    total
}

/// The unit behind another in the alphabet.
fn next_unit(alphabet: &[u16], unit: u16) -> Option<u16>
    ensures { result ≡ next_unit alphabet.now unit }
{
    let mut left = alphabet;
    while let [first, rest @ ..] = left {
        if *first == unit {
            return match rest {
                [next, ..] => Some(*next),
                [] => None,
            };
        }
        left = rest;
    }
    None
}

/// The first unit; 0 where there is none.
fn first_unit(alphabet: &[u16]) -> u16
    ensures { result ≡ first_unit alphabet.now }
{
    match alphabet {
        [first, ..] => *first,
        [] => 0,
    }
}

fn push_all(text: &mut Units, units: &[u16]) -> Result<(), NoMemory>
    ensures { OnOk result (text.new ≡ text.old ++ units.now) }
{
    let mut left = units;
    while let [first, rest @ ..] = left {
        text.push(*first)?;
        left = rest;
    }
    Ok(())
}

/// Adds the first unit of the alphabet so many times.
fn push_lowest(text: &mut Units, alphabet: &[u16], count: usize) -> Result<(), NoMemory>
    ensures { OnOk result (text.new ≡ text.old ++ lowest alphabet.now count) }
{
    let first = first_unit(alphabet);
    let mut left = count;
    while left > 0 {
        left -= 1;
        text.push(first)?;
    }
    Ok(())
}

/// The first text of so many units.
pub(crate) fn first_text(alloc: Global, alphabet: &[u16], count: usize) -> Result<Units, NoMemory>
    ensures { IfOk result (λ text. text ≡ lowest alphabet.now count) }
{
    let mut text = Units::new(alloc);
    push_lowest(&mut text, alphabet, count)?;
    Ok(text)
}

/// The text with another unit at a place, and the first unit at each place behind it.
fn moved(
    alloc: Global,
    alphabet: &[u16],
    text: &[u16],
    at: usize,
    unit: u16,
) -> Result<Units, NoMemory>
    requires { at < length text.now }
    ensures { IfOk result (λ next. next ≡ take at text.now ++ unit ∷ lowest alphabet.now (length text.now - suc at)) }
{
    let mut next = Units::new(alloc);
    push_all(&mut next, &text[..at])?;
    next.push(unit)?;
    push_lowest(&mut next, alphabet, text.len() - at - 1)?;
    Ok(next)
}

/// The next text of as many units, if there is one.
fn next_same(alloc: Global, alphabet: &[u16], text: &[u16]) -> Result<Option<Units>, NoMemory>
    ensures { IfOk result (λ next. next ≡ next_same alphabet.now (length text.now) text.now) }
{
    let mut at = text.len();
    while at > 0 {
        at -= 1;
        if let Some(unit) = next_unit(alphabet, text[at]) {
            let next = moved(alloc, alphabet, text, at, unit)?;
            return Ok(Some(next));
        }
    }
    Ok(None)
}

/// The next text of at most so many units, if there is one.
pub(crate) fn next_text(
    alloc: Global,
    most: u32,
    alphabet: &[u16],
    text: &[u16],
) -> Result<Option<Units>, NoMemory>
    ensures { IfOk result (λ next. next ≡ next_text alphabet.now most text.now) }
{
    match next_same(alloc, alphabet, text)? {
        Some(next) => Ok(Some(next)),
        None => {
            if text.len() < most as usize {
                let longer = first_text(alloc, alphabet, text.len() + 1)?;
                Ok(Some(longer))
            } else {
                Ok(None)
            }
        }
    }
}
