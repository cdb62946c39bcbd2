//! Values of inputs read back.

ghost use Rattle.std.specs.Prelude.{◌≡◌, IfOk};
ghost use Rattle.std.specs.Option.{option_map};
ghost use Rattle.js_units.specs.Reading.{many};
ghost use Rattle.report_text.specs.Inputs.{int_value, text_value, value_at, item_at};

use crate::names::name;
use js_units::{NoMemory, Units, unescape_front};
use path_core::InputValue;
use proof_text::{after, signed};
use sqlite_items::Items;
use std::alloc::Global;

fn int_value(found: Option<(i64, &[u8])>) -> Option<(InputValue, &[u8])>
    ensures { option_map (λ x. (x.0, x.1.now)) result ≡ int_value (option_map (λ x. (x.0, x.1.now)) found.entry) }
{
    match found {
        Some((number, rest)) => Some((InputValue::Int(number), rest)),
        None => None,
    }
}

fn text_value(found: Option<(Units, &[u8])>) -> Option<(InputValue, &[u8])>
    ensures { option_map (λ x. (x.0, x.1.now)) result ≡ text_value (option_map (λ x. (x.0, x.1.now)) found.entry) }
{
    match found {
        Some((text, rest)) => Some((InputValue::Text(text), rest)),
        None => None,
    }
}

/// A number, or a text between quotes.
#[tactic(auto, unfolding(crate::specs::Inputs::value_at))]
fn value(alloc: Global, bytes: &[u8]) -> Result<Option<(InputValue, &[u8])>, NoMemory>
    ensures { IfOk result (λ r. option_map (λ x. (x.0, x.1.now)) r ≡ value_at bytes.now) }
{
    match bytes {
        [] => Ok(None),
        [first, ..] if *first == b'"' => {
            let found = unescape_front(alloc, bytes)?;
            Ok(text_value(found))
        }
        _ => Ok(int_value(signed(1 << 63, (1 << 63) - 1, bytes))),
    }
}

/// A space, a Name, `=` and a value.
#[tactic(auto, unfolding(crate::specs::Inputs::item_at))]
fn item(alloc: Global, bytes: &[u8]) -> Result<Option<((Units, InputValue), &[u8])>, NoMemory>
    ensures { IfOk result (λ r. option_map (λ x. (x.0, x.1.now)) r ≡ item_at bytes.now) }
{
    let start = match after(" ", bytes) {
        Some(start) => start,
        None => return Ok(None),
    };
    let (name, behind) = match name(alloc, start)? {
        Some(read) => read,
        None => return Ok(None),
    };
    let written = match after("=", behind) {
        Some(written) => written,
        None => return Ok(None),
    };
    match value(alloc, written)? {
        Some((value, rest)) => Ok(Some(((name, value), rest))),
        None => Ok(None),
    }
}

/// The items at the front, and what is behind them.
pub(crate) fn items(
    alloc: Global,
    bytes: &[u8],
) -> Result<(Items<(Units, InputValue)>, &[u8]), NoMemory>
    ensures { IfOk result (λ r. (r.0, r.1.now) ≡ many item_at bytes.now) }
{
    let mut found = Items::new(alloc);
    let mut left = bytes;
    loop {
        match item(alloc, left)? {
            Some((next, rest)) => {
                found.push(next)?;
                left = rest;
            }
            None => return Ok((found, left)),
        }
    }
}
