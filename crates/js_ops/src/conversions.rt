//! Conversions of plain contents (ECMA-262, section 7.1).

ghost use Rattle.std.specs.Prelude.{◌≡◌, ◌<◌, ◌≤◌, true, Some, None, IfOk, IfSome};
ghost use Rattle.js_values.specs.Numbers.{fits};
ghost use Rattle.js_meaning.specs.Conversions.{to_boolean, to_number, to_string, is_nullish, is_text, number_value};
ghost use Rattle.js_meaning.specs.Operators.{old_number};
ghost use Rattle.term_table.specs.Fitting.{IsValue};
ghost use Rattle.term_table.specs.Views.{plain_value};

use js_units::{NoMemory, Units, decimal};
use std::alloc::Global;
use term_table::{Plain, Text};

/// ToBoolean (section 7.1.2).
pub fn to_boolean(value: &Plain) -> bool
    ensures { result ≡ to_boolean (plain_value value.now) }
{
    match value {
        Plain::Undefined | Plain::Null | Plain::NotNumber => false,
        Plain::Bool(holds) => *holds,
        Plain::Int(n) => *n != 0,
        Plain::Text(text) => !text.units().is_empty(),
        Plain::Object(_) => true,
    }
}

/// ToNumber (section 7.1.4): a safe integer or NaN; none for a string and an object.
pub fn to_number(value: &Plain) -> Option<Option<i64>>
    requires { IsValue value.now }
    ensures value { result ≡ to_number (plain_value value.now) }
    ensures fits { IfSome result (λ n. fits n ≡ true) }
{
    match value {
        Plain::Undefined | Plain::NotNumber => Some(None),
        Plain::Null => Some(Some(0)),
        Plain::Bool(holds) => Some(Some(if *holds { 1 } else { 0 })),
        Plain::Int(n) => Some(Some(*n)),
        Plain::Text(_) | Plain::Object(_) => None,
    }
}

/// The number as a value.
pub fn number_value(n: Option<i64>) -> Plain
    ensures { plain_value result ≡ number_value n }
{
    match n {
        Some(n) => Plain::Int(n),
        None => Plain::NotNumber,
    }
}

/// The old number of `++` and `--` behind their target (section 13.4.2.1); NaN where the value has none.
pub fn old_number(value: &Plain) -> Plain
    requires { IsValue value.now }
    ensures value { plain_value result ≡ old_number (plain_value value.now) }
    ensures fits { IsValue result }
{
    match to_number(value) {
        Some(number) => number_value(number),
        None => Plain::NotNumber,
    }
}

fn constant(alloc: Global, text: &str) -> Result<Text, NoMemory>
    ensures { IfOk result (λ made. made ≡ text.now) }
{
    let units = Units::from_bytes(alloc, text.as_bytes())?;
    Text::new(alloc, units)
}

/// ToString (section 7.1.17); none for an object.
pub fn to_string(alloc: Global, value: &Plain) -> Result<Option<Text>, NoMemory>
    ensures { IfOk result (λ text. text ≡ to_string (plain_value value.now)) }
{
    let text = match value {
        Plain::Undefined => constant(alloc, "undefined")?,
        Plain::Null => constant(alloc, "null")?,
        Plain::Bool(true) => constant(alloc, "true")?,
        Plain::Bool(false) => constant(alloc, "false")?,
        Plain::Int(n) => Text::new(alloc, decimal(alloc, *n)?)?,
        Plain::NotNumber => constant(alloc, "NaN")?,
        Plain::Text(text) => text.share()?,
        Plain::Object(_) => return Ok(None),
    };
    Ok(Some(text))
}

/// Whether the value is undefined or null.
pub fn is_nullish(value: &Plain) -> bool
    ensures { result ≡ is_nullish (plain_value value.now) }
{
    matches!(value, Plain::Undefined | Plain::Null)
}

pub fn is_text(value: &Plain) -> bool
    ensures { result ≡ is_text (plain_value value.now) }
{
    matches!(value, Plain::Text(_))
}
