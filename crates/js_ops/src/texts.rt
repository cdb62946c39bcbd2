//! Strings: joined and compared.

ghost use Rattle.std.specs.Prelude.{◌≡◌, ◌++◌, ◌≤◌, length, ℕ, IfOk, OnOk};
ghost use Rattle.js_meaning.specs.Operators.{joined, text_less};
ghost use Rattle.js_ops.specs.Contents.{shown, IsRow};

use crate::row::{Row, guarded};
use js_units::{NoMemory, Units, compare};
use path_core::Why;
use std::alloc::Global;
use std::cmp::Ordering;
use term_table::{Plain, Text};

/// The most units of a string.
const MOST_UNITS: usize = 65_536;

fn push_all(units: &mut Units, more: &[u16]) -> Result<(), NoMemory>
    ensures { OnOk result (units.new ≡ units.old ++ more.now) }
{
    let mut left = more;
    while let [first, rest @ ..] = left {
        units.push(*first)?;
        left = rest;
    }
    Ok(())
}

/// Both strings, where they have at most 65,536 units together.
pub fn join(alloc: Global, first: &Text, second: &Text) -> Result<Row, NoMemory>
    ensures row { (site : ℕ) → IfOk result (λ row. shown site row ≡ joined site first.now second.now) }
    ensures whole { IfOk result (λ row. IsRow row) }
{
    let first = first.units();
    let second = second.units();
    if first.len() > MOST_UNITS || second.len() > MOST_UNITS - first.len() {
        return Ok(Row::Failed { why: Why::Size });
    }
    let mut units = first.copy()?;
    push_all(&mut units, second.as_slice())?;
    let text = Text::new(alloc, units)?;
    Ok(guarded(Why::Size, Plain::Text(text)))
}

/// Whether the first string is less (ECMA-262, section 7.2.12).
pub fn is_less(first: &Text, second: &Text) -> bool
    ensures { result ≡ text_less first.now second.now }
{
    match compare(first.units(), second.units()) {
        Ordering::Less => true,
        Ordering::Equal => false,
        Ordering::Greater => false,
    }
}
