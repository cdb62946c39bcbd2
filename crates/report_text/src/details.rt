//! Lines that stand under a line about a query, read back.

ghost use Rattle.std.specs.Prelude.{◌≡◌, IfOk};
ghost use Rattle.std.specs.Option.{option_map};
ghost use Rattle.report_text.specs.Details.{input_line_at, number_line_at};

use crate::inputs::items;
use js_units::{NoMemory, Units};
use path_core::InputValue;
use proof_text::{after, number};
use sqlite_items::Items;
use std::alloc::Global;

/// The word and an input.
#[tactic(auto, unfolding(crate::specs::Details::input_line_at))]
pub(crate) fn input_line<'a>(
    alloc: Global,
    word: &str,
    bytes: &'a [u8],
) -> Result<Option<(Items<(Units, InputValue)>, &'a [u8])>, NoMemory>
    ensures { IfOk result (λ r. option_map (λ x. (x.0, x.1.now)) r ≡ input_line_at word.now bytes.now) }
{
    let start = match after(word, bytes) {
        Some(start) => start,
        None => return Ok(None),
    };
    let (input, left) = items(alloc, start)?;
    match after("\n", left) {
        Some(rest) => Ok(Some((input, rest))),
        None => Ok(None),
    }
}

/// The word and a number.
#[tactic(auto, unfolding(crate::specs::Details::number_line_at))]
pub(crate) fn number_line<'a>(word: &str, bytes: &'a [u8]) -> Option<(u64, &'a [u8])>
    ensures { option_map (λ x. (x.0, x.1.now)) result ≡ number_line_at word.now bytes.now }
{
    let start = after(word, bytes)?;
    let (number, left) = number(u64::MAX, start)?;
    let rest = after("\n", left)?;
    Some((number, rest))
}
