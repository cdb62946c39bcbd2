//! Words and numbers read back.

ghost use Rattle.std.specs.Prelude.{◌≡◌, ◌<◌, ◌^◌, IfSome, map};
ghost use Rattle.std.specs.Option.{option_map};
ghost use Rattle.report_text.specs.Parts.{one_of, short_at, plus_at};
ghost use Rattle.proof_text.specs.Numbers.{not_zero};

use proof_text::{after, number};

/// What the first of the words that stands in front says, and what is behind it.
pub(crate) fn one_of<'a, T: Copy>(table: &[(&str, T)], bytes: &'a [u8]) -> Option<(T, &'a [u8])>
    ensures { option_map (λ x. (x.0, x.1.now)) result ≡ one_of (map (λ e. (e.0.now, e.1)) table.now) bytes.now }
{
    let mut entries = table;
    while let [(word, said), others @ ..] = entries {
        if let Some(rest) = after(word, bytes) {
            return Some((*said, rest));
        }
        entries = others;
    }
    None
}

/// A number of 32 bits.
pub(crate) fn short(bytes: &[u8]) -> Option<(u32, &[u8])>
    ensures { option_map (λ x. (x.0, x.1.now)) result ≡ short_at bytes.now }
{
    match number(u64::from(u32::MAX), bytes) {
        Some((number, rest)) => Some((number as u32, rest)),
        None => None,
    }
}

fn not_zero(found: Option<(u32, &[u8])>) -> Option<(u32, &[u8])>
    ensures { option_map (λ x. (x.0, x.1.now)) result ≡ not_zero (option_map (λ x. (x.0, x.1.now)) found.entry) }
{
    match found {
        Some((0, _)) => None,
        Some((number, rest)) => Some((number, rest)),
        None => None,
    }
}

/// `+` and a number that isn't 0, or 0 where no `+` stands there.
#[tactic(auto, unfolding(crate::specs::Parts::plus_at))]
pub(crate) fn plus(bytes: &[u8]) -> Option<(u32, &[u8])>
    ensures { option_map (λ x. (x.0, x.1.now)) result ≡ plus_at bytes.now }
{
    match bytes {
        [first, rest @ ..] if *first == b'+' => not_zero(short(rest)),
        _ => Some((0, bytes)),
    }
}
