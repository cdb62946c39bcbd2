//! Names read back.

ghost use Rattle.std.specs.Prelude.{◌≡◌, IfOk, map};
ghost use Rattle.std.specs.List.{list_all};
ghost use Rattle.std.specs.Option.{option_map};
ghost use Rattle.js_units.specs.Characters.{is_name_part};
ghost use Rattle.js_units.specs.Reading.{many};
ghost use Rattle.path_core.specs.Names.{is_among, is_name, is_reserved, is_word};
ghost use Rattle.report_text.specs.Parts.{part_at, name_at};

use js_units::{NoMemory, RESERVED_WORDS, Units, is_name_part, is_name_start};
use std::alloc::Global;

#[tactic(auto, unfolding(path_core::specs::Names::is_among))]
fn is_among(name: &Units, words: &[&str]) -> bool
    ensures { result ≡ is_among name.now (map (λ w. w.now) words.now) }
{
    let mut left = words;
    while let [first, rest @ ..] = left {
        if name.equals_bytes(first.as_bytes()) {
            return true;
        }
        left = rest;
    }
    false
}

#[tactic(auto, unfolding(js_units::specs::Words::reserved_words))]
fn is_reserved(name: &Units) -> bool
    ensures { result ≡ is_reserved name.now }
{
    is_among(name, &RESERVED_WORDS)
}

fn are_name_parts(units: &[u16]) -> bool
    ensures { result ≡ list_all is_name_part units.now }
{
    units.iter().all(|unit| is_name_part(*unit))
}

fn is_word(units: &[u16]) -> bool
    ensures { result ≡ is_word units.now }
{
    match units {
        [] => false,
        [first, rest @ ..] => is_name_start(*first) && are_name_parts(rest),
    }
}

/// Whether the units are a Name: a letter, `_` or `$`, then such or digits, and no reserved word.
fn is_name(name: &Units) -> bool
    ensures { result ≡ is_name name.now }
{
    is_word(name.as_slice()) && !is_reserved(name)
}

#[tactic(auto, unfolding(crate::specs::Parts::part_at))]
fn part(bytes: &[u8]) -> Option<(u16, &[u8])>
    ensures { option_map (λ x. (x.0, x.1.now)) result ≡ part_at bytes.now }
{
    match bytes {
        [first, rest @ ..] if is_name_part(u16::from(*first)) => Some((u16::from(*first), rest)),
        _ => None,
    }
}

fn parts(alloc: Global, bytes: &[u8]) -> Result<(Units, &[u8]), NoMemory>
    ensures { IfOk result (λ r. (r.0, r.1.now) ≡ many part_at bytes.now) }
{
    let mut name = Units::new(alloc);
    let mut left = bytes;
    while let Some((next, behind)) = part(left) {
        name.push(next)?;
        left = behind;
    }
    Ok((name, left))
}

/// The Name at the front, and what is behind it.
#[tactic(auto, unfolding(crate::specs::Parts::name_at))]
pub(crate) fn name(alloc: Global, bytes: &[u8]) -> Result<Option<(Units, &[u8])>, NoMemory>
    ensures { IfOk result (λ r. option_map (λ x. (x.0, x.1.now)) r ≡ name_at bytes.now) }
{
    let (name, rest) = parts(alloc, bytes)?;
    if is_name(&name) {
        Ok(Some((name, rest)))
    } else {
        Ok(None)
    }
}
