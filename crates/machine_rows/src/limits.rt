//! Scripts that are made of pieces, since they are long, or their paths are.

mod chains;
mod counts;
mod nodes;
mod sizes;

use crate::running::is_told;
use js_units::NoMemory;
use std::alloc::Global;
use std::test::Fail;

/// Adds the text, with a number in the place of each `#`.
fn push_numbered(
    alloc: Global,
    out: &mut Vec<u8>,
    text: &str,
    number: u32,
) -> Result<(), NoMemory> {
    let mut parts = text.split('#');
    out.extend_from_slice(parts.next().unwrap_or("").as_bytes())?;
    for part in parts {
        out.extend_from_slice(number.to_string(alloc)?.as_bytes())?;
        out.extend_from_slice(part.as_bytes())?;
    }
    Ok(())
}

/// Adds what a piece, as `20: x#;`, stands for: its text so many times, with the number of those before it for `#`.
fn push_repeated(alloc: Global, out: &mut Vec<u8>, piece: &str) -> Result<(), NoMemory> {
    let (count, text) = piece.split_once(':').unwrap_or(("", ""));
    for number in 0..count.parse::<u32>().unwrap_or(0) {
        push_numbered(alloc, out, text, number)?;
    }
    Ok(())
}

/// What a text with pieces between two "`" stands for.
fn unfolded(alloc: Global, text: &str) -> Result<Vec<u8>, NoMemory> {
    let mut out = Vec::new(alloc);
    for (place, part) in text.split('`').enumerate() {
        if place & 1 == 0 {
            out.extend_from_slice(part.as_bytes())?;
        } else {
            push_repeated(alloc, &mut out, part)?;
        }
    }
    Ok(out)
}

/// Whether a script does what its row tells: the script, what stands behind `path` in its line of a report, both with
/// pieces, and the turns.
fn is_true(alloc: Global, row: &str) -> Result<bool, NoMemory> {
    let mut parts = row.split(" → ");
    let script = unfolded(alloc, parts.next().unwrap_or(""))?;
    let told = unfolded(alloc, parts.next().unwrap_or(""))?;
    let turns = parts.next().unwrap_or("").parse::<u64>().unwrap_or(0);
    is_told(alloc, "", turns, script.as_slice(), told.as_slice())
}

/// The first row whose script does something else.
fn wrong_row(alloc: Global, rows: &[&'static str]) -> Result<Option<&'static str>, NoMemory> {
    for row in rows {
        if !is_true(alloc, row)? {
            return Ok(Some(row));
        }
    }
    Ok(None)
}

#[test]
fn event_limits(rt: HostRuntime) -> Result<(), Fail> {
    assert_eq!(rt; wrong_row(rt.alloc(), &counts::ROWS)?, None);
    Ok(())
}

#[test]
fn long_and_deep(rt: HostRuntime) -> Result<(), Fail> {
    assert_eq!(rt; wrong_row(rt.alloc(), &chains::ROWS)?, None);
    Ok(())
}

#[test]
fn size_limits(rt: HostRuntime) -> Result<(), Fail> {
    assert_eq!(rt; wrong_row(rt.alloc(), &sizes::ROWS)?, None);
    Ok(())
}

#[test]
fn node_limits(rt: HostRuntime) -> Result<(), Fail> {
    assert_eq!(rt; wrong_row(rt.alloc(), &nodes::ROWS)?, None);
    Ok(())
}
