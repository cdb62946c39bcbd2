//! Each table, row by row.

use crate::running::is_told;
use crate::tables::{
    calls, completions, literals, objects, operators, scopes, statements, turns, waiting, worked,
};
use js_units::NoMemory;
use std::alloc::Global;
use std::test::Fail;

/// Whether a script does what its row tells: the script, what stands behind `path` in its line of a report, and its inputs
/// where it has some.
fn is_true(alloc: Global, row: &str) -> Result<bool, NoMemory> {
    let mut parts = row.split(" → ");
    let script = parts.next().unwrap_or("").as_bytes();
    let told = parts.next().unwrap_or("").as_bytes();
    is_told(alloc, parts.next().unwrap_or(""), 1_000, script, told)
}

/// Whether a script does what its row tells with the turns that stand last.
fn is_true_in_turns(alloc: Global, row: &str) -> Result<bool, NoMemory> {
    let mut parts = row.split(" → ");
    let script = parts.next().unwrap_or("").as_bytes();
    let told = parts.next().unwrap_or("").as_bytes();
    let turns = parts.next().unwrap_or("").parse::<u64>().unwrap_or(0);
    is_told(alloc, "", turns, script, told)
}

/// The first row whose script does something else.
fn wrong_row(alloc: Global, rows: &[&'static str]) -> Result<Option<&'static str>, NoMemory> {
    for row in rows {
        if !is_true(alloc, row)? {
            return Ok(Some(row));
        }
    }
    Ok(None)
}

fn wrong_turns(alloc: Global, rows: &[&'static str]) -> Result<Option<&'static str>, NoMemory> {
    for row in rows {
        if !is_true_in_turns(alloc, row)? {
            return Ok(Some(row));
        }
    }
    Ok(None)
}

#[test]
fn worked(rt: HostRuntime) -> Result<(), Fail> {
    assert_eq!(rt; wrong_row(rt.alloc(), &worked::ROWS)?, None);
    Ok(())
}

#[test]
fn literals(rt: HostRuntime) -> Result<(), Fail> {
    assert_eq!(rt; wrong_row(rt.alloc(), &literals::ROWS)?, None);
    Ok(())
}

#[test]
fn operators(rt: HostRuntime) -> Result<(), Fail> {
    assert_eq!(rt; wrong_row(rt.alloc(), &operators::ROWS)?, None);
    Ok(())
}

#[test]
fn scopes(rt: HostRuntime) -> Result<(), Fail> {
    assert_eq!(rt; wrong_row(rt.alloc(), &scopes::ROWS)?, None);
    Ok(())
}

#[test]
fn objects(rt: HostRuntime) -> Result<(), Fail> {
    assert_eq!(rt; wrong_row(rt.alloc(), &objects::ROWS)?, None);
    Ok(())
}

#[test]
fn calls(rt: HostRuntime) -> Result<(), Fail> {
    assert_eq!(rt; wrong_row(rt.alloc(), &calls::ROWS)?, None);
    Ok(())
}

#[test]
fn statements(rt: HostRuntime) -> Result<(), Fail> {
    assert_eq!(rt; wrong_row(rt.alloc(), &statements::ROWS)?, None);
    Ok(())
}

#[test]
fn completions(rt: HostRuntime) -> Result<(), Fail> {
    assert_eq!(rt; wrong_row(rt.alloc(), &completions::ROWS)?, None);
    Ok(())
}

#[test]
fn waiting(rt: HostRuntime) -> Result<(), Fail> {
    assert_eq!(rt; wrong_row(rt.alloc(), &waiting::ROWS)?, None);
    Ok(())
}

#[test]
fn turns(rt: HostRuntime) -> Result<(), Fail> {
    assert_eq!(rt; wrong_turns(rt.alloc(), &turns::ROWS)?, None);
    Ok(())
}
