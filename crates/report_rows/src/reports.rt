//! What reading says of a report, and whether it is written again as it was.

use crate::damages::{BASE, DAMAGES, VARIANTS};
use js_units::NoMemory;
use report_text::{ReportRefusal, read_report, write_report};
use std::alloc::Global;
use std::test::Fail;

/// The line that is refused, or 0 where the bytes are read and written again.
fn refused_line(alloc: Global, bytes: &[u8]) -> Result<u64, NoMemory> {
    match read_report(alloc, bytes) {
        Ok(report) => {
            let text = write_report(alloc, &report, true)?;
            drop(report);
            Ok(if text.as_slice() == bytes {
                0
            } else {
                u64::MAX
            })
        }
        Err(ReportRefusal::Line { line }) => Ok(line),
        Err(ReportRefusal::NoMemory) => Err(NoMemory),
    }
}

/// The report with another text in the place of a line, counted from 1.
fn with_line(alloc: Global, number: usize, text: &str) -> Result<Vec<u8>, NoMemory> {
    let mut bytes = Vec::new(alloc);
    for (before, line) in BASE.iter().enumerate() {
        let line = if before.wrapping_add(1) == number {
            text
        } else {
            line
        };
        bytes.extend_from_slice(line.as_bytes())?;
        bytes.push(b'\n')?;
    }
    Ok(bytes)
}

fn number(text: &str) -> usize {
    text.parse::<usize>().unwrap_or(0)
}

/// The line that is refused where a row is followed, and the one that it tells: where it tells none, its own or 0.
fn refused_and_told(alloc: Global, row: &str, refused: bool) -> Result<(u64, u64), NoMemory> {
    let mut parts = row.split(" → ");
    let place = number(parts.next().unwrap_or(""));
    let bytes = with_line(alloc, place, parts.next().unwrap_or(""))?;
    let told = match parts.next() {
        Some(line) => number(line),
        None if refused => place,
        None => 0,
    };
    Ok((refused_line(alloc, bytes.as_slice())?, told as u64))
}

/// The first row that another line than its own is refused for, or one where none should be.
fn wrong_row(
    alloc: Global,
    rows: &[&'static str],
    refused: bool,
) -> Result<Option<&'static str>, NoMemory> {
    for row in rows {
        let (found, told) = refused_and_told(alloc, row, refused)?;
        if found != told {
            return Ok(Some(row));
        }
    }
    Ok(None)
}

/// The first lines of the report, and so many bytes of the next one.
fn front(alloc: Global, lines: usize, more: usize) -> Result<Vec<u8>, NoMemory> {
    let mut bytes = Vec::new(alloc);
    for (before, line) in BASE.iter().enumerate() {
        if before < lines {
            bytes.extend_from_slice(line.as_bytes())?;
            bytes.push(b'\n')?;
        } else if before == lines {
            bytes.extend_from_slice(line.as_bytes().get(..more).unwrap_or(line.as_bytes()))?;
        }
    }
    Ok(bytes)
}

/// The number of lines behind which an end, or a cut within the next line, isn't told as a fault of the next line.
fn wrong_front(alloc: Global) -> Result<Option<usize>, NoMemory> {
    for lines in 0..BASE.len() {
        let wanted = (lines as u64).wrapping_add(1);
        let ended = refused_line(alloc, front(alloc, lines, 0)?.as_slice())?;
        let cut = refused_line(alloc, front(alloc, lines, 5)?.as_slice())?;
        let whole = refused_line(alloc, front(alloc, lines, usize::MAX)?.as_slice())?;
        if ended != wanted || cut != wanted || whole != wanted {
            return Ok(Some(lines));
        }
    }
    Ok(None)
}

/// A report with one proof block, as a command prints it.
const PROOF: &[u8] =
    b"expose 1\npath n=0 | b0=0 | done\npath n=4 | b0=1 b13=0 | done\ninfeasible b0=1 | b13=0\nblock 2 4 2\nc 1 2 0\nc 1 -2 0\nc -1 2 0\nc -1 -2 0\ns 1 0 1 2 0\ns 0 5 3 4 0\ncomplete\n";

#[test]
fn reports(rt: HostRuntime) -> Result<(), Fail> {
    let alloc = rt.alloc();
    let whole = with_line(alloc, 0, "")?;
    let lines = [
        refused_line(alloc, whole.as_slice())?,
        refused_line(alloc, PROOF)?,
        refused_line(alloc, PROOF.get(..PROOF.len() - 9).unwrap_or(PROOF))?,
        refused_line(alloc, b"")?,
    ];
    assert_eq!(rt; lines, [0, 0, 12, 1]);
    Ok(())
}

#[test]
fn variants(rt: HostRuntime) -> Result<(), Fail> {
    assert_eq!(rt; wrong_row(rt.alloc(), &VARIANTS, false)?, None);
    Ok(())
}

#[test]
fn damages(rt: HostRuntime) -> Result<(), Fail> {
    assert_eq!(rt; wrong_row(rt.alloc(), &DAMAGES, true)?, None);
    Ok(())
}

#[test]
fn fronts(rt: HostRuntime) -> Result<(), Fail> {
    assert_eq!(rt; wrong_front(rt.alloc())?, None);
    Ok(())
}
