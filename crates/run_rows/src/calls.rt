//! Rows on the top call.

mod examples;
mod faults;
mod refusals;
mod rows;

use commands::run;
use ex_base::{MemFiles, MemSink};
use std::alloc::Global;
use std::test::Fail;
use std::thread::Threads;

fn bytes(alloc: Global, text: &str) -> Result<Vec<u8>, Fail> {
    Ok(Vec::from_slice(alloc, text.as_bytes())?)
}

/// The words, parted by single spaces.
fn words(alloc: Global, line: &str) -> Result<Vec<Vec<u8>>, Fail> {
    let mut words = Vec::new(alloc);
    for word in line.split(' ') {
        words.push(bytes(alloc, word)?)?;
    }
    Ok(words)
}

/// Runs the words over a file `s` of the script and a file `b` of the bounds, into a sink of this piece, where the
/// writes of these numbers fail.
fn status<R: Threads + Sync>(
    rt: &R,
    alloc: Global,
    line: &str,
    script: &[u8],
    bounds: &str,
    fails: Vec<u64>,
    out: &mut MemSink,
) -> Result<u8, Fail> {
    let mut held = Vec::new(alloc);
    held.push((bytes(alloc, "s")?, Vec::from_slice(alloc, script)?))?;
    held.push((bytes(alloc, "b")?, bytes(alloc, bounds)?))?;
    let mut files = MemFiles::new(held, fails);
    Ok(run(rt, alloc, words(alloc, line)?.as_slice(), &mut files, out).number)
}

const NONE: &str = "{\"version\":1,\"inputs\":[]}";

/// Whether this status and text come.
fn is_answered<R: Threads + Sync>(
    rt: &R,
    alloc: Global,
    line: &str,
    script: &[u8],
    bounds: &str,
    wanted: u8,
    text: &[u8],
) -> Result<bool, Fail> {
    let mut out = MemSink::new(alloc, 30_000, 64, Vec::new(alloc))?;
    let number = status(rt, alloc, line, script, bounds, Vec::new(alloc), &mut out)?;
    Ok(number == wanted && out.written() == text)
}
