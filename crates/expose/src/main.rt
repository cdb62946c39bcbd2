//! Lists the paths that a script takes on the inputs within bounds.
#![tactic(auto)]

use commands::run;
use ex_base::{DiskFiles, OutSink};
use js_units::NoMemory;
use std::alloc::Global;
use std::env::{Env, FillError};
use std::process::ExitCode;

/// The status where memory ran out before anything was asked.
const NO_MEMORY: u8 = 7;

/// The word at a place, whatever its bytes are, in a buffer that is doubled until it holds it.
fn word_at<R: Env>(rt: &R, alloc: Global, at: usize) -> Result<Option<Vec<u8>>, NoMemory> {
    let mut room = 256usize;
    for _ in 0..usize::BITS {
        let mut word = vec![in alloc; 0u8; room]?;
        match rt.arg(at, word.as_mut_slice()) {
            Ok(length) => {
                word.truncate(length);
                return Ok(Some(word));
            }
            Err(FillError::NotPresent) => return Ok(None),
            Err(FillError::TooLong) => room = room.saturating_mul(2),
        }
    }
    Err(NoMemory)
}

/// The words behind the program's name.
fn words<R: Env>(rt: &R, alloc: Global) -> Result<Vec<Vec<u8>>, NoMemory> {
    let mut words = Vec::new(alloc);
    for at in 1..usize::MAX {
        match word_at(rt, alloc, at)? {
            Some(word) => words.push(word)?,
            None => break,
        }
    }
    Ok(words)
}

fn main(rt: HostRuntime) -> ExitCode {
    let words = match words(&rt, rt.alloc()) {
        Ok(words) => words,
        Err(NoMemory) => return ExitCode::from(NO_MEMORY),
    };
    let mut files = DiskFiles::new(&rt);
    let mut out = OutSink::new(&rt);
    let status = run(&rt, rt.alloc(), words.as_slice(), &mut files, &mut out);
    ExitCode::from(status.number)
}
