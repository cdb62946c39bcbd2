//! Scripts and bounds with their reports.

mod paths;
mod refused;

use super::{NONE, is_answered};
use paths::PATHS;
use refused::REFUSALS;
use std::alloc::Global;
use std::test::Fail;
use std::thread::Threads;

/// The words, the script, the bounds, the status and what is written.
pub(super) type Row = (&'static str, &'static str, &'static str, u8, &'static str);

/// The first row with another answer.
fn wrong_row<R: Threads + Sync>(
    rt: &R,
    alloc: Global,
    rows: &[Row],
) -> Result<Option<usize>, Fail> {
    for (row, (line, script, bounds, wanted, text)) in rows.iter().enumerate() {
        let script = script.as_bytes();
        if !is_answered(rt, alloc, line, script, bounds, *wanted, text.as_bytes())? {
            return Ok(Some(row));
        }
    }
    Ok(None)
}

/// Whether the run is cut at its 4,097th event.
fn is_cut<R: Threads + Sync>(rt: &R, alloc: Global) -> Result<bool, Fail> {
    let mut text = Vec::from_slice(alloc, b"expose 1\npath |")?;
    for _event in 0..4096u32 {
        text.extend_from_slice(b" b0=1")?;
    }
    text.extend_from_slice(b" | cut:events@0\ncomplete\n")?;
    let bounds = "{\"version\":1,\"turns\":5000,\"inputs\":[]}";
    let script = b"while (true) {}";
    is_answered(rt, alloc, "list s b", script, bounds, 0, text.as_slice())
}

#[test]
fn rows(rt: HostRuntime) -> Result<(), Fail> {
    let alloc = rt.alloc();
    let found = [
        wrong_row(&rt, alloc, &PATHS)?,
        wrong_row(&rt, alloc, &REFUSALS)?,
    ];
    let utf8 = is_answered(
        &rt,
        alloc,
        "list s b",
        b"a\xff",
        NONE,
        5,
        b"script refused at 1: utf8\n",
    )?;
    assert_eq!(rt;
        (found, utf8, is_cut(&rt, alloc)?),
        ([None, None], true, true)
    );
    Ok(())
}
