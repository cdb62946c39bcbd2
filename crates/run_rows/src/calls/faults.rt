//! Files and sinks that fail.

use super::{NONE, status};
use ex_base::MemSink;
use std::alloc::Global;
use std::test::Fail;
use std::thread::Threads;

/// The report of the empty script with no inputs.
const WHOLE: &[u8; 32] = b"expose 1\npath | | done\ncomplete\n";

/// Whether the failing load of this number is told so.
fn is_load_told<R: Threads + Sync>(
    rt: &R,
    alloc: Global,
    call: u64,
    text: &[u8],
) -> Result<bool, Fail> {
    let mut out = MemSink::new(alloc, 400, 64, Vec::new(alloc))?;
    let fails = vec![in alloc; call]?;
    let number = status(rt, alloc, "list s b", b"", NONE, fails, &mut out)?;
    Ok(number == 3 && out.written() == text)
}

/// Whether exactly so many bytes are written into the sink, with status 4 where they aren't all.
fn is_written<R: Threads + Sync>(
    rt: &R,
    alloc: Global,
    out: &mut MemSink,
    bytes: usize,
) -> Result<bool, Fail> {
    let number = status(rt, alloc, "list s b", b"", NONE, Vec::new(alloc), out)?;
    let wanted = if bytes < WHOLE.len() { 4 } else { 0 };
    Ok(
        number == wanted
            && out.written().len() == bytes
            && WHOLE.as_slice().starts_with(out.written()),
    )
}

/// The first write that fails and isn't told, in pieces of this length.
fn wrong_write<R: Threads + Sync>(
    rt: &R,
    alloc: Global,
    piece: usize,
) -> Result<Option<u64>, Fail> {
    for call in 1..34u64 {
        let before = piece.saturating_mul((call - 1) as usize).min(WHOLE.len());
        let mut out = MemSink::new(alloc, 400, piece.max(1), vec![in alloc; call]?)?;
        if !is_written(rt, alloc, &mut out, before)? {
            return Ok(Some(call));
        }
    }
    Ok(None)
}

/// The least room that isn't filled.
fn wrong_room<R: Threads + Sync>(rt: &R, alloc: Global) -> Result<Option<u64>, Fail> {
    for room in 0..33u64 {
        let mut out = MemSink::new(alloc, room as usize, 7, Vec::new(alloc))?;
        if !is_written(rt, alloc, &mut out, room as usize)? {
            return Ok(Some(room));
        }
    }
    Ok(None)
}

#[test]
fn loads(rt: HostRuntime) -> Result<(), Fail> {
    let alloc = rt.alloc();
    let found = [
        is_load_told(&rt, alloc, 1, b"read fault: file 1\n")?,
        is_load_told(&rt, alloc, 2, b"read fault: file 2\n")?,
    ];
    assert_eq!(rt; found, [true, true]);
    Ok(())
}

#[test]
fn writes(rt: HostRuntime) -> Result<(), Fail> {
    let alloc = rt.alloc();
    let found = [
        wrong_write(&rt, alloc, 1)?,
        wrong_write(&rt, alloc, 2)?,
        wrong_write(&rt, alloc, 4)?,
        wrong_write(&rt, alloc, 7)?,
        wrong_room(&rt, alloc)?,
    ];
    assert_eq!(rt; found, [None; 5]);
    Ok(())
}
