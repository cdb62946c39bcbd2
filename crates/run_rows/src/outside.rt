//! Files and sinks, in memory and real.

mod piecewise;

use ex_base::{DiskFiles, Files, Load, MemFiles, MemSink, OutSink, WriteFault, write_all};
use piecewise::{CONTENT, PIECE, Piecewise, Plan, Wrong};
use std::alloc::Global;
use std::fs;
use std::test::Fail;

fn bytes(alloc: Global, text: &str) -> Result<Vec<u8>, Fail> {
    Ok(Vec::from_slice(alloc, text.as_bytes())?)
}

/// Two entries of one name, of which the first holds; the third load fails.
fn two_entries(alloc: Global) -> Result<MemFiles, Fail> {
    let mut held = Vec::new(alloc);
    held.push((bytes(alloc, "a")?, bytes(alloc, "first")?))?;
    held.push((bytes(alloc, "a")?, bytes(alloc, "second")?))?;
    Ok(MemFiles::new(held, vec![in alloc; 3]?))
}

/// What a load says: its length, or why there is none.
fn loaded<F: Files>(alloc: Global, files: &mut F, name: &[u8], most: usize) -> Result<usize, Load> {
    Ok(files.load(alloc, name, most)?.len())
}

#[test]
fn files_in_memory(rt: HostRuntime) -> Result<(), Fail> {
    let alloc = rt.alloc();
    let mut files = two_entries(alloc)?;
    let found = [
        loaded(alloc, &mut files, b"a", 5),
        loaded(alloc, &mut files, b"a", 4),
        loaded(alloc, &mut files, b"a", 5),
        loaded(alloc, &mut files, b"b", 5),
        loaded(alloc, &mut files, b"a", 5),
    ];
    assert_eq!(rt;
        found,
        [
            Ok(5),
            Err(Load::TooLong),
            Err(Load::Failed),
            Err(Load::Failed),
            Ok(5)
        ]
    );
    Ok(())
}

/// Whether a sink with room for 7 bytes, whose fourth write fails, takes a text and then half of another.
fn is_cut(alloc: Global) -> Result<bool, Fail> {
    let mut sink = MemSink::new(alloc, 7, 4, vec![in alloc; 4]?)?;
    let first = write_all(&mut sink, b"expose") == Ok(()) && sink.written() == b"expose".as_slice();
    let second = write_all(&mut sink, b" 1") == Err(WriteFault)
        && sink.written() == b"expose ".as_slice();
    Ok(first && second)
}

#[test]
fn sink_in_memory(rt: HostRuntime) -> Result<(), Fail> {
    assert!(rt; is_cut(rt.alloc())?);
    Ok(())
}

#[test]
fn real_files_and_output(rt: HostRuntime) -> Result<(), Fail> {
    let alloc = rt.alloc();
    let name = "run_rows_test_file";
    fs::write(&rt, name, "expose 1\n")?;
    let mut files = DiskFiles::new(&rt);
    let whole = files.load(alloc, name.as_bytes(), 9).ok().ok_or("load")?;
    let longer = loaded(alloc, &mut files, name.as_bytes(), 8);
    fs::remove_file(&rt, name)?;
    let missing = loaded(alloc, &mut files, name.as_bytes(), 9);
    assert_eq!(rt; whole.as_slice(), b"expose 1\n".as_slice());
    assert_eq!(rt; [longer, missing], [Err(Load::TooLong), Err(Load::Failed)]);
    assert!(rt; write_all(&mut OutSink::new(&rt), b"expose 1\n").is_ok());
    Ok(())
}

/// How many bytes the file has where a call on it goes so, or why it isn't read.
fn loaded_by(alloc: Global, call: u32, wrong: Wrong) -> Result<usize, Load> {
    let system = Piecewise::new(Plan { call, wrong });
    let mut files = DiskFiles::new(&system);
    Ok(files.load(alloc, b"a", 20)?.len())
}

/// The first read of which a fault isn't told, after which reading ends too early, or not at the file's end.
fn wrong_read(alloc: Global) -> Option<u32> {
    for call in 1..6u32 {
        let before = PIECE.wrapping_mul((call - 1) as usize).min(CONTENT.len());
        if loaded_by(alloc, call, Wrong::Failed) != Err(Load::Failed)
            || loaded_by(alloc, call, Wrong::Interrupted) != Ok(CONTENT.len())
            || loaded_by(alloc, call, Wrong::Nothing) != Ok(before)
        {
            return Some(call);
        }
    }
    None
}

/// Whether all is written, and how many bytes were taken.
fn written_by(call: u32, wrong: Wrong) -> (bool, usize) {
    let system = Piecewise::new(Plan { call, wrong });
    let written = write_all(&mut OutSink::new(&system), CONTENT);
    (written.is_ok(), system.taken())
}

/// The first write of which a fault isn't told, or after which bytes are lost or written again.
fn wrong_piece() -> Option<u32> {
    for call in 1..5u32 {
        let before = PIECE.wrapping_mul((call - 1) as usize);
        if written_by(call, Wrong::Failed) != (false, before)
            || written_by(call, Wrong::Interrupted) != (true, CONTENT.len())
            || written_by(call, Wrong::Nothing) != (false, before)
        {
            return Some(call);
        }
    }
    None
}

#[test]
fn each_call_of_the_system(rt: HostRuntime) -> Result<(), Fail> {
    assert_eq!(rt; [wrong_read(rt.alloc()), wrong_piece()], [None, None]);
    Ok(())
}
