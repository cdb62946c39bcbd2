//! A system whose one file and whose output go piece by piece, and in which one call goes wrong.

ghost use Rattle.std.specs.Prelude.{◌≤◌, IfOk};

use std::alloc::Allocator;
use std::cell::Cell;
use std::fmt::Display;
use std::fs::{Files, Metadata, OpenFile, OpenOptions};
use std::io::{Error, ErrorKind, Print, Read, Result, Seek, SeekFrom, Write};

/// How a call goes wrong.
#[derive(Clone, Copy)]
pub enum Wrong {
    Failed,
    Interrupted,
    /// Nothing is given or taken.
    Nothing,
}

/// The number of the call that goes wrong, counted from 1, and how.
#[derive(Clone, Copy)]
pub struct Plan {
    pub call: u32,
    pub wrong: Wrong,
}

/// The bytes that a call takes or gives at most.
pub const PIECE: usize = 3;

/// What the file holds.
pub const CONTENT: &[u8; 10] = b"0123456789";

impl Plan {
    /// How many of so many bytes the call of this number moves.
    fn moved(&self, call: u32, bytes: usize) -> Result<usize>
        ensures { IfOk result (λ n. n ≤ bytes) }
    {
        if self.call != call {
            return Ok(bytes.min(PIECE));
        }
        match self.wrong {
            Wrong::Failed => Err(Error::from(ErrorKind::Other)),
            Wrong::Interrupted => Err(Error::from(ErrorKind::Interrupted)),
            Wrong::Nothing => Ok(0),
        }
    }
}

/// The file, opened.
#[derive(Drop)]
pub struct Opened {
    plan: Plan,
    calls: u32,
    given: usize,
}

impl Read for Opened {
    fn read(&mut self, buf: &mut [u8]) -> Result<usize> {
        self.calls = self.calls.wrapping_add(1);
        let left = CONTENT.len().saturating_sub(self.given);
        let count = self.plan.moved(self.calls, left.min(buf.len()))?;
        let first = CONTENT.len() - left;
        let content = CONTENT.as_slice();
        buf[..count].copy_from_slice(&content[first..first + count]);
        self.given = first + count;
        Ok(count)
    }
}

fn unsupported<T>() -> Result<T> {
    Err(Error::from(ErrorKind::Unsupported))
}

impl Write for Opened {
    fn write(&mut self, _buf: &[u8]) -> Result<usize> {
        Err(Error::from(ErrorKind::Unsupported))
    }

    fn flush(&mut self) -> Result<()> {
        unsupported()
    }
}

impl Seek for Opened {
    fn seek(&mut self, _to: SeekFrom) -> Result<u64> {
        unsupported()
    }
}

impl OpenFile for Opened {
    fn metadata(&self) -> Result<Metadata> {
        unsupported()
    }

    fn set_len(&self, _size: u64) -> Result<()> {
        unsupported()
    }

    fn sync_all(&self) -> Result<()> {
        unsupported()
    }

    fn sync_data(&self) -> Result<()> {
        unsupported()
    }
}

/// The system, with the calls of its output so far and the bytes that these took.
#[derive(Drop)]
pub struct Piecewise {
    plan: Plan,
    calls: Cell<u32>,
    taken: Cell<usize>,
}

impl Piecewise {
    pub fn new(plan: Plan) -> Piecewise {
        Piecewise {
            plan,
            calls: Cell::new(0),
            taken: Cell::new(0),
        }
    }

    pub fn taken(&self) -> usize {
        self.taken.get()
    }
}

impl Print for Piecewise {
    fn print<D: Display + Drop>(&self, _value: D) -> Result<()> {
        unsupported()
    }

    fn println<D: Display + Drop>(&self, _value: D) -> Result<()> {
        unsupported()
    }

    fn write_all(&self, _bytes: &[u8]) -> Result<()> {
        unsupported()
    }

    fn write_some(&self, bytes: &[u8]) -> Result<usize> {
        self.calls.set(self.calls.get().wrapping_add(1));
        let count = self.plan.moved(self.calls.get(), bytes.len())?;
        self.taken.set(self.taken.get().wrapping_add(count));
        Ok(count)
    }
}

impl Files for Piecewise {
    type File = Opened;

    type Dir = Opened;

    fn open_file(&self, _how: &OpenOptions, _path: &str) -> Result<Opened> {
        Ok(Opened {
            plan: self.plan,
            calls: 0,
            given: 0,
        })
    }

    fn open_dir(&self, _path: &str) -> Result<Opened> {
        unsupported()
    }

    fn metadata(&self, _path: &str) -> Result<Metadata> {
        unsupported()
    }

    fn symlink_metadata(&self, _path: &str) -> Result<Metadata> {
        unsupported()
    }

    fn copy(&self, _from: &str, _to: &str) -> Result<u64> {
        unsupported()
    }

    fn rename(&self, _from: &str, _to: &str) -> Result<()> {
        unsupported()
    }

    fn remove_file(&self, _path: &str) -> Result<()> {
        unsupported()
    }

    fn create_dir(&self, _path: &str) -> Result<()> {
        unsupported()
    }

    fn remove_dir(&self, _path: &str) -> Result<()> {
        unsupported()
    }

    fn remove_dir_all<B: Allocator>(&self, _alloc: B, _path: &str) -> Result<()> {
        unsupported()
    }
}
