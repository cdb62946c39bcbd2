//! A block at a place in a file.

ghost use Rattle.std.specs.Prelude.{◌≡◌, ◌≤◌, ◌+◌, ◌-◌, length, take, drop};
ghost use Rattle.proof_text.specs.Answers.{Reads, line_ends};

use crate::reading::block_front;
use cnf_core::{Cnf, Derivation};
use std::alloc::Global;

/// A block that was read, and the place behind it.
#[derive(Drop)]
pub struct Block {
    pub cnf: Cnf,
    pub derivation: Derivation,
    pub end: usize,
}

/// Why no block stands there.
#[derive(Clone, Copy)]
pub enum BlockRefusal {
    /// The first line that no block has after the lines before it, counted from 1. A missing line counts.
    Line { line: u64 },
    NoMemory,
}

/// How many lines end in the bytes.
pub fn line_ends(bytes: &[u8]) -> u64
    ensures value { result ≡ line_ends bytes.now }
    ensures most { result ≤ length bytes.now }
{
    let mut count: u64 = 0;
    let mut left = bytes;
    while let [first, rest @ ..] = left {
        if *first == b'\n' {
            count += 1;
        }
        left = rest;
    }
    count
}

/// The number of the line at which `left`, the end of `bytes`, begins.
pub fn line_at(bytes: &[u8], left: &[u8]) -> u64
    requires { length left.now ≤ length bytes.now }
    ensures { result ≡ line_ends (take (length bytes.now - length left.now) bytes.now) + 1 }
{
    line_ends(&bytes[..bytes.len() - left.len()]) + 1
}

fn block_before(found: (Cnf, Derivation), bytes: &[u8], rest: &[u8]) -> Block
    requires { length rest.now ≤ length bytes.now }
    ensures cnf { result.cnf ≡ found.0 }
    ensures derivation { result.derivation ≡ found.1 }
    ensures end { result.end ≡ length bytes.now - length rest.now }
{
    Block {
        cnf: found.0,
        derivation: found.1,
        end: bytes.len() - rest.len(),
    }
}

fn bytes_from(bytes: &[u8], at: usize) -> &[u8]
    requires { at ≤ length bytes.now }
    ensures { result.now ≡ drop at bytes.now }
{
    &bytes[at..]
}

/// The block that stands in the bytes from a place on.
pub fn read_block(alloc: Global, bytes: &[u8], at: usize) -> Result<Block, BlockRefusal>
    requires { at ≤ length bytes.now }
    ensures { Reads bytes.now at result }
{
    let list = bytes_from(bytes, at);
    let read = match block_front(alloc, list) {
        Ok(read) => read,
        Err(_) => return Err(BlockRefusal::NoMemory),
    };
    match read {
        Ok((found, rest)) => Ok(block_before(found, bytes, rest)),
        Err(wrong) => Err(BlockRefusal::Line {
            line: line_at(list, wrong),
        }),
    }
}
