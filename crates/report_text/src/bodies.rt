//! What stands under a line about a query, read back.

ghost use Rattle.std.specs.Prelude.{◌≡◌, IfOk, codes};
ghost use Rattle.proof_text.specs.Counted.{seen};
ghost use Rattle.report_text.specs.Bodies.{optional_at, tried_lines_at, shut_at, tried_at, stepped_at, wide_at, unvisited_at, body_at};

use crate::details::{input_line, number_line};
use crate::heads::Asked;
use crate::report::Line;
use crate::terms::terms;
use cnf_core::{Cnf, Derivation};
use js_units::{NoMemory, Units};
use path_core::{InputValue, Query};
use proof_text::block_front;
use sqlite_items::Items;
use std::alloc::Global;

/// A block, where a line begins as one does.
#[tactic(auto, unfolding(crate::specs::Bodies::optional_at))]
fn optional(
    alloc: Global,
    bytes: &[u8],
) -> Result<Result<(Option<(Cnf, Derivation)>, &[u8]), &[u8]>, NoMemory>
    ensures { IfOk result (λ r. seen r ≡ optional_at bytes.now) }
{
    match bytes {
        [first, ..] if *first == b'b' => match block_front(alloc, bytes)? {
            Ok((found, rest)) => Ok(Ok((Some(found), rest))),
            Err(at) => Ok(Err(at)),
        },
        _ => Ok(Ok((None, bytes))),
    }
}

fn shut(alloc: Global, query: Query, bytes: &[u8]) -> Result<Result<(Line, &[u8]), &[u8]>, NoMemory>
    ensures { IfOk result (λ r. seen r ≡ shut_at query bytes.now) }
{
    match optional(alloc, bytes)? {
        Ok((block, rest)) => Ok(Ok((Line::Shut { query, block }, rest))),
        Err(at) => Ok(Err(at)),
    }
}

fn tried_lines(
    alloc: Global,
    bytes: &[u8],
) -> Result<(Items<Items<(Units, InputValue)>>, &[u8]), NoMemory>
    ensures { IfOk result (λ r. (r.0, r.1.now) ≡ tried_lines_at bytes.now) }
{
    let mut found = Items::new(alloc);
    let mut left = bytes;
    loop {
        match input_line(alloc, "tried", left)? {
            Some((next, rest)) => {
                found.push(next)?;
                left = rest;
            }
            None => return Ok((found, left)),
        }
    }
}

/// The inputs that were tried, and one that wasn't.
fn tried(
    alloc: Global,
    query: Query,
    bytes: &[u8],
) -> Result<Result<(Line, &[u8]), &[u8]>, NoMemory>
    ensures { IfOk result (λ r. seen r ≡ tried_at query bytes.now) }
{
    let (tried, left) = tried_lines(alloc, bytes)?;
    match input_line(alloc, "untried", left)? {
        Some((untried, rest)) => Ok(Ok((
            Line::Tried {
                query,
                tried,
                untried,
            },
            rest,
        ))),
        None => Ok(Err(left)),
    }
}

fn stepped(
    alloc: Global,
    query: Query,
    bytes: &[u8],
) -> Result<Result<(Line, &[u8]), &[u8]>, NoMemory>
    ensures { IfOk result (λ r. seen r ≡ stepped_at query bytes.now) }
{
    match block_front(alloc, bytes)? {
        Ok(((cnf, derivation), rest)) => Ok(Ok((
            Line::Stepped {
                query,
                cnf,
                derivation,
            },
            rest,
        ))),
        Err(at) => Ok(Err(at)),
    }
}

/// A cost, a number of terms, and so many.
fn wide(alloc: Global, query: Query, bytes: &[u8]) -> Result<Result<(Line, &[u8]), &[u8]>, NoMemory>
    ensures { IfOk result (λ r. seen r ≡ wide_at query bytes.now) }
{
    let (cost, second) = match number_line("cost ", bytes) {
        Some(read) => read,
        None => return Ok(Err(bytes)),
    };
    let (count, left) = match number_line("terms ", second) {
        Some(read) => read,
        None => return Ok(Err(second)),
    };
    match terms(alloc, count, left)? {
        Ok((terms, rest)) => Ok(Ok((Line::Wide { query, cost, terms }, rest))),
        Err(at) => Ok(Err(at)),
    }
}

fn unvisited(
    alloc: Global,
    query: Query,
    bytes: &[u8],
) -> Result<Result<(Line, &[u8]), &[u8]>, NoMemory>
    ensures { IfOk result (λ r. seen r ≡ unvisited_at query bytes.now) }
{
    match input_line(alloc, "beyond", bytes)? {
        Some((input, rest)) => Ok(Ok((Line::Unvisited { query, input }, rest))),
        None => Ok(Err(bytes)),
    }
}

/// What is said of the query, with the lines that belong to it; or the bytes from its first wrong line
/// on.
pub(crate) fn body(
    alloc: Global,
    asked: Asked,
    query: Query,
    bytes: &[u8],
) -> Result<Result<(Line, &[u8]), &[u8]>, NoMemory>
    ensures { IfOk result (λ r. seen r ≡ body_at asked query bytes.now) }
{
    match asked {
        Asked::Shut => shut(alloc, query, bytes),
        Asked::Tried => tried(alloc, query, bytes),
        Asked::Stepped => stepped(alloc, query, bytes),
        Asked::Wide => wide(alloc, query, bytes),
        Asked::Unvisited => unvisited(alloc, query, bytes),
    }
}
