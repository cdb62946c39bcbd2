//! Blocks read back.

ghost use Rattle.std.specs.Prelude.{IfSome, ◌≡◌, ◌≤◌, ◌<◌, ◌^◌, ℕ, ℤ, List, length, drop, IfOk};
ghost use Rattle.std.specs.Option.{option_map};
ghost use Rattle.js_units.specs.Reading.{many};
ghost use Rattle.proof_text.specs.Counted.{times, seen};
ghost use Rattle.proof_text.specs.Reading.{closing, clause_at, hints_at, step_at, last_size, sizes_at};
ghost use Rattle.proof_text.specs.BlockReading.{body_at, block_at};

use crate::lines::after;
use crate::literals::{hints, literals};
use crate::numbers::number;
use cnf_core::{Cnf, Derivation, Lit, ProofStep};
use js_units::NoMemory;
use sqlite_items::Items;
use std::alloc::Global;

/// Literals, a clause's `0` and the line's end.
#[tactic(auto, unfolding(crate::specs::Reading::clause_at))]
fn clause(
    alloc: Global,
    variables: u64,
    bytes: &[u8],
) -> Result<Option<(Items<Lit>, &[u8])>, NoMemory>
    requires { variables ≤ 2 ^ 62 }
    ensures { IfOk result (λ r. option_map (λ x. (x.0, x.1.now)) r ≡ clause_at variables bytes.now) }
{
    let behind = match after("c", bytes) {
        Some(behind) => behind,
        None => return Ok(None),
    };
    let (found, left) = literals(alloc, variables, behind)?;
    match after(" 0\n", left) {
        Some(rest) => Ok(Some((found, rest))),
        None => Ok(None),
    }
}

#[tactic(auto, unfolding(crate::specs::Reading::hints_at))]
fn hinted(
    alloc: Global,
    clause: Items<Lit>,
    bytes: &[u8],
) -> Result<Option<(ProofStep, &[u8])>, NoMemory>
    ensures { IfOk result (λ r. option_map (λ x. (x.0, x.1.now)) r ≡ hints_at clause bytes.now) }
{
    let (found, left) = hints(alloc, bytes)?;
    match after(" 0\n", left) {
        Some(rest) => Ok(Some((
            ProofStep {
                clause,
                hints: found,
            },
            rest,
        ))),
        None => Ok(None),
    }
}

/// Literals and a `0`, hints and a `0`, and the line's end.
#[tactic(auto, unfolding(crate::specs::Reading::step_at))]
fn step(alloc: Global, variables: u64, bytes: &[u8]) -> Result<Option<(ProofStep, &[u8])>, NoMemory>
    requires { variables ≤ 2 ^ 62 }
    ensures { IfOk result (λ r. option_map (λ x. (x.0, x.1.now)) r ≡ step_at variables bytes.now) }
{
    let behind = match after("s", bytes) {
        Some(behind) => behind,
        None => return Ok(None),
    };
    let (found, left) = literals(alloc, variables, behind)?;
    match after(" 0", left) {
        Some(rest) => hinted(alloc, found, rest),
        None => Ok(None),
    }
}

/// What the first line says.
#[derive(Clone, Copy)]
struct Sizes {
    variables: u64,
    clauses: u64,
    steps: u64,
}

fn last_size(variables: u64, clauses: u64, bytes: &[u8]) -> Option<(Sizes, &[u8])>
    ensures { option_map (λ x. (x.0, x.1.now)) result ≡ last_size variables clauses bytes.now }
{
    let third = after(" ", bytes)?;
    let (steps, left) = number(u64::MAX, third)?;
    let rest = after("\n", left)?;
    Some((
        Sizes {
            variables,
            clauses,
            steps,
        },
        rest,
    ))
}

/// `block` and three numbers.
#[tactic(auto, unfolding(crate::specs::Reading::sizes_at))]
fn first_line(bytes: &[u8]) -> Option<(Sizes, &[u8])>
    ensures within { IfSome result (λ x. x.0.variables ≤ 2 ^ 62) }
    ensures value { option_map (λ x. (x.0, x.1.now)) result ≡ sizes_at bytes.now }
{
    let first = after("block ", bytes)?;
    let (variables, left) = number(1 << 62, first)?;
    let second = after(" ", left)?;
    let (clauses, left) = number(u64::MAX, second)?;
    last_size(variables, clauses, left)
}

/// So many lines of clauses.
fn clauses(
    alloc: Global,
    variables: u64,
    count: u64,
    bytes: &[u8],
) -> Result<Result<(Items<Items<Lit>>, &[u8]), &[u8]>, NoMemory>
    requires { variables ≤ 2 ^ 62 }
    ensures { IfOk result (λ r. seen r ≡ times (clause_at variables) count bytes.now) }
{
    let mut found = Items::new(alloc);
    let mut left = bytes;
    let mut remaining = count;
    while remaining > 0 {
        match clause(alloc, variables, left)? {
            Some((next, rest)) => {
                found.push(next)?;
                left = rest;
                remaining -= 1;
            }
            None => return Ok(Err(left)),
        }
    }
    Ok(Ok((found, left)))
}

/// So many lines of steps.
fn steps(
    alloc: Global,
    variables: u64,
    count: u64,
    bytes: &[u8],
) -> Result<Result<(Items<ProofStep>, &[u8]), &[u8]>, NoMemory>
    requires { variables ≤ 2 ^ 62 }
    ensures { IfOk result (λ r. seen r ≡ times (step_at variables) count bytes.now) }
{
    let mut found = Items::new(alloc);
    let mut left = bytes;
    let mut remaining = count;
    while remaining > 0 {
        match step(alloc, variables, left)? {
            Some((next, rest)) => {
                found.push(next)?;
                left = rest;
                remaining -= 1;
            }
            None => return Ok(Err(left)),
        }
    }
    Ok(Ok((found, left)))
}

/// Clauses and the steps behind them.
fn body(
    alloc: Global,
    sizes: Sizes,
    bytes: &[u8],
) -> Result<Result<((Cnf, Derivation), &[u8]), &[u8]>, NoMemory>
    requires { sizes.variables ≤ 2 ^ 62 }
    ensures { IfOk result (λ r. seen r ≡ body_at sizes bytes.now) }
{
    let variables = sizes.variables;
    let (found, left) = match clauses(alloc, variables, sizes.clauses, bytes)? {
        Ok(read) => read,
        Err(at) => return Ok(Err(at)),
    };
    let (made, rest) = match steps(alloc, variables, sizes.steps, left)? {
        Ok(read) => read,
        Err(at) => return Ok(Err(at)),
    };
    let cnf = Cnf {
        variables,
        clauses: found,
    };
    Ok(Ok(((cnf, Derivation { steps: made }), rest)))
}

/// The block at the front of the bytes, and what is behind it; or the bytes from its first wrong line
/// on.
#[tactic(auto, unfolding(crate::specs::BlockReading::block_at))]
pub fn block_front(
    alloc: Global,
    bytes: &[u8],
) -> Result<Result<((Cnf, Derivation), &[u8]), &[u8]>, NoMemory>
    ensures { IfOk result (λ r. seen r ≡ block_at bytes.now) }
{
    match first_line(bytes) {
        Some((sizes, rest)) => body(alloc, sizes, rest),
        None => Ok(Err(bytes)),
    }
}
