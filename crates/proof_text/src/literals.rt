//! The parts of a block's lines, read back.

ghost use Rattle.std.specs.Prelude.{◌≡◌, ◌≤◌, ◌<◌, ◌^◌, ◌-◌, IfSome, IfOk};
ghost use Rattle.cnf_core.specs.Literals.{IsLiteral};
ghost use Rattle.std.specs.Option.{option_map};
ghost use Rattle.js_units.specs.Reading.{many};
ghost use Rattle.proof_text.specs.Numbers.{IsBetween, not_zero};
ghost use Rattle.proof_text.specs.Reading.{named, literal_at, hint_at};

use crate::lines::after;
use crate::numbers::{number, signed};
use cnf_core::Lit;
use js_units::NoMemory;
use sqlite_items::Items;
use std::alloc::Global;

fn named(found: Option<(i64, &[u8])>) -> Option<(i64, &[u8])>
    requires { IfSome found (λ x. IsBetween (2 ^ 62) (2 ^ 62) x.0) }
    ensures literal { IfSome result (λ x. IsLiteral x.0) }
    ensures value { option_map (λ x. (x.0, x.1.now)) result ≡ named (option_map (λ x. (x.0, x.1.now)) found.entry) }
{
    match found {
        Some((0, _)) => None,
        Some((number, rest)) => Some((number, rest)),
        None => None,
    }
}

/// A space and the number of a literal of at most so many variables.
#[tactic(auto, unfolding(crate::specs::Reading::literal_at))]
fn literal(variables: u64, bytes: &[u8]) -> Option<(i64, &[u8])>
    requires { variables ≤ 2 ^ 62 }
    ensures literal { IfSome result (λ x. IsLiteral x.0) }
    ensures value { option_map (λ x. (x.0, x.1.now)) result ≡ literal_at variables bytes.now }
{
    match after(" ", bytes) {
        Some(rest) => named(signed(variables, variables, rest)),
        None => None,
    }
}

fn literal_of(number: i64) -> Lit
    requires { IsLiteral number }
    ensures { result ≡ number }
{
    match Lit::new(number) {
        Some(lit) => lit,
        None => unreachable!(),
    }
}

fn not_zero(found: Option<(u64, &[u8])>) -> Option<(u64, &[u8])>
    ensures { option_map (λ x. (x.0, x.1.now)) result ≡ not_zero (option_map (λ x. (x.0, x.1.now)) found.entry) }
{
    match found {
        Some((0, _)) => None,
        Some((number, rest)) => Some((number, rest)),
        None => None,
    }
}

/// A space and the number of a clause or a step.
#[tactic(auto, unfolding(crate::specs::Reading::hint_at))]
fn hint(bytes: &[u8]) -> Option<(u64, &[u8])>
    ensures { option_map (λ x. (x.0, x.1.now)) result ≡ hint_at bytes.now }
{
    match after(" ", bytes) {
        Some(rest) => not_zero(number(u64::MAX, rest)),
        None => None,
    }
}

/// The literals at the front, and what is behind them.
pub fn literals(
    alloc: Global,
    variables: u64,
    bytes: &[u8],
) -> Result<(Items<Lit>, &[u8]), NoMemory>
    requires { variables ≤ 2 ^ 62 }
    ensures { IfOk result (λ r. (r.0, r.1.now) ≡ many (literal_at variables) bytes.now) }
{
    let mut found = Items::new(alloc);
    let mut left = bytes;
    while let Some((number, behind)) = literal(variables, left) {
        found.push(literal_of(number))?;
        left = behind;
    }
    Ok((found, left))
}

/// The hints at the front, and what is behind them.
pub fn hints(alloc: Global, bytes: &[u8]) -> Result<(Items<u64>, &[u8]), NoMemory>
    ensures { IfOk result (λ r. (r.0, r.1.now) ≡ many hint_at bytes.now) }
{
    let mut found = Items::new(alloc);
    let mut left = bytes;
    while let Some((number, behind)) = hint(left) {
        found.push(number)?;
        left = behind;
    }
    Ok((found, left))
}
