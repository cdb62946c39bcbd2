//! Clauses and derivations from tables of numbers.

use cnf_core::{Cnf, Derivation, Lit, ProofStep};
use proof_check::{Marks, Verdict, check};
use sqlite_items::Items;
use std::alloc::Global;
use std::test::Fail;

/// No two values of two variables: the clauses have the numbers 1 to 4.
pub const SQUARE: &[&[i64]] = &[&[1, 2], &[1, -2], &[-1, 2], &[-1, -2]];

pub fn push_lit(clause: &mut Items<Lit>, number: i64) -> Result<(), Fail> {
    match Lit::new(number) {
        Some(lit) => clause.push(lit)?,
        None => return Err(Fail::new("no literal")),
    }
    Ok(())
}

pub fn clause_of(alloc: Global, numbers: &[i64]) -> Result<Items<Lit>, Fail> {
    let mut clause = Items::new(alloc);
    for number in numbers {
        push_lit(&mut clause, *number)?;
    }
    Ok(clause)
}

pub fn push_clause(
    clauses: &mut Items<Items<Lit>>,
    alloc: Global,
    numbers: &[i64],
) -> Result<(), Fail> {
    clauses.push(clause_of(alloc, numbers)?)?;
    Ok(())
}

pub fn cnf_of(alloc: Global, variables: u64, clauses: &[&[i64]]) -> Result<Cnf, Fail> {
    let mut items = Items::new(alloc);
    for numbers in clauses {
        push_clause(&mut items, alloc, numbers)?;
    }
    Ok(Cnf {
        variables,
        clauses: items,
    })
}

pub fn push_step(
    steps: &mut Items<ProofStep>,
    alloc: Global,
    numbers: &[i64],
    hints: &[u64],
) -> Result<(), Fail> {
    let clause = clause_of(alloc, numbers)?;
    let hints = Items::from_slice(alloc, hints)?;
    steps.push(ProofStep { clause, hints })?;
    Ok(())
}

/// The checker's verdict, asked twice with the same marks.
pub fn verdict(alloc: Global, cnf: &Cnf, derivation: &Derivation) -> Result<Verdict, Fail> {
    if !cnf.is_within() || !derivation.is_within(cnf.variables) {
        return Err(Fail::new("a literal out of range"));
    }
    let mut marks = Marks::new(alloc, cnf.variables)?;
    let first = check(cnf, derivation, &mut marks);
    if check(cnf, derivation, &mut marks) != first {
        return Err(Fail::new("two verdicts"));
    }
    Ok(first)
}
