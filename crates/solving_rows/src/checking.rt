//! Derivations with the checker's verdicts.

use crate::clauses::{push_clause, push_lit, push_step, verdict};
use cnf_core::{Cnf, Derivation, Lit, ProofStep};
use proof_check::{Marks, Verdict};
use sqlite_items::Items;
use std::alloc::Global;
use std::test::Fail;

/// Clauses, each behind a `c`; steps, each behind an `s` with its hints behind an `h`; and the verdict.
type Case = (&'static str, &'static str, Verdict);

/// No two values of two variables: the clauses have the numbers 1 to 4.
const SQUARE: &str = "c 1 2 c 1 -2 c -1 2 c -1 -2";

const YES: Verdict = Verdict::Yes;

const FIRST: Verdict = Verdict::BadStep { step: 1 };

const SECOND: Verdict = Verdict::BadStep { step: 2 };

const THIRD: Verdict = Verdict::BadStep { step: 3 };

const NO_EMPTY: Verdict = Verdict::NoEmpty;

const CASES: [Case; 36] = [
    (SQUARE, "s 1 h 1 2 s h 5 3 4", YES),
    // clause 3 has two literals that aren't false
    (SQUARE, "s 1 h 1 2 s h 3 5 3 4", SECOND),
    (SQUARE, "s 1 h 1 2", NO_EMPTY),
    (SQUARE, "", NO_EMPTY),
    ("", "", NO_EMPTY),
    // the empty clause has to be a step
    ("c", "", NO_EMPTY),
    ("c", "s h 1", YES),
    // no hint
    (SQUARE, "s 1 h", FIRST),
    // hints: 0, the step itself, a later step, none at all
    (SQUARE, "s 1 h 0 2", FIRST),
    (SQUARE, "s 1 h 1 0", FIRST),
    (SQUARE, "s 1 h 1 5", FIRST),
    (SQUARE, "s 1 h 6 2 s 2 h 1 3", FIRST),
    (SQUARE, "s 1 h 1 18446744073709551615", FIRST),
    // a literal beside its opposite
    (SQUARE, "s 1 -1 h 1 2", FIRST),
    (SQUARE, "s 2 1 -2 h 1", FIRST),
    // repeated literals count once
    (SQUARE, "s 1 1 h 1 2", NO_EMPTY),
    ("c 1 1 c -1 -1", "s h 1 2", YES),
    ("c 1 2 1 c -2 c -1", "s h 2 1 3", YES),
    // the only literal left is true already
    ("c 1 c 1 c -1", "s h 1 2 3", FIRST),
    ("c 1 c -2 c 1 2 c -1", "s h 1 2 3 4", FIRST),
    ("c -1 c 1 2", "s 1 h 1 2", FIRST),
    // a true literal beside one without a value
    ("c 1 c 1 2 c -1", "s h 1 2 3", FIRST),
    // a clause that has a literal and its opposite never helps
    ("c 1 -1 c 1 c -1", "s h 2 1", FIRST),
    // hints behind the first clause that is all false
    ("c 1 c -1 c 2", "s h 1 2 3", FIRST),
    ("c 1 c -1 c 2", "s h 1 2", YES),
    // the last hint's clause has a literal left, the last one alone too
    ("c 1 c 2", "s h 1", FIRST),
    ("c 1 2 c -1", "s h 2 1", FIRST),
    ("c -1 c -2 c 1 2 3", "s h 1 2 3", FIRST),
    ("c -1 c -2 c 1 2 3", "s 3 h 1 2 3", NO_EMPTY),
    // the order of hints
    ("c 1 c -1 2 c -2", "s h 2 1 3", FIRST),
    ("c 1 c -1 2 c -2", "s h 1 2 3", YES),
    // behind the empty clause
    (SQUARE, "s 1 h 1 2 s h 5 3 4 s 2 h", THIRD),
    (SQUARE, "s 1 h 1 2 s h 5 3 4 s 3 h 6", YES),
    (SQUARE, "s 1 h 1 2 s h 5 3 4 s 3 h 6 1", THIRD),
    // what a step assumed is forgotten
    (SQUARE, "s 1 2 h 1 s h 1", SECOND),
    // the first of two bad steps
    (SQUARE, "s 1 h 1 2 s 3 h 1 s h", SECOND),
];

/// The literals of the numbers in the text.
fn literals(alloc: Global, text: &str) -> Result<Items<Lit>, Fail> {
    let mut clause = Items::new(alloc);
    for word in text.split(' ') {
        if let Ok(number) = word.parse::<i64>() {
            push_lit(&mut clause, number)?;
        }
    }
    Ok(clause)
}

fn hints(alloc: Global, text: &str) -> Result<Items<u64>, Fail> {
    let mut hints = Items::new(alloc);
    for word in text.split(' ') {
        if let Ok(number) = word.parse::<u64>() {
            hints.push(number)?;
        }
    }
    Ok(hints)
}

fn clauses_of(alloc: Global, text: &str) -> Result<Items<Items<Lit>>, Fail> {
    let mut clauses = Items::new(alloc);
    for clause in text.split('c').skip(1) {
        clauses.push(literals(alloc, clause)?)?;
    }
    Ok(clauses)
}

fn step_of(alloc: Global, text: &str) -> Result<ProofStep, Fail> {
    let mut parts = text.split('h');
    let clause = literals(alloc, parts.next().unwrap_or(""))?;
    let hints = hints(alloc, parts.next().unwrap_or(""))?;
    Ok(ProofStep { clause, hints })
}

fn derivation_of(alloc: Global, text: &str) -> Result<Derivation, Fail> {
    let mut steps = Items::new(alloc);
    for step in text.split('s').skip(1) {
        steps.push(step_of(alloc, step)?)?;
    }
    Ok(Derivation { steps })
}

fn is_case(alloc: Global, clauses: &str, steps: &str, wanted: Verdict) -> Result<bool, Fail> {
    let cnf = Cnf {
        variables: 3,
        clauses: clauses_of(alloc, clauses)?,
    };
    let derivation = derivation_of(alloc, steps)?;
    Ok(verdict(alloc, &cnf, &derivation)? == wanted)
}

/// The first case with another verdict.
fn wrong_case(alloc: Global) -> Result<Option<usize>, Fail> {
    for (row, (clauses, steps, wanted)) in CASES.iter().enumerate() {
        if !is_case(alloc, clauses, steps, *wanted)? {
            return Ok(Some(row));
        }
    }
    Ok(None)
}

const CHAIN: u32 = 20_000;

/// So many that clearing all marks for each step would take minutes.
const VARIABLES: u64 = 4_000_000;

/// The first variable is true, each other one follows from the one before, and the last is false.
fn chain(alloc: Global) -> Result<Cnf, Fail> {
    let mut clauses = Items::new(alloc);
    push_clause(&mut clauses, alloc, &[1])?;
    for variable in 2..CHAIN + 1 {
        let number = i64::from(variable);
        push_clause(&mut clauses, alloc, &[1 - number, number])?;
    }
    push_clause(&mut clauses, alloc, &[-i64::from(CHAIN)])?;
    Ok(Cnf {
        variables: VARIABLES,
        clauses,
    })
}

/// Each variable in turn, and then the empty clause: 20,001 steps.
fn chain_steps(alloc: Global) -> Result<Derivation, Fail> {
    let clauses = u64::from(CHAIN) + 1;
    let mut steps = Items::new(alloc);
    push_step(&mut steps, alloc, &[1], &[1])?;
    for variable in 2..CHAIN + 1 {
        let hints = [clauses + u64::from(variable) - 1, u64::from(variable)];
        push_step(&mut steps, alloc, &[i64::from(variable)], &hints)?;
    }
    push_step(&mut steps, alloc, &[], &[2 * clauses - 1, clauses])?;
    Ok(Derivation { steps })
}

fn is_chain_judged(alloc: Global) -> Result<bool, Fail> {
    Ok(verdict(alloc, &chain(alloc)?, &chain_steps(alloc)?)? == Verdict::Yes)
}

/// There is no memory for marks of so many variables.
fn has_marks(alloc: Global, variables: u64) -> bool {
    Marks::new(alloc, variables).is_ok()
}

#[test]
fn derivations(rt: HostRuntime) -> Result<(), Fail> {
    assert_eq!(rt; wrong_case(rt.alloc())?, None);
    Ok(())
}

#[test]
fn long_and_wide(rt: HostRuntime) -> Result<(), Fail> {
    let alloc = rt.alloc();
    let found = [
        is_chain_judged(alloc)?,
        !has_marks(alloc, u64::MAX),
        !has_marks(alloc, 1 << 62),
    ];
    assert_eq!(rt; found, [true; 3]);
    Ok(())
}
