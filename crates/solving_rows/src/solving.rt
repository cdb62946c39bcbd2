//! Clauses with the solver's answers.

use crate::clauses::{SQUARE, cnf_of, push_clause, push_lit, verdict};
use cnf_core::{Cnf, Lit};
use proof_check::Verdict;
use sat_core::{Answer, solve};
use sqlite_items::Items;
use std::alloc::Global;
use std::test::Fail;

fn is_true(lit: Lit, values: &[bool]) -> bool {
    match values.get(lit.variable() as usize - 1) {
        Some(value) => *value != lit.is_negative(),
        None => false,
    }
}

fn is_model(cnf: &Cnf, values: &[bool]) -> bool {
    for clause in cnf.clauses.as_slice() {
        if !clause.as_slice().iter().any(|lit| is_true(*lit, values)) {
            return false;
        }
    }
    true
}

/// The values that are the binary digits of a number.
fn values_of(alloc: Global, variables: u64, number: u64) -> Result<Items<bool>, Fail> {
    let mut values = Items::new(alloc);
    let mut left = number;
    for _ in 0..variables {
        values.push(left % 2 == 1)?;
        left /= 2;
    }
    Ok(values)
}

/// Tries so many assignments.
fn has_model(alloc: Global, cnf: &Cnf, assignments: u64) -> Result<bool, Fail> {
    for number in 0..assignments {
        let values = values_of(alloc, cnf.variables, number)?;
        if is_model(cnf, values.as_slice()) {
            return Ok(true);
        }
    }
    Ok(false)
}

/// An answer and the number of its steps.
#[derive(Clone, Copy, PartialEq, Eq)]
enum Found {
    Model,
    Refuted(usize),
    Spent(usize),
}

/// The answer, once the values were tried or the checker has judged the steps.
fn judged(alloc: Global, cnf: &Cnf, budget: u64) -> Result<Found, Fail> {
    if !cnf.is_within() || budget == 0 {
        return Err(Fail::new("a literal out of range, or no budget"));
    }
    match solve(alloc, cnf, budget)? {
        Answer::Model(values) => {
            if values.len() as u64 != cnf.variables || !is_model(cnf, values.as_slice()) {
                return Err(Fail::new("no model"));
            }
            Ok(Found::Model)
        }
        Answer::Refuted(derivation) => {
            if verdict(alloc, cnf, &derivation)? != Verdict::Yes {
                return Err(Fail::new("no refutation"));
            }
            Ok(Found::Refuted(derivation.steps.len()))
        }
        Answer::Spent(derivation) => {
            if verdict(alloc, cnf, &derivation)? != Verdict::NoEmpty {
                return Err(Fail::new("steps that aren't valid, or an empty one"));
            }
            Ok(Found::Spent(derivation.steps.len()))
        }
    }
}

/// Variables, clauses, the budget and what is found.
type Case = (u64, &'static [&'static [i64]], u64, Found);

const CASES: [Case; 17] = [
    (2, SQUARE, 2, Found::Refuted(2)),
    (2, SQUARE, 9, Found::Refuted(2)),
    (2, SQUARE, 1, Found::Spent(1)),
    (3, SQUARE, 1, Found::Spent(1)),
    // no clause
    (0, &[], 1, Found::Model),
    (3, &[], 1, Found::Model),
    // an empty one
    (0, &[&[]], 1, Found::Refuted(1)),
    (2, &[&[1, 2], &[]], 1, Found::Refuted(1)),
    // units
    (1, &[&[-1]], 1, Found::Model),
    (1, &[&[1], &[-1]], 1, Found::Refuted(1)),
    (3, &[&[1], &[-1, 2], &[-2, 3]], 1, Found::Model),
    (3, &[&[-2, 3], &[-3], &[-1, 2], &[1]], 1, Found::Refuted(1)),
    // a literal beside its opposite, and one that stands twice
    (2, &[&[1, -1], &[2, -2]], 1, Found::Model),
    (1, &[&[1, 1], &[-1, -1]], 1, Found::Refuted(1)),
    (2, &[&[1, 2, 1], &[-2, -2], &[-1]], 1, Found::Refuted(1)),
    // no clause names the last variable
    (4, &[&[-1, -2], &[-2, -3], &[2, 3]], 81, Found::Model),
    (
        3,
        &[&[1, 2, 3], &[-1, -2, -3], &[1, -2], &[2, -3], &[3, -1]],
        27,
        Found::Refuted(2),
    ),
];

/// The first case with another answer.
fn wrong_case(alloc: Global) -> Result<Option<usize>, Fail> {
    for (row, (variables, clauses, budget, wanted)) in CASES.iter().enumerate() {
        let cnf = cnf_of(alloc, *variables, clauses)?;
        if judged(alloc, &cnf, *budget)? != *wanted {
            return Ok(Some(row));
        }
    }
    Ok(None)
}

/// How many literals the steps have that a budget of one allows on the square.
fn square_step(alloc: Global) -> Result<Option<usize>, Fail> {
    let cnf = cnf_of(alloc, 2, SQUARE)?;
    if !cnf.is_within() {
        return Err(Fail::new("a literal out of range"));
    }
    match solve(alloc, &cnf, 1)? {
        Answer::Spent(derivation) => {
            let mut count = 0usize;
            for step in derivation.steps.as_slice() {
                count = count.wrapping_add(step.clause.len());
            }
            Ok(Some(count))
        }
        other => {
            drop(other);
            Ok(None)
        }
    }
}

/// Each pigeon has a hole, and no two have one.
fn pigeonholes(alloc: Global, pigeons: u32, holes: u32) -> Result<Cnf, Fail> {
    let mut clauses = Items::new(alloc);
    for pigeon in 0..pigeons {
        let mut clause = Items::new(alloc);
        for hole in 0..holes {
            push_lit(&mut clause, i64::from(place(pigeon, hole, holes)) + 1)?;
        }
        clauses.push(clause)?;
        for other in 0..pigeon {
            for hole in 0..holes {
                let first = -1 - i64::from(place(other, hole, holes));
                let second = -1 - i64::from(place(pigeon, hole, holes));
                push_clause(&mut clauses, alloc, &[first, second])?;
            }
        }
    }
    Ok(Cnf {
        variables: u64::from(pigeons) * u64::from(holes),
        clauses,
    })
}

/// The number, from 0 on, of the variable that says that this pigeon is in this hole.
fn place(pigeon: u32, hole: u32, holes: u32) -> u32 {
    pigeon.wrapping_mul(holes).wrapping_add(hole)
}

/// Each variable differs from the next, and the last from the first.
fn ring(alloc: Global, variables: u32) -> Result<Cnf, Fail> {
    let mut clauses = Items::new(alloc);
    for variable in 0..variables {
        let here = i64::from(variable) + 1;
        let next = if variable + 1 == variables {
            1
        } else {
            here + 1
        };
        push_clause(&mut clauses, alloc, &[here, next])?;
        push_clause(&mut clauses, alloc, &[-here, -next])?;
    }
    Ok(Cnf {
        variables: u64::from(variables),
        clauses,
    })
}

fn is_refuted(alloc: Global, cnf: &Cnf) -> Result<bool, Fail> {
    match judged(alloc, cnf, 1_000_000)? {
        Found::Model => Ok(false),
        Found::Refuted(_) => Ok(true),
        Found::Spent(_) => Err(Fail::new("spent")),
    }
}

/// The first number of holes for which an answer is wrong.
fn wrong_pigeons(alloc: Global) -> Result<Option<u32>, Fail> {
    for holes in 1..4 {
        let few = pigeonholes(alloc, holes, holes)?;
        let many = pigeonholes(alloc, holes + 1, holes)?;
        if is_refuted(alloc, &few)? || !is_refuted(alloc, &many)? {
            return Ok(Some(holes));
        }
    }
    Ok(None)
}

/// The first length of a ring for which the answer is wrong.
fn wrong_ring(alloc: Global) -> Result<Option<u32>, Fail> {
    for variables in 2..24 {
        let cnf = ring(alloc, variables)?;
        if is_refuted(alloc, &cnf)? != (variables % 2 == 1) {
            return Ok(Some(variables));
        }
    }
    Ok(None)
}

/// The next of a row of numbers that look random.
fn next(state: &mut u64) -> u64 {
    *state = state
        .wrapping_mul(6364136223846793005)
        .wrapping_add(1442695040888963407);
    *state >> 33
}

/// A literal of one of so many variables.
fn any_literal(variables: u32, state: &mut u64) -> i64 {
    let variable = i64::from((next(state) % u64::from(variables.max(1))) as u32) + 1;
    if next(state) % 2 == 0 {
        variable
    } else {
        -variable
    }
}

/// How many problems there are of each size.
const PROBLEMS: u32 = 49;

/// Clauses of up to three literals over five variables.
fn any_clauses(alloc: Global, count: u64, state: &mut u64) -> Result<Cnf, Fail> {
    let mut clauses = Items::new(alloc);
    for _ in 0..count {
        let mut clause = Items::new(alloc);
        for _ in 0..next(state) % 3 + 1 {
            push_lit(&mut clause, any_literal(5, state))?;
        }
        clauses.push(clause)?;
    }
    Ok(Cnf {
        variables: 5,
        clauses,
    })
}

/// The first number of clauses for which the answer isn't that of trying all assignments.
fn wrong_clauses(alloc: Global) -> Result<Option<u64>, Fail> {
    let mut state = 1;
    for count in 0..24 {
        for _ in 0..12 {
            let cnf = any_clauses(alloc, count, &mut state)?;
            if is_refuted(alloc, &cnf)? == has_model(alloc, &cnf, 32)? {
                return Ok(Some(count));
            }
        }
    }
    Ok(None)
}

/// Clauses of three literals, 426 for 100 variables, so that about half of the problems have a model.
fn three_literals(alloc: Global, variables: u32, state: &mut u64) -> Result<Cnf, Fail> {
    let mut clauses = Items::new(alloc);
    for _ in 0..u64::from(variables) * 426 / 100 {
        let first = any_literal(variables, state);
        let second = any_literal(variables, state);
        let third = any_literal(variables, state);
        push_clause(&mut clauses, alloc, &[first, second, third])?;
    }
    Ok(Cnf {
        variables: u64::from(variables),
        clauses,
    })
}

/// The first number of variables for which not both answers are found, on problems whose answers are
/// judged by the clauses or by the checker.
fn one_sided(alloc: Global) -> Result<Option<u32>, Fail> {
    let mut state = 3;
    for variables in 20..61 {
        let mut refuted = 0u32;
        for _ in 0..PROBLEMS {
            let cnf = three_literals(alloc, variables, &mut state)?;
            if is_refuted(alloc, &cnf)? {
                refuted = refuted.wrapping_add(1);
            }
        }
        if refuted == 0 || refuted >= PROBLEMS {
            return Ok(Some(variables));
        }
    }
    Ok(None)
}

#[test]
fn answers(rt: HostRuntime) -> Result<(), Fail> {
    assert_eq!(rt; wrong_case(rt.alloc())?, None);
    assert_eq!(rt; square_step(rt.alloc())?, Some(1));
    Ok(())
}

#[test]
fn families(rt: HostRuntime) -> Result<(), Fail> {
    let alloc = rt.alloc();
    for found in [wrong_pigeons(alloc)?, wrong_ring(alloc)?, one_sided(alloc)?] {
        assert_eq!(rt; found, None);
    }
    Ok(())
}

#[test]
fn all_assignments_tried(rt: HostRuntime) -> Result<(), Fail> {
    assert_eq!(rt; wrong_clauses(rt.alloc())?, None);
    Ok(())
}
