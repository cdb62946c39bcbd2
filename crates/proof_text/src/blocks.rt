//! Blocks written.

ghost use Rattle.std.specs.Prelude.{◌≡◌, ◌++◌, decimal, codes, IfOk, OnOk, OnErr};
ghost use Rattle.std.specs.List.{flat_map};
ghost use Rattle.std.specs.Fmt.{signed_decimal};
ghost use Rattle.proof_text.specs.Blocks.{literal_text, hint_text, clause_text, step_text, sizes_text, sizes_of, block_text, IsSpelt};

use cnf_core::{Cnf, Derivation, Lit, ProofStep};
use js_units::NoMemory;
use sqlite_items::Items;
use std::alloc::Global;

fn push(out: &mut Vec<u8>, text: &str) -> Result<(), NoMemory>
    ensures { OnOk result (out.new.items ≡ out.old.items ++ text.now) }
{
    out.extend_from_slice(text.as_bytes())?;
    Ok(())
}

fn push_number(alloc: Global, out: &mut Vec<u8>, number: u64) -> Result<(), NoMemory>
    ensures { OnOk result (out.new.items ≡ out.old.items ++ decimal number) }
{
    let text = number.to_string(alloc)?;
    push(out, text.as_str())?;
    Ok(())
}

fn push_literal(alloc: Global, out: &mut Vec<u8>, lit: Lit) -> Result<(), NoMemory>
    ensures { OnOk result (out.new.items ≡ out.old.items ++ literal_text lit) }
{
    let text = lit.number().to_string(alloc)?;
    push(out, " ")?;
    push(out, text.as_str())?;
    Ok(())
}

fn push_literals(alloc: Global, out: &mut Vec<u8>, clause: &[Lit]) -> Result<(), NoMemory>
    ensures { OnOk result (out.new.items ≡ out.old.items ++ flat_map literal_text clause.now) }
{
    let mut left = clause;
    while let [first, rest @ ..] = left {
        push_literal(alloc, out, *first)?;
        left = rest;
    }
    Ok(())
}

fn push_hints(alloc: Global, out: &mut Vec<u8>, hints: &[u64]) -> Result<(), NoMemory>
    ensures { OnOk result (out.new.items ≡ out.old.items ++ flat_map hint_text hints.now) }
{
    let mut left = hints;
    while let [first, rest @ ..] = left {
        push(out, " ")?;
        push_number(alloc, out, *first)?;
        left = rest;
    }
    Ok(())
}

#[tactic(auto, unfolding(crate::specs::Blocks::clause_text))]
fn push_clause(alloc: Global, out: &mut Vec<u8>, clause: &[Lit]) -> Result<(), NoMemory>
    ensures { OnOk result (out.new.items ≡ out.old.items ++ clause_text clause.now) }
{
    push(out, "c")?;
    push_literals(alloc, out, clause)?;
    push(out, " 0\n")?;
    Ok(())
}

fn push_clauses(alloc: Global, out: &mut Vec<u8>, clauses: &[Items<Lit>]) -> Result<(), NoMemory>
    ensures { OnOk result (out.new.items ≡ out.old.items ++ flat_map clause_text clauses.now) }
{
    let mut left = clauses;
    while let [first, rest @ ..] = left {
        push_clause(alloc, out, first.as_slice())?;
        left = rest;
    }
    Ok(())
}

#[tactic(auto, unfolding(crate::specs::Blocks::step_text))]
fn push_step(alloc: Global, out: &mut Vec<u8>, step: &ProofStep) -> Result<(), NoMemory>
    ensures { OnOk result (out.new.items ≡ out.old.items ++ step_text step.now) }
{
    push(out, "s")?;
    push_literals(alloc, out, step.clause.as_slice())?;
    push(out, " 0")?;
    push_hints(alloc, out, step.hints.as_slice())?;
    push(out, " 0\n")?;
    Ok(())
}

fn push_steps(alloc: Global, out: &mut Vec<u8>, steps: &[ProofStep]) -> Result<(), NoMemory>
    ensures { OnOk result (out.new.items ≡ out.old.items ++ flat_map step_text steps.now) }
{
    let mut left = steps;
    while let [first, rest @ ..] = left {
        push_step(alloc, out, first)?;
        left = rest;
    }
    Ok(())
}

#[tactic(auto, unfolding(crate::specs::Blocks::sizes_text))]
fn push_sizes(
    alloc: Global,
    out: &mut Vec<u8>,
    cnf: &Cnf,
    derivation: &Derivation,
) -> Result<(), NoMemory>
    ensures { OnOk result (out.new.items ≡ out.old.items ++ sizes_text (sizes_of cnf.now derivation.now)) }
{
    push(out, "block ")?;
    push_number(alloc, out, cnf.variables)?;
    push(out, " ")?;
    push_number(alloc, out, cnf.clauses.as_slice().len() as u64)?;
    push(out, " ")?;
    push_number(alloc, out, derivation.steps.as_slice().len() as u64)?;
    push(out, "\n")?;
    Ok(())
}

#[tactic(auto, unfolding(crate::specs::Blocks::block_text))]
fn block_bytes(alloc: Global, cnf: &Cnf, derivation: &Derivation) -> Result<Vec<u8>, NoMemory>
    ensures { IfOk result (λ text. text.items ≡ block_text cnf.now derivation.now) }
{
    let mut out = Vec::new(alloc);
    push_sizes(alloc, &mut out, cnf, derivation)?;
    push_clauses(alloc, &mut out, cnf.clauses.as_slice())?;
    push_steps(alloc, &mut out, derivation.steps.as_slice())?;
    Ok(out)
}

/// Writes the block's text behind what `out` holds. After a refusal `out` is as before.
pub fn write_block(
    alloc: Global,
    out: &mut Vec<u8>,
    cnf: &Cnf,
    derivation: &Derivation,
) -> Result<(), NoMemory>
    requires { IsSpelt cnf.now derivation.now }
    ensures ok { OnOk result (out.new.items ≡ out.old.items ++ block_text cnf.now derivation.now) }
    ensures err { OnErr result (out.new.items ≡ out.old.items) }
{
    let text = block_bytes(alloc, cnf, derivation)?;
    out.extend_from_slice(text.as_slice())?;
    Ok(())
}
