//! The report, its lines, and its text.

ghost use Rattle.std.specs.Prelude.{◌≡◌, ◌++◌, map, None, if◌then◌else◌, true, codes, IfOk, OnOk};
ghost use Rattle.std.specs.List.{flat_map, list_all};
ghost use Rattle.proof_text.specs.Blocks.{block_text, IsSpelt};
ghost use Rattle.report_text.specs.Lines.{shown_block, path_text, head_text, candidates_text, costs_text, beyond_text, line_text, last_text, report_text, are_items_spelt, IsBlockSpelt, IsLineSpelt, AreSpelt, shown, shown_report, written};

use crate::ends::push_end;
use crate::items::{push_events, push_items};
use crate::pieces::{push, push_long};
use crate::questions::{push_query, push_terms, push_tried};
use cnf_core::{Cnf, Derivation};
use js_units::{NoMemory, Units};
use path_core::{InputValue, Path, Query};
use proof_text::write_block;
use sqlite_items::Items;
use std::alloc::Global;

/// What a report says in one of its lines.
#[derive(Drop)]
pub enum Line {
    /// An input, by its names, and its path.
    Path {
        input: Items<(Units, InputValue)>,
        path: Path,
    },
    /// No input goes on in another way, with a block that shows it, where one is at hand.
    Shut {
        query: Query,
        block: Option<(Cnf, Derivation)>,
    },
    /// The candidates ran out: those that were tried, and one that wasn't.
    Tried {
        query: Query,
        tried: Items<Items<(Units, InputValue)>>,
        untried: Items<(Units, InputValue)>,
    },
    /// The steps ran out.
    Stepped {
        query: Query,
        cnf: Cnf,
        derivation: Derivation,
    },
    /// The question costs more than is allowed: its cost, and the text of each of its terms.
    Wide {
        query: Query,
        cost: u64,
        terms: Items<Items<u8>>,
    },
    /// No more paths are listed: an input that takes another way.
    Unvisited {
        query: Query,
        input: Items<(Units, InputValue)>,
    },
}

/// The lines of a report, and whether every input takes a printed path.
#[derive(Drop)]
pub struct Report {
    pub lines: Items<Line>,
    pub complete: bool,
}

fn push_block(
    alloc: Global,
    out: &mut Vec<u8>,
    shown: bool,
    block: &Option<(Cnf, Derivation)>,
) -> Result<(), NoMemory>
    requires { IsBlockSpelt block.now }
    ensures { OnOk result (out.new.items ≡ out.old.items ++ shown_block (if shown then block.now else None)) }
{
    match block {
        Some((cnf, derivation)) => {
            if shown {
                write_block(alloc, out, cnf, derivation)?;
            }
            Ok(())
        }
        None => Ok(()),
    }
}

fn push_path(
    alloc: Global,
    out: &mut Vec<u8>,
    input: &[(Units, InputValue)],
    path: &Path,
) -> Result<(), NoMemory>
    requires { are_items_spelt input.now ≡ true }
    ensures { OnOk result (out.new.items ≡ out.old.items ++ path_text input.now path.now) }
{
    push(out, "path")?;
    push_items(alloc, out, input)?;
    push(out, " |")?;
    push_events(alloc, out, path.events.as_slice())?;
    push(out, " | ")?;
    push_end(alloc, out, path.end)?;
    push(out, "\n")?;
    Ok(())
}

#[tactic(auto, unfolding(crate::specs::Lines::head_text))]
fn push_head(alloc: Global, out: &mut Vec<u8>, word: &str, query: &Query) -> Result<(), NoMemory>
    ensures { OnOk result (out.new.items ≡ out.old.items ++ head_text word.now query.now) }
{
    push(out, word)?;
    push_query(alloc, out, query)?;
    push(out, "\n")?;
    Ok(())
}

#[tactic(auto, unfolding(crate::specs::Lines::candidates_text))]
fn push_candidates(
    alloc: Global,
    out: &mut Vec<u8>,
    tried: &[Items<(Units, InputValue)>],
    untried: &[(Units, InputValue)],
) -> Result<(), NoMemory>
    requires tried { list_all are_items_spelt tried.now ≡ true }
    requires untried { are_items_spelt untried.now ≡ true }
    ensures { OnOk result (out.new.items ≡ out.old.items ++ candidates_text tried.now untried.now) }
{
    push_tried(alloc, out, tried)?;
    push(out, "untried")?;
    push_items(alloc, out, untried)?;
    push(out, "\n")?;
    Ok(())
}

#[tactic(auto, unfolding(crate::specs::Lines::costs_text))]
fn push_costs(
    alloc: Global,
    out: &mut Vec<u8>,
    cost: u64,
    terms: &[Items<u8>],
) -> Result<(), NoMemory>
    ensures { OnOk result (out.new.items ≡ out.old.items ++ costs_text cost terms.now) }
{
    push(out, "cost ")?;
    push_long(alloc, out, cost)?;
    push(out, "\nterms ")?;
    push_long(alloc, out, terms.len() as u64)?;
    push(out, "\n")?;
    push_terms(out, terms)?;
    Ok(())
}

#[tactic(auto, unfolding(crate::specs::Lines::beyond_text))]
fn push_beyond(
    alloc: Global,
    out: &mut Vec<u8>,
    input: &[(Units, InputValue)],
) -> Result<(), NoMemory>
    requires { are_items_spelt input.now ≡ true }
    ensures { OnOk result (out.new.items ≡ out.old.items ++ beyond_text input.now) }
{
    push(out, "beyond")?;
    push_items(alloc, out, input)?;
    push(out, "\n")?;
    Ok(())
}

fn push_stepped(
    alloc: Global,
    out: &mut Vec<u8>,
    query: &Query,
    cnf: &Cnf,
    derivation: &Derivation,
) -> Result<(), NoMemory>
    requires { IsSpelt cnf.now derivation.now }
    ensures { OnOk result (out.new.items ≡ out.old.items ++ (head_text (codes "unknown steps") query.now ++ block_text cnf.now derivation.now)) }
{
    push_head(alloc, out, "unknown steps", query)?;
    write_block(alloc, out, cnf, derivation)?;
    Ok(())
}

fn push_wide(
    alloc: Global,
    out: &mut Vec<u8>,
    query: &Query,
    cost: u64,
    terms: &[Items<u8>],
) -> Result<(), NoMemory>
    ensures { OnOk result (out.new.items ≡ out.old.items ++ (head_text (codes "unknown width") query.now ++ costs_text cost terms.now)) }
{
    push_head(alloc, out, "unknown width", query)?;
    push_costs(alloc, out, cost, terms)?;
    Ok(())
}

#[tactic(auto, unfolding(crate::specs::Lines::line_text))]
fn push_line(alloc: Global, out: &mut Vec<u8>, blocks: bool, line: &Line) -> Result<(), NoMemory>
    requires { IsLineSpelt line.now }
    ensures { OnOk result (out.new.items ≡ out.old.items ++ line_text (shown blocks line.now)) }
{
    match line {
        Line::Path { input, path } => {
            push_path(alloc, out, input.as_slice(), path)?;
            Ok(())
        }
        Line::Shut { query, block } => {
            push_head(alloc, out, "infeasible", query)?;
            push_block(alloc, out, blocks, block)?;
            Ok(())
        }
        Line::Tried {
            query,
            tried,
            untried,
        } => {
            push_head(alloc, out, "unknown candidates", query)?;
            push_candidates(alloc, out, tried.as_slice(), untried.as_slice())?;
            Ok(())
        }
        Line::Stepped {
            query,
            cnf,
            derivation,
        } => {
            push_stepped(alloc, out, query, cnf, derivation)?;
            Ok(())
        }
        Line::Wide { query, cost, terms } => {
            push_wide(alloc, out, query, *cost, terms.as_slice())?;
            Ok(())
        }
        Line::Unvisited { query, input } => {
            push_head(alloc, out, "open", query)?;
            push_beyond(alloc, out, input.as_slice())?;
            Ok(())
        }
    }
}

fn push_lines(
    alloc: Global,
    out: &mut Vec<u8>,
    blocks: bool,
    lines: &[Line],
) -> Result<(), NoMemory>
    requires { AreSpelt lines.now }
    ensures { OnOk result (out.new.items ≡ out.old.items ++ flat_map line_text (map (shown blocks) lines.now)) }
{
    let mut left = lines;
    while let [first, rest @ ..] = left {
        push_line(alloc, out, blocks, first)?;
        left = rest;
    }
    Ok(())
}

fn last_line(complete: bool) -> &'static str
    ensures { result.now ≡ last_text complete }
{
    if complete {
        "complete\n"
    } else {
        "incomplete\n"
    }
}

#[tactic(auto, unfolding(crate::specs::Lines::report_text))]
fn report_bytes(alloc: Global, report: &Report, blocks: bool) -> Result<Vec<u8>, NoMemory>
    requires { AreSpelt report.now.lines }
    ensures { IfOk result (λ text. text.items ≡ report_text (shown_report blocks report.now)) }
{
    let mut out = Vec::new(alloc);
    push(&mut out, "expose 1\n")?;
    push_lines(alloc, &mut out, blocks, report.lines.as_slice())?;
    push(&mut out, last_line(report.complete))?;
    Ok(out)
}

/// The line of a path, ended by LF.
pub fn write_path(
    alloc: Global,
    input: &[(Units, InputValue)],
    path: &Path,
) -> Result<Vec<u8>, NoMemory>
    requires { are_items_spelt input.now ≡ true }
    ensures { IfOk result (λ text. text.items ≡ path_text input.now path.now) }
{
    let mut text = Vec::new(alloc);
    push_path(alloc, &mut text, input, path)?;
    Ok(text)
}

/// The text of the report, each line ended by LF. Blocks under infeasible lines are written where they
/// are asked for; those under `unknown steps` always are.
pub fn write_report(alloc: Global, report: &Report, blocks: bool) -> Result<Vec<u8>, NoMemory>
    requires { AreSpelt report.now.lines }
    ensures { IfOk result (λ text. text.items ≡ written blocks report.now) }
{
    let text = report_bytes(alloc, report, blocks)?;
    Ok(text)
}
