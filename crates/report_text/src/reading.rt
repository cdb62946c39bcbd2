//! Reports read back.

ghost use Rattle.std.specs.Prelude.{◌≡◌, IfOk};
ghost use Rattle.proof_text.specs.Counted.{seen};
ghost use Rattle.report_text.specs.Reports.{is_path, behind_line};
ghost use Rattle.report_text.specs.Entries.{told_line, under_at, entry_at, lines_at, alone, seen_report, report_at};
ghost use Rattle.report_text.specs.declared.heads.Stage.TheVariants as stages;
ghost use Rattle.report_text.specs.Lines.{AreSpelt};
ghost use Rattle.report_text.specs.Answers.{Reads};

use crate::bodies::body;
use crate::heads::{Head, Stage, first_line};
use crate::report::{Line, Report};
use js_units::NoMemory;
use proof_text::{after, line_at};
use sqlite_items::Items;
use std::alloc::Global;

/// Why the bytes are no report's.
#[derive(Clone, Copy)]
pub enum ReportRefusal {
    /// The first line that no report has after the lines before it, counted from 1. A missing line counts.
    Line { line: u64 },
    NoMemory,
}

/// A line with those that belong to it, or the last one.
#[derive(Drop)]
enum Entry {
    Told(Line),
    Last(bool),
}

fn told_line<'a>(read: Result<(Line, &'a [u8]), &'a [u8]>) -> Result<(Entry, &'a [u8]), &'a [u8]>
    ensures { seen result ≡ told_line (seen read.entry) }
{
    match read {
        Ok((line, rest)) => Ok((Entry::Told(line), rest)),
        Err(at) => Err(at),
    }
}

/// The line and what stands under it.
fn under(alloc: Global, head: Head, bytes: &[u8]) -> Result<Result<(Entry, &[u8]), &[u8]>, NoMemory>
    ensures { IfOk result (λ r. seen r ≡ under_at head bytes.now) }
{
    match head {
        Head::Path { input, path } => Ok(Ok((Entry::Told(Line::Path { input, path }), bytes))),
        Head::Asked { asked, query } => {
            let read = body(alloc, asked, query, bytes)?;
            Ok(told_line(read))
        }
        Head::Last { complete } => Ok(Ok((Entry::Last(complete), bytes))),
    }
}

/// What comes next at this stage; or the bytes from its first wrong line on.
#[tactic(auto, unfolding(crate::specs::Entries::entry_at))]
fn next_entry(
    alloc: Global,
    stage: Stage,
    bytes: &[u8],
) -> Result<Result<(Entry, &[u8]), &[u8]>, NoMemory>
    ensures { IfOk result (λ r. seen r ≡ entry_at stage bytes.now) }
{
    match first_line(alloc, stage, bytes)? {
        Some((head, rest)) => under(alloc, head, rest),
        None => Ok(Err(bytes)),
    }
}

fn stage_behind(line: &Line) -> Stage
    ensures { result ≡ behind_line (is_path line.now) }
{
    match line {
        Line::Path { .. } => Stage::Paths,
        _ => Stage::Others,
    }
}

/// The lines up to the last one, and what is behind that; or the bytes from the first wrong line on.
fn lines(alloc: Global, bytes: &[u8]) -> Result<Result<(Report, &[u8]), &[u8]>, NoMemory>
    ensures { IfOk result (λ r. seen r ≡ lines_at stages.First bytes.now) }
{
    let mut found = Items::new(alloc);
    let mut stage = Stage::First;
    let mut left = bytes;
    loop {
        let (entry, rest) = match next_entry(alloc, stage, left)? {
            Ok(read) => read,
            Err(at) => return Ok(Err(at)),
        };
        match entry {
            Entry::Told(line) => {
                stage = stage_behind(&line);
                found.push(line)?;
                left = rest;
            }
            Entry::Last(complete) => {
                let lines = found;
                return Ok(Ok((Report { lines, complete }, rest)));
            }
        }
    }
}

fn alone(report: Report, rest: &[u8]) -> Result<Report, &[u8]>
    ensures { seen_report result ≡ alone report rest.now }
{
    match rest {
        [] => Ok(report),
        _ => {
            drop(report);
            Err(rest)
        }
    }
}

/// The report that the bytes spell; or the bytes from the first wrong line on.
#[tactic(auto, unfolding(crate::specs::Entries::report_at))]
fn whole(alloc: Global, bytes: &[u8]) -> Result<Result<Report, &[u8]>, NoMemory>
    ensures { IfOk result (λ r. seen_report r ≡ report_at bytes.now) }
{
    let start = match after("expose 1\n", bytes) {
        Some(start) => start,
        None => return Ok(Err(bytes)),
    };
    match lines(alloc, start)? {
        Ok((report, rest)) => Ok(alone(report, rest)),
        Err(at) => Ok(Err(at)),
    }
}

/// The report that the bytes spell. It can be written, and is then the bytes again.
pub fn read_report(alloc: Global, bytes: &[u8]) -> Result<Report, ReportRefusal>
    ensures read { Reads bytes.now result }
    ensures writable { IfOk result (λ report. AreSpelt report.lines) }
{
    let read = match whole(alloc, bytes) {
        Ok(read) => read,
        Err(_) => return Err(ReportRefusal::NoMemory),
    };
    match read {
        Ok(report) => Ok(report),
        Err(at) => Err(ReportRefusal::Line {
            line: line_at(bytes, at),
        }),
    }
}
