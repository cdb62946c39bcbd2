//! The first line of what a report says, read back.

ghost use Rattle.std.specs.Prelude.{◌≡◌, IfOk, true, false};
ghost use Rattle.std.specs.Option.{option_map};
ghost use Rattle.report_text.specs.Parts.{one_of};
ghost use Rattle.report_text.specs.Reports.{may};
ghost use Rattle.report_text.specs.Heads.{openings_told, opens_path, path_end_at, path_at, path_head_at, asked_head_at, last_head_at, opened_at, head_at};

use crate::endings::end;
use crate::events::events;
use crate::inputs::items;
use crate::queries::query;
use crate::words::one_of;
use js_units::{NoMemory, Units};
use path_core::{Event, InputValue, Path, Query};
use proof_text::after;
use sqlite_items::Items;
use std::alloc::Global;

/// What has been read of a report: nothing, lines of paths alone, or others too.
#[derive(Clone, Copy)]
pub(crate) enum Stage {
    First,
    Paths,
    Others,
}

/// What is said of a query.
#[derive(Clone, Copy)]
pub(crate) enum Asked {
    Shut,
    Tried,
    Stepped,
    Wide,
    Unvisited,
}

/// What a line begins with.
#[derive(Clone, Copy)]
enum Opening {
    Path,
    Asked(Asked),
    Last(bool),
}

/// A path, a query of which more lines may speak, or the last line.
#[derive(Drop)]
pub(crate) enum Head {
    Path {
        input: Items<(Units, InputValue)>,
        path: Path,
    },
    Asked {
        asked: Asked,
        query: Query,
    },
    Last {
        complete: bool,
    },
}

const OPENINGS: [(&str, Opening); 8] = [
    ("path", Opening::Path),
    ("infeasible", Opening::Asked(Asked::Shut)),
    ("unknown candidates", Opening::Asked(Asked::Tried)),
    ("unknown steps", Opening::Asked(Asked::Stepped)),
    ("unknown width", Opening::Asked(Asked::Wide)),
    ("open", Opening::Asked(Asked::Unvisited)),
    ("complete", Opening::Last(true)),
    ("incomplete", Opening::Last(false)),
];

#[tactic(auto, unfolding(crate::specs::Heads::openings_told))]
fn word(bytes: &[u8]) -> Option<(Opening, &[u8])>
    ensures { option_map (λ x. (x.0, x.1.now)) result ≡ one_of openings_told bytes.now }
{
    one_of(&OPENINGS, bytes)
}

fn opens_path(opening: Opening) -> bool
    ensures { result ≡ opens_path opening }
{
    match opening {
        Opening::Path => true,
        _ => false,
    }
}

/// Whether a line, of a path or another, may come next.
fn may(stage: Stage, path: bool) -> bool
    ensures { result ≡ may stage path }
{
    match stage {
        Stage::First => path,
        Stage::Paths => true,
        Stage::Others => !path,
    }
}

fn path_end(events: Items<Event>, bytes: &[u8]) -> Option<(Path, &[u8])>
    ensures { option_map (λ x. (x.0, x.1.now)) result ≡ path_end_at events bytes.now }
{
    let start = after(" | ", bytes)?;
    let (end, left) = end(start)?;
    let rest = after("\n", left)?;
    Some((Path { events, end }, rest))
}

/// Events, a bar, an end and the line's end.
#[tactic(auto, unfolding(crate::specs::Heads::path_at))]
fn path(alloc: Global, bytes: &[u8]) -> Result<Option<(Path, &[u8])>, NoMemory>
    ensures { IfOk result (λ r. option_map (λ x. (x.0, x.1.now)) r ≡ path_at bytes.now) }
{
    let (events, left) = events(alloc, bytes)?;
    Ok(path_end(events, left))
}

#[tactic(auto, unfolding(crate::specs::Heads::path_head_at))]
fn path_head(alloc: Global, bytes: &[u8]) -> Result<Option<(Head, &[u8])>, NoMemory>
    ensures { IfOk result (λ r. option_map (λ x. (x.0, x.1.now)) r ≡ path_head_at bytes.now) }
{
    let (input, left) = items(alloc, bytes)?;
    let start = match after(" |", left) {
        Some(start) => start,
        None => return Ok(None),
    };
    match path(alloc, start)? {
        Some((path, rest)) => Ok(Some((Head::Path { input, path }, rest))),
        None => Ok(None),
    }
}

fn asked_head(alloc: Global, asked: Asked, bytes: &[u8]) -> Result<Option<(Head, &[u8])>, NoMemory>
    ensures { IfOk result (λ r. option_map (λ x. (x.0, x.1.now)) r ≡ asked_head_at asked bytes.now) }
{
    let (query, left) = match query(alloc, bytes)? {
        Some(read) => read,
        None => return Ok(None),
    };
    match after("\n", left) {
        Some(rest) => Ok(Some((Head::Asked { asked, query }, rest))),
        None => Ok(None),
    }
}

fn last_head(complete: bool, bytes: &[u8]) -> Option<(Head, &[u8])>
    ensures { option_map (λ x. (x.0, x.1.now)) result ≡ last_head_at complete bytes.now }
{
    let rest = after("\n", bytes)?;
    Some((Head::Last { complete }, rest))
}

fn opened(alloc: Global, opening: Opening, bytes: &[u8]) -> Result<Option<(Head, &[u8])>, NoMemory>
    ensures { IfOk result (λ r. option_map (λ x. (x.0, x.1.now)) r ≡ opened_at opening bytes.now) }
{
    match opening {
        Opening::Path => path_head(alloc, bytes),
        Opening::Asked(asked) => asked_head(alloc, asked, bytes),
        Opening::Last(complete) => Ok(last_head(complete, bytes)),
    }
}

/// The line at the front, where one that begins so may come at this stage.
#[tactic(auto, unfolding(crate::specs::Heads::head_at))]
pub(crate) fn first_line(
    alloc: Global,
    stage: Stage,
    bytes: &[u8],
) -> Result<Option<(Head, &[u8])>, NoMemory>
    ensures { IfOk result (λ r. option_map (λ x. (x.0, x.1.now)) r ≡ head_at stage bytes.now) }
{
    let (opening, rest) = match word(bytes) {
        Some(found) => found,
        None => return Ok(None),
    };
    if may(stage, opens_path(opening)) {
        opened(alloc, opening, rest)
    } else {
        Ok(None)
    }
}
