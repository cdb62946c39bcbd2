//! Events read back.

ghost use Rattle.std.specs.Prelude.{◌≡◌, IfOk};
ghost use Rattle.std.specs.Option.{option_map};
ghost use Rattle.js_units.specs.Reading.{many};
ghost use Rattle.report_text.specs.Parts.{one_of};
ghost use Rattle.report_text.specs.Events.{letters, written_ways, ways_at, pick_at, text_at, outcome_at, place_at, event_at};

use crate::words::{one_of, short};
use js_units::{NoMemory, unescape_front};
use path_core::{Event, PickKind};
use proof_text::after;
use sqlite_items::Items;
use std::alloc::Global;

/// The letters of the kinds, and of a text.
const LETTERS: [(&str, Option<PickKind>); 9] = [
    ("b", Some(PickKind::Branch)),
    ("i", Some(PickKind::Place)),
    ("p", Some(PickKind::Number)),
    ("m", Some(PickKind::Match)),
    ("g", Some(PickKind::Group)),
    ("f", Some(PickKind::Found)),
    ("k", Some(PickKind::Key)),
    ("c", Some(PickKind::Clamp)),
    ("v", None),
];

#[tactic(auto, unfolding(crate::specs::Events::letters))]
fn kind(bytes: &[u8]) -> Option<(Option<PickKind>, &[u8])>
    ensures { option_map (λ x. (x.0, x.1.now)) result ≡ one_of letters bytes.now }
{
    one_of(&LETTERS, bytes)
}

fn written_ways(bytes: &[u8]) -> Option<(u32, &[u8])>
    ensures { option_map (λ x. (x.0, x.1.now)) result ≡ written_ways bytes.now }
{
    match after("/", bytes) {
        Some(rest) => short(rest),
        None => None,
    }
}

/// The ways, which are 2 where a kind's aren't written.
fn ways(kind: PickKind, bytes: &[u8]) -> Option<(u32, &[u8])>
    ensures { option_map (λ x. (x.0, x.1.now)) result ≡ ways_at kind bytes.now }
{
    match kind {
        PickKind::Key | PickKind::Clamp => written_ways(bytes),
        _ => Some((2, bytes)),
    }
}

fn pick(site: u32, kind: PickKind, bytes: &[u8]) -> Option<(Event, &[u8])>
    ensures { option_map (λ x. (x.0, x.1.now)) result ≡ pick_at site kind bytes.now }
{
    let (out, left) = short(bytes)?;
    let (ways, rest) = ways(kind, left)?;
    Some((
        Event::Pick {
            site,
            kind,
            out,
            ways,
        },
        rest,
    ))
}

fn text(alloc: Global, site: u32, bytes: &[u8]) -> Result<Option<(Event, &[u8])>, NoMemory>
    ensures { IfOk result (λ r. option_map (λ x. (x.0, x.1.now)) r ≡ text_at site bytes.now) }
{
    match unescape_front(alloc, bytes)? {
        Some((text, rest)) => Ok(Some((Event::Value { site, text }, rest))),
        None => Ok(None),
    }
}

fn outcome(
    alloc: Global,
    kind: Option<PickKind>,
    site: u32,
    bytes: &[u8],
) -> Result<Option<(Event, &[u8])>, NoMemory>
    ensures { IfOk result (λ r. option_map (λ x. (x.0, x.1.now)) r ≡ outcome_at kind site bytes.now) }
{
    match kind {
        Some(kind) => Ok(pick(site, kind, bytes)),
        None => text(alloc, site, bytes),
    }
}

/// A space, a letter and a site.
fn place(bytes: &[u8]) -> Option<((Option<PickKind>, u32), &[u8])>
    ensures { option_map (λ x. (x.0, x.1.now)) result ≡ place_at bytes.now }
{
    let start = after(" ", bytes)?;
    let (kind, behind) = kind(start)?;
    let (site, left) = short(behind)?;
    let rest = after("=", left)?;
    Some(((kind, site), rest))
}

/// A space, a letter, a site, `=` and what came out there.
#[tactic(auto, unfolding(crate::specs::Events::event_at))]
pub(crate) fn event(alloc: Global, bytes: &[u8]) -> Result<Option<(Event, &[u8])>, NoMemory>
    ensures { IfOk result (λ r. option_map (λ x. (x.0, x.1.now)) r ≡ event_at bytes.now) }
{
    match place(bytes) {
        Some(((kind, site), rest)) => outcome(alloc, kind, site, rest),
        None => Ok(None),
    }
}

/// The events at the front, and what is behind them.
pub(crate) fn events(alloc: Global, bytes: &[u8]) -> Result<(Items<Event>, &[u8]), NoMemory>
    ensures { IfOk result (λ r. (r.0, r.1.now) ≡ many event_at bytes.now) }
{
    let mut found = Items::new(alloc);
    let mut left = bytes;
    loop {
        match event(alloc, left)? {
            Some((next, rest)) => {
                found.push(next)?;
                left = rest;
            }
            None => return Ok((found, left)),
        }
    }
}
