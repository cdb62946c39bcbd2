//! Queries read back.

ghost use Rattle.std.specs.Prelude.{◌≡◌, IfOk};
ghost use Rattle.std.specs.Option.{option_map};
ghost use Rattle.js_units.specs.Reading.{many};
ghost use Rattle.report_text.specs.Queries.{ending_child_at, child_at, query_at};

use crate::endings::end;
use crate::events::{event, events};
use js_units::NoMemory;
use path_core::{Child, Query};
use proof_text::after;
use sqlite_items::Items;
use std::alloc::Global;

fn ending_child(bytes: &[u8]) -> Option<(Child, &[u8])>
    ensures { option_map (λ x. (x.0, x.1.now)) result ≡ ending_child_at bytes.now }
{
    let start = after(" ", bytes)?;
    let (end, rest) = end(start)?;
    Some((Child::End(end), rest))
}

/// An event, or a space and an end.
#[tactic(auto, unfolding(crate::specs::Queries::child_at))]
fn child(alloc: Global, bytes: &[u8]) -> Result<Option<(Child, &[u8])>, NoMemory>
    ensures { IfOk result (λ r. option_map (λ x. (x.0, x.1.now)) r ≡ child_at bytes.now) }
{
    match event(alloc, bytes)? {
        Some((event, rest)) => Ok(Some((Child::Event(event), rest))),
        None => Ok(ending_child(bytes)),
    }
}

fn children(alloc: Global, bytes: &[u8]) -> Result<(Items<Child>, &[u8]), NoMemory>
    ensures { IfOk result (λ r. (r.0, r.1.now) ≡ many child_at bytes.now) }
{
    let mut found = Items::new(alloc);
    let mut left = bytes;
    loop {
        match child(alloc, left)? {
            Some((next, rest)) => {
                found.push(next)?;
                left = rest;
            }
            None => return Ok((found, left)),
        }
    }
}

/// The events of a prefix, ` |`, and each child.
#[tactic(auto, unfolding(crate::specs::Queries::query_at))]
pub(crate) fn query(alloc: Global, bytes: &[u8]) -> Result<Option<(Query, &[u8])>, NoMemory>
    ensures { IfOk result (λ r. option_map (λ x. (x.0, x.1.now)) r ≡ query_at bytes.now) }
{
    let (prefix, left) = events(alloc, bytes)?;
    let behind = match after(" |", left) {
        Some(behind) => behind,
        None => return Ok(None),
    };
    let (children, rest) = children(alloc, behind)?;
    Ok(Some((Query { prefix, children }, rest)))
}
