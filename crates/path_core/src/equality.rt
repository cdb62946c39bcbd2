//! Whether two paths are the same.

ghost use Rattle.std.specs.Prelude.{◌≡◌, ◌≢◌, ◌++◌, ◌↔◌, List, IsTrue, IfSome, IfNone};
ghost use Rattle.path_core.specs.declared.path.Event.{Event};

use crate::path::{End, Event, Path};
use js_units::Units;

fn is_same_text(a: &Units, b: &Units) -> bool
    ensures { IsTrue result ↔ (a.now ≡ b.now) }
{
    a.as_slice() == b.as_slice()
}

/// Whether two events are the same, in their kind, their site and their outcome.
pub fn is_same_event(a: &Event, b: &Event) -> bool
    ensures { IsTrue result ↔ (a.now ≡ b.now) }
{
    match (a, b) {
        (
            Event::Pick {
                site,
                kind,
                out,
                ways,
            },
            Event::Pick {
                site: other_site,
                kind: other_kind,
                out: other_out,
                ways: other_ways,
            },
        ) => {
            *site == *other_site
                && *kind == *other_kind
                && *out == *other_out
                && *ways == *other_ways
        }
        (
            Event::Value { site, text },
            Event::Value {
                site: other_site,
                text: other_text,
            },
        ) => *site == *other_site && is_same_text(text, other_text),
        _ => false,
    }
}

fn are_same_events(a: &[Event], b: &[Event]) -> bool
    ensures { IsTrue result ↔ (a.now ≡ b.now) }
{
    match rest_behind(a, b) {
        Some(rest) => rest.is_empty(),
        None => false,
    }
}

/// What follows the prefix, where the events begin with it.
pub(crate) fn rest_behind<'e>(prefix: &[Event], events: &'e [Event]) -> Option<&'e [Event]>
    ensures found { IfSome result (λ rest. events.now ≡ prefix.now ++ rest.now) }
    ensures none { IfNone result ((rest : List Event) → events.now ≢ prefix.now ++ rest) }
{
    let mut left = prefix;
    let mut behind = events;
    while let [first, rest @ ..] = left {
        let [event, more @ ..] = behind else {
            return None;
        };
        if !is_same_event(first, event) {
            return None;
        }
        left = rest;
        behind = more;
    }
    Some(behind)
}

pub(crate) fn is_same_end(a: End, b: End) -> bool
    ensures { IsTrue result ↔ (a ≡ b) }
{
    a == b
}

/// Whether two paths have the same events in the same order, and the same end.
pub fn is_same_path(a: &Path, b: &Path) -> bool
    ensures { IsTrue result ↔ (a.now ≡ b.now) }
{
    are_same_events(a.events.as_slice(), b.events.as_slice()) && is_same_end(a.end, b.end)
}
