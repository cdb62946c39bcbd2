//! Queries, and what was tried and counted of them.

ghost use Rattle.std.specs.Prelude.{◌≡◌, ◌++◌, true, OnOk};
ghost use Rattle.std.specs.List.{flat_map, list_all};
ghost use Rattle.report_text.specs.Lines.{child_text, query_text, tried_text, term_text, are_items_spelt};

use crate::ends::push_end;
use crate::items::{push_event, push_events, push_items};
use crate::pieces::push;
use js_units::{NoMemory, Units};
use path_core::{Child, End, Event, InputValue, Query};
use sqlite_items::Items;
use std::alloc::Global;

fn push_child(alloc: Global, out: &mut Vec<u8>, child: &Child) -> Result<(), NoMemory>
    ensures { OnOk result (out.new.items ≡ out.old.items ++ child_text child.now) }
{
    match child {
        Child::Event(event) => {
            push_event(alloc, out, event)?;
            Ok(())
        }
        Child::End(end) => {
            push(out, " ")?;
            push_end(alloc, out, *end)?;
            Ok(())
        }
    }
}

fn push_children(alloc: Global, out: &mut Vec<u8>, children: &[Child]) -> Result<(), NoMemory>
    ensures { OnOk result (out.new.items ≡ out.old.items ++ flat_map child_text children.now) }
{
    let mut left = children;
    while let [first, rest @ ..] = left {
        push_child(alloc, out, first)?;
        left = rest;
    }
    Ok(())
}

#[tactic(auto, unfolding(crate::specs::Lines::query_text))]
pub(crate) fn push_query(alloc: Global, out: &mut Vec<u8>, query: &Query) -> Result<(), NoMemory>
    ensures { OnOk result (out.new.items ≡ out.old.items ++ query_text query.now) }
{
    push_events(alloc, out, query.prefix.as_slice())?;
    push(out, " |")?;
    push_children(alloc, out, query.children.as_slice())?;
    Ok(())
}

pub(crate) fn push_tried(
    alloc: Global,
    out: &mut Vec<u8>,
    tried: &[Items<(Units, InputValue)>],
) -> Result<(), NoMemory>
    requires { list_all are_items_spelt tried.now ≡ true }
    ensures { OnOk result (out.new.items ≡ out.old.items ++ flat_map tried_text tried.now) }
{
    let mut left = tried;
    while let [first, rest @ ..] = left {
        push(out, "tried")?;
        push_items(alloc, out, first.as_slice())?;
        push(out, "\n")?;
        left = rest;
    }
    Ok(())
}

pub(crate) fn push_terms(out: &mut Vec<u8>, terms: &[Items<u8>]) -> Result<(), NoMemory>
    ensures { OnOk result (out.new.items ≡ out.old.items ++ flat_map term_text terms.now) }
{
    let mut left = terms;
    while let [first, rest @ ..] = left {
        out.extend_from_slice(first.as_slice())?;
        push(out, "\n")?;
        left = rest;
    }
    Ok(())
}
