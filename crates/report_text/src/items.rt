//! Values of inputs, and events.

ghost use Rattle.std.specs.Prelude.{◌≡◌, ◌++◌, true, OnOk};
ghost use Rattle.std.specs.List.{flat_map, list_all};
ghost use Rattle.report_text.specs.Lines.{value_text, item_text, letter, ways_text, event_text, is_ascii, is_item_spelt};

use crate::pieces::{push, push_number, push_quoted, push_signed};
use js_units::{NoMemory, Units};
use path_core::{Event, InputValue, PickKind};
use std::alloc::Global;

fn letter(kind: PickKind) -> &'static str
    ensures { result.now ≡ letter kind }
{
    match kind {
        PickKind::Branch => "b",
        PickKind::Place => "i",
        PickKind::Number => "p",
        PickKind::Match => "m",
        PickKind::Group => "g",
        PickKind::Found => "f",
        PickKind::Key => "k",
        PickKind::Clamp => "c",
    }
}

fn push_ways(alloc: Global, out: &mut Vec<u8>, kind: PickKind, ways: u32) -> Result<(), NoMemory>
    ensures { OnOk result (out.new.items ≡ out.old.items ++ ways_text kind ways) }
{
    match kind {
        PickKind::Key | PickKind::Clamp => {
            push(out, "/")?;
            push_number(alloc, out, ways)?;
            Ok(())
        }
        _ => Ok(()),
    }
}

#[tactic(auto, unfolding(crate::specs::Lines::event_text))]
pub(crate) fn push_event(alloc: Global, out: &mut Vec<u8>, event: &Event) -> Result<(), NoMemory>
    ensures { OnOk result (out.new.items ≡ out.old.items ++ event_text event.now) }
{
    match event {
        Event::Pick {
            site,
            kind,
            out: outcome,
            ways,
        } => {
            push(out, " ")?;
            push(out, letter(*kind))?;
            push_number(alloc, out, *site)?;
            push(out, "=")?;
            push_number(alloc, out, *outcome)?;
            push_ways(alloc, out, *kind, *ways)?;
            Ok(())
        }
        Event::Value { site, text } => {
            push(out, " v")?;
            push_number(alloc, out, *site)?;
            push(out, "=")?;
            push_quoted(alloc, out, text)?;
            Ok(())
        }
    }
}

pub(crate) fn push_events(
    alloc: Global,
    out: &mut Vec<u8>,
    events: &[Event],
) -> Result<(), NoMemory>
    ensures { OnOk result (out.new.items ≡ out.old.items ++ flat_map event_text events.now) }
{
    let mut left = events;
    while let [first, rest @ ..] = left {
        push_event(alloc, out, first)?;
        left = rest;
    }
    Ok(())
}

fn push_name(out: &mut Vec<u8>, name: &Units) -> Result<(), NoMemory>
    requires { list_all is_ascii name.now ≡ true }
    ensures { OnOk result (out.new.items ≡ out.old.items ++ name.now) }
{
    let mut left = name.as_slice();
    while let [first, rest @ ..] = left {
        out.push(*first as u8)?;
        left = rest;
    }
    Ok(())
}

fn push_value(alloc: Global, out: &mut Vec<u8>, value: &InputValue) -> Result<(), NoMemory>
    ensures { OnOk result (out.new.items ≡ out.old.items ++ value_text value.now) }
{
    match value {
        InputValue::Int(number) => {
            push_signed(alloc, out, *number)?;
            Ok(())
        }
        InputValue::Text(text) => {
            push_quoted(alloc, out, text)?;
            Ok(())
        }
    }
}

#[tactic(auto, unfolding(crate::specs::Lines::item_text))]
fn push_item(alloc: Global, out: &mut Vec<u8>, item: &(Units, InputValue)) -> Result<(), NoMemory>
    requires { is_item_spelt item.now ≡ true }
    ensures { OnOk result (out.new.items ≡ out.old.items ++ item_text item.now) }
{
    push(out, " ")?;
    push_name(out, &item.0)?;
    push(out, "=")?;
    push_value(alloc, out, &item.1)?;
    Ok(())
}

pub(crate) fn push_items(
    alloc: Global,
    out: &mut Vec<u8>,
    items: &[(Units, InputValue)],
) -> Result<(), NoMemory>
    requires { list_all is_item_spelt items.now ≡ true }
    ensures { OnOk result (out.new.items ≡ out.old.items ++ flat_map item_text items.now) }
{
    let mut left = items;
    while let [first, rest @ ..] = left {
        push_item(alloc, out, first)?;
        left = rest;
    }
    Ok(())
}
