//! The bounds file, which is one JSON object.

ghost use Rattle.std.specs.Prelude.{◌≡◌, ◌≤◌, [], length, codes, All, IfOk};
ghost use Rattle.std.specs.Option.{option_map, option_and_then};
ghost use Rattle.serde_json.specs.Find.{get, as_array};
ghost use Rattle.serde_json.specs.View.{view, items_view};
ghost use Rattle.path_core.specs.Accepted.{IsAccepted, HasBudgets};
ghost use Rattle.path_core.specs.Form.{Gives, are_objects, object_of, version_of, list_of, declared_from, form};

use crate::bounds::{Bounds, BoundsRefusal, Declared};
use crate::declaring::declared;
use crate::members::{check_each, check_others, refused};
use crate::sizes::budgets;
use serde_json::Value;
use sqlite_items::Items;
use std::alloc::Global;

/// The JSON object of the bytes.
#[tactic(auto, unfolding(crate::specs::Form::object_of))]
fn object(alloc: Global, bytes: &[u8]) -> Result<Value, BoundsRefusal>
    ensures { Gives view result (object_of bytes.now) }
{
    match Value::from_slice(alloc, bytes) {
        Ok(value) => {
            if value.is_object() {
                Ok(value)
            } else {
                Err(BoundsRefusal::Json)
            }
        }
        Err(fault) => {
            if fault.is_memory() {
                Err(BoundsRefusal::NoMemory)
            } else {
                Err(BoundsRefusal::Json)
            }
        }
    }
}

/// That the version is 1, as a number.
#[tactic(auto, unfolding(crate::specs::Form::version_of))]
fn check_version(file: &Value) -> Result<(), BoundsRefusal>
    ensures { Gives (λ x. x) result (version_of (view file.now)) }
{
    match file.get("version").and_then(Value::as_u64) {
        Some(1) => Ok(()),
        _ => Err(BoundsRefusal::Version),
    }
}

fn are_objects(values: &[Value]) -> bool
    ensures { result ≡ are_objects (items_view values.now) }
{
    let mut left = values;
    while let [first, rest @ ..] = left {
        if !first.is_object() {
            return false;
        }
        left = rest;
    }
    true
}

fn inputs_of(file: &Value) -> Option<&[Value]>
    ensures { option_map (λ v. items_view v.now) result ≡ option_and_then as_array (get (codes "inputs") (view file.now)) }
{
    match file.get("inputs").and_then(Value::as_array) {
        Some(list) => Some(list.as_slice()),
        None => None,
    }
}

/// The list of the inputs, each an object.
fn list<'v>(alloc: Global, file: &'v Value) -> Result<&'v [Value], BoundsRefusal>
    ensures form { Gives (λ v. items_view v.now) result (list_of (view file.now)) }
    ensures few { IfOk result (λ v. length v.now ≤ 16) }
{
    let list = match inputs_of(file) {
        Some(list) => list,
        None => return Err(refused(alloc, "inputs")),
    };
    if list.len() > 16 {
        return Err(refused(alloc, "inputs"));
    }
    if !are_objects(list) {
        return Err(refused(alloc, "inputs"));
    }
    Ok(list)
}

fn all_declared(alloc: Global, inputs: &[Value]) -> Result<Items<Declared>, BoundsRefusal>
    ensures form { Gives (λ x. x) result (declared_from [] (items_view inputs.now)) }
    ensures accepted { IfOk result (λ found. All IsAccepted found) }
    ensures each { IfOk result (λ found. length found ≡ length inputs.now) }
{
    let mut found = Items::new(alloc);
    let mut left = inputs;
    while let [first, rest @ ..] = left {
        let next = declared(alloc, found.as_slice(), first)?;
        found.push(next)?;
        left = rest;
    }
    Ok(found)
}

/// The bounds that the bytes of a file stand for, or the first reason against them.
#[tactic(auto, unfolding(crate::specs::Form::form))]
pub fn read_bounds(alloc: Global, bytes: &[u8]) -> Result<Bounds, BoundsRefusal>
    ensures form { Gives (λ b. b) result (form bytes.now) }
    ensures accepted { IfOk result (λ b. All IsAccepted b.inputs) }
    ensures few { IfOk result (λ b. length b.inputs ≤ 16) }
    ensures budgets { IfOk result HasBudgets }
{
    let file = object(alloc, bytes)?;
    check_version(&file)?;
    let mut bounds = budgets(alloc, &file)?;
    let list = list(alloc, &file)?;
    let inputs = all_declared(alloc, list)?;
    check_others(
        alloc,
        &file,
        &[
            "version",
            "inputs",
            "turns",
            "paths",
            "candidates",
            "steps",
            "width",
        ],
    )?;
    check_each(alloc, list)?;
    bounds.inputs = inputs;
    Ok(bounds)
}
