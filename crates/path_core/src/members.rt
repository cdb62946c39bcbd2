//! The members of an object: which may stand there, and a refusal for one by its name.

ghost use Rattle.std.specs.Prelude.{◌≡◌, ℕ, List, map, codes, IfOk};
ghost use Rattle.std.specs.Option.{option_map, option_and_then};
ghost use Rattle.serde_json.specs.Find.{get, as_str};
ghost use Rattle.serde_json.specs.View.{view, items_view, members_view};
ghost use Rattle.js_units.specs.CodeUnits.{code_units};
ghost use Rattle.path_core.specs.Form.{Gives, IsField, is_kind, members_of, input_members, only, only_in_each};

use crate::bounds::BoundsRefusal;
use crate::names::is_among;
use js_units::{NoMemory, Units};
use serde_json::{Map, Value};
use std::alloc::Global;

fn field(name: Result<Units, NoMemory>) -> BoundsRefusal
    ensures { (units : List ℕ) → IfOk name (λ n. n ≡ units) → IsField result units }
{
    match name {
        Ok(name) => BoundsRefusal::Field { name },
        Err(NoMemory) => BoundsRefusal::NoMemory,
    }
}

/// Refused for a member by its name.
pub(crate) fn refused(alloc: Global, name: &str) -> BoundsRefusal
    ensures { IsField result name.now }
{
    field(Units::from_bytes(alloc, name.as_bytes()))
}

/// Refused for a member of the file's own choice, by the code units of its name.
fn refused_member(alloc: Global, name: &str) -> BoundsRefusal
    ensures { IsField result (code_units name.now) }
{
    field(Units::from_text(alloc, name))
}

/// The text of a member.
pub(crate) fn text_of<'v>(object: &'v Value, name: &str) -> Option<&'v str>
    ensures { option_map (λ s. s.now) result ≡ option_and_then as_str (get name.now (view object.now)) }
{
    match object.get(name) {
        Some(member) => member.as_str(),
        None => None,
    }
}

/// Whether the input says that it is of this kind.
pub(crate) fn is_kind(input: &Value, kind: &str) -> bool
    ensures { result ≡ is_kind kind.now (view input.now) }
{
    match text_of(input, "kind") {
        Some(found) => found == kind,
        None => false,
    }
}

fn check_members(
    alloc: Global,
    members: &Map<String, Value>,
    allowed: &[&str],
) -> Result<(), BoundsRefusal>
    ensures { Gives (λ x. x) result (only (map (λ t. t.now) allowed.now) (members_view members.now.entries)) }
{
    for (name, _) in members.iter() {
        if !is_among(name.as_str(), allowed) {
            return Err(refused_member(alloc, name.as_str()));
        }
    }
    Ok(())
}

/// That an object has no members but these.
pub(crate) fn check_others(
    alloc: Global,
    object: &Value,
    allowed: &[&str],
) -> Result<(), BoundsRefusal>
    ensures { Gives (λ x. x) result (only (map (λ t. t.now) allowed.now) (members_of (view object.now))) }
{
    match object.as_object() {
        Some(members) => check_members(alloc, members, allowed),
        None => Ok(()),
    }
}

/// That an input has no members but those of its kind.
fn check_input(alloc: Global, input: &Value) -> Result<(), BoundsRefusal>
    ensures { Gives (λ x. x) result (only (input_members (view input.now)) (members_of (view input.now))) }
{
    if is_kind(input, "int") {
        check_others(alloc, input, &["name", "kind", "low", "high"])
    } else {
        check_others(alloc, input, &["name", "kind", "least", "most", "alphabet"])
    }
}

/// That no input has another member.
pub(crate) fn check_each(alloc: Global, inputs: &[Value]) -> Result<(), BoundsRefusal>
    ensures { Gives (λ x. x) result (only_in_each (items_view inputs.now)) }
{
    let mut left = inputs;
    while let [first, rest @ ..] = left {
        check_input(alloc, first)?;
        left = rest;
    }
    Ok(())
}
