//! The list of the different paths of a script.

ghost use Rattle.std.specs.Prelude.{◌≡◌, ◌≤◌, List, [], ◌∷◌, ◌++◌, length, All, IfOk, OnOk};
ghost use Rattle.path_core.specs.Accepted.{IsAccepted};
ghost use Rattle.path_core.specs.Inputs.{within, IsRange};
ghost use Rattle.report_text.specs.Lines.{AreSpelt};
ghost use Rattle.report_text.specs.declared.report.Line.{Line};
ghost use Rattle.js_state.specs.Fitting.{AreSupplied};
ghost use Rattle.explorer.specs.Found.{found_lines};
ghost use Rattle.explorer.specs.Listing.{named, line_of, all_lines, Picks, IsListed, max_inputs};

use crate::keys::Key;
use indexmap::IndexMap;
use js_ast::Script;
use js_machine::run_plain;
use js_units::{NoMemory, Units};
use path_core::{Bounds, Declared, Input, InputValue, count, first_input, next_input};
use report_text::{Line, Report};
use sqlite_items::Items;
use std::alloc::Global;

/// The different paths, each with the first input that has it, in the order of these inputs.
type Found = IndexMap<Key, Items<(Units, InputValue)>>;

fn value_of(value: &InputValue) -> Result<InputValue, NoMemory>
    ensures { IfOk result (λ v. v ≡ value.now) }
{
    match value {
        InputValue::Int(number) => Ok(InputValue::Int(*number)),
        InputValue::Text(text) => Ok(InputValue::Text(text.copy()?)),
    }
}

/// Each value beside the name of its input.
fn named(
    alloc: Global,
    inputs: &[Declared],
    values: &[InputValue],
) -> Result<Items<(Units, InputValue)>, NoMemory>
    ensures { IfOk result (λ items. items ≡ named inputs.now values.now) }
{
    let mut items = Items::new(alloc);
    let mut inputs_left = inputs;
    let mut values_left = values;
    while let [declared, more @ ..] = inputs_left {
        let [value, others @ ..] = values_left else {
            return Ok(items);
        };
        items.push((declared.name.copy()?, value_of(value)?))?;
        inputs_left = more;
        values_left = others;
    }
    Ok(items)
}

/// Adds the path of the input, unless it was found.
fn add_path(
    alloc: Global,
    script: &Script,
    bounds: &Bounds,
    input: &Input,
    found: &mut Found,
) -> Result<(), NoMemory>
    requires turns { bounds.now.turns ≤ 1000000 }
    requires values { AreSupplied bounds.now.inputs input.now.values }
    ensures { OnOk result ((all : List Line) → Picks all (found_lines found.old.entries) → Picks (all ++ line_of script.now bounds.now input.now.values ∷ []) (found_lines found.new.entries)) }
{
    let path = run_plain(alloc, script, bounds, input)?;
    let key = Key { path };
    if found.contains_key(&key) {
        return Ok(());
    }
    let input = named(alloc, bounds.inputs.as_slice(), input.values.as_slice())?;
    found.insert(key, input)?;
    Ok(())
}

/// The different paths of all inputs.
fn find_all(alloc: Global, script: &Script, bounds: &Bounds) -> Result<Found, NoMemory>
    requires turns { bounds.now.turns ≤ 1000000 }
    requires ranges { All (λ d. IsRange d.kind) bounds.now.inputs }
    requires accepted { All IsAccepted bounds.now.inputs }
    requires few { length (within bounds.now.inputs) ≤ max_inputs }
    ensures { IfOk result (λ found. Picks (all_lines script.now bounds.now) (found_lines found.entries)) }
{
    let total = count(bounds) as usize;
    let mut input = first_input(alloc, bounds)?;
    let mut found = IndexMap::new(alloc);
    for _place in 0..total {
        add_path(alloc, script, bounds, &input, &mut found)?;
        let _more = next_input(alloc, bounds, &mut input)?;
    }
    Ok(found)
}

/// The lines of what was found.
fn lines_of(alloc: Global, found: Found) -> Result<Items<Line>, NoMemory>
    ensures { IfOk result (λ lines. lines ≡ found_lines found.entries) }
{
    let mut lines = Items::new(alloc);
    for (key, input) in found {
        lines.push(Line::Path {
            input,
            path: key.path,
        })?;
    }
    Ok(lines)
}

/// The report of the different paths of the inputs within bounds, of which there are at most 65,536: each once, with
/// the first input that has it, in the order of these inputs.
pub fn list_all(alloc: Global, script: &Script, bounds: &Bounds) -> Result<Report, NoMemory>
    requires turns { bounds.now.turns ≤ 1000000 }
    requires ranges { All (λ d. IsRange d.kind) bounds.now.inputs }
    requires accepted { All IsAccepted bounds.now.inputs }
    requires few { length (within bounds.now.inputs) ≤ max_inputs }
    ensures listed { IfOk result (λ report. IsListed script.now bounds.now report) }
    // Every name and every text of it can be written.
    ensures spelt { IfOk result (λ report. AreSpelt report.lines) }
{
    let found = find_all(alloc, script, bounds)?;
    let lines = lines_of(alloc, found)?;
    Ok(Report {
        lines,
        complete: true,
    })
}
