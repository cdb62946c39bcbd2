//! What a script does on an input, as a report tells it.

ghost use Rattle.std.specs.Prelude.{◌≡◌, ◌≤◌, IfOk};
ghost use Rattle.js_state.specs.Fitting.{IsInputValue, AreSupplied};

use js_machine::run_plain;
use js_parser::parse_script;
use js_units::{NoMemory, Units};
use path_core::{Bounds, Declared, Input, InputValue, Kind};
use report_text::{Line, Report, write_report};
use sqlite_items::Items;
use std::alloc::Global;

fn value_of(alloc: Global, text: &str) -> Result<InputValue, NoMemory>
    ensures { IfOk result (λ value. IsInputValue value) }
{
    if let [b'\'', inside @ .., b'\''] = text.as_bytes() {
        let units = Units::from_bytes(alloc, inside)?;
        if units.len() <= 65_536 {
            return Ok(InputValue::Text(units));
        }
    }
    let number = text.parse::<i64>().unwrap_or(0);
    if -9_007_199_254_740_991 <= number && number <= 9_007_199_254_740_991 {
        return Ok(InputValue::Int(number));
    }
    Ok(InputValue::Int(0))
}

/// An input by its name and value, as `n=5`. An input without a name is none that a script can read.
fn declared(alloc: Global, item: &str) -> Result<(Declared, InputValue), NoMemory>
    ensures { IfOk result (λ pair. IsInputValue pair.1) }
{
    let mut parts = item.split('=');
    let name = Units::from_text(alloc, parts.next().unwrap_or(""))?;
    let value = value_of(alloc, parts.next().unwrap_or(""))?;
    let kind = Kind::Int { low: 0, high: 0 };
    Ok((Declared { name, kind }, value))
}

fn bounds(turns: u64, inputs: Items<Declared>) -> Bounds
    ensures turns { result.turns ≤ 1000000 }
    ensures inputs { result.inputs ≡ inputs }
{
    Bounds {
        turns: turns.min(1_000_000),
        paths: 1,
        candidates: 1,
        steps: 1,
        width: 1,
        pieces: 1,
        inputs,
    }
}

fn given(alloc: Global, text: &str, turns: u64) -> Result<(Bounds, Input), NoMemory>
    ensures turns { IfOk result (λ pair. pair.0.turns ≤ 1000000) }
    ensures values { IfOk result (λ pair. AreSupplied pair.0.inputs pair.1.values) }
{
    let mut items = text.split(' ');
    let (first, value) = declared(alloc, items.next().unwrap_or(""))?;
    let (second, other) = declared(alloc, items.next().unwrap_or(""))?;
    let mut inputs = Items::new(alloc);
    inputs.push(first)?;
    inputs.push(second)?;
    let mut values = Items::new(alloc);
    values.push(value)?;
    values.push(other)?;
    Ok((bounds(turns, inputs), Input { values }))
}

/// The report of one line, without its input.
fn found(alloc: Global, text: &str, turns: u64, script: &[u8]) -> Result<Vec<u8>, NoMemory> {
    if script.len() > 2_000_000 {
        return Ok(Vec::new(alloc));
    }
    let Ok(script) = parse_script(alloc, script) else {
        return wanted(alloc, b"refused");
    };
    let (bounds, input) = given(alloc, text, turns)?;
    let path = run_plain(alloc, &script, &bounds, &input)?;
    let mut lines = Items::new(alloc);
    lines.push(Line::Path {
        input: Items::new(alloc),
        path,
    })?;
    let report = Report {
        lines,
        complete: true,
    };
    write_report(alloc, &report, false)
}

fn wanted(alloc: Global, told: &[u8]) -> Result<Vec<u8>, NoMemory> {
    let mut text = Vec::new(alloc);
    text.extend_from_slice(b"expose 1\npath ")?;
    text.extend_from_slice(told)?;
    text.extend_from_slice(b"\ncomplete\n")?;
    Ok(text)
}

/// Whether the script does what is told, on these inputs and with so many turns. At most two inputs stand with their
/// values, parted by a space, a text between `'`. What is told stands behind `path` in the script's line of a report, or
/// is `refused`.
pub(crate) fn is_told(
    alloc: Global,
    inputs: &str,
    turns: u64,
    script: &[u8],
    told: &[u8],
) -> Result<bool, NoMemory> {
    let found = found(alloc, inputs, turns, script)?;
    Ok(found == wanted(alloc, told)?)
}
