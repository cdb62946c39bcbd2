//! What is answered, before anything is written.

ghost use Rattle.std.specs.Prelude.{◌≡◌, ◌++◌, ◌≤◌, ℕ, List, None, length, decimal, IfOk, OnOk};
ghost use Rattle.std.specs.Option.{option_map};
ghost use Rattle.js_units.specs.Quoted.{quoted};
ghost use Rattle.js_parser.specs.Refusals.{IsReason, IsRefusedBy};
ghost use Rattle.commands.specs.TopCall.{listed_files, names, seen_by, IsDecided, max_file, reason_text, refusal_text, ListAnswer};

use crate::texts::{
    ALPHABET, BOUNDS_REFUSED, DEPTH, FIELD, JSON, LINE_END, NAME, NUMBER, RANGE, READ_FAULT,
    SCRIPT_REFUSED, SYNTAX, TOO_LONG, TOO_MANY, USAGE, UTF8, VERSION,
};
use ex_base::{Files, Load};
use explorer::list_all;
use js_parser::{ScriptRefusal, one_refusal, parse_script};
use js_units::{NoMemory, Units, escape};
use path_core::{BoundsRefusal, count, read_bounds};
use report_text::write_report;
use std::alloc::Global;

/// A status, and the text that is written with it.
#[derive(Drop)]
pub struct Decided {
    pub number: u8,
    pub text: Vec<u8>,
}

#[tactic(auto, unfolding(crate::specs::TopCall::listed_files))]
fn listed_files(words: &[Vec<u8>]) -> Option<(&[u8], &[u8])>
    ensures { option_map (λ x. (x.0.now, x.1.now)) result ≡ listed_files (names words.now) }
{
    match words {
        [word, script, bounds] => {
            if word.as_slice() == b"list".as_slice() {
                Some((script.as_slice(), bounds.as_slice()))
            } else {
                None
            }
        }
        _ => None,
    }
}

const MAX_FILE: usize = 1_048_576;

const MAX_INPUTS: u128 = 65_536;

/// A status with a text of a front, a number and a back.
fn told(
    alloc: Global,
    number: u8,
    front: &str,
    place: usize,
    back: &str,
) -> Result<Decided, NoMemory>
    ensures number { IfOk result (λ d. d.number ≡ number) }
    ensures text { IfOk result (λ d. d.text.items ≡ front.now ++ decimal place ++ back.now) }
{
    let mut text = Vec::from_slice(alloc, front.as_bytes())?;
    let place = place.to_string(alloc)?;
    text.extend_from_slice(place.as_bytes())?;
    text.extend_from_slice(back.as_bytes())?;
    Ok(Decided { number, text })
}

fn push_named(alloc: Global, text: &mut Vec<u8>, front: &str, name: &Units) -> Result<(), NoMemory>
    ensures { OnOk result (text.new.items ≡ text.old.items ++ (front.now ++ quoted name.now)) }
{
    let name = escape(alloc, name)?;
    text.extend_from_slice(front.as_bytes())?;
    text.extend_from_slice(name.as_slice())?;
    Ok(())
}

fn push_refusal(alloc: Global, text: &mut Vec<u8>, refusal: &BoundsRefusal) -> Result<(), NoMemory>
    ensures { OnOk result (text.new.items ≡ text.old.items ++ refusal_text refusal.now) }
{
    match refusal {
        BoundsRefusal::Json => {
            text.extend_from_slice(JSON.as_bytes())?;
            Ok(())
        }
        BoundsRefusal::Version => {
            text.extend_from_slice(VERSION.as_bytes())?;
            Ok(())
        }
        BoundsRefusal::Field { name } => {
            push_named(alloc, text, FIELD, name)?;
            Ok(())
        }
        BoundsRefusal::Range { name } => {
            push_named(alloc, text, RANGE, name)?;
            Ok(())
        }
        BoundsRefusal::Alphabet { name } => {
            push_named(alloc, text, ALPHABET, name)?;
            Ok(())
        }
        BoundsRefusal::NoMemory => Err(NoMemory),
    }
}

fn refused_bounds(alloc: Global, refusal: &BoundsRefusal) -> Result<Decided, NoMemory>
    ensures number { IfOk result (λ d. d.number ≡ 6) }
    ensures text { IfOk result (λ d. d.text.items ≡ BOUNDS_REFUSED.now ++ refusal_text refusal.now ++ LINE_END.now) }
{
    let mut text = Vec::from_slice(alloc, BOUNDS_REFUSED.as_bytes())?;
    push_refusal(alloc, &mut text, refusal)?;
    text.extend_from_slice(LINE_END.as_bytes())?;
    Ok(Decided { number: 6, text })
}

fn too_many(alloc: Global) -> Result<Decided, NoMemory>
    ensures number { IfOk result (λ d. d.number ≡ 6) }
    ensures text { IfOk result (λ d. d.text.items ≡ BOUNDS_REFUSED.now ++ TOO_MANY.now ++ LINE_END.now) }
{
    let mut text = Vec::from_slice(alloc, BOUNDS_REFUSED.as_bytes())?;
    text.extend_from_slice(TOO_MANY.as_bytes())?;
    text.extend_from_slice(LINE_END.as_bytes())?;
    Ok(Decided { number: 6, text })
}

fn refused_script(alloc: Global, refusal: ScriptRefusal) -> Result<Decided, NoMemory>
    ensures number { IfOk result (λ d. d.number ≡ 5) }
    ensures text { IfOk result (λ d. d.text.items ≡ SCRIPT_REFUSED.now ++ reason_text refusal) }
    // Want of memory is no reason against a script.
    ensures reason { (bytes : List ℕ) → IsRefusedBy bytes refusal → IfOk result (λ d. IsReason bytes refusal) }
{
    match refusal {
        ScriptRefusal::Utf8 { at } => told(alloc, 5, SCRIPT_REFUSED, at, UTF8),
        ScriptRefusal::Syntax { at } => told(alloc, 5, SCRIPT_REFUSED, at, SYNTAX),
        ScriptRefusal::WideNumber { at } => told(alloc, 5, SCRIPT_REFUSED, at, NUMBER),
        ScriptRefusal::EarlyName { at } => told(alloc, 5, SCRIPT_REFUSED, at, NAME),
        ScriptRefusal::TooDeep { at } => told(alloc, 5, SCRIPT_REFUSED, at, DEPTH),
        ScriptRefusal::NoMemory => Err(NoMemory),
    }
}

/// The answer of `list` to the bytes of a script and of bounds.
fn answer(alloc: Global, script: &[u8], bounds: &[u8]) -> Result<Decided, NoMemory>
    requires { length script.now ≤ max_file }
    ensures { IfOk result (λ d. ListAnswer script.now bounds.now d.number d.text.items) }
{
    let bounds = match read_bounds(alloc, bounds) {
        Ok(bounds) => bounds,
        Err(BoundsRefusal::NoMemory) => return Err(NoMemory),
        Err(refusal) => return refused_bounds(alloc, &refusal),
    };
    if count(&bounds) > MAX_INPUTS {
        return too_many(alloc);
    }
    one_refusal();
    let script = match parse_script(alloc, script) {
        Ok(script) => script,
        Err(refusal) => return refused_script(alloc, refusal),
    };
    let report = list_all(alloc, &script, &bounds)?;
    let text = write_report(alloc, &report, true)?;
    Ok(Decided { number: 0, text })
}

/// What is decided, from the words and the files. Loads the files in the order of the words.
pub fn decide<F: Files>(
    alloc: Global,
    words: &[Vec<u8>],
    files: &mut F,
) -> Result<Decided, NoMemory>
    ensures decided { IfOk result (λ d. IsDecided (names words.now) (seen_by (F.held files.old) (F.last files.new) (F.faults files.old) (F.faults files.new)) d.number d.text.items) }
    ensures unread { listed_files (names words.now) ≡ None → (F.last files.new ≡ F.last files.old) × (F.faults files.new ≡ F.faults files.old) }
{
    let (script, bounds) = match listed_files(words) {
        Some(names) => names,
        None => {
            let text = Vec::from_slice(alloc, USAGE.as_bytes())?;
            return Ok(Decided { number: 2, text });
        }
    };
    let script = match files.load(alloc, script, MAX_FILE) {
        Ok(bytes) => bytes,
        Err(Load::Failed) => return told(alloc, 3, READ_FAULT, 1, LINE_END),
        Err(Load::TooLong) => return told(alloc, 8, TOO_LONG, 1, LINE_END),
        Err(Load::NoMemory) => return Err(NoMemory),
    };
    let bounds = match files.load(alloc, bounds, MAX_FILE) {
        Ok(bytes) => bytes,
        Err(Load::Failed) => return told(alloc, 3, READ_FAULT, 2, LINE_END),
        Err(Load::TooLong) => return told(alloc, 8, TOO_LONG, 2, LINE_END),
        Err(Load::NoMemory) => return Err(NoMemory),
    };
    answer(alloc, &script, &bounds)
}
