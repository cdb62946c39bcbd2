//! Whole patterns (ECMA-262, section 22.2.1).

ghost use Rattle.std.specs.Prelude.{◌≡◌, ◌<◌, true, [], Some, length, IfOk, IfSome, MatchOption};
ghost use Rattle.std.specs.Option.{option_map};
ghost use Rattle.re_ast.specs.declared.patterns.Pattern.{Pattern as SpecPattern};
ghost use Rattle.re_parser.specs.Grammar.{Spells};
ghost use Rattle.re_parser.specs.Reading.{Gives, whole_of, start, are_bound, IsFirstUnbound, first_back};
ghost use Rattle.re_parser.specs.Places.{IsRefusedAt};
ghost use Rattle.re_parser.specs.Answers.{Answered, FlagsAnswer, Kinds, IsRefusal, EndAnswer, LeadsTo};

use crate::flags::read_flags;
use crate::reader::{Backreference, Reader, read_all};
use crate::refusal::{Fault, PatternRefusal};
use crate::trees::disjunction;
use js_units::Units;
use re_ast::{Flags, Node, Pattern};
use std::alloc::Global;

/// The place of a fault in a body of this length.
fn refusal(length: usize, fault: Fault) -> PatternRefusal
    ensures { IsRefusal length fault result }
{
    match fault {
        Fault::Syntax { left } => PatternRefusal::Syntax {
            at: length.saturating_sub(left),
        },
        Fault::BadEscape { left } => PatternRefusal::BadEscape {
            at: length.saturating_sub(left),
        },
        Fault::TooManyGroups { left } => PatternRefusal::TooManyGroups {
            at: length.saturating_sub(left),
        },
        Fault::NoMemory => PatternRefusal::NoMemory,
    }
}

/// The first backreference, and those behind it.
fn first_back(backs: &[Backreference]) -> Option<(Backreference, &[Backreference])>
    ensures read { option_map (λ x. (x.0, x.1.now)) result ≡ first_back backs.now }
    ensures shorter { IfSome result (λ x. length x.1.now < length backs.now) }
{
    match backs {
        [first, rest @ ..] => Some((*first, rest)),
        [] => None,
    }
}

/// The first backreference to a group that isn't there.
fn first_unbound(backs: &[Backreference], groups: u8) -> Option<Backreference>
    ensures { MatchOption result (are_bound (Some groups) backs.now ≡ true) (λ b. IsFirstUnbound groups backs.now b) }
{
    let mut left = backs;
    while let Some((first, rest)) = first_back(left) {
        if first.number > u32::from(groups) {
            return Some(first);
        }
        left = rest;
    }
    None
}

/// The node and the number of groups of what was read.
fn tree_of(reader: Reader) -> Result<(Node, u32), Fault>
    ensures { Gives (λ x. (x.1, x.0)) result (Some (whole_of reader)) }
{
    let Reader {
        frames,
        alternatives,
        terms,
        groups,
        backs,
    } = reader;
    drop(frames);
    drop(backs);
    let node = disjunction(alternatives, terms)?;
    Ok((node, u32::from(groups)))
}

/// What a body that was read to its end spells.
fn whole(reader: Reader, length: usize) -> Result<(Node, u32), PatternRefusal>
    ensures leads { LeadsTo reader [] result }
    ensures place { EndAnswer reader length result }
{
    if reader.frames.len() > 0 {
        drop(reader);
        return Err(PatternRefusal::Syntax { at: length });
    }
    if let Some(back) = first_unbound(reader.backs.as_slice(), reader.groups) {
        drop(reader);
        return Err(PatternRefusal::BackrefRange {
            at: length.saturating_sub(back.left),
        });
    }
    match tree_of(reader) {
        Ok((node, groups)) => Ok((node, groups)),
        Err(_) => Err(PatternRefusal::NoMemory),
    }
}

fn body_of(alloc: Global, body: &[u16]) -> Result<(Node, u32), PatternRefusal>
    ensures leads { LeadsTo start body.now result }
    ensures place { IsRefusedAt body.now result }
{
    match read_all(alloc, body) {
        Ok(reader) => whole(reader, body.len()),
        Err(fault) => Err(refusal(body.len(), fault)),
    }
}

/// The pattern that a body and flags spell. Places are unit indexes. Flags are refused first, then what
/// stands first in the body; backreferences to groups that aren't there come last.
pub fn parse_pattern(alloc: Global, body: &Units, flags: &Units) -> Result<Pattern, PatternRefusal>
    // What is answered is spelt so.
    ensures found { IfOk result (λ pattern. Spells body.now flags.now pattern) }
    // What is spelt so is answered, unless memory runs out; so nothing spells two patterns.
    ensures only { (pattern : SpecPattern) → Spells body.now flags.now pattern → Answered result pattern }
    // Flags are refused first, at the first unit that is none or a repeat.
    ensures flags { FlagsAnswer flags.now result }
    // A backreference is refused only where nothing else of the body is.
    ensures kinds { Kinds body.now result }
    // The first of a syntax error, an escape that isn't listed and a tenth group is refused at its place;
    // where there is none, the first backreference to a group that isn't there.
    ensures place { IsRefusedAt body.now result }
{
    let flags = match read_flags(flags.as_slice()) {
        Ok(flags) => flags,
        Err(at) => return Err(PatternRefusal::Flags { at }),
    };
    match body_of(alloc, body.as_slice()) {
        Ok((node, groups)) => Ok(Pattern {
            node,
            groups,
            flags,
        }),
        Err(refusal) => Err(refusal),
    }
}
