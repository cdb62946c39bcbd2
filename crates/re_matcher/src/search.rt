//! The search for the least start of a match.

ghost use Rattle.std.specs.Prelude.{◌≡◌, ◌+◌, ◌<◌, ◌≤◌, length, IfOk, MatchOption, option_map, slice_get, if◌then◌else◌};
ghost use Rattle.re_ast.specs.Execution.{begin, successes_at, exec};
ghost use Rattle.re_matcher.specs.Pending.{state};
ghost use Rattle.re_matcher.specs.Answers.{match_of, IsNone, IsFirst};

use crate::caps::Caps;
use crate::frames::Spot;
use crate::machine::Machine;
use js_units::{NoMemory, Units};
use re_ast::{Flags, Pattern};
use smallvec::SmallVec;
use std::alloc::{AllocError, Global};

/// At this place, with no captures.
fn begin_at(alloc: Global, groups: u32, place: usize) -> Result<Spot, AllocError>
    ensures { IfOk result (λ spot. state spot ≡ begin groups place) }
{
    let mut none = SmallVec::new(alloc);
    for _ in 0..groups {
        none.push(None)?;
    }
    Ok(Spot {
        place,
        groups: none,
    })
}

/// The first success at `start`.
fn first_at(
    alloc: Global,
    pattern: &Pattern,
    text: &[u16],
    start: usize,
) -> Result<Option<Spot>, AllocError>
    requires { start ≤ length text.now }
    ensures { IfOk result (λ r. option_map state r ≡ slice_get (successes_at pattern.now text.now start) 0) }
{
    let spot = begin_at(alloc, pattern.groups, start)?;
    let mut machine = Machine::new(alloc);
    machine.enter(text, pattern.flags, &pattern.node, 0, spot)?;
    let found = machine.run(text, pattern.flags)?;
    Ok(found)
}

/// The last place where a match may begin: under `y` it is the first one, too.
fn last_start(flags: Flags, text: &[u16], from: usize) -> usize
    ensures { result ≡ (if flags.sticky then from else length text.now) }
{
    if flags.sticky { from } else { text.len() }
}

/// The first success at the least start from `from` up to `last` that has one.
fn first_from(
    alloc: Global,
    pattern: &Pattern,
    text: &[u16],
    from: usize,
    last: usize,
) -> Result<Option<Caps>, AllocError>
    requires { last ≤ length text.now }
    ensures { IfOk result (λ r. MatchOption r (IsNone pattern.now text.now from (last + 1)) (λ caps. IsFirst pattern.now text.now from (last + 1) (match_of caps))) }
{
    'starts: for start in from..=last {
        if let Some(spot) = first_at(alloc, pattern, text, start)? {
            let end = spot.place;
            return Ok(Some(Caps {
                start,
                end,
                groups: spot.into_groups(),
            }));
        }
    }
    Ok(None)
}

/// The first success at the least start from `from` on that has one, or under `y` at `from` itself:
/// what the pattern matches there (ECMA-262, section 22.2.7.2, RegExpBuiltinExec). Under `i` the
/// standard's rule is followed on units below 128; every other unit stands for itself there. Takes
/// no call stack for the pattern's depth, and memory that grows with the depth of the search and not
/// with its steps.
pub fn exec(
    alloc: Global,
    pattern: &Pattern,
    text: &Units,
    from: usize,
) -> Result<Option<Caps>, NoMemory>
    requires { from ≤ length text.now }
    ensures { IfOk result (λ answer. option_map match_of answer ≡ exec pattern.now text.now from) }
{
    let units = text.as_slice();
    let last = last_start(pattern.flags, units, from);
    let answer = first_from(alloc, pattern, units, from, last)?;
    Ok(answer)
}
