//! Classes (ECMA-262, sections 22.2.1 and B.1.2).

ghost use Rattle.std.specs.Prelude.{◌≡◌, ◌<◌, ◌≤◌, length, IfOk, IfSome};
ghost use Rattle.std.specs.Option.{option_map};
ghost use Rattle.re_parser.specs.Classes.{map_ok, close_at, MembersEnd};
ghost use Rattle.re_parser.specs.Reading.{Faults, FaultOf, MembersGo, MembersStop, NoMark};

use crate::characters::CLOSE_BRACKET;
use crate::escapes::class_item;
use crate::faults::class_fault;
use crate::refusal::Fault;
use crate::trees::with_item;
use sqlite_items::Items;
use std::alloc::Global;

/// What is behind a `]`.
fn behind_close(units: &[u16]) -> Option<&[u16]>
    ensures read { option_map (λ x. x.now) result ≡ close_at units.now }
    ensures shorter { IfSome result (λ x. length x.now ≤ length units.now) }
{
    match units {
        [first, rest @ ..] if *first == CLOSE_BRACKET => Some(rest),
        _ => None,
    }
}

/// The ranges of the members behind `[` or `[^`, in the order as written, and what is behind the `]`.
pub fn members(alloc: Global, units: &[u16]) -> Result<(Items<(u16, u16)>, &[u16]), Fault>
    ensures read { MembersEnd units.now (map_ok (λ x. (x.0, x.1.now)) result) }
    ensures faults { Faults (FaultOf MembersGo MembersStop NoMark units.now) result }
    ensures shorter { IfOk result (λ x. length x.1.now ≤ length units.now) }
{
    let mut ranges = Items::new(alloc);
    let mut left = units;
    while let Some((item, behind)) = class_item(left) {
        ranges = with_item(alloc, ranges, item)?;
        left = behind;
    }
    match behind_close(left) {
        Some(rest) => Ok((ranges, rest)),
        None => Err(class_fault(left)),
    }
}
