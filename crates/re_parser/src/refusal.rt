//! Why a pattern is refused.

use js_units::NoMemory;
use std::alloc::{AllocError, AllocFailed};

/// Why a text spells no pattern of this project, and at which unit.
#[derive(Clone, Copy, Debug, PartialEq, Eq)]
pub enum PatternRefusal {
    /// A flag that is none of `g`, `i`, `m` and `y`, or a repeat. The place is one in the flags.
    Flags { at: usize },
    /// The first unit after which no pattern goes on, or the length of the body.
    Syntax { at: usize },
    /// The backslash of an escape that isn't listed.
    BadEscape { at: usize },
    /// The tenth group that captures.
    TooManyGroups { at: usize },
    /// The first backreference to a group that isn't there.
    BackrefRange { at: usize },
    NoMemory,
}

/// A refusal with the number of units from its place on.
#[derive(Clone, Copy)]
pub enum Fault {
    Syntax { left: usize },
    BadEscape { left: usize },
    TooManyGroups { left: usize },
    NoMemory,
}

impl From<AllocError> for Fault {
    ghost use Rattle.std.specs.Prelude.{◌≡◌};
    ghost use Rattle.re_parser.specs.declared.refusal.Fault.TheVariants as fault;

    ghost from_gives = { λ _ e. e ≡ fault.NoMemory };

    fn from(_: AllocError) -> Fault {
        Fault::NoMemory
    }
}

impl<T: Drop> From<AllocFailed<T>> for Fault {
    ghost use Rattle.std.specs.Prelude.{◌≡◌};
    ghost use Rattle.re_parser.specs.declared.refusal.Fault.TheVariants as fault;

    ghost from_gives = { λ _ e. e ≡ fault.NoMemory };

    fn from(_: AllocFailed<T>) -> Fault {
        Fault::NoMemory
    }
}
