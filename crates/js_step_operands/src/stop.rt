//! Why a step isn't taken.

ghost use Rattle.std.specs.Prelude.{◌≡◌};
ghost use Rattle.js_step_operands.specs.declared.stop.Stop.TheVariants as stop;

use js_units::NoMemory;
use std::alloc::{AllocError, AllocFailed};

/// Why a step isn't taken.
#[derive(Clone, Copy)]
pub enum Stop {
    Syntax,
    NoMemory,
}

impl From<AllocError> for Stop {
    ghost from_gives = { λ _ e. e ≡ stop.NoMemory };

    fn from(_: AllocError) -> Stop {
        Stop::NoMemory
    }
}

impl<T: Drop> From<AllocFailed<T>> for Stop {
    ghost from_gives = { λ _ e. e ≡ stop.NoMemory };

    fn from(_: AllocFailed<T>) -> Stop {
        Stop::NoMemory
    }
}

impl From<NoMemory> for Stop {
    ghost from_gives = { λ _ e. e ≡ stop.NoMemory };

    fn from(_: NoMemory) -> Stop {
        Stop::NoMemory
    }
}
