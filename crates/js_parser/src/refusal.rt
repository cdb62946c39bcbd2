//! Why no script is read.

ghost use Rattle.std.specs.Prelude.{◌≡◌};
ghost use Rattle.js_parser.specs.Outcomes.{stopped, undecoded};
ghost use Rattle.js_parser.specs.declared.refusal.ScriptRefusal.TheVariants as refusal;

use js_step_operands::Stop;
use js_units::{NoMemory, Utf8Refusal};
use std::alloc::AllocError;

/// Why no script is read. Each place is a byte offset.
#[derive(Clone, Copy, Debug, PartialEq, Eq)]
pub enum ScriptRefusal {
    /// The bytes aren't UTF-8; their longest front that is has this length.
    Utf8 { at: usize },
    /// No script goes on with the token there, or ends there.
    Syntax { at: usize },
    /// A whole number above 2^53 - 1.
    WideNumber { at: usize },
    /// A name that is declared where it can't be.
    EarlyName { at: usize },
    /// A token inside of more than 200 statements, assignments and prefix operators.
    TooDeep { at: usize },
    NoMemory,
}

impl From<NoMemory> for ScriptRefusal {
    ghost from_gives = { λ _ e. e ≡ refusal.NoMemory };

    fn from(_: NoMemory) -> ScriptRefusal {
        ScriptRefusal::NoMemory
    }
}

impl From<AllocError> for ScriptRefusal {
    ghost from_gives = { λ _ e. e ≡ refusal.NoMemory };

    fn from(_: AllocError) -> ScriptRefusal {
        ScriptRefusal::NoMemory
    }
}

/// Why a step isn't taken at a place.
pub fn stopped(stop: Stop, at: usize) -> ScriptRefusal
    ensures { result ≡ stopped stop at }
{
    match stop {
        Stop::Syntax => ScriptRefusal::Syntax { at },
        Stop::NoMemory => ScriptRefusal::NoMemory,
    }
}

/// Why bytes give no text.
pub fn undecoded(refusal: Utf8Refusal) -> ScriptRefusal
    ensures { result ≡ undecoded refusal }
{
    match refusal {
        Utf8Refusal::Bad { at } => ScriptRefusal::Utf8 { at },
        Utf8Refusal::NoMemory => ScriptRefusal::NoMemory,
    }
}
