//! Classes of code units that patterns alone have.

ghost use Rattle.std.specs.Prelude.{◌≡◌};
ghost use Rattle.re_parser.specs.Characters.{is_sign, control_of};

use js_units::{is_digit, is_letter};

pub const BACKSLASH: u16 = 0x5c;

pub const HYPHEN: u16 = 0x2d;

pub const CLOSE_BRACKET: u16 = 0x5d;

pub const OPEN_BRACE: u16 = 0x7b;

pub const CLOSE_BRACE: u16 = 0x7d;

pub const QUESTION: u16 = 0x3f;

const UNDERSCORE: u16 = 0x5f;

/// An ASCII unit that is no letter, no digit and no `_`.
#[tactic(auto, unfolding(crate::specs::Characters::is_sign))]
pub fn is_sign(unit: u16) -> bool
    ensures { result ≡ is_sign unit }
{
    unit < 0x80 && !(is_letter(unit) || is_digit(unit) || unit == UNDERSCORE)
}

/// What `f`, `n`, `r`, `t` and `v` stand for behind a backslash.
#[tactic(auto, unfolding(crate::specs::Characters::control_of))]
pub fn control_of(unit: u16) -> Option<u16>
    ensures { result ≡ control_of unit }
{
    match unit {
        102 => Some(12),
        110 => Some(10),
        114 => Some(13),
        116 => Some(9),
        118 => Some(11),
        _ => None,
    }
}
