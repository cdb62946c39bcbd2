//! Classes of code units that tokens alone have.

ghost use Rattle.std.specs.Prelude.{◌≡◌};
ghost use Rattle.js_lexer.specs.Classes.{is_comment_unit, is_flag, is_quote, continues_number};

use js_units::{is_digit, is_letter, is_line_end, is_name_part};

pub const LINE_FEED: u16 = 0x0a;

pub const CARRIAGE_RETURN: u16 = 0x0d;

pub const SLASH: u16 = 0x2f;

pub const STAR: u16 = 0x2a;

pub const BACKSLASH: u16 = 0x5c;

const QUOTATION_MARK: u16 = 0x22;

const APOSTROPHE: u16 = 0x27;

const FULL_STOP: u16 = 0x2e;

/// What a comment that goes up to the line end is made of.
#[tactic(auto, unfolding(crate::specs::Classes::is_comment_unit))]
pub fn is_comment_unit(unit: u16) -> bool
    ensures { result ≡ is_comment_unit unit }
{
    !is_line_end(unit)
}

/// Letters and digits, of which flags are made.
#[tactic(auto, unfolding(crate::specs::Classes::is_flag))]
pub fn is_flag(unit: u16) -> bool
    ensures { result ≡ is_flag unit }
{
    is_letter(unit) || is_digit(unit)
}

#[tactic(auto, unfolding(crate::specs::Classes::is_quote))]
pub fn is_quote(unit: u16) -> bool
    ensures { result ≡ is_quote unit }
{
    unit == QUOTATION_MARK || unit == APOSTROPHE
}

/// What may not follow a number.
#[tactic(auto, unfolding(crate::specs::Classes::continues_number))]
pub fn continues_number(unit: u16) -> bool
    ensures { result ≡ continues_number unit }
{
    is_name_part(unit) || unit == BACKSLASH || unit == FULL_STOP
}
