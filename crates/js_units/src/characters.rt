//! Classes of code units.

ghost use Rattle.std.specs.Prelude.{◌≡◌, ◌<◌, true};
ghost use Rattle.js_units.specs.Characters.{is_white_space, is_line_end, is_letter, is_digit, is_name_start, is_name_part, is_hexadecimal, digit_value};

const UNDERSCORE: u16 = 0x5f;

const DOLLAR: u16 = 0x24;

/// White space (ECMA-262, section 12.2).
#[tactic(auto, unfolding(crate::specs::Characters::is_white_space))]
pub fn is_white_space(unit: u16) -> bool
    ensures { result ≡ is_white_space unit }
{
    unit == 0x09
        || unit == 0x0b
        || unit == 0x0c
        || unit == 0x20
        || unit == 0xa0
        || unit == 0x1680
        || (0x2000 <= unit && unit <= 0x200a)
        || unit == 0x202f
        || unit == 0x205f
        || unit == 0x3000
        || unit == 0xfeff
}

/// Line ends (ECMA-262, section 12.3).
#[tactic(auto, unfolding(crate::specs::Characters::is_line_end))]
pub fn is_line_end(unit: u16) -> bool
    ensures { result ≡ is_line_end unit }
{
    unit == 0x0a || unit == 0x0d || unit == 0x2028 || unit == 0x2029
}

/// A to Z and a to z.
#[tactic(auto, unfolding(crate::specs::Characters::is_letter))]
pub fn is_letter(unit: u16) -> bool
    ensures { result ≡ is_letter unit }
{
    (0x41 <= unit && unit <= 0x5a) || (0x61 <= unit && unit <= 0x7a)
}

/// 0 to 9.
#[tactic(auto, unfolding(crate::specs::Characters::is_digit))]
pub fn is_digit(unit: u16) -> bool
    ensures { result ≡ is_digit unit }
{
    0x30 <= unit && unit <= 0x39
}

/// What a name begins with: a letter A to Z or a to z, `_` or `$`.
#[tactic(auto, unfolding(crate::specs::Characters::is_name_start))]
pub fn is_name_start(unit: u16) -> bool
    ensures { result ≡ is_name_start unit }
{
    is_letter(unit) || unit == UNDERSCORE || unit == DOLLAR
}

/// What a name goes on with.
#[tactic(auto, unfolding(crate::specs::Characters::is_name_part))]
pub fn is_name_part(unit: u16) -> bool
    ensures { result ≡ is_name_part unit }
{
    is_name_start(unit) || is_digit(unit)
}

/// 0 to 9, A to F and a to f (ECMA-262, section 12.9.3).
#[tactic(auto, unfolding(crate::specs::Characters::is_hexadecimal))]
pub fn is_hexadecimal(unit: u16) -> bool
    ensures { result ≡ is_hexadecimal unit }
{
    is_digit(unit) || (0x41 <= unit && unit <= 0x46) || (0x61 <= unit && unit <= 0x66)
}

/// What a hexadecimal digit stands for.
#[tactic(auto, unfolding(crate::specs::Characters::digit_value, crate::specs::Characters::is_hexadecimal, crate::specs::Characters::is_digit))]
pub fn digit_value(digit: u16) -> u16
    requires { is_hexadecimal digit ≡ true }
    ensures value { result ≡ digit_value digit }
    ensures small { result < 16 }
{
    if digit <= 0x39 {
        digit - 0x30
    } else if digit <= 0x46 {
        digit - 0x37
    } else {
        digit - 0x57
    }
}
