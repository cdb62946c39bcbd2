//! Whole numbers of 128 bits read back.

ghost use Rattle.std.specs.Prelude.{◌≡◌, ◌≤◌, ◌<◌, ◌^◌, IfSome};
ghost use Rattle.std.specs.Option.{option_map};
ghost use Rattle.proof_text.specs.Numbers.{digits_on, number_at};
ghost use Rattle.report_text.specs.Terms.{int_at};

use js_units::is_digit;

/// The number of the digits at the front, at most `most`.
#[tactic(auto, unfolding(js_units::specs::Characters::is_digit))]
fn digits(most: u128, bytes: &[u8]) -> Option<(u128, &[u8])>
    requires { 9 ≤ most }
    ensures { option_map (λ x. (x.0, x.1.now)) result ≡ digits_on most 0 bytes.now }
{
    let mut number: u128 = 0;
    let mut left = bytes;
    while let [first, rest @ ..] = left {
        if !is_digit(u16::from(*first)) {
            return Some((number, left));
        }
        let digit = u128::from(*first - 48);
        if number > (most - digit) / 10 {
            return None;
        }
        number = number * 10 + digit;
        left = rest;
    }
    Some((number, left))
}

#[tactic(auto, unfolding(proof_text::specs::Numbers::number_at))]
fn magnitude(most: u128, bytes: &[u8]) -> Option<(u128, &[u8])>
    requires { 9 ≤ most }
    ensures { option_map (λ x. (x.0, x.1.now)) result ≡ number_at most bytes.now }
{
    match bytes {
        [first, rest @ ..] if *first == b'0' => Some((0, rest)),
        [first, ..] if is_digit(u16::from(*first)) => digits(most, bytes),
        _ => None,
    }
}

/// What is behind the number at the front, with `-` before a negative one.
#[tactic(auto, unfolding(crate::specs::Terms::int_at))]
pub(crate) fn int(bytes: &[u8]) -> Option<&[u8]>
    ensures { option_map (λ x. x.now) result ≡ int_at bytes.now }
{
    match bytes {
        [] => None,
        [first, rest @ ..] if *first == b'-' => match magnitude(1 << 127, rest) {
            Some((0, _)) => None,
            Some((_, behind)) => Some(behind),
            None => None,
        },
        _ => match magnitude((1 << 127) - 1, bytes) {
            Some((_, behind)) => Some(behind),
            None => None,
        },
    }
}
