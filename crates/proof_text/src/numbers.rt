//! Numbers read back.

ghost use Rattle.std.specs.Prelude.{ℕ, ◌≡◌, ◌≤◌, ◌<◌, ◌^◌, IfSome};
ghost use Rattle.std.specs.Option.{option_map};
ghost use Rattle.proof_text.specs.Numbers.{IsBetween, digits_on, number_at, negative, positive, signed_at};

use js_units::is_digit;

/// The number of the digits at the front, at most `most`.
#[tactic(auto, unfolding(js_units::specs::Characters::is_digit))]
fn digits(most: u64, bytes: &[u8]) -> Option<(u64, &[u8])>
    ensures within { IfSome result (λ x. x.0 ≤ most) }
    ensures value { option_map (λ x. (x.0, x.1.now)) result ≡ digits_on most 0 bytes.now }
{
    let mut number: u64 = 0;
    let mut left = bytes;
    while let [first, rest @ ..] = left {
        if !is_digit(u16::from(*first)) {
            return Some((number, left));
        }
        let next = u128::from(number) * 10 + u128::from(*first - 48);
        if next > u128::from(most) {
            return None;
        }
        number = next as u64;
        left = rest;
    }
    Some((number, left))
}

/// The number of at most `most` at the front of the bytes, in decimal with no leading zero, and what
/// is behind its last digit (behind a `0` that is the first).
#[tactic(auto, unfolding(crate::specs::Numbers::number_at))]
pub fn number(most: u64, bytes: &[u8]) -> Option<(u64, &[u8])>
    ensures within { IfSome result (λ x. x.0 ≤ most) }
    ensures value { option_map (λ x. (x.0, x.1.now)) result ≡ number_at most bytes.now }
{
    match bytes {
        [first, rest @ ..] if *first == b'0' => Some((0, rest)),
        [first, ..] if is_digit(u16::from(*first)) => digits(most, bytes),
        _ => None,
    }
}

fn negative(below: u64, found: Option<(u64, &[u8])>) -> Option<(i64, &[u8])>
    requires below { below ≤ 2 ^ 63 }
    requires found { IfSome found (λ x. x.0 ≤ below) }
    ensures within { IfSome result (λ x. (c : ℕ) → IsBetween below c x.0) }
    ensures value { option_map (λ x. (x.0, x.1.now)) result ≡ negative (option_map (λ x. (x.0, x.1.now)) found.entry) }
{
    match found {
        Some((0, _)) => None,
        Some((number, rest)) => Some((-1 - (number - 1) as i64, rest)),
        None => None,
    }
}

fn positive(above: u64, found: Option<(u64, &[u8])>) -> Option<(i64, &[u8])>
    requires above { above < 2 ^ 63 }
    requires found { IfSome found (λ x. x.0 ≤ above) }
    ensures within { IfSome result (λ x. (c : ℕ) → IsBetween c above x.0) }
    ensures value { option_map (λ x. (x.0, x.1.now)) result ≡ positive (option_map (λ x. (x.0, x.1.now)) found.entry) }
{
    match found {
        Some((number, rest)) => Some((number as i64, rest)),
        None => None,
    }
}

/// The number at the front, with `-` before a negative one. It is at most `above`, and one below 0 at
/// most `below` without its sign.
#[tactic(auto, unfolding(crate::specs::Numbers::signed_at))]
pub fn signed(below: u64, above: u64, bytes: &[u8]) -> Option<(i64, &[u8])>
    requires below { below ≤ 2 ^ 63 }
    requires above { above < 2 ^ 63 }
    ensures within { IfSome result (λ x. IsBetween below above x.0) }
    ensures value { option_map (λ x. (x.0, x.1.now)) result ≡ signed_at below above bytes.now }
{
    match bytes {
        [] => None,
        [first, rest @ ..] if *first == b'-' => negative(below, number(below, rest)),
        _ => positive(above, number(above, bytes)),
    }
}
