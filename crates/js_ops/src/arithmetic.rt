//! Arithmetic, bits and order of numbers, as rows.

ghost use Rattle.std.specs.Prelude.{◌≡◌, ◌-ℤ◌, ◌*ℤ◌, ℕ, true, Some, None};
ghost use Rattle.js_values.specs.Numbers as number;
ghost use Rattle.js_meaning.specs.Operators.{in_range, add_numbers, subtract_row, multiply_row, divide_row, remainder_row};
ghost use Rattle.js_ops.specs.Contents.{shown, IsRow};

use crate::numbers::safe;
use crate::row::{Row, guarded};
use path_core::Why;
use term_table::Plain;

/// A result that is a number of the language.
fn in_range(n: i128) -> Row
    ensures row { (site : ℕ) → shown site result ≡ in_range site (Some n) }
    ensures whole { IsRow result }
{
    match safe(n) {
        Some(n) => guarded(Why::Range, Plain::Int(n)),
        None => Row::Failed { why: Why::Range },
    }
}

/// With NaN it is NaN.
fn not_number() -> Row
    ensures row { (site : ℕ) → shown site result ≡ in_range site None }
    ensures whole { IsRow result }
{
    guarded(Why::Range, Plain::NotNumber)
}

/// Number::add (ECMA-262, section 6.1.6.1.7).
pub fn add(m: Option<i64>, n: Option<i64>) -> Row
    ensures row { (site : ℕ) → shown site result ≡ add_numbers site m n }
    ensures whole { IsRow result }
{
    match (m, n) {
        (Some(m), Some(n)) => in_range(i128::from(m) + i128::from(n)),
        _ => not_number(),
    }
}

fn difference(m: i64, n: i64) -> i128
    ensures { result ≡ m -ℤ n }
{
    i128::from(m) - i128::from(n)
}

/// Number::subtract (section 6.1.6.1.8).
pub fn subtract(m: Option<i64>, n: Option<i64>) -> Row
    ensures row { (site : ℕ) → shown site result ≡ subtract_row site m n }
    ensures whole { IsRow result }
{
    match (m, n) {
        (Some(m), Some(n)) => in_range(difference(m, n)),
        _ => not_number(),
    }
}

fn product(m: i64, n: i64) -> i128
    ensures { result ≡ m *ℤ n }
{
    i128::from(m) * i128::from(n)
}

/// Number::multiply (section 6.1.6.1.4).
pub fn multiply(m: Option<i64>, n: Option<i64>) -> Row
    ensures row { (site : ℕ) → shown site result ≡ multiply_row site m n }
    ensures whole { IsRow result }
{
    match (m, n) {
        (Some(m), Some(n)) => in_range(product(m, n)),
        _ => not_number(),
    }
}

/// Number::divide (section 6.1.6.1.5), where it divides.
pub fn divide(m: Option<i64>, n: Option<i64>) -> Row
    requires m { number.fits m ≡ true }
    requires n { number.fits n ≡ true }
    ensures row { (site : ℕ) → shown site result ≡ divide_row site m n }
    ensures whole { IsRow result }
{
    match (m, n) {
        (Some(m), Some(n)) => {
            if n != 0 && m % n == 0 {
                Row::Passed {
                    why: Why::Divide,
                    value: Plain::Int(m / n),
                }
            } else {
                Row::Failed { why: Why::Divide }
            }
        }
        _ => Row::Passed {
            why: Why::Divide,
            value: Plain::NotNumber,
        },
    }
}

/// Number::remainder (section 6.1.6.1.6).
pub fn remainder(m: Option<i64>, n: Option<i64>) -> Row
    requires m { number.fits m ≡ true }
    requires n { number.fits n ≡ true }
    ensures row { (site : ℕ) → shown site result ≡ remainder_row m n }
    ensures whole { IsRow result }
{
    match (m, n) {
        (Some(m), Some(n)) => {
            if n == 0 {
                Row::Value(Plain::NotNumber)
            } else {
                Row::Value(Plain::Int(m % n))
            }
        }
        _ => Row::Value(Plain::NotNumber),
    }
}
