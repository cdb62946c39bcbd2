//! Order and equality of plain contents.

ghost use Rattle.std.specs.Prelude.{◌≡◌, ◌==◌, ℕ, Bool, true, false, not};
ghost use Rattle.js_values.specs.Numbers as number;
ghost use Rattle.js_meaning.specs.Operators.{strictly_equal};
ghost use Rattle.term_table.specs.Views.{plain_value};

use term_table::Plain;

/// With NaN it is false (ECMA-262, section 6.1.6.1.12).
pub fn less(m: Option<i64>, n: Option<i64>) -> bool
    ensures { result ≡ number.less m n }
{
    match (m, n) {
        (Some(m), Some(n)) => m < n,
        _ => false,
    }
}

/// Both are numbers, and the second isn't less.
pub fn at_most(m: Option<i64>, n: Option<i64>) -> bool
    ensures { result ≡ number.at_most m n }
{
    match (m, n) {
        (Some(m), Some(n)) => m <= n,
        _ => false,
    }
}

/// IsStrictlyEqual (section 7.2.14).
pub fn are_equal(x: &Plain, y: &Plain) -> bool
    ensures { result ≡ strictly_equal (plain_value x.now) (plain_value y.now) }
{
    match (x, y) {
        (Plain::Undefined, Plain::Undefined) | (Plain::Null, Plain::Null) => true,
        (Plain::Bool(x), Plain::Bool(y)) => *x == *y,
        (Plain::Int(m), Plain::Int(n)) => *m == *n,
        (Plain::Text(s), Plain::Text(t)) => s.units().equals(t.units()),
        (Plain::Object(x), Plain::Object(y)) => *x == *y,
        _ => false,
    }
}
