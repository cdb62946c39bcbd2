//! The operators as rows on plain contents.

ghost use Rattle.std.specs.Prelude.{◌≡◌, ℕ, true, IfOk, IfSome};
ghost use Rattle.js_values.specs.Numbers.{Number};
ghost use Rattle.js_values.specs.Numbers as number;
ghost use Rattle.js_meaning.specs.Running.{Row as SpecRow, giving};
ghost use Rattle.js_meaning.specs.Values.{truth};
ghost use Rattle.js_meaning.specs.Operators.{binary_row, on_numbers, order_row, add_row, add_numbers, add_texts, joins};
ghost use Rattle.term_table.specs.Fitting.{IsValue};
ghost use Rattle.term_table.specs.Views.{plain_value};
ghost use Rattle.js_ops.specs.Contents.{shown, IsRow, of_pair, numbers_row, units_order, numbers_order};

use crate::arithmetic::{add, divide, multiply, remainder, subtract};
use crate::comparing::{are_equal, at_most, less};
use crate::conversions::{is_text, to_number, to_string};
use crate::numbers::{bit_and, bit_or, bit_xor, shift_left, shift_right, shift_right_zero};
use crate::row::{Row, truth, whole};
use crate::texts::{is_less, join};
use js_ast::BinaryOp;
use js_units::NoMemory;
use path_core::Why;
use std::alloc::Global;
use term_table::{Plain, Text};

/// `+` where a side is a string.
fn add_texts(alloc: Global, x: &Plain, y: &Plain) -> Result<Row, NoMemory>
    ensures row { (site : ℕ) → IfOk result (λ row. shown site row ≡ add_texts site (plain_value x.now) (plain_value y.now)) }
    ensures whole { IfOk result (λ row. IsRow row) }
{
    let Some(first) = to_string(alloc, x)? else {
        return Ok(Row::Ended { why: Why::Convert });
    };
    let Some(second) = to_string(alloc, y)? else {
        return Ok(Row::Ended { why: Why::Convert });
    };
    join(alloc, &first, &second)
}

/// Both contents as numbers, the left one first; none where one isn't converted.
fn numbers(x: &Plain, y: &Plain) -> Option<(Option<i64>, Option<i64>)>
    requires x { IsValue x.now }
    requires y { IsValue y.now }
    ensures row { (site : ℕ) → (go : Number → Number → SpecRow) → on_numbers site go (plain_value x.now) (plain_value y.now) ≡ of_pair site go result }
    ensures first { IfSome result (λ p. number.fits p.0 ≡ true) }
    ensures second { IfSome result (λ p. number.fits p.1 ≡ true) }
{
    let m = to_number(x)?;
    let n = to_number(y)?;
    Some((m, n))
}

/// What an operator gives of two numbers.
#[tactic(auto, unfolding(crate::specs::Contents::numbers_row))]
fn of_numbers(op: BinaryOp, m: Option<i64>, n: Option<i64>) -> Row
    requires m { number.fits m ≡ true }
    requires n { number.fits n ≡ true }
    ensures row { (site : ℕ) → shown site result ≡ numbers_row op site m n }
    ensures whole { IsRow result }
{
    match op {
        BinaryOp::Add => add(m, n),
        BinaryOp::Subtract => subtract(m, n),
        BinaryOp::Multiply => multiply(m, n),
        BinaryOp::Divide => divide(m, n),
        BinaryOp::Remainder => remainder(m, n),
        BinaryOp::ShiftLeft => whole(shift_left(m, n)),
        BinaryOp::ShiftRight => whole(shift_right(m, n)),
        BinaryOp::ShiftRightZero => whole(shift_right_zero(m, n)),
        BinaryOp::BitAnd => whole(bit_and(m, n)),
        BinaryOp::BitXor => whole(bit_xor(m, n)),
        BinaryOp::BitOr => whole(bit_or(m, n)),
        _ => truth(false),
    }
}

/// Of two contents that are converted to numbers, the left one first.
fn by_numbers(op: BinaryOp, x: &Plain, y: &Plain) -> Row
    requires x { IsValue x.now }
    requires y { IsValue y.now }
    ensures row { (site : ℕ) → shown site result ≡ on_numbers site (λ m n. numbers_row op site m n) (plain_value x.now) (plain_value y.now) }
    ensures whole { IsRow result }
{
    match numbers(x, y) {
        Some((m, n)) => of_numbers(op, m, n),
        None => Row::Ended { why: Why::Convert },
    }
}

/// Number::add of two contents that are converted to numbers.
fn sum(x: &Plain, y: &Plain) -> Row
    requires x { IsValue x.now }
    requires y { IsValue y.now }
    ensures row { (site : ℕ) → shown site result ≡ on_numbers site (add_numbers site) (plain_value x.now) (plain_value y.now) }
    ensures whole { IsRow result }
{
    match numbers(x, y) {
        Some((m, n)) => add(m, n),
        None => Row::Ended { why: Why::Convert },
    }
}

/// Whether an operator of order holds of two strings.
#[tactic(auto, unfolding(crate::specs::Contents::units_order))]
fn by_units(op: BinaryOp, s: &Text, t: &Text) -> bool
    ensures { result ≡ units_order op s.now t.now }
{
    match op {
        BinaryOp::Less => is_less(s, t),
        BinaryOp::Greater => is_less(t, s),
        BinaryOp::LessEqual => !is_less(t, s),
        BinaryOp::GreaterEqual => !is_less(s, t),
        _ => false,
    }
}

/// Whether it holds of two numbers.
#[tactic(auto, unfolding(crate::specs::Contents::numbers_order))]
fn by_size(op: BinaryOp, m: Option<i64>, n: Option<i64>) -> bool
    ensures { result ≡ numbers_order op m n }
{
    match op {
        BinaryOp::Less => less(m, n),
        BinaryOp::Greater => less(n, m),
        BinaryOp::LessEqual => at_most(m, n),
        BinaryOp::GreaterEqual => at_most(n, m),
        _ => false,
    }
}

fn in_size(op: BinaryOp, x: &Plain, y: &Plain) -> Row
    requires x { IsValue x.now }
    requires y { IsValue y.now }
    ensures row { (site : ℕ) → shown site result ≡ on_numbers site (λ m n. giving (truth (numbers_order op m n))) (plain_value x.now) (plain_value y.now) }
    ensures whole { IsRow result }
{
    match numbers(x, y) {
        Some((m, n)) => truth(by_size(op, m, n)),
        None => Row::Ended { why: Why::Convert },
    }
}

/// Two strings by their units, other contents by their numbers (section 7.2.12).
fn in_order(op: BinaryOp, x: &Plain, y: &Plain) -> Row
    requires x { IsValue x.now }
    requires y { IsValue y.now }
    ensures row { (site : ℕ) → shown site result ≡ order_row (units_order op) (numbers_order op) site (plain_value x.now) (plain_value y.now) }
    ensures whole { IsRow result }
{
    match (x, y) {
        (Plain::Text(s), Plain::Text(t)) => truth(by_units(op, s, t)),
        _ => in_size(op, x, y),
    }
}

/// Whether `+` joins its sides: where one is a string.
fn joins(x: &Plain, y: &Plain) -> bool
    ensures { result ≡ joins (plain_value x.now) (plain_value y.now) }
{
    is_text(x) || is_text(y)
}

/// ApplyStringOrNumericBinaryOperator (section 13.15.3) of `+`.
fn plus(alloc: Global, x: &Plain, y: &Plain) -> Result<Row, NoMemory>
    requires x { IsValue x.now }
    requires y { IsValue y.now }
    ensures row { (site : ℕ) → IfOk result (λ row. shown site row ≡ add_row site (plain_value x.now) (plain_value y.now)) }
    ensures whole { IfOk result (λ row. IsRow row) }
{
    if joins(x, y) {
        let row = add_texts(alloc, x, y)?;
        return Ok(row);
    }
    Ok(sum(x, y))
}

/// An operator between two contents.
#[tactic(auto, unfolding(js_meaning::specs::Operators::binary_row, crate::specs::Contents::numbers_row, crate::specs::Contents::units_order, crate::specs::Contents::numbers_order))]
pub fn binary(alloc: Global, op: BinaryOp, x: &Plain, y: &Plain) -> Result<Row, NoMemory>
    requires x { IsValue x.now }
    requires y { IsValue y.now }
    ensures row { (site : ℕ) → IfOk result (λ row. shown site row ≡ binary_row op site (plain_value x.now) (plain_value y.now)) }
    ensures whole { IfOk result (λ row. IsRow row) }
{
    match op {
        BinaryOp::Add => {
            let row = plus(alloc, x, y)?;
            Ok(row)
        }
        BinaryOp::Equal => Ok(truth(are_equal(x, y))),
        BinaryOp::NotEqual => Ok(truth(!are_equal(x, y))),
        BinaryOp::Less => Ok(in_order(BinaryOp::Less, x, y)),
        BinaryOp::Greater => Ok(in_order(BinaryOp::Greater, x, y)),
        BinaryOp::LessEqual => Ok(in_order(BinaryOp::LessEqual, x, y)),
        BinaryOp::GreaterEqual => Ok(in_order(BinaryOp::GreaterEqual, x, y)),
        BinaryOp::Subtract => Ok(by_numbers(BinaryOp::Subtract, x, y)),
        BinaryOp::Multiply => Ok(by_numbers(BinaryOp::Multiply, x, y)),
        BinaryOp::Divide => Ok(by_numbers(BinaryOp::Divide, x, y)),
        BinaryOp::Remainder => Ok(by_numbers(BinaryOp::Remainder, x, y)),
        BinaryOp::ShiftLeft => Ok(by_numbers(BinaryOp::ShiftLeft, x, y)),
        BinaryOp::ShiftRight => Ok(by_numbers(BinaryOp::ShiftRight, x, y)),
        BinaryOp::ShiftRightZero => Ok(by_numbers(BinaryOp::ShiftRightZero, x, y)),
        BinaryOp::BitAnd => Ok(by_numbers(BinaryOp::BitAnd, x, y)),
        BinaryOp::BitXor => Ok(by_numbers(BinaryOp::BitXor, x, y)),
        BinaryOp::BitOr => Ok(by_numbers(BinaryOp::BitOr, x, y)),
    }
}
