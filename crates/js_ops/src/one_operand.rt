//! Operators before and behind one operand, as rows on plain contents.

ghost use Rattle.std.specs.Prelude.{◌≡◌, ℕ, List, true, IfOk};
ghost use Rattle.js_ast.specs.declared.operators.UnaryOp.TheVariants.{TypeOf};
ghost use Rattle.js_values.specs.Numbers as number;
ghost use Rattle.js_meaning.specs.Conversions.{number_value};
ghost use Rattle.js_meaning.specs.Operators.{unary_row, step_row, text_row, on_number, type_of};
ghost use Rattle.js_meaning.specs.Running.{giving};
ghost use Rattle.js_meaning.specs.Values.{Object, int, text};
ghost use Rattle.term_table.specs.Fitting.{IsValue};
ghost use Rattle.term_table.specs.Views.{plain_value};
ghost use Rattle.js_ops.specs.Contents.{shown, IsRow, IsTold};

use crate::arithmetic::{add, subtract};
use crate::conversions::{number_value, to_boolean, to_number, to_string};
use crate::numbers::complement;
use crate::row::{Row, truth, whole};
use js_ast::{StepOp, UnaryOp};
use js_units::{NoMemory, Units};
use path_core::Why;
use std::alloc::Global;
use term_table::{Plain, Text};

/// The kind of a content that is no object (ECMA-262, section 13.5.3).
fn type_of(alloc: Global, x: &Plain) -> Result<Row, NoMemory>
    requires { IsTold x.now }
    ensures row { (objects : List Object) → (site : ℕ) → IfOk result (λ row. shown site row ≡ giving (text (type_of (plain_value x.now) objects))) }
    ensures whole { IfOk result (λ row. IsRow row) }
{
    let text = match x {
        Plain::Undefined => "undefined",
        Plain::Null => "object",
        Plain::Bool(_) => "boolean",
        Plain::Int(_) => "number",
        Plain::NotNumber => "number",
        Plain::Text(_) => "string",
        Plain::Object(_) => unreachable!(),
    };
    let units = Units::from_bytes(alloc, text.as_bytes())?;
    let text = Text::new(alloc, units)?;
    Ok(Row::Value(Plain::Text(text)))
}

/// Number::unaryMinus (section 6.1.6.1.1); -0 is 0.
fn negated(n: Option<i64>) -> Option<i64>
    requires { number.fits n ≡ true }
    ensures value { result ≡ number.negate n }
    ensures fits { number.fits result ≡ true }
{
    match n {
        Some(n) => Some(-n),
        None => None,
    }
}

/// `+` before its operand (section 13.5.4).
fn plus(x: &Plain) -> Row
    requires { IsValue x.now }
    ensures row { (site : ℕ) → shown site result ≡ on_number site (λ n. giving (number_value n)) (plain_value x.now) }
    ensures whole { IsRow result }
{
    match to_number(x) {
        Some(n) => Row::Value(number_value(n)),
        None => Row::Ended { why: Why::Convert },
    }
}

/// `-` (section 13.5.5).
fn minus(x: &Plain) -> Row
    requires { IsValue x.now }
    ensures row { (site : ℕ) → shown site result ≡ on_number site (λ n. giving (number_value (number.negate n))) (plain_value x.now) }
    ensures whole { IsRow result }
{
    match to_number(x) {
        Some(n) => Row::Value(number_value(negated(n))),
        None => Row::Ended { why: Why::Convert },
    }
}

/// `~` (section 13.5.6).
fn inverted(x: &Plain) -> Row
    requires { IsValue x.now }
    ensures row { (site : ℕ) → shown site result ≡ on_number site (λ n. giving (int (number.complement (number.to_int32 n)))) (plain_value x.now) }
    ensures whole { IsRow result }
{
    match to_number(x) {
        Some(n) => whole(complement(n)),
        None => Row::Ended { why: Why::Convert },
    }
}

/// An operator before its operand. The kind of an object is the machine's to tell.
#[tactic(auto, unfolding(js_meaning::specs::Operators::unary_row))]
pub fn unary(alloc: Global, op: UnaryOp, x: &Plain) -> Result<Row, NoMemory>
    requires value { IsValue x.now }
    requires told { op ≡ TypeOf → IsTold x.now }
    ensures row { (objects : List Object) → (site : ℕ) → IfOk result (λ row. shown site row ≡ unary_row op site (plain_value x.now) objects) }
    ensures whole { IfOk result (λ row. IsRow row) }
{
    match op {
        UnaryOp::Plus => Ok(plus(x)),
        UnaryOp::Minus => Ok(minus(x)),
        UnaryOp::Not => Ok(truth(!to_boolean(x))),
        UnaryOp::Complement => Ok(inverted(x)),
        UnaryOp::TypeOf => {
            let row = type_of(alloc, x)?;
            Ok(row)
        }
    }
}

/// The new value of `++` and `--` (section 13.4).
#[tactic(auto, unfolding(js_meaning::specs::Operators::step_row))]
pub fn step(op: StepOp, x: &Plain) -> Row
    requires { IsValue x.now }
    ensures row { (site : ℕ) → shown site result ≡ step_row op site (plain_value x.now) }
    ensures whole { IsRow result }
{
    match to_number(x) {
        None => Row::Ended { why: Why::Convert },
        Some(n) => match op {
            StepOp::Increment => add(n, Some(1)),
            StepOp::Decrement => subtract(n, Some(1)),
        },
    }
}

/// ToString as a row: a string, or the end of what isn't converted.
#[tactic(auto, unfolding(js_meaning::specs::Operators::text_row))]
pub fn text(alloc: Global, x: &Plain) -> Result<Row, NoMemory>
    requires { IsValue x.now }
    ensures row { (site : ℕ) → IfOk result (λ row. shown site row ≡ text_row site (plain_value x.now)) }
    ensures whole { IfOk result (λ row. IsRow row) }
{
    let Some(text) = to_string(alloc, x)? else {
        return Ok(Row::Ended { why: Why::Convert });
    };
    Ok(Row::Value(Plain::Text(text)))
}
