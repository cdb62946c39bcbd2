//! The operators and conversions on shadows, each meeting its row at every view. So far no value has a term.

ghost use Rattle.std.specs.Prelude.{◌≡◌, ◌≤◌, ◌+◌, length, IfOk, List};
ghost use Rattle.js_ast.specs.declared.operators.UnaryOp.TheVariants.{TypeOf};
ghost use Rattle.js_meaning.specs.Conversions.{to_boolean};
ghost use Rattle.js_meaning.specs.Operators.{binary_row, unary_row, step_row, text_row};
ghost use Rattle.js_meaning.specs.Values.{Object, truth};
ghost use Rattle.term_table.specs.Fitting.{Fits, FitsOutcome};
ghost use Rattle.term_table.specs.Growing.{Grown};
ghost use Rattle.term_table.specs.Prices.{CostsAtMost};
ghost use Rattle.term_table.specs.Views.{View, Agrees, at};
ghost use Rattle.term_table.specs.Walking.{Meets};
ghost use Rattle.js_ops.specs.Contents.{IsTold, NamesGuard};

use crate::answers::answered;
use crate::{conversions, one_operand as contents, two_operands};
use js_ast::{BinaryOp, StepOp, UnaryOp};
use js_units::NoMemory;
use std::alloc::Global;
use term_table::{Outcome, Plain, Shadow, Table};

/// An operator between two values (ECMA-262, sections 13.6 to 13.12).
pub fn binary(
    alloc: Global,
    table: &mut Table,
    site: u32,
    op: BinaryOp,
    a: &Shadow,
    b: &Shadow,
) -> Result<Outcome, NoMemory>
    requires a { Fits table.old a.now }
    requires b { Fits table.old b.now }
    ensures meets { IfOk result (λ o. Meets table.old table.new site (λ view. binary_row op site (at view a.now) (at view b.now)) o) }
    ensures fits { IfOk result (λ o. FitsOutcome table.new o) }
    ensures guarded { IfOk result (λ o. NamesGuard o) }
    ensures grown { Grown table.old table.new }
    ensures price { IfOk result (λ o. CostsAtMost 15 table.old table.new o) }
{
    let row = two_operands::binary(alloc, op, &a.plain, &b.plain)?;
    let outcome = answered(alloc, table, site, row)?;
    Ok(outcome)
}

/// An operator before a value (section 13.5). The kind of an object is the machine's to tell.
pub fn unary(
    alloc: Global,
    table: &mut Table,
    site: u32,
    op: UnaryOp,
    a: &Shadow,
) -> Result<Outcome, NoMemory>
    requires fits { Fits table.old a.now }
    requires told { op ≡ TypeOf → IsTold a.now.plain }
    ensures meets { (objects : List Object) → IfOk result (λ o. Meets table.old table.new site (λ view. unary_row op site (at view a.now) objects) o) }
    ensures fits { IfOk result (λ o. FitsOutcome table.new o) }
    ensures guarded { IfOk result (λ o. NamesGuard o) }
    ensures grown { Grown table.old table.new }
    ensures price { IfOk result (λ o. CostsAtMost 8 table.old table.new o) }
{
    let row = contents::unary(alloc, op, &a.plain)?;
    let outcome = answered(alloc, table, site, row)?;
    Ok(outcome)
}

/// The new value of `++` and `--` (section 13.4).
pub fn step(
    alloc: Global,
    table: &mut Table,
    site: u32,
    op: StepOp,
    a: &Shadow,
) -> Result<Outcome, NoMemory>
    requires { Fits table.old a.now }
    ensures meets { IfOk result (λ o. Meets table.old table.new site (λ view. step_row op site (at view a.now)) o) }
    ensures fits { IfOk result (λ o. FitsOutcome table.new o) }
    ensures guarded { IfOk result (λ o. NamesGuard o) }
    ensures grown { Grown table.old table.new }
    ensures price { IfOk result (λ o. CostsAtMost 9 table.old table.new o) }
{
    let row = contents::step(op, &a.plain);
    let outcome = answered(alloc, table, site, row)?;
    Ok(outcome)
}

/// ToString (section 7.1.17).
pub fn to_text(alloc: Global, table: &mut Table, site: u32, a: &Shadow) -> Result<Outcome, NoMemory>
    requires { Fits table.old a.now }
    ensures meets { IfOk result (λ o. Meets table.old table.new site (λ view. text_row site (at view a.now)) o) }
    ensures fits { IfOk result (λ o. FitsOutcome table.new o) }
    ensures guarded { IfOk result (λ o. NamesGuard o) }
    ensures grown { Grown table.old table.new }
    ensures price { IfOk result (λ o. CostsAtMost 5 table.old table.new o) }
{
    let row = contents::text(alloc, &a.plain)?;
    let outcome = answered(alloc, table, site, row)?;
    Ok(outcome)
}

/// ToBoolean (section 7.1.2).
pub fn to_flag(_alloc: Global, table: &mut Table, a: &Shadow) -> Result<Shadow, NoMemory>
    requires { Fits table.old a.now }
    ensures value { (view : View) → Agrees view table.new → IfOk result (λ flag. at view flag ≡ truth (to_boolean (at view a.now))) }
    ensures fits { IfOk result (λ flag. Fits table.new flag) }
    ensures grown { Grown table.old table.new }
    ensures price { length table.new ≤ length table.old + 5 }
{
    let holds = conversions::to_boolean(&a.plain);
    Ok(Shadow {
        plain: Plain::Bool(holds),
        term: None,
    })
}
