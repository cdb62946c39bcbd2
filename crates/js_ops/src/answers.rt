//! Rows on plain contents answered with moves.

ghost use Rattle.std.specs.Prelude.{◌≡◌, None, IfOk};
ghost use Rattle.js_meaning.specs.Apart.{Guarding};
ghost use Rattle.js_meaning.specs.Running.{leaving};
ghost use Rattle.term_table.specs.Fitting.{FitsOutcome};
ghost use Rattle.term_table.specs.Prices.{outcome_price};
ghost use Rattle.term_table.specs.Views.{View, Agrees};
ghost use Rattle.term_table.specs.Walking.{Shows};
ghost use Rattle.term_table.specs.Fitting.{IsValue};
ghost use Rattle.js_ops.specs.Contents.{shown, IsRow, NamesGuard};
ghost use Rattle.js_ops.specs.declared.row.Row.TheVariants.{Passed, Failed};

use crate::row::Row;
use js_units::NoMemory;
use path_core::{End, Why};
use std::alloc::Global;
use term_table::{Move, Moves, Outcome, Plain, Shadow, Table};

fn exit_of(site: u32, why: Why) -> End
    ensures { result ≡ leaving site why }
{
    End::Left {
        site,
        why,
        turns: 0,
        ended: 0,
    }
}

/// A value without a term.
fn bare(plain: Plain) -> Shadow
    ensures { result ≡ record { plain = plain; term = None } }
{
    Shadow { plain, term: None }
}

/// A value behind a guard that held. Its term is the constant true.
fn passed(
    alloc: Global,
    table: &Table,
    site: u32,
    why: Why,
    value: Plain,
) -> Result<Outcome, NoMemory>
    requires { IsValue value }
    ensures shows { (view : View) → Agrees view table.now → IfOk result (λ o. Shows view site o (shown site (Passed why value))) }
    ensures fits { IfOk result (λ o. FitsOutcome table.now o) }
    ensures guarded { IfOk result (λ o. NamesGuard o) }
    ensures free { IfOk result (λ o. outcome_price table.now o ≡ 0) }
{
    let mut moves = Moves::new(alloc);
    let term = table.flag(true);
    let exit = exit_of(site, why);
    moves.push(Move::Guard { term, exit })?;
    let value = bare(value);
    Ok(Outcome::Value { moves, value })
}

/// The end of a guard that failed. Its term is the constant false.
fn failed(alloc: Global, table: &Table, site: u32, why: Why) -> Outcome
    requires { Guarding why }
    ensures shows { (view : View) → Agrees view table.now → Shows view site result (shown site (Failed why)) }
    ensures fits { FitsOutcome table.now result }
    ensures guarded { NamesGuard result }
    ensures free { outcome_price table.now result ≡ 0 }
{
    let moves = Moves::new(alloc);
    let term = table.flag(false);
    let exit = exit_of(site, why);
    Outcome::Stop {
        moves,
        failed: Some(term),
        exit,
    }
}

/// What a row comes to, at every view.
pub fn answered(alloc: Global, table: &Table, site: u32, row: Row) -> Result<Outcome, NoMemory>
    requires { IsRow row }
    ensures shows { (view : View) → Agrees view table.now → IfOk result (λ o. Shows view site o (shown site row)) }
    ensures fits { IfOk result (λ o. FitsOutcome table.now o) }
    ensures guarded { IfOk result (λ o. NamesGuard o) }
    ensures free { IfOk result (λ o. outcome_price table.now o ≡ 0) }
{
    match row {
        Row::Value(value) => {
            let value = bare(value);
            let moves = Moves::new(alloc);
            Ok(Outcome::Value { moves, value })
        }
        Row::Passed { why, value } => {
            let outcome = passed(alloc, table, site, why, value)?;
            Ok(outcome)
        }
        Row::Failed { why } => Ok(failed(alloc, table, site, why)),
        Row::Ended { why } => {
            let moves = Moves::new(alloc);
            let exit = exit_of(site, why);
            Ok(Outcome::Stop {
                moves,
                failed: None,
                exit,
            })
        }
    }
}
