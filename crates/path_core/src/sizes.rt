//! The budgets of a bounds file.

ghost use Rattle.std.specs.Prelude.{◌≡◌, ◌≤◌, [], codes, IfOk};
ghost use Rattle.serde_json.specs.View.{view};
ghost use Rattle.path_core.specs.Accepted.{IsBudget, HasBudgets};
ghost use Rattle.path_core.specs.Form.{Gives, budget_of, budgeted, budgets_of};

use crate::bounds::{Bounds, BoundsRefusal};
use crate::members::refused;
use js_units::Units;
use serde_json::Value;
use sqlite_items::Items;
use std::alloc::Global;

/// A number within the range of a budget.
#[tactic(auto, using(crate::proofs::File::field_fails))]
fn budgeted(alloc: Global, name: &str, most: u64, number: Option<u64>) -> Result<u64, BoundsRefusal>
    ensures form { Gives (λ x. x) result (budgeted name.now most number) }
    ensures within { IfOk result (λ n. IsBudget most n) }
{
    match number {
        Some(number) => {
            if 1 <= number && number <= most {
                Ok(number)
            } else {
                Err(BoundsRefusal::Range {
                    name: Units::from_bytes(alloc, name.as_bytes())?,
                })
            }
        }
        None => Err(refused(alloc, name)),
    }
}

/// A budget that the file sets, or else the usual one.
#[tactic(auto, unfolding(crate::specs::Form::budget_of))]
fn budget(
    alloc: Global,
    file: &Value,
    name: &str,
    most: u64,
    usual: u64,
) -> Result<u64, BoundsRefusal>
    requires { IsBudget most usual }
    ensures form { Gives (λ x. x) result (budget_of name.now most usual (view file.now)) }
    ensures within { IfOk result (λ n. IsBudget most n) }
{
    match file.get(name) {
        Some(member) => budgeted(alloc, name, most, member.as_u64()),
        None => Ok(usual),
    }
}

/// The budgets of the file, with no inputs yet.
#[tactic(auto, unfolding(crate::specs::Form::budgets_of))]
pub(crate) fn budgets(alloc: Global, file: &Value) -> Result<Bounds, BoundsRefusal>
    ensures form { Gives (λ x. x) result (budgets_of (view file.now)) }
    ensures within { IfOk result HasBudgets }
{
    let turns = budget(alloc, file, "turns", 1_000_000, 1_000)?;
    let paths = budget(alloc, file, "paths", 65_536, 1_000)?;
    let candidates = budget(alloc, file, "candidates", 65_536, 64)?;
    let steps = budget(alloc, file, "steps", 9_007_199_254_740_991, 1_000_000)?;
    let width = budget(alloc, file, "width", 1_000_000_000, 20_000_000)?;
    Ok(Bounds {
        turns,
        paths,
        candidates,
        steps,
        width,
        pieces: 1,
        inputs: Items::new(alloc),
    })
}
