//! Early names in expressions.

ghost use Rattle.std.specs.Prelude.{◌≡◌, ◌+◌, OnOk};
ghost use Rattle.js_early.specs.Early.{scope};
ghost use Rattle.js_early.specs.Parts.{least_with, expr_places};
ghost use Rattle.js_early.specs.Weight.{expr_below};

use crate::parts::{in_exprs, in_links, in_members, in_suffixes, in_target};
use crate::scopes::Names;
use crate::search::Search;
use crate::statements::in_body;
use js_ast::{Expr, Identifier};
use js_units::NoMemory;
use std::alloc::Global;

/// The names that an arrow declares for its one expression.
fn in_parameters<'a>(
    alloc: Global,
    parameters: &[Identifier],
    search: &mut Search<'a>,
) -> Result<(), NoMemory>
    ensures least { OnOk result (search.new.least ≡ least_with search.old.least (scope parameters.now)) }
    ensures weight { OnOk result (search.new.weight ≡ search.old.weight) }
{
    let mut names = Names::new(alloc);
    names.push_all(parameters)?;
    search.names(alloc, &names)
}

/// The early names of an expression's own scopes, and the trees directly below it.
#[tactic(auto, using(crate::proofs::Opens::expr_steps, crate::proofs::Weighs::expr_belows))]
pub fn in_expr<'a>(alloc: Global, expr: &'a Expr, search: &mut Search<'a>) -> Result<(), NoMemory>
    ensures least { OnOk result (search.new.least ≡ least_with search.old.least (expr_places expr.now)) }
    ensures weight { OnOk result (search.new.weight ≡ search.old.weight + expr_below expr.now) }
{
    match expr {
        Expr::Name(_)
        | Expr::Number { .. }
        | Expr::Text { .. }
        | Expr::Null { .. }
        | Expr::True { .. }
        | Expr::False { .. }
        | Expr::This { .. } => Ok(()),
        Expr::Array { items, .. } => in_exprs(items.as_slice(), search),
        Expr::Object { members, .. } => in_members(members.as_slice(), search),
        Expr::FunctionExpression {
            parameters,
            body,
            ..
        } => in_body(alloc, parameters.as_slice(), body.as_slice(), search),
        Expr::Arrow {
            parameters,
            value,
            ..
        } => {
            in_parameters(alloc, parameters.as_slice(), search)?;
            search.expression(value.get())
        }
        Expr::ArrowBlock {
            parameters,
            body,
            ..
        } => in_body(alloc, parameters.as_slice(), body.as_slice(), search),
        Expr::New { arguments, .. } => in_exprs(arguments.as_slice(), search),
        Expr::Call { first, suffixes } => {
            search.expression(first.get())?;
            in_suffixes(suffixes.as_slice(), search)
        }
        Expr::Unary { operand, .. } => search.expression(operand.get()),
        Expr::Step { target, .. } => in_target(target, search),
        Expr::Binary { first, links } => {
            search.expression(first.get())?;
            in_links(links.as_slice(), search)
        }
        Expr::Logical { first, links } => {
            search.expression(first.get())?;
            in_links(links.as_slice(), search)
        }
        Expr::Conditional {
            test,
            consequent,
            alternate,
            ..
        } => {
            search.expression(test.get())?;
            search.expression(consequent.get())?;
            search.expression(alternate.get())
        }
        Expr::Assign { target, value, .. } => {
            in_target(target, search)?;
            search.expression(value.get())
        }
    }
}
