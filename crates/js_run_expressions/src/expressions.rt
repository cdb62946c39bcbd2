//! An expression is begun.

ghost use Rattle.std.specs.Prelude.{◌≡◌, ◌≤◌, ◌<◌, ◌+◌, ◌*◌, List, IfOk, true, false};
ghost use Rattle.js_ast.specs.declared.expression.Expr.{Expr as SpecExpr};
ghost use Rattle.js_ast.specs.declared.expression.Expr.TheVariants.{Call, Binary, Logical};
ghost use Rattle.js_ast.specs.declared.operators.BinaryOp.{BinaryOp};
ghost use Rattle.js_ast.specs.declared.operators.LogicalOp.{LogicalOp};
ghost use Rattle.js_ast.specs.declared.parts.Link.{Link as SpecLink};
ghost use Rattle.js_ast.specs.declared.parts.Suffix.{Suffix as SpecSuffix};
ghost use Rattle.term_table.specs.Fitting.{Fits};
ghost use Rattle.term_table.specs.Views.{View};
ghost use Rattle.js_frames.specs.Credit.{Earns, credits, credit_of_work};
ghost use Rattle.js_frames.specs.Fitting.{FitFrames, FitAll};
ghost use Rattle.js_frames.specs.Machine.{Evals};
ghost use Rattle.js_frames.specs.Weight.{Falls, cost_of_work};

use crate::constructing::construct;
use crate::functions::{arrow, function};
use crate::lists::{array, plain};
use crate::operators::{conditional, unary};
use crate::values::{constant, name, number, text, this_plain};
use js_ast::Expr;
use js_frames::{Frame, Frames, Part, Work};
use js_run_targets::{assign, step};
use js_state::{Code, Scope, State};
use js_units::NoMemory;
use sqlite_items::Boxed;
use std::alloc::Global;
use term_table::Plain;

/// An expression that is no chain is begun; it counts.
fn begin<'a>(
    alloc: Global,
    state: &mut State<'a>,
    frames: &mut Frames<'a>,
    tree: &'a Boxed<Expr>,
    scope: Scope,
) -> Result<Work<'a>, NoMemory>
    requires frames { FitFrames state.old frames.old }
    requires call { (first : SpecExpr) (suffixes : List (SpecSuffix SpecExpr)) → tree.now ≡ Call first suffixes → ⊥ }
    requires binary { (first : SpecExpr) (links : List (SpecLink BinaryOp SpecExpr)) → tree.now ≡ Binary first links → ⊥ }
    requires logical { (first : SpecExpr) (links : List (SpecLink LogicalOp SpecExpr)) → tree.now ≡ Logical first links → ⊥ }
    ensures leads { IfOk result (λ next. Evals state.old frames.old tree.entry.now scope state.new frames.new next) }
    ensures falls { IfOk result (λ next. Falls state.old frames.old 1 state.new frames.new (cost_of_work next)) }
    ensures earns { IfOk result (λ next. Earns state.old state.new (credits frames.old) (credits frames.new + credit_of_work next)) }
    ensures fits { IfOk result (λ next. FitAll state.new frames.new next) }
{
    match tree.get() {
        Expr::Name(identifier) => {
            let completion = name(state, identifier, scope)?;
            Ok(Work::Give(completion))
        }
        Expr::Number { site, value } => Ok(Work::Give(number(state, *site, *value))),
        Expr::Text { site, value } => {
            let completion = text(alloc, state, *site, value)?;
            Ok(Work::Give(completion))
        }
        Expr::Null { site } => Ok(Work::Give(constant(state, *site, Plain::Null))),
        Expr::True { site } => Ok(Work::Give(constant(state, *site, Plain::Bool(true)))),
        Expr::False { site } => Ok(Work::Give(constant(state, *site, Plain::Bool(false)))),
        Expr::This { site } => Ok(Work::Give(constant(state, *site, this_plain(scope.this)))),
        Expr::Array { site, items } => {
            let work = array(state, frames, *site, items.as_slice(), scope)?;
            Ok(work)
        }
        Expr::Object { site, members } => {
            let work = plain(state, frames, *site, members.as_slice(), scope)?;
            Ok(work)
        }
        Expr::FunctionExpression {
            site,
            name,
            parameters,
            body,
        } => {
            let completion = function(
                state,
                *site,
                name,
                parameters.as_slice(),
                body.as_slice(),
                scope,
            )?;
            Ok(Work::Give(completion))
        }
        Expr::Arrow {
            site,
            parameters,
            value,
        } => {
            let code = Code::Expression(value);
            let completion = arrow(state, *site, parameters.as_slice(), code, scope)?;
            Ok(Work::Give(completion))
        }
        Expr::ArrowBlock {
            site,
            parameters,
            body,
        } => {
            let code = Code::Statements(body.as_slice());
            let completion = arrow(state, *site, parameters.as_slice(), code, scope)?;
            Ok(Work::Give(completion))
        }
        Expr::New {
            site,
            name,
            arguments,
        } => {
            let work = construct(
                alloc,
                state,
                frames,
                *site,
                name,
                arguments.as_slice(),
                scope,
            )?;
            Ok(work)
        }
        Expr::Call { .. } => Ok(Work::Eval(tree, scope)),
        Expr::Unary { site, op, operand } => {
            let work = unary(state, frames, *site, *op, operand, scope)?;
            Ok(work)
        }
        Expr::Step {
            start,
            site,
            op,
            is_prefix,
            target,
        } => {
            let work = step(state, frames, *start, *site, *op, *is_prefix, target, scope)?;
            Ok(work)
        }
        Expr::Binary { .. } => Ok(Work::Eval(tree, scope)),
        Expr::Logical { .. } => Ok(Work::Eval(tree, scope)),
        Expr::Conditional {
            start,
            site,
            test,
            consequent,
            alternate,
        } => {
            let work = conditional(
                state, frames, *start, *site, test, consequent, alternate, scope,
            )?;
            Ok(work)
        }
        Expr::Assign {
            start,
            site,
            op,
            target,
            value,
        } => {
            let work = assign(state, frames, *start, *site, *op, target, value, scope)?;
            Ok(work)
        }
    }
}

/// An expression is begun. Chains of operators and of suffixes count nothing themselves: each waits, and what stands first
/// in it is begun.
pub fn eval<'a>(
    alloc: Global,
    state: &mut State<'a>,
    frames: &mut Frames<'a>,
    tree: &'a Boxed<Expr>,
    scope: Scope,
) -> Result<Work<'a>, NoMemory>
    requires { FitFrames state.old frames.old }
    ensures leads { IfOk result (λ next. Evals state.old frames.old tree.entry.now scope state.new frames.new next) }
    ensures falls { IfOk result (λ next. Falls state.old frames.old 1 state.new frames.new (cost_of_work next)) }
    ensures earns { IfOk result (λ next. Earns state.old state.new (credits frames.old) (credits frames.new + credit_of_work next)) }
    ensures fits { IfOk result (λ next. FitAll state.new frames.new next) }
{
    let mut part = tree;
    'down: loop {
        match part.get() {
            Expr::Call { first, suffixes } => {
                let suffixes = suffixes.as_slice();
                frames.push(Frame::Chain { suffixes, scope })?;
                part = first;
            }
            Expr::Binary { first, links } => {
                let links = links.as_slice();
                frames.push(Frame::Awaits(Part::LinksLeft { links, scope }))?;
                part = first;
            }
            Expr::Logical { first, links } => {
                let links = links.as_slice();
                frames.push(Frame::Awaits(Part::LogicalLeft { links, scope }))?;
                part = first;
            }
            _ => {
                let work = begin(alloc, state, frames, part, scope)?;
                return Ok(work);
            }
        }
    }
}
