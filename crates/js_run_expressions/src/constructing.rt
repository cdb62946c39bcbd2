//! `new` (ECMA-262, section 13.3.5).

ghost use Rattle.std.specs.Prelude.{◌≡◌, ◌≤◌, ◌<◌, ◌+◌, ◌*◌, IfOk, true, false};
ghost use Rattle.term_table.specs.Fitting.{Fits};
ghost use Rattle.term_table.specs.Views.{View};
ghost use Rattle.js_ast.specs.declared.expression.Expr.TheVariants.{New};
ghost use Rattle.js_meaning.specs.Meaning.{expr, new_found};
ghost use Rattle.js_meaning.specs.Names.{find_name, listed, read_name as reading};
ghost use Rattle.js_meaning.specs.Running.{bind, on_value, leaves};
ghost use Rattle.path_core.specs.declared.path.Why.TheVariants as why;
ghost use Rattle.js_state.specs.Fitting.{InCompletion};
ghost use Rattle.js_state.specs.Held.{scope_of};
ghost use Rattle.js_state.specs.Playing.{Still};
ghost use Rattle.js_state.specs.Seen.{place_of};
ghost use Rattle.js_frames.specs.Credit.{Earns, credits, credit_of_work};
ghost use Rattle.js_frames.specs.Fitting.{FitFrames, FitAll};
ghost use Rattle.js_frames.specs.Machine.{Evals, Gives};
ghost use Rattle.js_frames.specs.Weight.{Falls, cost_of_work};

use crate::lists::gather;
use js_ast::{Expr, Identifier};
use js_frames::{Aim, Frames, Gathered, Work};
use js_state::{Completion, Scope, State, cut, is_error};
use js_units::NoMemory;
use path_core::{Budget, Why};
use sqlite_items::{Boxed, Items};
use std::alloc::Global;

/// What isn't the constructor of an error leaves the profile, once its name was read.
fn other<'a>(
    state: &mut State<'a>,
    site: u32,
    name: &'a Identifier,
    scope: Scope,
) -> Result<Completion, NoMemory>
    ensures gives { IfOk result (λ completion. Gives (λ view. bind (reading name.entry.now.site name.entry.now.name (scope_of scope) (place_of view state.old)) (on_value (λ x st. leaves site why.New st))) state.new completion) }
    ensures still { IfOk result (λ completion. Still state.old state.new) }
    ensures fits { IfOk result (λ completion. InCompletion (Fits state.new.table) completion) }
{
    let completion = state.read_name(name.site, &name.name, scope)?;
    match state.value(completion) {
        Ok(value) => {
            drop(value);
            Ok(state.left(site, Why::New))
        }
        Err(completion) => Ok(completion),
    }
}

/// `new` is begun.
pub(crate) fn construct<'a>(
    alloc: Global,
    state: &mut State<'a>,
    frames: &mut Frames<'a>,
    site: u32,
    name: &'a Identifier,
    arguments: &'a [Boxed<Expr>],
    scope: Scope,
) -> Result<Work<'a>, NoMemory>
    requires { FitFrames state.old frames.old }
    ensures leads { IfOk result (λ next. Evals state.old frames.old (New site name.entry.now arguments.entry.now) scope state.new frames.new next) }
    ensures falls { IfOk result (λ next. Falls state.old frames.old 1 state.new frames.new (cost_of_work next)) }
    ensures earns { IfOk result (λ next. Earns state.old state.new (credits frames.old) (credits frames.new + credit_of_work next)) }
    ensures fits { IfOk result (λ next. FitAll state.new frames.new next) }
{
    if !state.count() {
        return Ok(Work::Give(cut(site, Budget::Nodes)));
    }
    match state.built_in(&name.name, scope) {
        None => {
            let completion = other(state, site, name, scope)?;
            Ok(Work::Give(completion))
        }
        Some(builtin) => {
            if !is_error(builtin) {
                return Ok(Work::Give(state.left(site, Why::New)));
            }
            let aim = Aim::New {
                site,
                name: &name.name,
            };
            let values = Items::new(alloc);
            let gathered = Boxed::new(alloc, Gathered { values, aim, scope })?;
            let work = gather(frames, gathered, arguments)?;
            Ok(work)
        }
    }
}
