//! `++` and `--` at names and properties (ECMA-262, section 13.4).

ghost use Rattle.std.specs.Prelude.{◌≡◌, ◌≤◌, ◌<◌, ◌+◌, ◌*◌, ℕ, Bool, List, [], Some, None, IfOk, true, false};
ghost use Rattle.term_table.specs.Fitting.{Fits};
ghost use Rattle.term_table.specs.Views.{View, at as seen_at};
ghost use Rattle.js_ast.specs.declared.expression.Expr.TheVariants.{Step as AStep, Assign as AnAssign};
ghost use Rattle.js_ast.specs.declared.parts.Access.TheVariants.{Property, Index};
ghost use Rattle.js_meaning.specs.Meaning.{expr};
ghost use Rattle.js_meaning.specs.Running.{on_value, done, given, callee, intrinsic, leaves, count as counting};
ghost use Rattle.js_meaning.specs.Values.{Value};
ghost use Rattle.path_core.specs.declared.path.Why.TheVariants as why;
ghost use Rattle.js_frames.specs.declared.parts.Goal.{Goal as SpecGoal};
ghost use Rattle.js_meaning.specs.Parts.{step_value, aim as aiming, name_aim, property_aim, step as stepping, aim_access};
ghost use Rattle.js_state.specs.Fitting.{InReference, InCompletion, IsStop};
ghost use Rattle.js_state.specs.Playing.{Level, Quiet};
ghost use Rattle.js_state.specs.Spending.{SpendsAtMost, credit_of_given};
ghost use Rattle.term_table.specs.Growing.{Grown};
ghost use Rattle.js_state.specs.Held.{scope_of};
ghost use Rattle.js_state.specs.Seen.{place_of, completion_at, reference_at};
ghost use Rattle.js_frames.specs.declared.frames.Frame.{Frame as SpecFrame};
ghost use Rattle.js_frames.specs.declared.frames.Work.TheVariants.{Give};
ghost use Rattle.js_frames.specs.declared.parts.Goal.TheVariants.{Step as StepGoal, Assign as AssignGoal};
ghost use Rattle.js_frames.specs.declared.parts.Part.TheVariants.{TargetKey, BuiltinTarget, NameValue, PropertyValue, CompoundName, CompoundProperty};
ghost use Rattle.js_frames.specs.Credit.{Earns, credits, credit_of_work};
ghost use Rattle.js_frames.specs.Fitting.{FitFrames, FitAll};
ghost use Rattle.js_frames.specs.Machine.{Evals, Continues, Gives, Leads, reached, calling};
ghost use Rattle.js_frames.specs.Weight.{Falls, cost_of_work, cost_of_given};

use js_ast::{Access, BinaryOp, Expr, Identifier, StepOp, Target};
use js_frames::{Frame, Frames, Goal, Part, Work};
use js_state::{Completion, Reference, Scope, State, cut};
use js_units::{NoMemory, Units};
use path_core::{Budget, Why};
use sqlite_items::Boxed;
use std::alloc::Global;
use term_table::Shadow;

/// The value of `++` or `--`: the new one before its target, the old number behind it.
fn stepped(state: &State, is_prefix: bool, old: &Shadow, put: Completion) -> Completion
    requires old { Fits state.now.table old.now }
    requires put { InCompletion (Fits state.now.table) put }
    ensures gives { (view : View) → on_value (λ z st. done st (given (step_value is_prefix (seen_at view old.now) z))) (place_of view state.now) (completion_at view put) ≡ done (place_of view state.now) (completion_at view result) }
    ensures fits { InCompletion (Fits state.now.table) result }
{
    match state.value(put) {
        Err(completion) => completion,
        Ok(value) => {
            if is_prefix {
                Completion::Value(value)
            } else {
                drop(value);
                Completion::Value(state.old_number(old))
            }
        }
    }
}

/// A name is stepped.
pub(crate) fn step_name<'a>(
    state: &mut State<'a>,
    site: u32,
    op: StepOp,
    is_prefix: bool,
    name: &'a Identifier,
    scope: Scope,
) -> Result<Completion, NoMemory>
    ensures leads { (fs : List SpecFrame) → IfOk result (λ completion. Leads state.old fs (λ view st w. stepping op site is_prefix (scope_of scope) (name_aim name.entry.now.site name.entry.now.name) (place_of view st)) state.new fs (Give completion)) }
    ensures level { IfOk result (λ completion. Level state.old state.new) }
    ensures grown { IfOk result (λ completion. Grown state.old.table state.new.table) }
    ensures price { IfOk result (λ completion. SpendsAtMost 9 state.old state.new) }
    ensures fits { IfOk result (λ completion. InCompletion (Fits state.new.table) completion) }
{
    let read = state.read_name(name.site, &name.name, scope)?;
    let old = match state.value(read) {
        Ok(old) => old,
        Err(completion) => return Ok(completion),
    };
    let next = state.step(site, op, &old)?;
    let value = match state.value(next) {
        Ok(value) => value,
        Err(completion) => {
            drop(old);
            return Ok(completion);
        }
    };
    let put = state.put_name(name.site, &name.name, scope, value)?;
    Ok(stepped(state, is_prefix, &old, put))
}

/// A property is stepped.
pub(crate) fn step_property<'a>(
    state: &mut State<'a>,
    site: u32,
    op: StepOp,
    is_prefix: bool,
    at: u32,
    base: Shadow,
    name: &'a Units,
    scope: Scope,
) -> Result<Completion, NoMemory>
    requires { Fits state.old.table base }
    ensures leads { (fs : List SpecFrame) → IfOk result (λ completion. Leads state.old fs (λ view st w. stepping op site is_prefix (scope_of scope) (property_aim at (seen_at view base) name.entry.now) (place_of view st)) state.new fs (Give completion)) }
    ensures level { IfOk result (λ completion. Level state.old state.new) }
    ensures grown { IfOk result (λ completion. Grown state.old.table state.new.table) }
    ensures price { IfOk result (λ completion. SpendsAtMost 9 state.old state.new) }
    ensures fits { IfOk result (λ completion. InCompletion (Fits state.new.table) completion) }
{
    let read = state.get(at, &base, name)?;
    let old = match state.value(read) {
        Ok(old) => old,
        Err(completion) => {
            drop(base);
            return Ok(completion);
        }
    };
    let next = state.step(site, op, &old)?;
    let value = match state.value(next) {
        Ok(value) => value,
        Err(completion) => {
            drop(base);
            drop(old);
            return Ok(completion);
        }
    };
    let put = state.set(at, &base, name, value)?;
    Ok(stepped(state, is_prefix, &old, put))
}
