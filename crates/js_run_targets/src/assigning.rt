//! Names and properties that are written, also by an operator and `=` (ECMA-262, section 13.15).

ghost use Rattle.std.specs.Prelude.{◌≡◌, ◌≤◌, ◌<◌, ◌+◌, ◌*◌, ℕ, Bool, List, [], Some, None, IfOk, true, false};
ghost use Rattle.term_table.specs.Fitting.{Fits};
ghost use Rattle.term_table.specs.Views.{View, at as seen_at};
ghost use Rattle.js_ast.specs.declared.expression.Expr.TheVariants.{Step as AStep, Assign as AnAssign};
ghost use Rattle.js_ast.specs.declared.parts.Access.TheVariants.{Property, Index};
ghost use Rattle.js_meaning.specs.Meaning.{expr};
ghost use Rattle.js_meaning.specs.Running.{on_value, done, given, callee, intrinsic, leaves, count as counting};
ghost use Rattle.js_meaning.specs.Values.{Value};
ghost use Rattle.path_core.specs.declared.path.Why.TheVariants as why;
ghost use Rattle.js_frames.specs.declared.parts.Goal.{Goal as SpecGoal};
ghost use Rattle.js_meaning.specs.Parts.{step_value, aim as aiming, name_aim, property_aim, step as stepping, aim_access};
ghost use Rattle.js_state.specs.Fitting.{InReference, InCompletion, IsStop};
ghost use Rattle.js_state.specs.Playing.{Level, Quiet};
ghost use Rattle.js_state.specs.Spending.{SpendsAtMost, credit_of_given};
ghost use Rattle.term_table.specs.Growing.{Grown};
ghost use Rattle.js_state.specs.Held.{scope_of};
ghost use Rattle.js_state.specs.Seen.{place_of, completion_at, reference_at};
ghost use Rattle.js_frames.specs.declared.frames.Frame.{Frame as SpecFrame};
ghost use Rattle.js_frames.specs.declared.frames.Work.TheVariants.{Give};
ghost use Rattle.js_frames.specs.declared.parts.Goal.TheVariants.{Step as StepGoal, Assign as AssignGoal};
ghost use Rattle.js_frames.specs.declared.parts.Part.TheVariants.{TargetKey, BuiltinTarget, NameValue, PropertyValue, CompoundName, CompoundProperty};
ghost use Rattle.js_frames.specs.Credit.{Earns, credits, credit_of_work};
ghost use Rattle.js_frames.specs.Fitting.{FitFrames, FitAll};
ghost use Rattle.js_frames.specs.Machine.{Evals, Continues, Gives, Leads, reached, calling};
ghost use Rattle.js_frames.specs.Weight.{Falls, cost_of_work, cost_of_given};

use js_ast::{Access, BinaryOp, Expr, Identifier, StepOp, Target};
use js_frames::{Frame, Frames, Goal, Part, Work};
use js_state::{Completion, Reference, Scope, State, cut};
use js_units::{NoMemory, Units};
use path_core::{Budget, Why};
use sqlite_items::Boxed;
use std::alloc::Global;
use term_table::Shadow;

/// An operator and `=` have found the name before them: it is read before the right side.
pub(crate) fn compound_name<'a>(
    state: &mut State<'a>,
    frames: &mut Frames<'a>,
    site: u32,
    op: BinaryOp,
    value: &'a Boxed<Expr>,
    name: &'a Identifier,
    scope: Scope,
) -> Result<Work<'a>, NoMemory>
    requires { FitFrames state.old frames.old }
    ensures leads { IfOk result (λ next. Leads state.old frames.old (λ view st w. reached w (AssignGoal site (Some op) value.entry) scope (name_aim name.entry.now.site name.entry.now.name) (place_of view st)) state.new frames.new next) }
    ensures falls { IfOk result (λ next. Falls state.old frames.old 16 state.new frames.new (cost_of_work next)) }
    ensures earns { IfOk result (λ next. Earns state.old state.new (credits frames.old + 16) (credits frames.new + credit_of_work next)) }
    ensures fits { IfOk result (λ next. FitAll state.new frames.new next) }
{
    let read = state.read_name(name.site, &name.name, scope)?;
    match state.value(read) {
        Err(completion) => Ok(Work::Give(completion)),
        Ok(old) => {
            frames.push(Frame::Awaits(Part::CompoundName {
                site,
                op,
                at: name.site,
                name: &name.name,
                old,
                scope,
            }))?;
            Ok(Work::Eval(value, scope))
        }
    }
}

/// The same behind a property.
pub(crate) fn compound_property<'a>(
    alloc: Global,
    state: &mut State<'a>,
    frames: &mut Frames<'a>,
    site: u32,
    op: BinaryOp,
    value: &'a Boxed<Expr>,
    at: u32,
    base: Shadow,
    name: &'a Units,
    scope: Scope,
) -> Result<Work<'a>, NoMemory>
    requires frames { FitFrames state.old frames.old }
    requires base { Fits state.old.table base }
    ensures leads { IfOk result (λ next. Leads state.old frames.old (λ view st w. reached w (AssignGoal site (Some op) value.entry) scope (property_aim at (seen_at view base) name.entry.now) (place_of view st)) state.new frames.new next) }
    ensures falls { IfOk result (λ next. Falls state.old frames.old 16 state.new frames.new (cost_of_work next)) }
    ensures earns { IfOk result (λ next. Earns state.old state.new (credits frames.old + 16) (credits frames.new + credit_of_work next)) }
    ensures fits { IfOk result (λ next. FitAll state.new frames.new next) }
{
    let read = state.get(at, &base, name)?;
    match state.value(read) {
        Err(completion) => {
            drop(base);
            Ok(Work::Give(completion))
        }
        Ok(old) => {
            let base = Boxed::new(alloc, base)?;
            frames.push(Frame::Awaits(Part::CompoundProperty {
                site,
                op,
                at,
                name,
                base,
                old,
            }))?;
            Ok(Work::Eval(value, scope))
        }
    }
}

/// The value of a name that is written.
pub fn name_value<'a>(
    state: &mut State<'a>,
    frames: &Frames<'a>,
    site: u32,
    name: &'a Units,
    scope: Scope,
    value: Shadow,
) -> Result<Work<'a>, NoMemory>
    requires frames { FitFrames state.old frames.now }
    requires value { Fits state.old.table value }
    ensures leads { IfOk result (λ next. Continues state.old frames.now (NameValue site name.entry scope) value state.new frames.now next) }
    ensures falls { IfOk result (λ next. Falls state.old frames.now 15 state.new frames.now (cost_of_work next)) }
    ensures earns { IfOk result (λ next. Earns state.old state.new (credits frames.now + 7) (credits frames.now + credit_of_work next)) }
    ensures fits { IfOk result (λ next. FitAll state.new frames.now next) }
{
    let completion = state.put_name(site, name, scope, value)?;
    Ok(Work::Give(completion))
}

/// The value of a property that is written.
pub fn property_value<'a>(
    state: &mut State<'a>,
    frames: &Frames<'a>,
    site: u32,
    base: Shadow,
    name: &'a Units,
    value: Shadow,
) -> Result<Work<'a>, NoMemory>
    requires frames { FitFrames state.old frames.now }
    requires base { Fits state.old.table base }
    requires value { Fits state.old.table value }
    ensures leads { IfOk result (λ next. Continues state.old frames.now (PropertyValue site base name.entry) value state.new frames.now next) }
    ensures falls { IfOk result (λ next. Falls state.old frames.now 15 state.new frames.now (cost_of_work next)) }
    ensures earns { IfOk result (λ next. Earns state.old state.new (credits frames.now + 7) (credits frames.now + credit_of_work next)) }
    ensures fits { IfOk result (λ next. FitAll state.new frames.now next) }
{
    let completion = state.set(site, &base, name, value)?;
    Ok(Work::Give(completion))
}

/// The right side of an operator and `=` behind a name.
pub fn compound_name_value<'a>(
    state: &mut State<'a>,
    frames: &Frames<'a>,
    site: u32,
    op: BinaryOp,
    at: u32,
    name: &'a Units,
    old: Shadow,
    scope: Scope,
    value: Shadow,
) -> Result<Work<'a>, NoMemory>
    requires frames { FitFrames state.old frames.now }
    requires old { Fits state.old.table old }
    requires value { Fits state.old.table value }
    ensures leads { IfOk result (λ next. Continues state.old frames.now (CompoundName site op at name.entry old scope) value state.new frames.now next) }
    ensures falls { IfOk result (λ next. Falls state.old frames.now 15 state.new frames.now (cost_of_work next)) }
    ensures earns { IfOk result (λ next. Earns state.old state.new (credits frames.now + 22) (credits frames.now + credit_of_work next)) }
    ensures fits { IfOk result (λ next. FitAll state.new frames.now next) }
{
    let made = state.operate(site, op, &old, &value)?;
    match state.value(made) {
        Err(completion) => Ok(Work::Give(completion)),
        Ok(next) => {
            let completion = state.put_name(at, name, scope, next)?;
            Ok(Work::Give(completion))
        }
    }
}

/// The right side of an operator and `=` behind a property.
pub fn compound_property_value<'a>(
    state: &mut State<'a>,
    frames: &Frames<'a>,
    site: u32,
    op: BinaryOp,
    at: u32,
    name: &'a Units,
    base: Boxed<Shadow>,
    old: Shadow,
    value: Shadow,
) -> Result<Work<'a>, NoMemory>
    requires frames { FitFrames state.old frames.now }
    requires base { Fits state.old.table base }
    requires old { Fits state.old.table old }
    requires value { Fits state.old.table value }
    ensures leads { IfOk result (λ next. Continues state.old frames.now (CompoundProperty site op at name.entry base old) value state.new frames.now next) }
    ensures falls { IfOk result (λ next. Falls state.old frames.now 15 state.new frames.now (cost_of_work next)) }
    ensures earns { IfOk result (λ next. Earns state.old state.new (credits frames.now + 22) (credits frames.now + credit_of_work next)) }
    ensures fits { IfOk result (λ next. FitAll state.new frames.now next) }
{
    let made = state.operate(site, op, &old, &value)?;
    match state.value(made) {
        Err(completion) => Ok(Work::Give(completion)),
        Ok(next) => {
            let completion = state.set(at, base.get(), name, next)?;
            Ok(Work::Give(completion))
        }
    }
}
