//! Targets: where `++`, `--` and assignments come to a name or a property (ECMA-262, sections 13.4 and 13.15).

ghost use Rattle.std.specs.Prelude.{◌≡◌, ◌≤◌, ◌<◌, ◌+◌, ◌*◌, ℕ, Bool, List, [], Some, None, IfOk, true, false};
ghost use Rattle.term_table.specs.Fitting.{Fits};
ghost use Rattle.term_table.specs.Views.{View, at as seen_at};
ghost use Rattle.js_ast.specs.declared.expression.Expr.TheVariants.{Step as AStep, Assign as AnAssign};
ghost use Rattle.js_ast.specs.declared.parts.Access.TheVariants.{Property, Index};
ghost use Rattle.js_meaning.specs.Meaning.{expr};
ghost use Rattle.js_meaning.specs.Running.{on_value, done, given, callee, intrinsic, leaves, count as counting};
ghost use Rattle.js_meaning.specs.Values.{Value};
ghost use Rattle.path_core.specs.declared.path.Why.TheVariants as why;
ghost use Rattle.js_frames.specs.declared.parts.Goal.{Goal as SpecGoal};
ghost use Rattle.js_meaning.specs.Parts.{step_value, aim as aiming, name_aim, property_aim, step as stepping, aim_access};
ghost use Rattle.js_state.specs.Fitting.{InReference, InCompletion, IsStop};
ghost use Rattle.js_state.specs.Playing.{Level, Quiet};
ghost use Rattle.js_state.specs.Spending.{SpendsAtMost, credit_of_given};
ghost use Rattle.term_table.specs.Growing.{Grown};
ghost use Rattle.js_state.specs.Held.{scope_of};
ghost use Rattle.js_state.specs.Seen.{place_of, completion_at, reference_at};
ghost use Rattle.js_frames.specs.declared.frames.Frame.{Frame as SpecFrame};
ghost use Rattle.js_frames.specs.declared.frames.Work.TheVariants.{Give};
ghost use Rattle.js_frames.specs.declared.parts.Goal.TheVariants.{Step as StepGoal, Assign as AssignGoal};
ghost use Rattle.js_frames.specs.declared.parts.Part.TheVariants.{TargetKey, BuiltinTarget, NameValue, PropertyValue, CompoundName, CompoundProperty};
ghost use Rattle.js_frames.specs.Credit.{Earns, credits, credit_of_work};
ghost use Rattle.js_frames.specs.Fitting.{FitFrames, FitAll};
ghost use Rattle.js_frames.specs.Machine.{Evals, Continues, Gives, Leads, reached, calling};
ghost use Rattle.js_frames.specs.Weight.{Falls, cost_of_work, cost_of_given};

use crate::assigning::{compound_name, compound_property};
use crate::stepping::{step_name, step_property};
use js_ast::{Access, BinaryOp, Expr, Identifier, StepOp, Target};
use js_frames::{Frame, Frames, Goal, Part, Work};
use js_state::{Completion, Reference, Scope, State, cut};
use js_units::{NoMemory, Units};
use path_core::{Budget, Why};
use sqlite_items::Boxed;
use std::alloc::Global;
use term_table::Shadow;

/// A name that is a target was counted.
fn at_name<'a>(
    state: &mut State<'a>,
    frames: &mut Frames<'a>,
    goal: Goal<'a>,
    name: &'a Identifier,
    scope: Scope,
) -> Result<Work<'a>, NoMemory>
    requires { FitFrames state.old frames.old }
    ensures leads { IfOk result (λ next. Leads state.old frames.old (λ view st w. reached w goal.entry scope (name_aim name.entry.now.site name.entry.now.name) (place_of view st)) state.new frames.new next) }
    ensures falls { IfOk result (λ next. Falls state.old frames.old 16 state.new frames.new (cost_of_work next)) }
    ensures earns { IfOk result (λ next. Earns state.old state.new (credits frames.old + 16) (credits frames.new + credit_of_work next)) }
    ensures fits { IfOk result (λ next. FitAll state.new frames.new next) }
{
    match goal {
        Goal::Step {
            site,
            op,
            is_prefix,
        } => {
            let completion = step_name(state, site, op, is_prefix, name, scope)?;
            Ok(Work::Give(completion))
        }
        Goal::Assign { site, op, value } => match op {
            None => {
                frames.push(Frame::Awaits(Part::NameValue {
                    site: name.site,
                    name: &name.name,
                    scope,
                }))?;
                Ok(Work::Eval(value, scope))
            }
            Some(op) => {
                let work = compound_name(state, frames, site, op, value, name, scope)?;
                Ok(work)
            }
        },
    }
}

/// A property that is a target was counted.
fn at_property<'a>(
    alloc: Global,
    state: &mut State<'a>,
    frames: &mut Frames<'a>,
    goal: Goal<'a>,
    at: u32,
    base: Shadow,
    name: &'a Units,
    scope: Scope,
) -> Result<Work<'a>, NoMemory>
    requires frames { FitFrames state.old frames.old }
    requires base { Fits state.old.table base }
    ensures leads { IfOk result (λ next. Leads state.old frames.old (λ view st w. reached w goal.entry scope (property_aim at (seen_at view base) name.entry.now) (place_of view st)) state.new frames.new next) }
    ensures falls { IfOk result (λ next. Falls state.old frames.old 16 state.new frames.new (cost_of_work next)) }
    ensures earns { IfOk result (λ next. Earns state.old state.new (credits frames.old + 16) (credits frames.new + credit_of_work next)) }
    ensures fits { IfOk result (λ next. FitAll state.new frames.new next) }
{
    match goal {
        Goal::Step {
            site,
            op,
            is_prefix,
        } => {
            let completion = step_property(state, site, op, is_prefix, at, base, name, scope)?;
            Ok(Work::Give(completion))
        }
        Goal::Assign { site, op, value } => match op {
            None => {
                frames.push(Frame::Awaits(Part::PropertyValue {
                    site: at,
                    base,
                    name,
                }))?;
                Ok(Work::Eval(value, scope))
            }
            Some(op) => {
                let work = compound_property(
                    alloc, state, frames, site, op, value, at, base, name, scope,
                )?;
                Ok(work)
            }
        },
    }
}

/// A target is begun.
fn aim<'a>(
    state: &mut State<'a>,
    frames: &mut Frames<'a>,
    goal: Goal<'a>,
    target: &'a Target<Boxed<Expr>>,
    scope: Scope,
) -> Result<Work<'a>, NoMemory>
    requires { FitFrames state.old frames.old }
    ensures leads { IfOk result (λ next. Leads state.old frames.old (λ view st w. aiming expr target.entry.now (calling w) w.loops (scope_of scope) (reached w goal.entry scope) (place_of view st)) state.new frames.new next) }
    ensures falls { IfOk result (λ next. Falls state.old frames.old 16 state.new frames.new (cost_of_work next)) }
    ensures earns { IfOk result (λ next. Earns state.old state.new (credits frames.old + 8) (credits frames.new + credit_of_work next)) }
    ensures fits { IfOk result (λ next. FitAll state.new frames.new next) }
{
    match target {
        Target::Name(name) => {
            if !state.count() {
                return Ok(Work::Give(cut(name.site, Budget::Nodes)));
            }
            let work = at_name(state, frames, goal, name, scope)?;
            Ok(work)
        }
        Target::Access { base, access } => {
            frames.push(Frame::TargetBase {
                access,
                goal,
                scope,
            })?;
            Ok(Work::Eval(base, scope))
        }
    }
}

/// `++` or `--` is begun.
pub fn step<'a>(
    state: &mut State<'a>,
    frames: &mut Frames<'a>,
    start: u32,
    site: u32,
    op: StepOp,
    is_prefix: bool,
    target: &'a Target<Boxed<Expr>>,
    scope: Scope,
) -> Result<Work<'a>, NoMemory>
    requires { FitFrames state.old frames.old }
    ensures leads { IfOk result (λ next. Evals state.old frames.old (AStep start site op is_prefix target.entry.now) scope state.new frames.new next) }
    ensures falls { IfOk result (λ next. Falls state.old frames.old 1 state.new frames.new (cost_of_work next)) }
    ensures earns { IfOk result (λ next. Earns state.old state.new (credits frames.old) (credits frames.new + credit_of_work next)) }
    ensures fits { IfOk result (λ next. FitAll state.new frames.new next) }
{
    if !state.count() {
        return Ok(Work::Give(cut(start, Budget::Nodes)));
    }
    let goal = Goal::Step {
        site,
        op,
        is_prefix,
    };
    let work = aim(state, frames, goal, target, scope)?;
    Ok(work)
}

/// An assignment is begun.
pub fn assign<'a>(
    state: &mut State<'a>,
    frames: &mut Frames<'a>,
    start: u32,
    site: u32,
    op: Option<BinaryOp>,
    target: &'a Target<Boxed<Expr>>,
    value: &'a Boxed<Expr>,
    scope: Scope,
) -> Result<Work<'a>, NoMemory>
    requires { FitFrames state.old frames.old }
    ensures leads { IfOk result (λ next. Evals state.old frames.old (AnAssign start site op target.entry.now value.entry.now) scope state.new frames.new next) }
    ensures falls { IfOk result (λ next. Falls state.old frames.old 1 state.new frames.new (cost_of_work next)) }
    ensures earns { IfOk result (λ next. Earns state.old state.new (credits frames.old) (credits frames.new + credit_of_work next)) }
    ensures fits { IfOk result (λ next. FitAll state.new frames.new next) }
{
    if !state.count() {
        return Ok(Work::Give(cut(start, Budget::Nodes)));
    }
    let goal = Goal::Assign { site, op, value };
    let work = aim(state, frames, goal, target, scope)?;
    Ok(work)
}

/// A property of a value is counted as a target.
fn value_property<'a>(
    alloc: Global,
    state: &mut State<'a>,
    frames: &mut Frames<'a>,
    goal: Goal<'a>,
    site: u32,
    name: &'a Units,
    scope: Scope,
    base: Shadow,
) -> Result<Work<'a>, NoMemory>
    requires frames { FitFrames state.old frames.old }
    requires base { Fits state.old.table base }
    ensures leads { (this : Value) → IfOk result (λ next. Leads state.old frames.old (λ view st w. aim_access expr (Property site name.entry.now) (calling w) w.loops (scope_of scope) (reached w goal.entry scope) (callee (seen_at view base) this) (place_of view st)) state.new frames.new next) }
    ensures falls { IfOk result (λ next. Falls state.old frames.old 17 state.new frames.new (cost_of_work next)) }
    ensures earns { IfOk result (λ next. Earns state.old state.new (credits frames.old + 15) (credits frames.new + credit_of_work next)) }
    ensures fits { IfOk result (λ next. FitAll state.new frames.new next) }
{
    if !state.count() {
        drop(base);
        return Ok(Work::Give(cut(site, Budget::Nodes)));
    }
    let work = at_property(alloc, state, frames, goal, site, base, name, scope)?;
    Ok(work)
}

/// A property of a built-in name, which is no target, is counted before it leaves the profile.
fn builtin_property(state: &mut State, site: u32) -> Completion
    ensures gives { Gives (λ view. counting site (place_of view state.old) (λ st. leaves site why.Builtin st)) state.new result }
    ensures quiet { Quiet state.old state.new }
    ensures falls { Falls state.old [] 1 state.new [] (cost_of_given result) }
    ensures earns { Earns state.old state.new 0 (credit_of_given result) }
    ensures stops { IsStop result }
{
    if !state.count() {
        return cut(site, Budget::Nodes);
    }
    state.left(site, Why::Builtin)
}

/// A static key of a target, behind what its base has come to.
fn property_target<'a>(
    alloc: Global,
    state: &mut State<'a>,
    frames: &mut Frames<'a>,
    goal: Goal<'a>,
    site: u32,
    name: &'a Units,
    scope: Scope,
    reference: Reference,
) -> Result<Work<'a>, NoMemory>
    requires frames { FitFrames state.old frames.old }
    requires reference { InReference (Fits state.old.table) reference }
    ensures leads { IfOk result (λ next. Leads state.old frames.old (λ view st w. aim_access expr (Property site name.entry.now) (calling w) w.loops (scope_of scope) (reached w goal.entry scope) (reference_at view reference) (place_of view st)) state.new frames.new next) }
    ensures falls { IfOk result (λ next. Falls state.old frames.old 17 state.new frames.new (cost_of_work next)) }
    ensures earns { IfOk result (λ next. Earns state.old state.new (credits frames.old + 15) (credits frames.new + credit_of_work next)) }
    ensures fits { IfOk result (λ next. FitAll state.new frames.new next) }
{
    match reference {
        Reference::Callee { value, this: _ } => {
            let work = value_property(alloc, state, frames, goal, site, name, scope, value)?;
            Ok(work)
        }
        Reference::Intrinsic { site: _, name: _ } => Ok(Work::Give(builtin_property(state, site))),
        Reference::Static { site: at, key: _ } => Ok(Work::Give(state.left(at, Why::Builtin))),
        Reference::Method {
            site: at,
            base,
            method: _,
        } => {
            drop(base);
            Ok(Work::Give(state.left(at, Why::Builtin)))
        }
    }
}

/// A key in brackets behind a value is counted as a target, and begun.
fn value_bracket<'a>(
    state: &mut State<'a>,
    frames: &mut Frames<'a>,
    goal: Goal<'a>,
    site: u32,
    is_static: bool,
    key: &'a Boxed<Expr>,
    scope: Scope,
    base: Shadow,
) -> Result<Work<'a>, NoMemory>
    requires frames { FitFrames state.old frames.old }
    requires base { Fits state.old.table base }
    ensures leads { (this : Value) → IfOk result (λ next. Leads state.old frames.old (λ view st w. aim_access expr (Index site is_static key.entry.now) (calling w) w.loops (scope_of scope) (reached w goal.entry scope) (callee (seen_at view base) this) (place_of view st)) state.new frames.new next) }
    ensures falls { IfOk result (λ next. Falls state.old frames.old 17 state.new frames.new (cost_of_work next)) }
    ensures earns { IfOk result (λ next. Earns state.old state.new (credits frames.old + 15) (credits frames.new + credit_of_work next)) }
    ensures fits { IfOk result (λ next. FitAll state.new frames.new next) }
{
    if !state.count() {
        drop(base);
        return Ok(Work::Give(cut(site, Budget::Nodes)));
    }
    frames.push(Frame::Awaits(Part::TargetKey {
        site,
        is_static,
        base,
        goal,
        scope,
    }))?;
    Ok(Work::Eval(key, scope))
}

/// The same behind a built-in name, which leaves the profile once the key has its value.
fn builtin_bracket<'a>(
    state: &mut State<'a>,
    frames: &mut Frames<'a>,
    site: u32,
    key: &'a Boxed<Expr>,
    scope: Scope,
) -> Result<Work<'a>, NoMemory>
    requires frames { FitFrames state.old frames.old }
    ensures leads { (goal : SpecGoal) (is_static : Bool) (at : ℕ) (name : List ℕ) → IfOk result (λ next. Leads state.old frames.old (λ view st w. aim_access expr (Index site is_static key.entry.now) (calling w) w.loops (scope_of scope) (reached w goal scope) (intrinsic at name) (place_of view st)) state.new frames.new next) }
    ensures falls { IfOk result (λ next. Falls state.old frames.old 17 state.new frames.new (cost_of_work next)) }
    ensures earns { IfOk result (λ next. Earns state.old state.new (credits frames.old + 15) (credits frames.new + credit_of_work next)) }
    ensures fits { IfOk result (λ next. FitAll state.new frames.new next) }
{
    if !state.count() {
        return Ok(Work::Give(cut(site, Budget::Nodes)));
    }
    frames.push(Frame::Awaits(Part::BuiltinTarget { site }))?;
    Ok(Work::Eval(key, scope))
}

/// A key in brackets of a target, behind what its base has come to.
fn bracket_target<'a>(
    state: &mut State<'a>,
    frames: &mut Frames<'a>,
    goal: Goal<'a>,
    site: u32,
    is_static: bool,
    key: &'a Boxed<Expr>,
    scope: Scope,
    reference: Reference,
) -> Result<Work<'a>, NoMemory>
    requires frames { FitFrames state.old frames.old }
    requires reference { InReference (Fits state.old.table) reference }
    ensures leads { IfOk result (λ next. Leads state.old frames.old (λ view st w. aim_access expr (Index site is_static key.entry.now) (calling w) w.loops (scope_of scope) (reached w goal.entry scope) (reference_at view reference) (place_of view st)) state.new frames.new next) }
    ensures falls { IfOk result (λ next. Falls state.old frames.old 17 state.new frames.new (cost_of_work next)) }
    ensures earns { IfOk result (λ next. Earns state.old state.new (credits frames.old + 15) (credits frames.new + credit_of_work next)) }
    ensures fits { IfOk result (λ next. FitAll state.new frames.new next) }
{
    match reference {
        Reference::Callee { value, this: _ } => {
            let work = value_bracket(state, frames, goal, site, is_static, key, scope, value)?;
            Ok(work)
        }
        Reference::Intrinsic { site: _, name: _ } => {
            let work = builtin_bracket(state, frames, site, key, scope)?;
            Ok(work)
        }
        Reference::Static { site: at, key: _ } => Ok(Work::Give(state.left(at, Why::Builtin))),
        Reference::Method {
            site: at,
            base,
            method: _,
        } => {
            drop(base);
            Ok(Work::Give(state.left(at, Why::Builtin)))
        }
    }
}

/// The base of a target has come to a reference.
pub fn target<'a>(
    alloc: Global,
    state: &mut State<'a>,
    frames: &mut Frames<'a>,
    access: &'a Access<Boxed<Expr>>,
    goal: Goal<'a>,
    scope: Scope,
    reference: Reference,
) -> Result<Work<'a>, NoMemory>
    requires frames { FitFrames state.old frames.old }
    requires reference { InReference (Fits state.old.table) reference }
    ensures leads { IfOk result (λ next. Leads state.old frames.old (λ view st w. aim_access expr access.entry.now (calling w) w.loops (scope_of scope) (reached w goal.entry scope) (reference_at view reference) (place_of view st)) state.new frames.new next) }
    ensures falls { IfOk result (λ next. Falls state.old frames.old 17 state.new frames.new (cost_of_work next)) }
    ensures earns { IfOk result (λ next. Earns state.old state.new (credits frames.old + 15) (credits frames.new + credit_of_work next)) }
    ensures fits { IfOk result (λ next. FitAll state.new frames.new next) }
{
    match access {
        Access::Property { site, name } => {
            let work = property_target(alloc, state, frames, goal, *site, name, scope, reference)?;
            Ok(work)
        }
        Access::Index {
            site,
            is_static,
            key,
        } => {
            let work = bracket_target(
                state, frames, goal, *site, *is_static, key, scope, reference,
            )?;
            Ok(work)
        }
    }
}

/// The key of a target in brackets has its value: so far it leaves the profile.
pub fn target_key<'a>(
    state: &State<'a>,
    site: u32,
    is_static: bool,
    base: Shadow,
    goal: Goal<'a>,
    scope: Scope,
    key: Shadow,
) -> Completion
    requires base { Fits state.now.table base }
    requires key { Fits state.now.table key }
    ensures gives { (fs : List SpecFrame) → Continues state.now fs (TargetKey site is_static base goal.entry scope) key state.now fs (Give result) }
    ensures stops { IsStop result }
{
    match goal {
        Goal::Step { .. } => state.bracket_value(site, is_static, &base, &key),
        Goal::Assign { op, .. } => match op {
            None => state.left(site, Why::Key),
            Some(_) => state.bracket_value(site, is_static, &base, &key),
        },
    }
}
