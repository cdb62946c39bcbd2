//! A completion is taken up by what waits for it.

ghost use Rattle.std.specs.Prelude.{◌≡◌, ◌≤◌, ◌<◌, ◌+◌, [], IfOk, true, false};
ghost use Rattle.term_table.specs.Fitting.{Fits};
ghost use Rattle.js_state.specs.Fitting.{InCompletion};
ghost use Rattle.js_state.specs.Spending.{credit_of_given};
ghost use Rattle.js_frames.specs.Credit.{Earns, credits, credit_of_frame, credit_of_part, credit_of_work};
ghost use Rattle.js_frames.specs.Fitting.{FitFrames, FitAll, InFrame, InPart};
ghost use Rattle.js_frames.specs.Machine.{Leads, Resumes, Goes, thread};
ghost use Rattle.js_frames.specs.Weight.{Falls, cost_of_frame, cost_of_part, cost_of_frames, cost_of_given, cost_of_work};
ghost use Rattle.js_frames.specs.declared.frames.Frame.TheVariants.{Awaits, Chain, TargetBase, Called};
ghost use Rattle.js_frames.specs.declared.frames.Work.TheVariants.{Give};
ghost use Rattle.js_machine.specs.Handing.{acts as acting, part_acts as part_acting, next_of, Empties, StepFalls};

use crate::handing::{acts, hand_on};
use crate::parts::after;
use js_ast::{Access, Expr, Suffix};
use js_frames::{Frame, Frames, Goal, Part, Work};
use js_run_blocks::rest;
use js_run_calls::returned;
use js_run_expressions::chain;
use js_run_loops::{do_body, for_body, for_declared, of_body, while_body};
use js_run_statements::{catching, finishing, kept};
use js_run_targets::target;
use js_state::{Completion, Scope, State};
use js_units::NoMemory;
use sqlite_items::Boxed;
use std::alloc::Global;

/// What a step comes to: the run has ended, or this is next.
pub(crate) enum Step<'a> {
    Ended(Completion),
    Next(Work<'a>),
}

/// What waits for a value has a completion.
fn on_part<'a>(
    alloc: Global,
    state: &mut State<'a>,
    frames: &mut Frames<'a>,
    part: Part<'a>,
    completion: Completion,
) -> Result<Work<'a>, NoMemory>
    requires frames { FitFrames state.old frames.old }
    requires part { InPart (Fits state.old.table) part }
    requires completion { InCompletion (Fits state.old.table) completion }
    ensures leads { IfOk result (λ next. Resumes state.old frames.old (Awaits part.entry) completion state.new frames.new next) }
    ensures falls { part_acting part.entry completion ≡ true → IfOk result (λ next. Falls state.old frames.old (cost_of_part part.entry + cost_of_given completion) state.new frames.new (cost_of_work next)) }
    ensures earns { IfOk result (λ next. Earns state.old state.new (credits frames.old + (credit_of_part part.entry + credit_of_given completion)) (credits frames.new + credit_of_work next)) }
    ensures fits { IfOk result (λ next. FitAll state.new frames.new next) }
{
    match state.value(completion) {
        Ok(value) => {
            let work = after(alloc, state, frames, part, value)?;
            Ok(work)
        }
        Err(other) => {
            drop(part);
            Ok(Work::Give(other))
        }
    }
}

/// What a chain waits for has a completion.
fn on_chain<'a>(
    alloc: Global,
    state: &mut State<'a>,
    frames: &mut Frames<'a>,
    suffixes: &'a [Suffix<Boxed<Expr>>],
    scope: Scope,
    completion: Completion,
) -> Result<Work<'a>, NoMemory>
    requires frames { FitFrames state.old frames.old }
    requires completion { InCompletion (Fits state.old.table) completion }
    ensures leads { IfOk result (λ next. Resumes state.old frames.old (Chain suffixes.entry scope) completion state.new frames.new next) }
    ensures falls { acting (Chain suffixes.entry scope) completion ≡ true → IfOk result (λ next. Falls state.old frames.old (cost_of_given completion) state.new frames.new (cost_of_work next)) }
    ensures earns { IfOk result (λ next. Earns state.old state.new (credits frames.old + credit_of_given completion) (credits frames.new + credit_of_work next)) }
    ensures fits { IfOk result (λ next. FitAll state.new frames.new next) }
{
    match state.reference(completion) {
        Ok(reference) => {
            let work = chain(alloc, state, frames, suffixes, scope, reference)?;
            Ok(work)
        }
        Err(other) => Ok(Work::Give(other)),
    }
}

/// The base of a target has a completion.
fn on_target<'a>(
    alloc: Global,
    state: &mut State<'a>,
    frames: &mut Frames<'a>,
    access: &'a Access<Boxed<Expr>>,
    goal: Goal<'a>,
    scope: Scope,
    completion: Completion,
) -> Result<Work<'a>, NoMemory>
    requires frames { FitFrames state.old frames.old }
    requires completion { InCompletion (Fits state.old.table) completion }
    ensures leads { IfOk result (λ next. Resumes state.old frames.old (TargetBase access.entry goal.entry scope) completion state.new frames.new next) }
    ensures falls { IfOk result (λ next. Falls state.old frames.old (14 + cost_of_given completion) state.new frames.new (cost_of_work next)) }
    ensures earns { IfOk result (λ next. Earns state.old state.new (credits frames.old + (8 + credit_of_given completion)) (credits frames.new + credit_of_work next)) }
    ensures fits { IfOk result (λ next. FitAll state.new frames.new next) }
{
    match state.reference(completion) {
        Ok(reference) => {
            let work = target(alloc, state, frames, access, goal, scope, reference)?;
            Ok(work)
        }
        Err(other) => Ok(Work::Give(other)),
    }
}

/// A frame that was taken off the stack has what it waits for.
fn resume<'a>(
    alloc: Global,
    state: &mut State<'a>,
    frames: &mut Frames<'a>,
    frame: Frame<'a>,
    completion: Completion,
) -> Result<Work<'a>, NoMemory>
    requires frames { FitFrames state.old frames.old }
    requires frame { InFrame (Fits state.old.table) frame }
    requires completion { InCompletion (Fits state.old.table) completion }
    ensures leads { IfOk result (λ next. Resumes state.old frames.old frame.entry completion state.new frames.new next) }
    ensures falls { acting frame.entry completion ≡ true → IfOk result (λ next. Falls state.old frames.old (cost_of_frame frame.entry + cost_of_given completion) state.new frames.new (cost_of_work next)) }
    ensures earns { IfOk result (λ next. Earns state.old state.new (credits frames.old + (credit_of_frame frame.entry + credit_of_given completion)) (credits frames.new + credit_of_work next)) }
    ensures fits { IfOk result (λ next. FitAll state.new frames.new next) }
{
    match frame {
        Frame::Awaits(part) => {
            let work = on_part(alloc, state, frames, part, completion)?;
            Ok(work)
        }
        Frame::Chain { suffixes, scope } => {
            let work = on_chain(alloc, state, frames, suffixes, scope, completion)?;
            Ok(work)
        }
        Frame::TargetBase {
            access,
            goal,
            scope,
        } => {
            let work = on_target(alloc, state, frames, access, goal, scope, completion)?;
            Ok(work)
        }
        Frame::Called => Ok(Work::Give(returned(state, completion))),
        Frame::WhileBody(l) => {
            let work = while_body(state, frames, l, completion)?;
            Ok(work)
        }
        Frame::DoBody(l) => {
            let work = do_body(state, frames, l, completion)?;
            Ok(work)
        }
        Frame::ForBody(l, scope) => {
            let work = for_body(state, frames, l, scope, completion)?;
            Ok(work)
        }
        Frame::OfBody(l, next) => {
            let work = of_body(state, frames, l, next, completion)?;
            Ok(work)
        }
        Frame::Rest { body, scope } => {
            let work = rest(state, frames, body, scope, completion)?;
            Ok(work)
        }
        Frame::ForDeclared(l, scope) => {
            let work = for_declared(state, frames, l, scope, completion)?;
            Ok(work)
        }
        Frame::Catching { catch, scope } => {
            let work = catching(state, frames, catch, scope, completion)?;
            Ok(work)
        }
        Frame::Finishing { finally, scope } => {
            let work = finishing(state, frames, finally, scope, completion)?;
            Ok(work)
        }
        Frame::Kept(earlier) => Ok(kept(state, frames, earlier, completion)),
    }
}

/// Hands a completion to what waits for it: past frames that only hand on, to one that makes a step.
pub(crate) fn give<'a>(
    alloc: Global,
    state: &mut State<'a>,
    frames: &mut Frames<'a>,
    completion: Completion,
) -> Result<Step<'a>, NoMemory>
    requires { FitAll state.old frames.old (Give completion) }
    ensures leads { IfOk result (λ step. Leads state.old frames.old (λ view st. thread view (Give completion) st) state.new frames.new (next_of step)) }
    ensures ended { IfOk result (λ step. Empties step frames.new) }
    ensures falls { IfOk result (λ step. StepFalls step state.old frames.old (cost_of_given completion) state.new frames.new) }
    ensures earns { IfOk result (λ step. Earns state.old state.new (credits frames.old + credit_of_given completion) (credits frames.new + credit_of_work (next_of step))) }
    ensures fits { IfOk result (λ step. FitAll state.new frames.new (next_of step)) }
{
    let mut completion = completion;
    'up: loop {
        match frames.pop() {
            None => return Ok(Step::Ended(completion)),
            Some(frame) => {
                if acts(&frame, &completion) {
                    let work = resume(alloc, state, frames, frame, completion)?;
                    return Ok(Step::Next(work));
                }
                completion = hand_on(state, frame, completion);
            }
        }
    }
}
