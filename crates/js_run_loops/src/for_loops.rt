//! `for`, behind its head (ECMA-262, section 14.7.4).

ghost use Rattle.std.specs.Prelude.{◌<◌, ◌+◌, suc, IfOk};
ghost use Rattle.term_table.specs.Fitting.{Fits};
ghost use Rattle.js_meaning.specs.Loops.{round as rounding};
ghost use Rattle.js_meaning.specs.Meaning.{stmt};
ghost use Rattle.js_state.specs.Fitting.{InCompletion};
ghost use Rattle.js_state.specs.Held.{scope_of};
ghost use Rattle.js_state.specs.Seen.{place_of};
ghost use Rattle.js_state.specs.Spending.{credit_of_given};
ghost use Rattle.js_frames.specs.Credit.{Earns, credits, credit_of_work};
ghost use Rattle.js_frames.specs.Fitting.{FitFrames, FitAll};
ghost use Rattle.js_frames.specs.Machine.{Continues, Resumes, Leads, doing, for_on as on_for, for_next as on_next};
ghost use Rattle.js_frames.specs.Weight.{Falls, cost_of_work, cost_of_given};
ghost use Rattle.js_frames.specs.declared.frames.Frame.TheVariants.{ForBody, ForDeclared};
ghost use Rattle.js_frames.specs.declared.parts.Part.TheVariants.{ForValue, ForTest, ForUpdate};

use crate::bodies::loop_continues;
use crate::copies::next_scope;
use js_frames::{ForLoop, Frame, Frames, Part, Work};
use js_state::{Completion, Scope, State, cut};
use js_units::NoMemory;
use path_core::Budget;
use term_table::Shadow;

/// A round takes its turn, and its body is begun.
fn round<'a>(
    state: &mut State<'a>,
    frames: &mut Frames<'a>,
    l: ForLoop<'a>,
    scope: Scope,
) -> Result<Work<'a>, NoMemory>
    requires { FitFrames state.old frames.old }
    ensures leads { IfOk result (λ next. Leads state.old frames.old (λ view st w. rounding l.entry.site (doing w (stmt l.entry.body.now) scope) (on_next w w.loops w.loops l.entry (scope_of scope)) (place_of view st)) state.new frames.new next) }
    ensures falls { IfOk result (λ next. Falls state.old frames.old 1 state.new frames.new (cost_of_work next)) }
    ensures earns { IfOk result (λ next. Earns state.old state.new (credits frames.old) (credits frames.new + credit_of_work next)) }
    ensures fits { IfOk result (λ next. FitAll state.new frames.new next) }
{
    if !state.take_turn() {
        return Ok(Work::Give(cut(l.site, Budget::Turns)));
    }
    frames.push(Frame::ForBody(l, scope))?;
    Ok(Work::Exec(l.body.get(), scope))
}

/// The test is begun; where there is none, the next round.
pub(crate) fn for_on<'a>(
    state: &mut State<'a>,
    frames: &mut Frames<'a>,
    l: ForLoop<'a>,
    scope: Scope,
) -> Result<Work<'a>, NoMemory>
    requires { FitFrames state.old frames.old }
    ensures leads { IfOk result (λ next. Leads state.old frames.old (λ view st w. on_for w (suc w.loops) l.entry (scope_of scope) (place_of view st)) state.new frames.new next) }
    ensures falls { IfOk result (λ next. Falls state.old frames.old 14 state.new frames.new (cost_of_work next)) }
    ensures earns { IfOk result (λ next. Earns state.old state.new (credits frames.old) (credits frames.new + credit_of_work next)) }
    ensures fits { IfOk result (λ next. FitAll state.new frames.new next) }
{
    match l.test {
        None => {
            let work = round(state, frames, l, scope)?;
            Ok(work)
        }
        Some(test) => {
            frames.push(Frame::Awaits(Part::ForTest(l, scope)))?;
            Ok(Work::Eval(test, scope))
        }
    }
}

/// Behind a round: fresh bindings, the update, and the next test.
fn for_next<'a>(
    state: &mut State<'a>,
    frames: &mut Frames<'a>,
    l: ForLoop<'a>,
    last: Scope,
) -> Result<Work<'a>, NoMemory>
    requires { FitFrames state.old frames.old }
    ensures leads { IfOk result (λ next. Leads state.old frames.old (λ view st w. on_next w (suc w.loops) (suc w.loops) l.entry (scope_of last) (place_of view st)) state.new frames.new next) }
    ensures falls { IfOk result (λ next. Falls state.old frames.old 14 state.new frames.new (cost_of_work next)) }
    ensures earns { IfOk result (λ next. Earns state.old state.new (credits frames.old) (credits frames.new + credit_of_work next)) }
    ensures fits { IfOk result (λ next. FitAll state.new frames.new next) }
{
    let next = next_scope(state, l.head, last, l.outer)?;
    let scope = match next {
        Ok(scope) => scope,
        Err(completion) => return Ok(Work::Give(completion)),
    };
    match l.update {
        None => {
            let work = for_on(state, frames, l, scope)?;
            Ok(work)
        }
        Some(update) => {
            frames.push(Frame::Awaits(Part::ForUpdate(l, scope)))?;
            Ok(Work::Eval(update, scope))
        }
    }
}

/// What stands first in the head of a `for` has its value.
pub fn for_value<'a>(
    state: &mut State<'a>,
    frames: &mut Frames<'a>,
    l: ForLoop<'a>,
    value: Shadow,
) -> Result<Work<'a>, NoMemory>
    requires frames { FitFrames state.old frames.old }
    requires value { Fits state.old.table value }
    ensures leads { IfOk result (λ next. Continues state.old frames.old (ForValue l.entry) value state.new frames.new next) }
    ensures falls { IfOk result (λ next. Falls state.old frames.old 15 state.new frames.new (cost_of_work next)) }
    ensures earns { IfOk result (λ next. Earns state.old state.new (credits frames.old + 7) (credits frames.new + credit_of_work next)) }
    ensures fits { IfOk result (λ next. FitAll state.new frames.new next) }
{
    drop(value);
    let work = for_on(state, frames, l, l.outer)?;
    Ok(work)
}

/// The test of a `for` has its value.
pub fn for_test<'a>(
    state: &mut State<'a>,
    frames: &mut Frames<'a>,
    l: ForLoop<'a>,
    scope: Scope,
    value: Shadow,
) -> Result<Work<'a>, NoMemory>
    requires frames { FitFrames state.old frames.old }
    requires value { Fits state.old.table value }
    ensures leads { IfOk result (λ next. Continues state.old frames.old (ForTest l.entry scope) value state.new frames.new next) }
    ensures falls { IfOk result (λ next. Falls state.old frames.old 15 state.new frames.new (cost_of_work next)) }
    ensures earns { IfOk result (λ next. Earns state.old state.new (credits frames.old + 7) (credits frames.new + credit_of_work next)) }
    ensures fits { IfOk result (λ next. FitAll state.new frames.new next) }
{
    let told = state.test(l.site, &value)?;
    drop(value);
    let holds = match told {
        Ok(holds) => holds,
        Err(completion) => return Ok(Work::Give(completion)),
    };
    if !holds {
        return Ok(Work::Give(Completion::Normal));
    }
    let work = round(state, frames, l, scope)?;
    Ok(work)
}

/// The update of a `for` has its value.
pub fn for_update<'a>(
    state: &mut State<'a>,
    frames: &mut Frames<'a>,
    l: ForLoop<'a>,
    scope: Scope,
    value: Shadow,
) -> Result<Work<'a>, NoMemory>
    requires frames { FitFrames state.old frames.old }
    requires value { Fits state.old.table value }
    ensures leads { IfOk result (λ next. Continues state.old frames.old (ForUpdate l.entry scope) value state.new frames.new next) }
    ensures falls { IfOk result (λ next. Falls state.old frames.old 15 state.new frames.new (cost_of_work next)) }
    ensures earns { IfOk result (λ next. Earns state.old state.new (credits frames.old + 7) (credits frames.new + credit_of_work next)) }
    ensures fits { IfOk result (λ next. FitAll state.new frames.new next) }
{
    drop(value);
    let work = for_on(state, frames, l, scope)?;
    Ok(work)
}

/// The body of a `for` has ended, in the scope of its round.
pub fn for_body<'a>(
    state: &mut State<'a>,
    frames: &mut Frames<'a>,
    l: ForLoop<'a>,
    scope: Scope,
    completion: Completion,
) -> Result<Work<'a>, NoMemory>
    requires frames { FitFrames state.old frames.old }
    requires completion { InCompletion (Fits state.old.table) completion }
    ensures leads { IfOk result (λ next. Resumes state.old frames.old (ForBody l.entry scope) completion state.new frames.new next) }
    ensures falls { IfOk result (λ next. Falls state.old frames.old (14 + cost_of_given completion) state.new frames.new (cost_of_work next)) }
    ensures earns { IfOk result (λ next. Earns state.old state.new (credits frames.old + credit_of_given completion) (credits frames.new + credit_of_work next)) }
    ensures fits { IfOk result (λ next. FitAll state.new frames.new next) }
{
    match loop_continues(completion) {
        Err(end) => Ok(Work::Give(end)),
        Ok(()) => {
            let work = for_next(state, frames, l, scope)?;
            Ok(work)
        }
    }
}

/// The head of a `for` has declared its names, in this scope.
pub fn for_declared<'a>(
    state: &mut State<'a>,
    frames: &mut Frames<'a>,
    l: ForLoop<'a>,
    scope: Scope,
    completion: Completion,
) -> Result<Work<'a>, NoMemory>
    requires frames { FitFrames state.old frames.old }
    requires completion { InCompletion (Fits state.old.table) completion }
    ensures leads { IfOk result (λ next. Resumes state.old frames.old (ForDeclared l.entry scope) completion state.new frames.new next) }
    ensures falls { IfOk result (λ next. Falls state.old frames.old (18 + cost_of_given completion) state.new frames.new (cost_of_work next)) }
    ensures earns { IfOk result (λ next. Earns state.old state.new (credits frames.old + credit_of_given completion) (credits frames.new + credit_of_work next)) }
    ensures fits { IfOk result (λ next. FitAll state.new frames.new next) }
{
    match completion {
        Completion::Normal => {
            let next = next_scope(state, l.head, scope, l.outer)?;
            match next {
                Err(end) => Ok(Work::Give(end)),
                Ok(first) => {
                    let work = for_on(state, frames, l, first)?;
                    Ok(work)
                }
            }
        }
        other => Ok(Work::Give(other)),
    }
}
