//! `do` (ECMA-262, section 14.7.2).

ghost use Rattle.std.specs.Prelude.{◌<◌, ◌+◌, suc, IfOk};
ghost use Rattle.term_table.specs.Fitting.{Fits};
ghost use Rattle.js_ast.specs.declared.statement.Stmt.TheVariants.{Do};
ghost use Rattle.js_state.specs.Fitting.{InCompletion};
ghost use Rattle.js_state.specs.Seen.{place_of};
ghost use Rattle.js_state.specs.Spending.{credit_of_given};
ghost use Rattle.js_frames.specs.Credit.{Earns, credits, credit_of_work};
ghost use Rattle.js_frames.specs.Fitting.{FitFrames, FitAll};
ghost use Rattle.js_frames.specs.Machine.{Execs, Continues, Resumes, Leads, do_on};
ghost use Rattle.js_frames.specs.Weight.{Falls, cost_of_work, cost_of_given};
ghost use Rattle.js_frames.specs.declared.frames.Frame.TheVariants.{DoBody};
ghost use Rattle.js_frames.specs.declared.parts.Part.TheVariants.{DoTest};

use crate::bodies::loop_continues;
use js_ast::{Expr, Stmt};
use js_frames::{DoLoop, Frame, Frames, Part, Work};
use js_state::{Completion, Scope, State, cut};
use js_units::NoMemory;
use path_core::Budget;
use sqlite_items::Boxed;
use term_table::Shadow;

/// A round takes its turn, and its body is begun.
fn round<'a>(
    state: &mut State<'a>,
    frames: &mut Frames<'a>,
    l: DoLoop<'a>,
) -> Result<Work<'a>, NoMemory>
    requires { FitFrames state.old frames.old }
    ensures leads { IfOk result (λ next. Leads state.old frames.old (λ view st w. do_on w (suc w.loops) l.entry (place_of view st)) state.new frames.new next) }
    ensures falls { IfOk result (λ next. Falls state.old frames.old 1 state.new frames.new (cost_of_work next)) }
    ensures earns { IfOk result (λ next. Earns state.old state.new (credits frames.old) (credits frames.new + credit_of_work next)) }
    ensures fits { IfOk result (λ next. FitAll state.new frames.new next) }
{
    if !state.take_turn() {
        return Ok(Work::Give(cut(l.site, Budget::Turns)));
    }
    frames.push(Frame::DoBody(l))?;
    Ok(Work::Exec(l.body.get(), l.scope))
}

/// `do` is begun, with the first round of its body.
pub fn begin_do<'a>(
    state: &mut State<'a>,
    frames: &mut Frames<'a>,
    site: u32,
    body: &'a Boxed<Stmt>,
    test_site: u32,
    test: &'a Boxed<Expr>,
    scope: Scope,
) -> Result<Work<'a>, NoMemory>
    requires { FitFrames state.old frames.old }
    ensures leads { IfOk result (λ next. Execs state.old frames.old (Do site body.entry.now test_site test.entry.now) scope state.new frames.new next) }
    ensures falls { IfOk result (λ next. Falls state.old frames.old 1 state.new frames.new (cost_of_work next)) }
    ensures earns { IfOk result (λ next. Earns state.old state.new (credits frames.old) (credits frames.new + credit_of_work next)) }
    ensures fits { IfOk result (λ next. FitAll state.new frames.new next) }
{
    if !state.count() {
        return Ok(Work::Give(cut(site, Budget::Nodes)));
    }
    let l = DoLoop {
        site,
        test_site,
        test,
        body,
        scope,
    };
    let work = round(state, frames, l)?;
    Ok(work)
}

/// The test of a `do` has its value.
pub fn do_test<'a>(
    state: &mut State<'a>,
    frames: &mut Frames<'a>,
    l: DoLoop<'a>,
    value: Shadow,
) -> Result<Work<'a>, NoMemory>
    requires frames { FitFrames state.old frames.old }
    requires value { Fits state.old.table value }
    ensures leads { IfOk result (λ next. Continues state.old frames.old (DoTest l.entry) value state.new frames.new next) }
    ensures falls { IfOk result (λ next. Falls state.old frames.old 15 state.new frames.new (cost_of_work next)) }
    ensures earns { IfOk result (λ next. Earns state.old state.new (credits frames.old + 7) (credits frames.new + credit_of_work next)) }
    ensures fits { IfOk result (λ next. FitAll state.new frames.new next) }
{
    let told = state.test(l.test_site, &value)?;
    drop(value);
    let holds = match told {
        Ok(holds) => holds,
        Err(completion) => return Ok(Work::Give(completion)),
    };
    if !holds {
        return Ok(Work::Give(Completion::Normal));
    }
    let work = round(state, frames, l)?;
    Ok(work)
}

/// The body of a `do` has ended.
pub fn do_body<'a>(
    state: &State<'a>,
    frames: &mut Frames<'a>,
    l: DoLoop<'a>,
    completion: Completion,
) -> Result<Work<'a>, NoMemory>
    requires frames { FitFrames state.now frames.old }
    requires completion { InCompletion (Fits state.now.table) completion }
    ensures leads { IfOk result (λ next. Resumes state.now frames.old (DoBody l.entry) completion state.now frames.new next) }
    ensures falls { IfOk result (λ next. Falls state.now frames.old (14 + cost_of_given completion) state.now frames.new (cost_of_work next)) }
    ensures earns { IfOk result (λ next. Earns state.now state.now (credits frames.old + credit_of_given completion) (credits frames.new + credit_of_work next)) }
    ensures fits { IfOk result (λ next. FitAll state.now frames.new next) }
{
    match loop_continues(completion) {
        Err(end) => Ok(Work::Give(end)),
        Ok(()) => {
            frames.push(Frame::Awaits(Part::DoTest(l)))?;
            Ok(Work::Eval(l.test, l.scope))
        }
    }
}
