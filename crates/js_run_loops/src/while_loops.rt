//! `while` (ECMA-262, section 14.7.3).

ghost use Rattle.std.specs.Prelude.{◌<◌, ◌+◌, IfOk};
ghost use Rattle.term_table.specs.Fitting.{Fits};
ghost use Rattle.js_ast.specs.declared.statement.Stmt.TheVariants.{While};
ghost use Rattle.js_meaning.specs.Loops.{round as rounding};
ghost use Rattle.js_meaning.specs.Meaning.{stmt};
ghost use Rattle.js_state.specs.Fitting.{InCompletion};
ghost use Rattle.js_state.specs.Seen.{place_of};
ghost use Rattle.js_state.specs.Spending.{credit_of_given};
ghost use Rattle.js_frames.specs.Credit.{Earns, credits, credit_of_work};
ghost use Rattle.js_frames.specs.Fitting.{FitFrames, FitAll};
ghost use Rattle.js_frames.specs.Machine.{Execs, Continues, Resumes, Leads, doing, while_on};
ghost use Rattle.js_frames.specs.Weight.{Falls, cost_of_work, cost_of_given};
ghost use Rattle.js_frames.specs.declared.frames.Frame.TheVariants.{WhileBody};
ghost use Rattle.js_frames.specs.declared.parts.Part.TheVariants.{WhileTest};

use crate::bodies::loop_continues;
use js_ast::{Expr, Stmt};
use js_frames::{Frame, Frames, Part, WhileLoop, Work};
use js_state::{Completion, Scope, State, cut};
use js_units::NoMemory;
use path_core::Budget;
use sqlite_items::Boxed;
use term_table::Shadow;

/// `while` is begun.
pub fn begin_while<'a>(
    state: &mut State<'a>,
    frames: &mut Frames<'a>,
    site: u32,
    test: &'a Boxed<Expr>,
    body: &'a Boxed<Stmt>,
    scope: Scope,
) -> Result<Work<'a>, NoMemory>
    requires { FitFrames state.old frames.old }
    ensures leads { IfOk result (λ next. Execs state.old frames.old (While site test.entry.now body.entry.now) scope state.new frames.new next) }
    ensures falls { IfOk result (λ next. Falls state.old frames.old 1 state.new frames.new (cost_of_work next)) }
    ensures earns { IfOk result (λ next. Earns state.old state.new (credits frames.old) (credits frames.new + credit_of_work next)) }
    ensures fits { IfOk result (λ next. FitAll state.new frames.new next) }
{
    if !state.count() {
        return Ok(Work::Give(cut(site, Budget::Nodes)));
    }
    let l = WhileLoop {
        site,
        test,
        body,
        scope,
    };
    frames.push(Frame::Awaits(Part::WhileTest(l)))?;
    Ok(Work::Eval(test, scope))
}

/// A round takes its turn, and its body is begun.
fn round<'a>(
    state: &mut State<'a>,
    frames: &mut Frames<'a>,
    l: WhileLoop<'a>,
) -> Result<Work<'a>, NoMemory>
    requires { FitFrames state.old frames.old }
    ensures leads { IfOk result (λ next. Leads state.old frames.old (λ view st w. rounding l.entry.site (doing w (stmt l.entry.body.now) l.entry.scope) (while_on w w.loops l.entry) (place_of view st)) state.new frames.new next) }
    ensures falls { IfOk result (λ next. Falls state.old frames.old 1 state.new frames.new (cost_of_work next)) }
    ensures earns { IfOk result (λ next. Earns state.old state.new (credits frames.old) (credits frames.new + credit_of_work next)) }
    ensures fits { IfOk result (λ next. FitAll state.new frames.new next) }
{
    if !state.take_turn() {
        return Ok(Work::Give(cut(l.site, Budget::Turns)));
    }
    frames.push(Frame::WhileBody(l))?;
    Ok(Work::Exec(l.body.get(), l.scope))
}

/// The test of a `while` has its value.
pub fn while_test<'a>(
    state: &mut State<'a>,
    frames: &mut Frames<'a>,
    l: WhileLoop<'a>,
    value: Shadow,
) -> Result<Work<'a>, NoMemory>
    requires frames { FitFrames state.old frames.old }
    requires value { Fits state.old.table value }
    ensures leads { IfOk result (λ next. Continues state.old frames.old (WhileTest l.entry) value state.new frames.new next) }
    ensures falls { IfOk result (λ next. Falls state.old frames.old 15 state.new frames.new (cost_of_work next)) }
    ensures earns { IfOk result (λ next. Earns state.old state.new (credits frames.old + 7) (credits frames.new + credit_of_work next)) }
    ensures fits { IfOk result (λ next. FitAll state.new frames.new next) }
{
    let told = state.test(l.site, &value)?;
    drop(value);
    let holds = match told {
        Ok(holds) => holds,
        Err(completion) => return Ok(Work::Give(completion)),
    };
    if !holds {
        return Ok(Work::Give(Completion::Normal));
    }
    let work = round(state, frames, l)?;
    Ok(work)
}

/// The body of a `while` has ended.
pub fn while_body<'a>(
    state: &State<'a>,
    frames: &mut Frames<'a>,
    l: WhileLoop<'a>,
    completion: Completion,
) -> Result<Work<'a>, NoMemory>
    requires frames { FitFrames state.now frames.old }
    requires completion { InCompletion (Fits state.now.table) completion }
    ensures leads { IfOk result (λ next. Resumes state.now frames.old (WhileBody l.entry) completion state.now frames.new next) }
    ensures falls { IfOk result (λ next. Falls state.now frames.old (14 + cost_of_given completion) state.now frames.new (cost_of_work next)) }
    ensures earns { IfOk result (λ next. Earns state.now state.now (credits frames.old + credit_of_given completion) (credits frames.new + credit_of_work next)) }
    ensures fits { IfOk result (λ next. FitAll state.now frames.new next) }
{
    match loop_continues(completion) {
        Err(end) => Ok(Work::Give(end)),
        Ok(()) => {
            frames.push(Frame::Awaits(Part::WhileTest(l)))?;
            Ok(Work::Eval(l.test, l.scope))
        }
    }
}
