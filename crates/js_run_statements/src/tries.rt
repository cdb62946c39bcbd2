//! `try` (ECMA-262, section 14.15).

ghost use Rattle.std.specs.Prelude.{◌≡◌, ◌≤◌, ◌<◌, ◌+◌, ◌*◌, IfOk, true, false};
ghost use Rattle.term_table.specs.Fitting.{Fits};
ghost use Rattle.term_table.specs.Views.{View, at as seen_at};
ghost use Rattle.js_ast.specs.declared.statement.Stmt.TheVariants.{Try};
ghost use Rattle.js_meaning.specs.Blocks.{block};
ghost use Rattle.js_meaning.specs.Loops.{open_catch};
ghost use Rattle.js_meaning.specs.Meaning.{stmts};
ghost use Rattle.js_state.specs.Fitting.{InCompletion};
ghost use Rattle.js_state.specs.Held.{scope_of};
ghost use Rattle.js_state.specs.Seen.{place_of};
ghost use Rattle.js_state.specs.Spending.{credit_of_given};
ghost use Rattle.js_frames.specs.Credit.{Earns, credits, credit_of_work};
ghost use Rattle.js_frames.specs.Fitting.{FitFrames, FitAll};
ghost use Rattle.js_frames.specs.Machine.{Execs, Leads, Resumes, calling};
ghost use Rattle.js_frames.specs.Weight.{Falls, cost_of_work, cost_of_given};
ghost use Rattle.js_frames.specs.declared.frames.Frame.TheVariants as frame;

use js_ast::{Catch, Stmt};
use js_frames::{Frame, Frames, Work};
use js_state::{Completion, Scope, State, cut};
use js_units::NoMemory;
use path_core::Budget;
use sqlite_items::Items;
use term_table::Shadow;

/// A `try` is begun: its `finally` and its `catch` wait, and its block is entered.
pub(crate) fn begin_try<'a>(
    state: &mut State<'a>,
    frames: &mut Frames<'a>,
    site: u32,
    body: &'a [Stmt],
    catch: &'a Option<Catch<Items<Stmt>>>,
    finally: &'a Option<Items<Stmt>>,
    scope: Scope,
) -> Result<Work<'a>, NoMemory>
    requires { FitFrames state.old frames.old }
    ensures leads { IfOk result (λ next. Execs state.old frames.old (Try site body.entry.now catch.entry.now finally.entry.now) scope state.new frames.new next) }
    ensures falls { IfOk result (λ next. Falls state.old frames.old 1 state.new frames.new (cost_of_work next)) }
    ensures earns { IfOk result (λ next. Earns state.old state.new (credits frames.old) (credits frames.new + credit_of_work next)) }
    ensures fits { IfOk result (λ next. FitAll state.new frames.new next) }
{
    if !state.count() {
        return Ok(Work::Give(cut(site, Budget::Nodes)));
    }
    frames.push(Frame::Finishing { finally, scope })?;
    frames.push(Frame::Catching { catch, scope })?;
    Ok(Work::Enter(body, scope))
}

/// The name of a `catch` is bound to what was thrown, and its block is entered (section 14.15.2).
fn enter_catch<'a>(
    state: &mut State<'a>,
    frames: &Frames<'a>,
    catch: &'a Catch<Items<Stmt>>,
    scope: Scope,
    value: Shadow,
) -> Result<Work<'a>, NoMemory>
    requires frames { FitFrames state.old frames.now }
    requires value { Fits state.old.table value }
    ensures leads { IfOk result (λ next. Leads state.old frames.now (λ view st w. open_catch catch.entry.now.name (seen_at view value) (scope_of scope) (place_of view st) (block catch.entry.now.body (stmts catch.entry.now.body) (calling w) w.loops)) state.new frames.now next) }
    ensures falls { IfOk result (λ next. Falls state.old frames.now 10 state.new frames.now (cost_of_work next)) }
    ensures earns { IfOk result (λ next. Earns state.old state.new (credits frames.now) (credits frames.now + credit_of_work next)) }
    ensures fits { IfOk result (λ next. FitAll state.new frames.now next) }
{
    match &catch.name {
        None => {
            drop(value);
            Ok(Work::Enter(catch.body.as_slice(), scope))
        }
        Some(name) => {
            let opened = state.open_cell(name.site, &name.name, true, Some(value), scope)?;
            match opened {
                Err(completion) => Ok(Work::Give(completion)),
                Ok(inner) => Ok(Work::Enter(catch.body.as_slice(), inner)),
            }
        }
    }
}

/// The block of a `try` has ended. A `catch` takes up what was thrown, and nothing else.
pub fn catching<'a>(
    state: &mut State<'a>,
    frames: &Frames<'a>,
    catch: &'a Option<Catch<Items<Stmt>>>,
    scope: Scope,
    completion: Completion,
) -> Result<Work<'a>, NoMemory>
    requires frames { FitFrames state.old frames.now }
    requires completion { InCompletion (Fits state.old.table) completion }
    ensures leads { IfOk result (λ next. Resumes state.old frames.now (frame.Catching catch.entry scope) completion state.new frames.now next) }
    ensures falls { IfOk result (λ next. Falls state.old frames.now (12 + cost_of_given completion) state.new frames.now (cost_of_work next)) }
    ensures earns { IfOk result (λ next. Earns state.old state.new (credits frames.now + credit_of_given completion) (credits frames.now + credit_of_work next)) }
    ensures fits { IfOk result (λ next. FitAll state.new frames.now next) }
{
    match catch {
        None => Ok(Work::Give(completion)),
        Some(catch) => match completion {
            Completion::Throw { site: _, value } => {
                let work = enter_catch(state, frames, catch, scope, value)?;
                Ok(work)
            }
            other => Ok(Work::Give(other)),
        },
    }
}

/// A `try` and its `catch` have ended. A run that has stopped goes into no `finally`.
pub fn finishing<'a>(
    state: &State<'a>,
    frames: &mut Frames<'a>,
    finally: &'a Option<Items<Stmt>>,
    scope: Scope,
    completion: Completion,
) -> Result<Work<'a>, NoMemory>
    requires frames { FitFrames state.now frames.old }
    requires completion { InCompletion (Fits state.now.table) completion }
    ensures leads { IfOk result (λ next. Resumes state.now frames.old (frame.Finishing finally.entry scope) completion state.now frames.new next) }
    ensures falls { IfOk result (λ next. Falls state.now frames.old (14 + cost_of_given completion) state.now frames.new (cost_of_work next)) }
    ensures earns { IfOk result (λ next. Earns state.now state.now (credits frames.old + credit_of_given completion) (credits frames.new + credit_of_work next)) }
    ensures fits { IfOk result (λ next. FitAll state.now frames.new next) }
{
    match finally {
        None => Ok(Work::Give(completion)),
        Some(body) => match completion {
            Completion::Stop(end) => Ok(Work::Give(Completion::Stop(end))),
            other => {
                frames.push(Frame::Kept(other))?;
                Ok(Work::Enter(body.as_slice(), scope))
            }
        },
    }
}

/// A `finally` has ended. The earlier completion is kept where it ended normally, and else is lost.
pub fn kept<'a>(
    state: &State<'a>,
    frames: &Frames<'a>,
    earlier: Completion,
    completion: Completion,
) -> Work<'a>
    requires frames { FitFrames state.now frames.now }
    requires earlier { InCompletion (Fits state.now.table) earlier }
    requires completion { InCompletion (Fits state.now.table) completion }
    ensures leads { Resumes state.now frames.now (frame.Kept earlier) completion state.now frames.now result }
    ensures falls { Falls state.now frames.now (1 + cost_of_given completion) state.now frames.now (cost_of_work result) }
    ensures earns { Earns state.now state.now (credits frames.now + credit_of_given earlier + credit_of_given completion) (credits frames.now + credit_of_work result) }
    ensures fits { FitAll state.now frames.now result }
{
    match completion {
        Completion::Normal => Work::Give(earlier),
        other => {
            drop(earlier);
            Work::Give(other)
        }
    }
}
