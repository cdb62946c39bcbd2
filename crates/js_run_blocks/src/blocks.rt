//! Blocks (ECMA-262, section 14.2): what is done on entry, and statements in their order.

ghost use Rattle.std.specs.Prelude.{◌≡◌, ◌≤◌, ◌<◌, ◌+◌, ◌*◌, ℕ, IfOk, true, false};
ghost use Rattle.term_table.specs.Fitting.{Fits};
ghost use Rattle.term_table.specs.Views.{View};
ghost use Rattle.js_meaning.specs.Blocks.{run_all, enter as entering};
ghost use Rattle.js_meaning.specs.Builtins.{Calls};
ghost use Rattle.js_meaning.specs.Meaning.{stmts};
ghost use Rattle.js_meaning.specs.Running.{Outcome};
ghost use Rattle.js_meaning.specs.Values.{Place, Scope as SpecScope};
ghost use Rattle.js_state.specs.Fitting.{InCompletion, ErrStops};
ghost use Rattle.js_state.specs.Held.{scope_of, Contents};
ghost use Rattle.js_state.specs.Playing.{Still};
ghost use Rattle.js_state.specs.Seen.{place_of, MatchResult};
ghost use Rattle.js_state.specs.Spending.{credit_of_given};
ghost use Rattle.js_frames.specs.Credit.{Earns, credits, credit_of_work};
ghost use Rattle.js_frames.specs.Fitting.{FitFrames, FitAll};
ghost use Rattle.js_frames.specs.Idle.{FirstCounts};
ghost use Rattle.js_frames.specs.Machine.{Leads, Resumes, doing, thread};
ghost use Rattle.js_frames.specs.Weight.{Falls, cost_of_work, cost_of_given};
ghost use Rattle.js_frames.specs.declared.frames.Frame.TheVariants.{Rest};
ghost use Rattle.js_frames.specs.declared.frames.Work.TheVariants.{Enter};

use crate::functions::start_functions;
use crate::names::open_all;
use js_ast::Stmt;
use js_frames::{Frame, Frames, Work, is_idle};
use js_state::{Completion, Scope, State};
use js_units::NoMemory;

/// The statements from the first one on that counts a node. Those before it do nothing.
fn from_counted<'a>(body: &'a [Stmt]) -> &'a [Stmt]
    ensures does { (calls : Calls) (k : ℕ) (scope : SpecScope) (st : Place) → run_all (stmts result.now) calls k scope st ≡ run_all (stmts body.entry.now) calls k scope st }
    ensures counts { FirstCounts result.now }
{
    let mut left = body;
    while let [first, rest @ ..] = left {
        if !is_idle(first) {
            return left;
        }
        left = rest;
    }
    left
}

/// The statements from here on. Behind the last one nothing waits.
fn run<'a>(frames: &mut Frames<'a>, body: &'a [Stmt], scope: Scope) -> Result<Work<'a>, NoMemory>
    ensures leads { (st : Contents) → IfOk result (λ next. Leads st frames.old (λ view st w. doing w (run_all (stmts body.entry.now)) scope (place_of view st)) st frames.new next) }
    ensures falls { (st : Contents) → IfOk result (λ next. Falls st frames.old 8 st frames.new (cost_of_work next)) }
    ensures earns { IfOk result (λ next. credits frames.new + credit_of_work next ≤ credits frames.old) }
    ensures fits { (st : Contents) → FitFrames st frames.old → IfOk result (λ next. FitAll st frames.new next) }
{
    let counted = from_counted(body);
    match counted {
        [] => Ok(Work::Give(Completion::Normal)),
        [last] => Ok(Work::Exec(last, scope)),
        [first, rest @ ..] => {
            frames.push(Frame::Rest { body: rest, scope })?;
            Ok(Work::Exec(first, scope))
        }
    }
}

/// The names of a block are opened and its functions made (BlockDeclarationInstantiation; section 14.2.3).
fn prepare<'a>(
    state: &mut State<'a>,
    body: &'a [Stmt],
    scope: Scope,
) -> Result<Result<Scope, Completion>, NoMemory>
    ensures goes { IfOk result (λ o. (view : View) (go : SpecScope → Place → Outcome) → entering body.entry.now (scope_of scope) (place_of view state.old) go ≡ MatchResult view scope_of o (place_of view state.new) go) }
    ensures still { IfOk result (λ o. Still state.old state.new) }
    ensures stops { IfOk result (λ o. ErrStops o) }
{
    let opened = open_all(state, body, scope)?;
    let inner = match opened {
        Ok(inner) => inner,
        Err(completion) => return Ok(Err(completion)),
    };
    let started = start_functions(state, body, inner)?;
    match started {
        Ok(()) => Ok(Ok(inner)),
        Err(completion) => Ok(Err(completion)),
    }
}

/// A block is entered, and its first statement begun.
pub fn enter<'a>(
    state: &mut State<'a>,
    frames: &mut Frames<'a>,
    body: &'a [Stmt],
    scope: Scope,
) -> Result<Work<'a>, NoMemory>
    requires { FitFrames state.old frames.old }
    ensures leads { IfOk result (λ next. Leads state.old frames.old (λ view st w. thread view (Enter body.entry scope) st w) state.new frames.new next) }
    ensures falls { IfOk result (λ next. Falls state.old frames.old 9 state.new frames.new (cost_of_work next)) }
    ensures earns { IfOk result (λ next. Earns state.old state.new (credits frames.old) (credits frames.new + credit_of_work next)) }
    ensures fits { IfOk result (λ next. FitAll state.new frames.new next) }
{
    let prepared = prepare(state, body, scope)?;
    match prepared {
        Err(completion) => Ok(Work::Give(completion)),
        Ok(inner) => {
            let work = run(frames, body, inner)?;
            Ok(work)
        }
    }
}

/// A statement before these has ended.
pub fn rest<'a>(
    state: &State<'a>,
    frames: &mut Frames<'a>,
    body: &'a [Stmt],
    scope: Scope,
    completion: Completion,
) -> Result<Work<'a>, NoMemory>
    requires frames { FitFrames state.now frames.old }
    requires completion { InCompletion (Fits state.now.table) completion }
    ensures leads { IfOk result (λ next. Resumes state.now frames.old (Rest body.entry scope) completion state.now frames.new next) }
    ensures falls { IfOk result (λ next. Falls state.now frames.old (6 + cost_of_given completion) state.now frames.new (cost_of_work next)) }
    ensures earns { IfOk result (λ next. Earns state.now state.now (credits frames.old + credit_of_given completion) (credits frames.new + credit_of_work next)) }
    ensures fits { IfOk result (λ next. FitAll state.now frames.new next) }
{
    match completion {
        Completion::Normal => {
            let work = run(frames, body, scope)?;
            Ok(work)
        }
        other => Ok(Work::Give(other)),
    }
}
