//! Runs of a script on one input.

ghost use Rattle.std.specs.Prelude.{◌≡◌, ◌≤◌, ◌<◌, ◌+◌, ◌*◌, [], IfOk, length};
ghost use Rattle.term_table.specs.Views.{View};
ghost use Rattle.js_meaning.specs.Meaning.{whole_of};
ghost use Rattle.js_meaning.specs.Path.{path_of};
ghost use Rattle.js_meaning.specs.Running.{done};
ghost use Rattle.js_state.specs.Fitting.{AreSupplied, InCompletion};
ghost use Rattle.js_state.specs.Held.{Contents};
ghost use Rattle.js_state.specs.Playing.{Track};
ghost use Rattle.js_state.specs.Seen.{place_of, completion_at, Agreeing};
ghost use Rattle.js_state.specs.Spending.{spent, credit_of_given};
ghost use Rattle.term_table.specs.Fitting.{Fits};
ghost use Rattle.js_frames.specs.Credit.{Earns, credits, credit_of_work};
ghost use Rattle.js_frames.specs.Fitting.{FitAll};
ghost use Rattle.js_frames.specs.Machine.{Leads, thread};
ghost use Rattle.js_frames.specs.Weight.{cost_of_work, weight};
ghost use Rattle.js_frames.specs.declared.frames.Work.TheVariants.{Give};
ghost use Rattle.js_machine.specs.Handing.{next_of, Empties, StepFalls};

use crate::taking::{Step, give};
use js_ast::{Script, Stmt};
use js_frames::{Frames, Work};
use js_run_blocks::{declare, enter};
use js_run_calls::invoke;
use js_run_expressions::eval;
use js_run_statements::exec;
use js_state::{Completion, Scope, State};
use js_units::NoMemory;
use path_core::{Bounds, Input, Path};
use std::alloc::Global;

/// Takes one step.
fn step<'a>(
    alloc: Global,
    state: &mut State<'a>,
    frames: &mut Frames<'a>,
    work: Work<'a>,
) -> Result<Step<'a>, NoMemory>
    requires { FitAll state.old frames.old work }
    ensures leads { IfOk result (λ step. Leads state.old frames.old (λ view st. thread view work.entry st) state.new frames.new (next_of step)) }
    ensures ended { IfOk result (λ step. Empties step frames.new) }
    ensures falls { IfOk result (λ step. StepFalls step state.old frames.old (cost_of_work work.entry) state.new frames.new) }
    ensures earns { IfOk result (λ step. Earns state.old state.new (credits frames.old + credit_of_work work.entry) (credits frames.new + credit_of_work (next_of step))) }
    ensures fits { IfOk result (λ step. FitAll state.new frames.new (next_of step)) }
{
    match work {
        Work::Eval(tree, scope) => {
            let next = eval(alloc, state, frames, tree, scope)?;
            Ok(Step::Next(next))
        }
        Work::Exec(tree, scope) => {
            let next = exec(state, frames, tree, scope)?;
            Ok(Step::Next(next))
        }
        Work::Enter(body, scope) => {
            let next = enter(state, frames, body, scope)?;
            Ok(Step::Next(next))
        }
        Work::Declare(declarators, scope) => {
            let next = declare(state, frames, declarators, scope)?;
            Ok(Step::Next(next))
        }
        Work::Invoke(gathered) => {
            let next = invoke(state, frames, gathered)?;
            Ok(Step::Next(next))
        }
        Work::Give(completion) => {
            let step = give(alloc, state, frames, completion)?;
            Ok(step)
        }
    }
}

/// Takes steps until nothing waits. It ends, since each step makes a number fall that nodes and turns bound.
fn drive<'a>(
    alloc: Global,
    state: &mut State<'a>,
    frames: &mut Frames<'a>,
    start: Work<'a>,
) -> Result<Completion, NoMemory>
    requires { FitAll state.old frames.old start }
    ensures leads { IfOk result (λ completion. Leads state.old frames.old (λ view st. thread view start.entry st) state.new [] (Give completion)) }
    ensures earns { IfOk result (λ completion. Earns state.old state.new (credits frames.old + credit_of_work start.entry) (credit_of_given completion)) }
    ensures fits { IfOk result (λ completion. InCompletion (Fits state.new.table) completion) }
{
    let mut work = start;
    'steps: loop {
        match step(alloc, state, frames, work)? {
            Step::Ended(completion) => return Ok(completion),
            Step::Next(next) => work = next,
        }
    }
}

/// Runs a script from a fresh state. At every view that agrees, what the script does there goes along the moves that were
/// made, to where the run has come to.
fn run<'a>(alloc: Global, state: &mut State<'a>, body: &'a [Stmt]) -> Result<Completion, NoMemory>
    requires { state.old.moves ≡ [] }
    ensures tracks { IfOk result (λ completion. (view : View) → Agreeing view state.new → Track view state.new.moves (whole_of body.entry.now (place_of view state.old)) (λ whole. whole ≡ done (place_of view state.new) (completion_at view completion))) }
    ensures spends { IfOk result (λ completion. spent state.new + 8 * state.old.nodes ≤ spent state.old + 8 * state.new.nodes) }
    ensures fits { IfOk result (λ completion. InCompletion (Fits state.new.table) completion) }
{
    let mut frames = Frames::new(alloc);
    let scope = Scope {
        cell: None,
        this: None,
    };
    let completion = drive(alloc, state, &mut frames, Work::Enter(body, scope))?;
    Ok(completion)
}

/// The path of an input by the meaning of scripts (ECMA-262, and this project's profile), with at most 4,096 events: for
/// bounds of at most 1,000,000 turns and a value of the language for each declared input. Needs no call stack for nested or
/// long scripts. Keeps events alone, so that memory grows with the path and the live heap.
pub fn run_plain(
    alloc: Global,
    script: &Script,
    bounds: &Bounds,
    input: &Input,
) -> Result<Path, NoMemory>
    requires turns { bounds.now.turns ≤ 1000000 }
    requires values { AreSupplied bounds.now.inputs input.now.values }
    ensures path { IfOk result (λ path. path ≡ path_of script.now bounds.now input.now.values) }
    ensures few { IfOk result (λ path. length path.events ≤ 4096) }
{
    let mut state = State::new(alloc, false, bounds, input)?;
    let completion = run(alloc, &mut state, script.body.as_slice())?;
    let end = state.end(&completion);
    drop(completion);
    let events = state.events()?;
    Ok(Path { events, end })
}
