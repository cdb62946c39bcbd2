//! Calls, once their arguments have been gathered (ECMA-262, section 13.3.6).

ghost use Rattle.std.specs.Prelude.{◌+◌, map, IfOk};
ghost use Rattle.term_table.specs.Fitting.{Fits};
ghost use Rattle.term_table.specs.Views.{View, at as seen_at};
ghost use Rattle.js_meaning.specs.Parts.{invoke as invoking};
ghost use Rattle.js_state.specs.Fitting.{AllOf};
ghost use Rattle.js_state.specs.Held.{this_of};
ghost use Rattle.js_state.specs.Seen.{place_of, reference_at};
ghost use Rattle.js_frames.specs.Credit.{Earns, credits, credit_of_gathered, credit_of_work};
ghost use Rattle.js_frames.specs.Fitting.{FitFrames, FitAll, InGathered};
ghost use Rattle.js_frames.specs.Machine.{Leads, aimed, calling, thread};
ghost use Rattle.js_frames.specs.Weight.{Falls, cost_of_work};
ghost use Rattle.js_frames.specs.declared.frames.Work.TheVariants.{Invoke};

use crate::activation::activate;
use crate::bodies::enter_body;
use js_frames::{Aim, Frame, Frames, Gathered, Work};
use js_state::{Completion, Reference, State};
use js_units::NoMemory;
use path_core::{ErrorName, Why};
use sqlite_items::Boxed;
use term_table::Shadow;

/// A value is called. What is no function throws TypeError.
fn call_value<'a>(
    state: &mut State<'a>,
    frames: &mut Frames<'a>,
    site: u32,
    function: &Shadow,
    this: Option<u32>,
    values: &[Shadow],
) -> Result<Work<'a>, NoMemory>
    requires frames { FitFrames state.old frames.old }
    requires values { AllOf (Fits state.old.table) values.now }
    ensures leads { IfOk result (λ next. Leads state.old frames.old (λ view st w. calling w site (seen_at view function.now) (this_of this) (map (seen_at view) values.now) (place_of view st)) state.new frames.new next) }
    ensures falls { IfOk result (λ next. Falls state.old frames.old 17 state.new frames.new (cost_of_work next)) }
    ensures earns { IfOk result (λ next. Earns state.old state.new (credits frames.old + 7) (credits frames.new + credit_of_work next)) }
    ensures fits { IfOk result (λ next. FitAll state.new frames.new next) }
{
    match state.code_of(function) {
        None => {
            let completion = state.throw_error(site, ErrorName::TypeError)?;
            Ok(Work::Give(completion))
        }
        Some(closure) => {
            let activated = activate(state, site, closure, this, values)?;
            match activated {
                Err(completion) => Ok(Work::Give(completion)),
                Ok(scope) => {
                    // Ended here, and not at each exit below.
                    drop(activated);
                    let work = enter_body(frames, closure.code, scope)?;
                    Ok(work)
                }
            }
        }
    }
}

/// What a chain has come to is called. A built-in leaves the profile.
fn call_reference<'a>(
    state: &mut State<'a>,
    frames: &mut Frames<'a>,
    site: u32,
    reference: &Reference,
    values: &[Shadow],
) -> Result<Work<'a>, NoMemory>
    requires frames { FitFrames state.old frames.old }
    requires values { AllOf (Fits state.old.table) values.now }
    ensures leads { IfOk result (λ next. Leads state.old frames.old (λ view st w. invoking (calling w) site (reference_at view reference.now) (map (seen_at view) values.now) (place_of view st)) state.new frames.new next) }
    ensures falls { IfOk result (λ next. Falls state.old frames.old 17 state.new frames.new (cost_of_work next)) }
    ensures earns { IfOk result (λ next. Earns state.old state.new (credits frames.old + 7) (credits frames.new + credit_of_work next)) }
    ensures fits { IfOk result (λ next. FitAll state.new frames.new next) }
{
    match reference {
        Reference::Callee { value, this } => {
            let work = call_value(state, frames, site, value, *this, values)?;
            Ok(work)
        }
        _ => Ok(Work::Give(state.left(site, Why::Builtin))),
    }
}

/// What was gathered is used.
fn apply<'a>(
    state: &mut State<'a>,
    frames: &mut Frames<'a>,
    gathered: &Gathered<'a>,
) -> Result<Work<'a>, NoMemory>
    requires frames { FitFrames state.old frames.old }
    requires gathered { InGathered (Fits state.old.table) gathered.now }
    ensures leads { IfOk result (λ next. Leads state.old frames.old (λ view st w. aimed view w gathered.now.aim gathered.now.scope (map (seen_at view) gathered.now.values) (place_of view st)) state.new frames.new next) }
    ensures falls { IfOk result (λ next. Falls state.old frames.old 17 state.new frames.new (cost_of_work next)) }
    ensures earns { IfOk result (λ next. Earns state.old state.new (credits frames.old + credit_of_gathered gathered.now) (credits frames.new + credit_of_work next)) }
    ensures fits { IfOk result (λ next. FitAll state.new frames.new next) }
{
    match &gathered.aim {
        Aim::Call {
            site,
            reference,
            suffixes,
        } => {
            frames.push(Frame::Chain {
                suffixes: *suffixes,
                scope: gathered.scope,
            })?;
            let work = call_reference(state, frames, *site, reference, gathered.values.as_slice())?;
            Ok(work)
        }
        Aim::New { site, .. } => Ok(Work::Give(state.left(*site, Why::Builtin))),
    }
}

/// What was gathered is used: what stands before the arguments is called, before the suffixes behind them, or is made by `new`.
pub fn invoke<'a>(
    state: &mut State<'a>,
    frames: &mut Frames<'a>,
    gathered: Boxed<Gathered<'a>>,
) -> Result<Work<'a>, NoMemory>
    requires frames { FitFrames state.old frames.old }
    requires gathered { InGathered (Fits state.old.table) gathered }
    ensures leads { IfOk result (λ next. Leads state.old frames.old (λ view st. thread view (Invoke gathered.entry) st) state.new frames.new next) }
    ensures falls { IfOk result (λ next. Falls state.old frames.old 17 state.new frames.new (cost_of_work next)) }
    ensures earns { IfOk result (λ next. Earns state.old state.new (credits frames.old + credit_of_gathered gathered.entry) (credits frames.new + credit_of_work next)) }
    ensures fits { IfOk result (λ next. FitAll state.new frames.new next) }
{
    let applied = apply(state, frames, gathered.get());
    drop(gathered);
    let work = applied?;
    Ok(work)
}
