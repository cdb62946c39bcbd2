//! Declarations (ECMA-262, section 14.3.1).

ghost use Rattle.std.specs.Prelude.{◌≡◌, ◌≤◌, ◌<◌, ◌+◌, ◌*◌, IfOk, true, false};
ghost use Rattle.term_table.specs.Fitting.{Fits};
ghost use Rattle.term_table.specs.Views.{View};
ghost use Rattle.js_frames.specs.Credit.{Earns, credits, credit_of_work};
ghost use Rattle.js_frames.specs.Fitting.{FitFrames, FitAll};
ghost use Rattle.js_frames.specs.Machine.{Leads, Continues, thread};
ghost use Rattle.js_frames.specs.Weight.{Falls, cost_of_work};
ghost use Rattle.js_frames.specs.declared.frames.Work.TheVariants.{Declare};
ghost use Rattle.js_frames.specs.declared.parts.Part.TheVariants.{Declared};

use js_ast::{Declarator, Expr};
use js_frames::{Frame, Frames, Part, Work};
use js_state::{Completion, Scope, State, UNDEFINED};
use js_units::{NoMemory, Units};
use sqlite_items::Boxed;
use term_table::Shadow;

/// Names are declared: those with no value beside them get undefined, up to one whose value is begun.
pub fn declare<'a>(
    state: &mut State<'a>,
    frames: &mut Frames<'a>,
    declarators: &'a [Declarator<Boxed<Expr>>],
    scope: Scope,
) -> Result<Work<'a>, NoMemory>
    requires { FitFrames state.old frames.old }
    ensures leads { IfOk result (λ next. Leads state.old frames.old (λ view st w. thread view (Declare declarators.entry scope) st w) state.new frames.new next) }
    ensures falls { IfOk result (λ next. Falls state.old frames.old 14 state.new frames.new (cost_of_work next)) }
    ensures earns { IfOk result (λ next. Earns state.old state.new (credits frames.old) (credits frames.new + credit_of_work next)) }
    ensures fits { IfOk result (λ next. FitAll state.new frames.new next) }
{
    let mut left = declarators;
    'names: while let [first, rest @ ..] = left {
        let name = &first.name.name;
        match &first.value {
            Some(value) => {
                frames.push(Frame::Awaits(Part::Declared { name, rest, scope }))?;
                return Ok(Work::Eval(value, scope));
            }
            None => state.init_name(name, scope, UNDEFINED),
        }
        left = rest;
    }
    Ok(Work::Give(Completion::Normal))
}

/// A declared name has its value, and the names behind it are declared.
pub fn declared<'a>(
    state: &mut State<'a>,
    frames: &mut Frames<'a>,
    name: &'a Units,
    rest: &'a [Declarator<Boxed<Expr>>],
    scope: Scope,
    value: Shadow,
) -> Result<Work<'a>, NoMemory>
    requires frames { FitFrames state.old frames.old }
    requires value { Fits state.old.table value }
    ensures leads { IfOk result (λ next. Continues state.old frames.old (Declared name.entry rest.entry scope) value state.new frames.new next) }
    ensures falls { IfOk result (λ next. Falls state.old frames.old 15 state.new frames.new (cost_of_work next)) }
    ensures earns { IfOk result (λ next. Earns state.old state.new (credits frames.old + 7) (credits frames.new + credit_of_work next)) }
    ensures fits { IfOk result (λ next. FitAll state.new frames.new next) }
{
    state.init_name(name, scope, value);
    let work = declare(state, frames, rest, scope)?;
    Ok(work)
}
