//! Bodies of functions are entered, and end (ECMA-262, sections 10.2.1 and 15.2.3).

ghost use Rattle.std.specs.Prelude.{◌≡◌, ◌≤◌, ◌+◌, ◌∷◌, IfOk};
ghost use Rattle.term_table.specs.Fitting.{Fits};
ghost use Rattle.term_table.specs.Views.{View};
ghost use Rattle.js_meaning.specs.Meaning.{body_of as running, returned as returning};
ghost use Rattle.js_meaning.specs.Running.{done};
ghost use Rattle.js_state.specs.Fitting.{InCompletion};
ghost use Rattle.js_state.specs.Held.{Contents, body_of, scope_of};
ghost use Rattle.js_state.specs.Playing.{Still};
ghost use Rattle.js_state.specs.Seen.{place_of, completion_at};
ghost use Rattle.js_state.specs.Spending.{credit_of_given};
ghost use Rattle.js_frames.specs.Credit.{credits, credit_of_work};
ghost use Rattle.js_frames.specs.Fitting.{FitFrames, FitAll};
ghost use Rattle.js_frames.specs.Machine.{Leads, calling};
ghost use Rattle.js_frames.specs.declared.frames.Frame.TheVariants.{Called};
ghost use Rattle.js_frames.specs.Weight.{Falls, cost_of_given, cost_of_work};

use js_frames::{Frame, Frames, Part, Work};
use js_state::{Code, Completion, Scope, State, UNDEFINED};
use js_units::NoMemory;

/// A call waits for its body, and the body is begun, in the scope inside its parameters. The expression of an arrow is what the
/// arrow returns.
pub(crate) fn enter_body<'a>(
    frames: &mut Frames<'a>,
    code: Code<'a>,
    scope: Scope,
) -> Result<Work<'a>, NoMemory>
    ensures leads { (st : Contents) → IfOk result (λ next. Leads st (Called ∷ frames.old) (λ view st w. running (body_of code.entry) (calling w) w.loops (scope_of scope) (place_of view st)) st frames.new next) }
    ensures falls { (st : Contents) → IfOk result (λ next. Falls st frames.old 15 st frames.new (cost_of_work next)) }
    ensures earns { IfOk result (λ next. credits frames.new + credit_of_work next ≤ credits frames.old + 7) }
    ensures fits { (st : Contents) → FitFrames st frames.old → IfOk result (λ next. FitAll st frames.new next) }
{
    frames.push(Frame::Called)?;
    match code {
        Code::Statements(body) => Ok(Work::Enter(body, scope)),
        Code::Expression(value) => {
            frames.push(Frame::Awaits(Part::ReturnDone))?;
            Ok(Work::Eval(value, scope))
        }
    }
}

/// A body has ended: its call gives what it returned, or undefined, or throws. A run that has stopped ends no activation.
pub fn returned(state: &mut State, completion: Completion) -> Completion
    requires { InCompletion (Fits state.old.table) completion }
    ensures gives { (view : View) → returning (place_of view state.old) (completion_at view completion) ≡ done (place_of view state.new) (completion_at view result) }
    ensures still { Still state.old state.new }
    ensures cost { cost_of_given result ≤ cost_of_given completion }
    ensures rich { credit_of_given result ≤ 7 }
    ensures fits { InCompletion (Fits state.new.table) result }
{
    match completion {
        Completion::Stop(end) => Completion::Stop(end),
        Completion::Return(value) => {
            state.end_activation();
            Completion::Value(value)
        }
        Completion::Throw { site, value } => {
            state.end_activation();
            Completion::Throw { site, value }
        }
        other => {
            drop(other);
            state.end_activation();
            Completion::Value(UNDEFINED)
        }
    }
}
