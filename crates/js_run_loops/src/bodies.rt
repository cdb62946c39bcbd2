//! How the body of a loop ended.

ghost use Rattle.std.specs.Prelude.{◌≡◌, ◌≤◌, List, IfErr};
ghost use Rattle.term_table.specs.declared.term.Term.{Term};
ghost use Rattle.term_table.specs.Fitting.{Fits};
ghost use Rattle.term_table.specs.Views.{View};
ghost use Rattle.js_meaning.specs.Loops.{after_body};
ghost use Rattle.js_meaning.specs.Running.{Outcome};
ghost use Rattle.js_meaning.specs.Values.{Place};
ghost use Rattle.js_state.specs.Fitting.{InCompletion, InResult};
ghost use Rattle.js_state.specs.Seen.{completion_at, MatchResult};
ghost use Rattle.js_state.specs.Spending.{credit_of_given};

use js_state::Completion;

/// Whether a loop goes on behind its body, or how it ends (LoopContinues; ECMA-262, section 14.7.1.1).
pub(crate) fn loop_continues(completion: Completion) -> Result<(), Completion>
    ensures goes { (view : View) (st : Place) (go : Place → Outcome) → after_body go st (completion_at view completion) ≡ MatchResult view (λ x. x) result st (λ x st. go st) }
    ensures fits { (terms : List Term) → InCompletion (Fits terms) completion → InResult (λ x. Unit {0}) (Fits terms) result }
    ensures credit { IfErr result (λ end. credit_of_given end ≤ credit_of_given completion) }
{
    match completion {
        Completion::Normal => Ok(()),
        Completion::Continue => Ok(()),
        Completion::Break => Err(Completion::Normal),
        other => Err(other),
    }
}
