//! `if` (ECMA-262, section 14.6).

ghost use Rattle.std.specs.Prelude.{◌≡◌, ◌≤◌, ◌<◌, ◌+◌, ◌*◌, length, option_map, IfOk, true, false};
ghost use Rattle.term_table.specs.Fitting.{Fits};
ghost use Rattle.term_table.specs.Views.{View};
ghost use Rattle.js_meaning.specs.Meaning.{optional};
ghost use Rattle.js_state.specs.Seen.{place_of};
ghost use Rattle.js_frames.specs.Credit.{Earns, credits, credit_of_work};
ghost use Rattle.js_frames.specs.Fitting.{FitFrames, FitAll};
ghost use Rattle.js_frames.specs.Machine.{Leads, Continues, doing, on_arms, beside};
ghost use Rattle.js_frames.specs.Weight.{Falls, cost_of_work};
ghost use Rattle.js_frames.specs.declared.parts.Part.TheVariants as part;

use crate::values::begin_value;
use js_ast::{Arm, Stmt};
use js_frames::{Frames, Part, Work};
use js_state::{Completion, Scope, State};
use js_units::NoMemory;
use sqlite_items::Boxed;
use term_table::Shadow;

/// The arms of an `if` from here on: the test of the first is begun, at its own site, or behind the last one the alternative.
pub(crate) fn arms_from<'a>(
    state: &mut State<'a>,
    frames: &mut Frames<'a>,
    arms: &'a [Arm],
    alternate: &'a Option<Boxed<Stmt>>,
    scope: Scope,
) -> Result<Work<'a>, NoMemory>
    requires { FitFrames state.old frames.old }
    ensures leads { IfOk result (λ next. Leads state.old frames.old (λ view st w. doing w (on_arms arms.entry.now (optional (option_map beside alternate.entry.now))) scope (place_of view st)) state.new frames.new next) }
    ensures falls { IfOk result (λ next. Falls state.old frames.old 5 state.new frames.new (cost_of_work next)) }
    ensures counts { 1 ≤ length arms.entry.now → IfOk result (λ next. Falls state.old frames.old 1 state.new frames.new (cost_of_work next)) }
    ensures earns { IfOk result (λ next. Earns state.old state.new (credits frames.old) (credits frames.new + credit_of_work next)) }
    ensures fits { IfOk result (λ next. FitAll state.new frames.new next) }
{
    match arms {
        [] => match alternate {
            None => Ok(Work::Give(Completion::Normal)),
            Some(other) => Ok(Work::Exec(other.get(), scope)),
        },
        [first, ..] => {
            let waiting = Part::ArmTest {
                arms,
                alternate,
                scope,
            };
            let work = begin_value(state, frames, first.site, waiting, &first.test, scope)?;
            Ok(work)
        }
    }
}

/// The test of the first of these arms has its value.
pub fn arm_test<'a>(
    state: &mut State<'a>,
    frames: &mut Frames<'a>,
    arms: &'a [Arm],
    alternate: &'a Option<Boxed<Stmt>>,
    scope: Scope,
    value: Shadow,
) -> Result<Work<'a>, NoMemory>
    requires frames { FitFrames state.old frames.old }
    requires value { Fits state.old.table value }
    ensures leads { IfOk result (λ next. Continues state.old frames.old (part.ArmTest arms.entry alternate.entry scope) value state.new frames.new next) }
    ensures falls { IfOk result (λ next. Falls state.old frames.old 15 state.new frames.new (cost_of_work next)) }
    ensures earns { IfOk result (λ next. Earns state.old state.new (credits frames.old + 7) (credits frames.new + credit_of_work next)) }
    ensures fits { IfOk result (λ next. FitAll state.new frames.new next) }
{
    match arms {
        [] => {
            drop(value);
            Ok(Work::Give(Completion::Normal))
        }
        [first, rest @ ..] => {
            let told = state.test(first.site, &value)?;
            drop(value);
            let holds = match told {
                Ok(holds) => holds,
                Err(completion) => return Ok(Work::Give(completion)),
            };
            if holds {
                return Ok(Work::Exec(first.consequent.get(), scope));
            }
            let work = arms_from(state, frames, rest, alternate, scope)?;
            Ok(work)
        }
    }
}
