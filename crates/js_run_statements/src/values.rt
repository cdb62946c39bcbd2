//! Statements that wait for the value of an expression (ECMA-262, sections 14.5, 14.10 and 14.14).

ghost use Rattle.std.specs.Prelude.{◌≡◌, ◌≤◌, ◌<◌, ◌+◌, ◌*◌, IfOk, true, false};
ghost use Rattle.term_table.specs.Fitting.{Fits};
ghost use Rattle.term_table.specs.Views.{View};
ghost use Rattle.js_meaning.specs.Meaning.{expr};
ghost use Rattle.js_meaning.specs.Running.{bind, count as counting, on_value};
ghost use Rattle.js_state.specs.Seen.{place_of};
ghost use Rattle.js_frames.specs.Credit.{Earns, credits, credit_of_part, credit_of_work};
ghost use Rattle.js_frames.specs.Fitting.{FitFrames, FitAll, InPart};
ghost use Rattle.js_frames.specs.Machine.{Leads, Continues, doing, part_of};
ghost use Rattle.js_frames.specs.Weight.{Falls, cost_of_part, cost_of_work};
ghost use Rattle.js_frames.specs.declared.parts.Part.TheVariants as part;

use js_ast::Expr;
use js_frames::{Frame, Frames, Part, Work};
use js_state::{Completion, Scope, State, cut};
use js_units::NoMemory;
use path_core::Budget;
use sqlite_items::Boxed;
use term_table::Shadow;

/// A node counts at a site, and the value that a part waits for is begun.
pub(crate) fn begin_value<'a>(
    state: &mut State<'a>,
    frames: &mut Frames<'a>,
    site: u32,
    waiting: Part<'a>,
    value: &'a Boxed<Expr>,
    scope: Scope,
) -> Result<Work<'a>, NoMemory>
    requires frames { FitFrames state.old frames.old }
    requires waiting { InPart (Fits state.old.table) waiting }
    requires cost { cost_of_part waiting ≤ 16 }
    requires credit { credit_of_part waiting ≤ 8 }
    ensures leads { IfOk result (λ next. Leads state.old frames.old (λ view st w. counting site (place_of view st) (λ st. bind (doing w (expr value.entry.now) scope st) (on_value (part_of view w waiting.entry)))) state.new frames.new next) }
    ensures falls { IfOk result (λ next. Falls state.old frames.old 1 state.new frames.new (cost_of_work next)) }
    ensures earns { IfOk result (λ next. Earns state.old state.new (credits frames.old) (credits frames.new + credit_of_work next)) }
    ensures fits { IfOk result (λ next. FitAll state.new frames.new next) }
{
    if !state.count() {
        drop(waiting);
        return Ok(Work::Give(cut(site, Budget::Nodes)));
    }
    frames.push(Frame::Awaits(waiting))?;
    Ok(Work::Eval(value, scope))
}

/// The expression of a statement has its value.
pub fn express_done<'a>(state: &State<'a>, frames: &Frames<'a>, value: Shadow) -> Work<'a>
    requires frames { FitFrames state.now frames.now }
    requires value { Fits state.now.table value }
    ensures leads { Continues state.now frames.now part.ExpressDone value state.now frames.now result }
    ensures falls { Falls state.now frames.now 15 state.now frames.now (cost_of_work result) }
    ensures earns { Earns state.now state.now (credits frames.now + 7) (credits frames.now + credit_of_work result) }
    ensures fits { FitAll state.now frames.now result }
{
    drop(value);
    Work::Give(Completion::Normal)
}

/// The value of a `return` is there.
pub fn return_done<'a>(state: &State<'a>, frames: &Frames<'a>, value: Shadow) -> Work<'a>
    requires frames { FitFrames state.now frames.now }
    requires value { Fits state.now.table value }
    ensures leads { Continues state.now frames.now part.ReturnDone value state.now frames.now result }
    ensures falls { Falls state.now frames.now 15 state.now frames.now (cost_of_work result) }
    ensures earns { Earns state.now state.now (credits frames.now + 7) (credits frames.now + credit_of_work result) }
    ensures fits { FitAll state.now frames.now result }
{
    Work::Give(Completion::Return(value))
}

/// What a `throw` throws is there.
pub fn throw_done<'a>(state: &State<'a>, frames: &Frames<'a>, site: u32, value: Shadow) -> Work<'a>
    requires frames { FitFrames state.now frames.now }
    requires value { Fits state.now.table value }
    ensures leads { Continues state.now frames.now (part.ThrowDone site) value state.now frames.now result }
    ensures falls { Falls state.now frames.now 15 state.now frames.now (cost_of_work result) }
    ensures earns { Earns state.now state.now (credits frames.now + 7) (credits frames.now + credit_of_work result) }
    ensures fits { FitAll state.now frames.now result }
{
    Work::Give(Completion::Throw { site, value })
}
