//! for-of, over arrays (ECMA-262, section 14.7.5).

ghost use Rattle.std.specs.Prelude.{◌≡◌, ◌<◌, ◌+◌, suc, IfOk, true, false};
ghost use Rattle.term_table.specs.Fitting.{Fits};
ghost use Rattle.js_ast.specs.declared.statement.Stmt.TheVariants.{ForOf};
ghost use Rattle.js_meaning.specs.Blocks.{is_let as letting};
ghost use Rattle.js_state.specs.Fitting.{InCompletion};
ghost use Rattle.js_state.specs.Seen.{place_of};
ghost use Rattle.js_state.specs.Spending.{credit_of_given};
ghost use Rattle.js_frames.specs.Credit.{Earns, credits, credit_of_work};
ghost use Rattle.js_frames.specs.Fitting.{FitFrames, FitAll};
ghost use Rattle.js_frames.specs.Machine.{Execs, Continues, Resumes, Leads, of_on};
ghost use Rattle.js_frames.specs.Weight.{Falls, cost_of_work, cost_of_given};
ghost use Rattle.js_frames.specs.declared.frames.Frame.TheVariants.{OfBody};
ghost use Rattle.js_frames.specs.declared.parts.Part.TheVariants.{OfItems};

use crate::bodies::loop_continues;
use crate::items::iterated;
use js_ast::{DeclarationKind, Expr, Identifier, Stmt};
use js_frames::{Frame, Frames, OfLoop, Part, Work};
use js_state::{Completion, Scope, State, cut};
use js_units::NoMemory;
use path_core::Budget;
use sqlite_items::Boxed;
use term_table::Shadow;

fn is_let(kind: DeclarationKind) -> bool
    ensures { result ≡ letting kind }
{
    match kind {
        DeclarationKind::Let => true,
        DeclarationKind::Const => false,
    }
}

/// for-of is begun: what it runs over is evaluated where its name is there, but not initialised (section 14.7.5.6).
pub fn begin_of<'a>(
    state: &mut State<'a>,
    frames: &mut Frames<'a>,
    site: u32,
    kind: DeclarationKind,
    name: &'a Identifier,
    items: &'a Boxed<Expr>,
    body: &'a Boxed<Stmt>,
    scope: Scope,
) -> Result<Work<'a>, NoMemory>
    requires { FitFrames state.old frames.old }
    ensures leads { IfOk result (λ next. Execs state.old frames.old (ForOf site kind name.entry.now items.entry.now body.entry.now) scope state.new frames.new next) }
    ensures falls { IfOk result (λ next. Falls state.old frames.old 1 state.new frames.new (cost_of_work next)) }
    ensures earns { IfOk result (λ next. Earns state.old state.new (credits frames.old) (credits frames.new + credit_of_work next)) }
    ensures fits { IfOk result (λ next. FitAll state.new frames.new next) }
{
    if !state.count() {
        return Ok(Work::Give(cut(site, Budget::Nodes)));
    }
    let is_mutable = is_let(kind);
    let opened = state.open_cell(name.site, &name.name, is_mutable, None, scope)?;
    match opened {
        Err(completion) => Ok(Work::Give(completion)),
        Ok(inner) => {
            frames.push(Frame::Awaits(Part::OfItems {
                site,
                name,
                is_mutable,
                body,
                scope,
            }))?;
            Ok(Work::Eval(items, inner))
        }
    }
}

/// The next item, as the array stands: its round takes a turn, and then a fresh binding; none left ends the loop.
fn of_next<'a>(
    state: &mut State<'a>,
    frames: &mut Frames<'a>,
    l: OfLoop<'a>,
    index: usize,
) -> Result<Work<'a>, NoMemory>
    requires { FitFrames state.old frames.old }
    ensures leads { IfOk result (λ next. Leads state.old frames.old (λ view st w. of_on w (suc w.loops) l.entry index (place_of view st)) state.new frames.new next) }
    ensures falls { IfOk result (λ next. Falls state.old frames.old 4 state.new frames.new (cost_of_work next)) }
    ensures earns { IfOk result (λ next. Earns state.old state.new (credits frames.old) (credits frames.new + credit_of_work next)) }
    ensures fits { IfOk result (λ next. FitAll state.new frames.new next) }
{
    let found = state.item_at(l.object, index)?;
    let item = match found {
        None => return Ok(Work::Give(Completion::Normal)),
        Some(item) => item,
    };
    if !state.take_turn() {
        drop(item);
        return Ok(Work::Give(cut(l.site, Budget::Turns)));
    }
    let opened = state.open_cell(l.name.site, &l.name.name, l.is_mutable, Some(item), l.scope)?;
    match opened {
        Err(completion) => Ok(Work::Give(completion)),
        Ok(inner) => {
            frames.push(Frame::OfBody(l, index + 1))?;
            Ok(Work::Exec(l.body.get(), inner))
        }
    }
}

/// What a for-of runs over has its value.
pub fn of_items<'a>(
    state: &mut State<'a>,
    frames: &mut Frames<'a>,
    site: u32,
    name: &'a Identifier,
    is_mutable: bool,
    body: &'a Boxed<Stmt>,
    scope: Scope,
    value: Shadow,
) -> Result<Work<'a>, NoMemory>
    requires frames { FitFrames state.old frames.old }
    requires value { Fits state.old.table value }
    ensures leads { IfOk result (λ next. Continues state.old frames.old (OfItems site name.entry is_mutable body.entry scope) value state.new frames.new next) }
    ensures falls { IfOk result (λ next. Falls state.old frames.old 15 state.new frames.new (cost_of_work next)) }
    ensures earns { IfOk result (λ next. Earns state.old state.new (credits frames.old + 7) (credits frames.new + credit_of_work next)) }
    ensures fits { IfOk result (λ next. FitAll state.new frames.new next) }
{
    let found = iterated(state, site, &value)?;
    drop(value);
    match found {
        Err(completion) => Ok(Work::Give(completion)),
        Ok(object) => {
            let l = OfLoop {
                site,
                name,
                is_mutable,
                body,
                object,
                scope,
            };
            let work = of_next(state, frames, l, 0)?;
            Ok(work)
        }
    }
}

/// The body of a for-of has ended, before the item at this place.
pub fn of_body<'a>(
    state: &mut State<'a>,
    frames: &mut Frames<'a>,
    l: OfLoop<'a>,
    index: usize,
    completion: Completion,
) -> Result<Work<'a>, NoMemory>
    requires frames { FitFrames state.old frames.old }
    requires completion { InCompletion (Fits state.old.table) completion }
    ensures leads { IfOk result (λ next. Resumes state.old frames.old (OfBody l.entry index) completion state.new frames.new next) }
    ensures falls { IfOk result (λ next. Falls state.old frames.old (14 + cost_of_given completion) state.new frames.new (cost_of_work next)) }
    ensures earns { IfOk result (λ next. Earns state.old state.new (credits frames.old + credit_of_given completion) (credits frames.new + credit_of_work next)) }
    ensures fits { IfOk result (λ next. FitAll state.new frames.new next) }
{
    match loop_continues(completion) {
        Err(end) => Ok(Work::Give(end)),
        Ok(()) => {
            let work = of_next(state, frames, l, index)?;
            Ok(work)
        }
    }
}
