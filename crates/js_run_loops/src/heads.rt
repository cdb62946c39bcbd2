//! `for` is begun (ECMA-262, section 14.7.4.2).

ghost use Rattle.std.specs.Prelude.{◌<◌, ◌+◌, ◌*◌, suc, IfOk};
ghost use Rattle.js_ast.specs.declared.statement.Stmt.TheVariants.{For};
ghost use Rattle.js_meaning.specs.Blocks.{declared_of, declare, open_names as opening};
ghost use Rattle.js_meaning.specs.Loops.{next_scope};
ghost use Rattle.js_meaning.specs.Meaning.{expr};
ghost use Rattle.js_meaning.specs.Running.{bind, on_normal};
ghost use Rattle.js_state.specs.Held.{scope_of};
ghost use Rattle.js_state.specs.Seen.{place_of};
ghost use Rattle.js_frames.specs.Credit.{Earns, credits, credit_of_work};
ghost use Rattle.js_frames.specs.Fitting.{FitFrames, FitAll};
ghost use Rattle.js_frames.specs.Machine.{Execs, Leads, calling, copied, for_on as on_for};
ghost use Rattle.js_frames.specs.Weight.{Falls, cost_of_work};

use crate::for_loops::for_on;
use js_ast::{DeclarationKind, Declarator, Expr, LoopHead, Stmt};
use js_frames::{ForLoop, Frame, Frames, Part, Work};
use js_run_blocks::open_names;
use js_state::{Scope, State, cut};
use js_units::NoMemory;
use path_core::Budget;
use sqlite_items::Boxed;

/// The names of the head are there, not initialised, and then declared.
fn declare_names<'a>(
    state: &mut State<'a>,
    frames: &mut Frames<'a>,
    l: ForLoop<'a>,
    kind: DeclarationKind,
    declarators: &'a [Declarator<Boxed<Expr>>],
) -> Result<Work<'a>, NoMemory>
    requires { FitFrames state.old frames.old }
    ensures leads { IfOk result (λ next. Leads state.old frames.old (λ view st w. opening (declared_of kind declarators.entry.now) (scope_of l.entry.outer) (place_of view st) (λ scope st. bind (declare expr declarators.entry.now (calling w) w.loops scope st) (on_normal (λ st. next_scope (copied l.entry.head.now) scope (scope_of l.entry.outer) st (on_for w (suc w.loops) l.entry))))) state.new frames.new next) }
    ensures falls { IfOk result (λ next. Falls state.old frames.old 60 state.new frames.new (cost_of_work next)) }
    ensures earns { IfOk result (λ next. Earns state.old state.new (credits frames.old) (credits frames.new + credit_of_work next)) }
    ensures fits { IfOk result (λ next. FitAll state.new frames.new next) }
{
    let opened = open_names(state, kind, declarators, l.outer)?;
    match opened {
        Err(completion) => Ok(Work::Give(completion)),
        Ok(scope) => {
            frames.push(Frame::ForDeclared(l, scope))?;
            Ok(Work::Declare(declarators, scope))
        }
    }
}

/// `for` is begun, with its head.
pub fn begin_for<'a>(
    state: &mut State<'a>,
    frames: &mut Frames<'a>,
    site: u32,
    head: &'a LoopHead<Boxed<Expr>>,
    test: &'a Option<Boxed<Expr>>,
    update: &'a Option<Boxed<Expr>>,
    body: &'a Boxed<Stmt>,
    scope: Scope,
) -> Result<Work<'a>, NoMemory>
    requires { FitFrames state.old frames.old }
    ensures leads { IfOk result (λ next. Execs state.old frames.old (For site head.entry.now test.entry.now update.entry.now body.entry.now) scope state.new frames.new next) }
    ensures falls { IfOk result (λ next. Falls state.old frames.old 1 state.new frames.new (cost_of_work next)) }
    ensures earns { IfOk result (λ next. Earns state.old state.new (credits frames.old) (credits frames.new + credit_of_work next)) }
    ensures fits { IfOk result (λ next. FitAll state.new frames.new next) }
{
    if !state.count() {
        return Ok(Work::Give(cut(site, Budget::Nodes)));
    }
    let l = ForLoop {
        site,
        head,
        test,
        update,
        body,
        outer: scope,
    };
    match head {
        LoopHead::Nothing => {
            let work = for_on(state, frames, l, scope)?;
            Ok(work)
        }
        LoopHead::Value(first) => {
            frames.push(Frame::Awaits(Part::ForValue(l)))?;
            Ok(Work::Eval(first, scope))
        }
        LoopHead::Declare { kind, declarators } => {
            let work = declare_names(state, frames, l, *kind, declarators.as_slice())?;
            Ok(work)
        }
    }
}
