//! A statement is begun (ECMA-262, section 14).

ghost use Rattle.std.specs.Prelude.{◌≡◌, ◌≤◌, ◌<◌, ◌+◌, ◌*◌, [], List, Option, IfOk, true, false};
ghost use Rattle.js_ast.specs.declared.statement.Stmt.{Stmt as SpecStmt};
ghost use Rattle.js_ast.specs.declared.statement.Stmt.TheVariants.{If};
ghost use Rattle.term_table.specs.Fitting.{Fits};
ghost use Rattle.term_table.specs.Views.{View};
ghost use Rattle.js_meaning.specs.Meaning.{stmt};
ghost use Rattle.js_meaning.specs.Running.{Outcome, count as counting};
ghost use Rattle.js_meaning.specs.Values.{Place};
ghost use Rattle.js_state.specs.Held.{Contents};
ghost use Rattle.js_state.specs.Seen.{place_of};
ghost use Rattle.js_frames.specs.Credit.{Earns, credits, credit_of_work};
ghost use Rattle.js_frames.specs.Fitting.{FitFrames, FitAll, InWork};
ghost use Rattle.js_frames.specs.Machine.{Fuel, Execs, Leads, thread};
ghost use Rattle.js_frames.specs.Weight.{Falls, cost_of_exec, cost_of_work};
ghost use Rattle.js_frames.specs.declared.frames.Frame.{Frame as SpecFrame};
ghost use Rattle.js_frames.specs.Idle.{is_idle as idle};

use crate::arms::arms_from;
use crate::tries::begin_try;
use crate::values::begin_value;
use js_ast::Stmt;
use js_frames::{Frames, Part, Work, is_idle};
use js_run_loops::{begin_do, begin_for, begin_of, begin_while};
use js_state::{Completion, Scope, State, UNDEFINED, cut};
use js_units::NoMemory;
use path_core::Budget;

/// What is begun in the place of a statement: an `if` with no arms, which no script spells, counts no node.
fn begun<'a>(tree: &'a Stmt) -> &'a Stmt
    ensures means { stmt result.now ≡ stmt tree.entry.now }
    ensures counts { idle tree.entry.now ≡ false → (alternate : Option SpecStmt) → result.now ≡ If [] alternate → ⊥ }
{
    let mut part = tree;
    'down: loop {
        match part {
            Stmt::If { arms, alternate } => {
                if arms.len() > 0 {
                    return part;
                }
                match alternate {
                    None => return part,
                    Some(other) => part = other.get(),
                }
            }
            _ => return part,
        }
    }
}

/// A node counts at a site, before what is done next.
fn counted<'a>(state: &mut State<'a>, site: u32, next: Work<'a>) -> Work<'a>
    requires next { InWork (Fits state.old.table) next }
    requires cost { cost_of_work next ≤ 60 }
    requires credit { credit_of_work next ≤ 8 }
    ensures leads { (fs : List SpecFrame) (go : View → Fuel → Place → Outcome) → ((view : View) (w : Fuel) (st : Contents) → thread view next.entry st w ≡ go view w (place_of view st)) → Leads state.old fs (λ view st w. counting site (place_of view st) (go view w)) state.new fs result }
    ensures falls { Falls state.old [] 1 state.new [] (cost_of_work result) }
    ensures earns { Earns state.old state.new 0 (credit_of_work result) }
    ensures fits { InWork (Fits state.new.table) result }
    ensures table { state.new.table ≡ state.old.table }
{
    if !state.count() {
        drop(next);
        return Work::Give(cut(site, Budget::Nodes));
    }
    next
}

/// A statement is begun that is no `if` without arms.
fn begin<'a>(
    state: &mut State<'a>,
    frames: &mut Frames<'a>,
    tree: &'a Stmt,
    scope: Scope,
) -> Result<Work<'a>, NoMemory>
    requires { FitFrames state.old frames.old }
    ensures leads { IfOk result (λ next. Execs state.old frames.old tree.entry.now scope state.new frames.new next) }
    ensures falls { ((alternate : Option SpecStmt) → tree.entry.now ≡ If [] alternate → ⊥) → IfOk result (λ next. Falls state.old frames.old 1 state.new frames.new (cost_of_work next)) }
    ensures earns { IfOk result (λ next. Earns state.old state.new (credits frames.old) (credits frames.new + credit_of_work next)) }
    ensures fits { IfOk result (λ next. FitAll state.new frames.new next) }
{
    match tree {
        Stmt::Block { site, body } => {
            let next = Work::Enter(body.as_slice(), scope);
            Ok(counted(state, *site, next))
        }
        Stmt::Nothing { site } => Ok(counted(state, *site, Work::Give(Completion::Normal))),
        Stmt::Declare {
            site,
            declarators,
            ..
        } => {
            let next = Work::Declare(declarators.as_slice(), scope);
            Ok(counted(state, *site, next))
        }
        Stmt::Function { site, .. } => Ok(counted(state, *site, Work::Give(Completion::Normal))),
        Stmt::Express { site, value } => {
            let work = begin_value(state, frames, *site, Part::ExpressDone, value, scope)?;
            Ok(work)
        }
        Stmt::If { arms, alternate } => {
            let work = arms_from(state, frames, arms.as_slice(), alternate, scope)?;
            Ok(work)
        }
        Stmt::While { site, test, body } => {
            let work = begin_while(state, frames, *site, test, body, scope)?;
            Ok(work)
        }
        Stmt::Do {
            site,
            body,
            test_site,
            test,
        } => {
            let work = begin_do(state, frames, *site, body, *test_site, test, scope)?;
            Ok(work)
        }
        Stmt::For {
            site,
            head,
            test,
            update,
            body,
        } => {
            let work = begin_for(state, frames, *site, head, test, update, body, scope)?;
            Ok(work)
        }
        Stmt::ForOf {
            site,
            kind,
            name,
            items,
            body,
        } => {
            let work = begin_of(state, frames, *site, *kind, name, items, body, scope)?;
            Ok(work)
        }
        Stmt::Break { site } => Ok(counted(state, *site, Work::Give(Completion::Break))),
        Stmt::Continue { site } => Ok(counted(state, *site, Work::Give(Completion::Continue))),
        Stmt::Return { site, value } => match value {
            None => {
                let completion = Completion::Return(UNDEFINED);
                Ok(counted(state, *site, Work::Give(completion)))
            }
            Some(value) => {
                let work = begin_value(state, frames, *site, Part::ReturnDone, value, scope)?;
                Ok(work)
            }
        },
        Stmt::Throw { site, value } => {
            let waiting = Part::ThrowDone { site: *site };
            let work = begin_value(state, frames, *site, waiting, value, scope)?;
            Ok(work)
        }
        Stmt::Try {
            site,
            body,
            catch,
            finally,
        } => {
            let work = begin_try(state, frames, *site, body.as_slice(), catch, finally, scope)?;
            Ok(work)
        }
    }
}

/// A statement is begun. One that counts no node, as no script spells it, is done at once.
pub fn exec<'a>(
    state: &mut State<'a>,
    frames: &mut Frames<'a>,
    tree: &'a Stmt,
    scope: Scope,
) -> Result<Work<'a>, NoMemory>
    requires { FitFrames state.old frames.old }
    ensures leads { IfOk result (λ next. Execs state.old frames.old tree.entry.now scope state.new frames.new next) }
    ensures falls { IfOk result (λ next. Falls state.old frames.old (cost_of_exec (idle tree.entry.now)) state.new frames.new (cost_of_work next)) }
    ensures earns { IfOk result (λ next. Earns state.old state.new (credits frames.old) (credits frames.new + credit_of_work next)) }
    ensures fits { IfOk result (λ next. FitAll state.new frames.new next) }
{
    if is_idle(tree) {
        return Ok(Work::Give(Completion::Normal));
    }
    let part = begun(tree);
    let work = begin(state, frames, part, scope)?;
    Ok(work)
}
