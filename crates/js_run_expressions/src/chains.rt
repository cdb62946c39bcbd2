//! Chains of suffixes: properties, keys in brackets and calls (ECMA-262, section 13.3).

ghost use Rattle.std.specs.Prelude.{◌≡◌, ◌≤◌, ◌<◌, ◌+◌, ◌*◌, ◌∷◌, length, IfOk, true, false};
ghost use Rattle.term_table.specs.Fitting.{Fits};
ghost use Rattle.js_ast.specs.declared.parts.Suffix.TheVariants.{Access as AnAccess, Call};
ghost use Rattle.js_ast.specs.declared.parts.Access.TheVariants.{Property, Index};
ghost use Rattle.term_table.specs.Views.{View, at as seen_at};
ghost use Rattle.js_meaning.specs.Running.{callee, intrinsic};
ghost use Rattle.js_meaning.specs.Values.{Value};
ghost use Rattle.js_state.specs.Builtins.{builtin_text};
ghost use Rattle.js_state.specs.Fitting.{InReference};
ghost use Rattle.js_state.specs.Seen.{place_of, reference_at};
ghost use Rattle.js_frames.specs.Credit.{Earns, credits, credit_of_work};
ghost use Rattle.js_frames.specs.Fitting.{FitFrames, FitAll};
ghost use Rattle.js_frames.specs.Machine.{Continues, Leads, on_chain};
ghost use Rattle.js_frames.specs.Weight.{Falls, cost_of_work};
ghost use Rattle.js_frames.specs.declared.parts.Part.TheVariants.{IndexKey, BuiltinKey};

use crate::lists::gather;
use js_ast::{Access, Expr, Suffix};
use js_frames::{Aim, Frame, Frames, Gathered, Part, Work};
use js_state::{Builtin, Completion, Reference, Scope, State, cut};
use js_units::{NoMemory, Units};
use path_core::{Budget, Why};
use sqlite_items::{Boxed, Items};
use std::alloc::Global;
use term_table::Shadow;

/// A property by a static key.
fn property<'a>(
    state: &mut State<'a>,
    frames: &mut Frames<'a>,
    reference: Reference,
    site: u32,
    name: &'a Units,
    rest: &'a [Suffix<Boxed<Expr>>],
    scope: Scope,
) -> Result<Work<'a>, NoMemory>
    requires frames { FitFrames state.old frames.old }
    requires reference { InReference (Fits state.old.table) reference }
    ensures leads { IfOk result (λ next. Leads state.old frames.old (λ view st w. on_chain w (AnAccess (Property site name.entry.now) ∷ rest.entry.now) scope (reference_at view reference) (place_of view st)) state.new frames.new next) }
    ensures falls { IfOk result (λ next. Falls state.old frames.old 3 state.new frames.new (cost_of_work next)) }
    ensures earns { IfOk result (λ next. Earns state.old state.new (credits frames.old + 7) (credits frames.new + credit_of_work next)) }
    ensures fits { IfOk result (λ next. FitAll state.new frames.new next) }
{
    let settled = state.settle(&reference);
    match settled {
        Err(completion) => {
            drop(reference);
            Ok(Work::Give(completion))
        }
        Ok(()) => {
            if !state.count() {
                drop(reference);
                return Ok(Work::Give(cut(site, Budget::Nodes)));
            }
            let completion = state.property(site, &reference, name)?;
            frames.push(Frame::Chain {
                suffixes: rest,
                scope,
            })?;
            Ok(Work::Give(completion))
        }
    }
}

/// A key in brackets behind a value is begun.
fn index<'a>(
    state: &mut State<'a>,
    frames: &mut Frames<'a>,
    base: Shadow,
    site: u32,
    is_static: bool,
    key: &'a Boxed<Expr>,
    rest: &'a [Suffix<Boxed<Expr>>],
    scope: Scope,
) -> Result<Work<'a>, NoMemory>
    requires frames { FitFrames state.old frames.old }
    requires base { Fits state.old.table base }
    ensures leads { (this : Value) → IfOk result (λ next. Leads state.old frames.old (λ view st w. on_chain w (AnAccess (Index site is_static key.entry.now) ∷ rest.entry.now) scope (callee (seen_at view base) this) (place_of view st)) state.new frames.new next) }
    ensures falls { IfOk result (λ next. Falls state.old frames.old 3 state.new frames.new (cost_of_work next)) }
    ensures earns { IfOk result (λ next. Earns state.old state.new (credits frames.old + 7) (credits frames.new + credit_of_work next)) }
    ensures fits { IfOk result (λ next. FitAll state.new frames.new next) }
{
    if !state.count() {
        drop(base);
        return Ok(Work::Give(cut(site, Budget::Nodes)));
    }
    frames.push(Frame::Awaits(Part::IndexKey {
        site,
        is_static,
        base,
        suffixes: rest,
        scope,
    }))?;
    Ok(Work::Eval(key, scope))
}

/// A key in brackets behind a built-in name is begun.
fn builtin_index<'a>(
    state: &mut State<'a>,
    frames: &mut Frames<'a>,
    at: u32,
    builtin: Builtin,
    site: u32,
    is_static: bool,
    key: &'a Boxed<Expr>,
    rest: &'a [Suffix<Boxed<Expr>>],
    scope: Scope,
) -> Result<Work<'a>, NoMemory>
    requires frames { FitFrames state.old frames.old }
    ensures leads { IfOk result (λ next. Leads state.old frames.old (λ view st w. on_chain w (AnAccess (Index site is_static key.entry.now) ∷ rest.entry.now) scope (intrinsic at (builtin_text builtin)) (place_of view st)) state.new frames.new next) }
    ensures falls { IfOk result (λ next. Falls state.old frames.old 3 state.new frames.new (cost_of_work next)) }
    ensures earns { IfOk result (λ next. Earns state.old state.new (credits frames.old + 7) (credits frames.new + credit_of_work next)) }
    ensures fits { IfOk result (λ next. FitAll state.new frames.new next) }
{
    if !state.count() {
        return Ok(Work::Give(cut(site, Budget::Nodes)));
    }
    frames.push(Frame::Awaits(Part::BuiltinKey {
        site,
        is_static,
        at,
        name: builtin,
        suffixes: rest,
        scope,
    }))?;
    Ok(Work::Eval(key, scope))
}

/// A key in brackets is begun.
fn bracket<'a>(
    state: &mut State<'a>,
    frames: &mut Frames<'a>,
    reference: Reference,
    site: u32,
    is_static: bool,
    key: &'a Boxed<Expr>,
    rest: &'a [Suffix<Boxed<Expr>>],
    scope: Scope,
) -> Result<Work<'a>, NoMemory>
    requires frames { FitFrames state.old frames.old }
    requires reference { InReference (Fits state.old.table) reference }
    ensures leads { IfOk result (λ next. Leads state.old frames.old (λ view st w. on_chain w (AnAccess (Index site is_static key.entry.now) ∷ rest.entry.now) scope (reference_at view reference) (place_of view st)) state.new frames.new next) }
    ensures falls { IfOk result (λ next. Falls state.old frames.old 3 state.new frames.new (cost_of_work next)) }
    ensures earns { IfOk result (λ next. Earns state.old state.new (credits frames.old + 7) (credits frames.new + credit_of_work next)) }
    ensures fits { IfOk result (λ next. FitAll state.new frames.new next) }
{
    match reference {
        Reference::Callee { value, this: _ } => {
            let work = index(state, frames, value, site, is_static, key, rest, scope)?;
            Ok(work)
        }
        Reference::Intrinsic { site: at, name } => {
            let work = builtin_index(state, frames, at, name, site, is_static, key, rest, scope)?;
            Ok(work)
        }
        Reference::Static { site: at, key: _ } => Ok(Work::Give(state.left(at, Why::Builtin))),
        Reference::Method {
            site: at,
            base,
            method: _,
        } => {
            drop(base);
            Ok(Work::Give(state.left(at, Why::Builtin)))
        }
    }
}

/// A call is begun.
fn call<'a>(
    alloc: Global,
    state: &mut State<'a>,
    frames: &mut Frames<'a>,
    reference: Reference,
    site: u32,
    arguments: &'a [Boxed<Expr>],
    rest: &'a [Suffix<Boxed<Expr>>],
    scope: Scope,
) -> Result<Work<'a>, NoMemory>
    requires frames { FitFrames state.old frames.old }
    requires reference { InReference (Fits state.old.table) reference }
    ensures leads { IfOk result (λ next. Leads state.old frames.old (λ view st w. on_chain w (Call site arguments.entry.now ∷ rest.entry.now) scope (reference_at view reference) (place_of view st)) state.new frames.new next) }
    ensures falls { IfOk result (λ next. Falls state.old frames.old 3 state.new frames.new (cost_of_work next)) }
    ensures earns { IfOk result (λ next. Earns state.old state.new (credits frames.old + 7) (credits frames.new + credit_of_work next)) }
    ensures fits { IfOk result (λ next. FitAll state.new frames.new next) }
{
    if !state.count() {
        drop(reference);
        return Ok(Work::Give(cut(site, Budget::Nodes)));
    }
    let aim = Aim::Call {
        site,
        reference,
        suffixes: rest,
    };
    let values = Items::new(alloc);
    let gathered = Boxed::new(alloc, Gathered { values, aim, scope })?;
    let work = gather(frames, gathered, arguments)?;
    Ok(work)
}

/// The next suffix, behind what the chain has come to.
pub fn chain<'a>(
    alloc: Global,
    state: &mut State<'a>,
    frames: &mut Frames<'a>,
    suffixes: &'a [Suffix<Boxed<Expr>>],
    scope: Scope,
    reference: Reference,
) -> Result<Work<'a>, NoMemory>
    requires frames { FitFrames state.old frames.old }
    requires reference { InReference (Fits state.old.table) reference }
    ensures leads { IfOk result (λ next. Leads state.old frames.old (λ view st w. on_chain w suffixes.entry.now scope (reference_at view reference) (place_of view st)) state.new frames.new next) }
    ensures falls { 1 ≤ length suffixes.entry.now → IfOk result (λ next. Falls state.old frames.old 3 state.new frames.new (cost_of_work next)) }
    ensures earns { IfOk result (λ next. Earns state.old state.new (credits frames.old + 7) (credits frames.new + credit_of_work next)) }
    ensures fits { IfOk result (λ next. FitAll state.new frames.new next) }
{
    match suffixes {
        [] => Ok(Work::Give(Completion::Refers(reference))),
        [first, rest @ ..] => match first {
            Suffix::Access(access) => match access {
                Access::Property { site, name } => {
                    let work = property(state, frames, reference, *site, name, rest, scope)?;
                    Ok(work)
                }
                Access::Index {
                    site,
                    is_static,
                    key,
                } => {
                    let work = bracket(
                        state, frames, reference, *site, *is_static, key, rest, scope,
                    )?;
                    Ok(work)
                }
            },
            Suffix::Call { site, arguments } => {
                let work = call(
                    alloc,
                    state,
                    frames,
                    reference,
                    *site,
                    arguments.as_slice(),
                    rest,
                    scope,
                )?;
                Ok(work)
            }
        },
    }
}

/// A key in brackets behind a value has its value.
pub fn index_key<'a>(
    state: &mut State<'a>,
    frames: &mut Frames<'a>,
    site: u32,
    is_static: bool,
    base: Shadow,
    suffixes: &'a [Suffix<Boxed<Expr>>],
    scope: Scope,
    key: Shadow,
) -> Result<Work<'a>, NoMemory>
    requires frames { FitFrames state.old frames.old }
    requires base { Fits state.old.table base }
    requires key { Fits state.old.table key }
    ensures leads { IfOk result (λ next. Continues state.old frames.old (IndexKey site is_static base suffixes.entry scope) key state.new frames.new next) }
    ensures falls { IfOk result (λ next. Falls state.old frames.old 17 state.new frames.new (cost_of_work next)) }
    ensures earns { IfOk result (λ next. Earns state.old state.new (credits frames.old + 22) (credits frames.new + credit_of_work next)) }
    ensures fits { IfOk result (λ next. FitAll state.new frames.new next) }
{
    let completion = state.bracket(site, is_static, &base, &key)?;
    frames.push(Frame::Chain { suffixes, scope })?;
    Ok(Work::Give(completion))
}

/// A key in brackets behind a built-in name has its value.
pub fn builtin_key<'a>(
    state: &mut State<'a>,
    frames: &mut Frames<'a>,
    site: u32,
    is_static: bool,
    at: u32,
    builtin: Builtin,
    suffixes: &'a [Suffix<Boxed<Expr>>],
    scope: Scope,
    key: Shadow,
) -> Result<Work<'a>, NoMemory>
    requires frames { FitFrames state.old frames.old }
    requires key { Fits state.old.table key }
    ensures leads { IfOk result (λ next. Continues state.old frames.old (BuiltinKey site is_static at builtin suffixes.entry scope) key state.new frames.new next) }
    ensures falls { IfOk result (λ next. Falls state.old frames.old 17 state.new frames.new (cost_of_work next)) }
    ensures earns { IfOk result (λ next. Earns state.old state.new (credits frames.old + 22) (credits frames.new + credit_of_work next)) }
    ensures fits { IfOk result (λ next. FitAll state.new frames.new next) }
{
    let completion = state.builtin_bracket(site, is_static, builtin, &key);
    frames.push(Frame::Chain { suffixes, scope })?;
    Ok(Work::Give(completion))
}
