//! Array and object literals, and lists of arguments (ECMA-262, sections 13.2.4, 13.2.5 and 13.3.8).

ghost use Rattle.std.specs.Prelude.{◌≡◌, ◌≤◌, ◌<◌, ◌+◌, ◌*◌, ◌++◌, ◌∷◌, [], map, decimal, IfOk, true, false};
ghost use Rattle.term_table.specs.Fitting.{Fits};
ghost use Rattle.term_table.specs.Views.{View, at as seen_at};
ghost use Rattle.js_ast.specs.declared.expression.Expr.TheVariants.{Array, Object};
ghost use Rattle.js_meaning.specs.Objects.{written, add_property};
ghost use Rattle.js_meaning.specs.Parts.{elements as elementing, members as membering, gather as gathering, member_key};
ghost use Rattle.js_meaning.specs.Meaning.{expr};
ghost use Rattle.js_meaning.specs.Running.{Outcome};
ghost use Rattle.js_meaning.specs.Values.{Place};
ghost use Rattle.js_state.specs.Fitting.{ErrStops, InReference};
ghost use Rattle.js_state.specs.Held.{scope_of, Contents};
ghost use Rattle.js_state.specs.Playing.{Still};
ghost use Rattle.js_state.specs.Seen.{place_of, MatchResult};
ghost use Rattle.js_frames.specs.Credit.{Earns, credits, credit_of_work, credit_of_gathered};
ghost use Rattle.js_frames.specs.Fitting.{FitFrames, FitAll, InGathered};
ghost use Rattle.js_frames.specs.Machine.{Evals, Continues, Leads, calling, aimed};
ghost use Rattle.js_frames.specs.Weight.{Falls, cost_of_work};
ghost use Rattle.js_frames.specs.declared.parts.Part.TheVariants.{Element, Member as AMember, Gathering};

use crate::values::name;
use js_ast::{Expr, Key, Member};
use js_frames::{Frame, Frames, Gathered, Part, Work};
use js_state::{Completion, Scope, State, cut, object};
use js_units::{NoMemory, Units};
use path_core::Budget;
use sqlite_items::Boxed;
use std::alloc::Global;
use term_table::Shadow;

/// The elements of an array literal from here on.
fn elements<'a>(
    frames: &mut Frames<'a>,
    site: u32,
    items: &'a [Boxed<Expr>],
    scope: Scope,
    id: u32,
) -> Result<Work<'a>, NoMemory>
    ensures leads { (st : Contents) → IfOk result (λ next. Leads st frames.old (λ view st w. elementing expr site items.entry.now (calling w) w.loops (scope_of scope) id (place_of view st)) st frames.new next) }
    ensures falls { (st : Contents) → IfOk result (λ next. Falls st frames.old 14 st frames.new (cost_of_work next)) }
    ensures earns { IfOk result (λ next. credits frames.new + credit_of_work next ≤ credits frames.old + 7) }
    ensures fits { (st : Contents) → FitFrames st frames.old → IfOk result (λ next. FitAll st frames.new next) }
{
    match items {
        [] => Ok(Work::Give(Completion::Value(object(id)))),
        [first, rest @ ..] => {
            frames.push(Frame::Awaits(Part::Element {
                site,
                rest,
                scope,
                object: id,
            }))?;
            Ok(Work::Eval(first, scope))
        }
    }
}

/// An array literal is begun; the array is there before its elements.
pub(crate) fn array<'a>(
    state: &mut State<'a>,
    frames: &mut Frames<'a>,
    site: u32,
    items: &'a [Boxed<Expr>],
    scope: Scope,
) -> Result<Work<'a>, NoMemory>
    requires { FitFrames state.old frames.old }
    ensures leads { IfOk result (λ next. Evals state.old frames.old (Array site items.entry.now) scope state.new frames.new next) }
    ensures falls { IfOk result (λ next. Falls state.old frames.old 1 state.new frames.new (cost_of_work next)) }
    ensures earns { IfOk result (λ next. Earns state.old state.new (credits frames.old) (credits frames.new + credit_of_work next)) }
    ensures fits { IfOk result (λ next. FitAll state.new frames.new next) }
{
    if !state.count() {
        return Ok(Work::Give(cut(site, Budget::Nodes)));
    }
    let made = state.new_array(site)?;
    match made {
        Err(completion) => Ok(Work::Give(completion)),
        Ok(id) => {
            let work = elements(frames, site, items, scope, id)?;
            Ok(work)
        }
    }
}

/// An element has its value.
pub fn element<'a>(
    state: &mut State<'a>,
    frames: &mut Frames<'a>,
    site: u32,
    rest: &'a [Boxed<Expr>],
    scope: Scope,
    id: u32,
    value: Shadow,
) -> Result<Work<'a>, NoMemory>
    requires frames { FitFrames state.old frames.old }
    requires value { Fits state.old.table value }
    ensures leads { IfOk result (λ next. Continues state.old frames.old (Element site rest.entry scope id) value state.new frames.new next) }
    ensures falls { IfOk result (λ next. Falls state.old frames.old 15 state.new frames.new (cost_of_work next)) }
    ensures earns { IfOk result (λ next. Earns state.old state.new (credits frames.old + 14) (credits frames.new + credit_of_work next)) }
    ensures fits { IfOk result (λ next. FitAll state.new frames.new next) }
{
    let added = state.add_item(site, id, value)?;
    match added {
        Err(completion) => Ok(Work::Give(completion)),
        Ok(()) => {
            let work = elements(frames, site, rest, scope, id)?;
            Ok(work)
        }
    }
}

/// The members of an object literal from here on.
fn members<'a>(
    state: &mut State<'a>,
    frames: &mut Frames<'a>,
    site: u32,
    list: &'a [Member<Boxed<Expr>>],
    scope: Scope,
    id: u32,
) -> Result<Work<'a>, NoMemory>
    requires { FitFrames state.old frames.old }
    ensures leads { IfOk result (λ next. Leads state.old frames.old (λ view st w. membering expr site list.entry.now (calling w) w.loops (scope_of scope) id (place_of view st)) state.new frames.new next) }
    ensures falls { IfOk result (λ next. Falls state.old frames.old 14 state.new frames.new (cost_of_work next)) }
    ensures earns { IfOk result (λ next. Earns state.old state.new (credits frames.old + 7) (credits frames.new + credit_of_work next)) }
    ensures fits { IfOk result (λ next. FitAll state.new frames.new next) }
{
    match list {
        [] => Ok(Work::Give(Completion::Value(object(id)))),
        [first, ..] => {
            frames.push(Frame::Awaits(Part::Member {
                site,
                members: list,
                scope,
                object: id,
            }))?;
            match first {
                Member::Value { value, .. } => Ok(Work::Eval(value, scope)),
                Member::Shorthand(shorthand) => {
                    let completion = name(state, shorthand, scope)?;
                    Ok(Work::Give(completion))
                }
            }
        }
    }
}

/// An object literal is begun; the object is there before its members.
pub(crate) fn plain<'a>(
    state: &mut State<'a>,
    frames: &mut Frames<'a>,
    site: u32,
    list: &'a [Member<Boxed<Expr>>],
    scope: Scope,
) -> Result<Work<'a>, NoMemory>
    requires { FitFrames state.old frames.old }
    ensures leads { IfOk result (λ next. Evals state.old frames.old (Object site list.entry.now) scope state.new frames.new next) }
    ensures falls { IfOk result (λ next. Falls state.old frames.old 1 state.new frames.new (cost_of_work next)) }
    ensures earns { IfOk result (λ next. Earns state.old state.new (credits frames.old) (credits frames.new + credit_of_work next)) }
    ensures fits { IfOk result (λ next. FitAll state.new frames.new next) }
{
    if !state.count() {
        return Ok(Work::Give(cut(site, Budget::Nodes)));
    }
    let made = state.new_plain(site)?;
    match made {
        Err(completion) => Ok(Work::Give(completion)),
        Ok(id) => {
            let work = members(state, frames, site, list, scope, id)?;
            Ok(work)
        }
    }
}

/// The key of a number is its decimal text.
fn number_key(alloc: Global, number: u64) -> Result<Units, NoMemory>
    ensures { IfOk result (λ key. key ≡ decimal number) }
{
    let text = number.to_string(alloc)?;
    let key = Units::from_bytes(alloc, text.as_bytes())?;
    Ok(key)
}

/// A member is set.
fn set<'a>(
    alloc: Global,
    state: &mut State<'a>,
    site: u32,
    id: u32,
    member: &Member<Boxed<Expr>>,
    value: Shadow,
) -> Result<Result<(), Completion>, NoMemory>
    requires { Fits state.old.table value }
    ensures goes { IfOk result (λ o. (view : View) (go : Place → Outcome) → written (add_property site (place_of view state.old).objects id (member_key member.now) (seen_at view value)) (place_of view state.old) go ≡ MatchResult view (λ x. x) o (place_of view state.new) (λ x st. go st)) }
    ensures still { IfOk result (λ o. Still state.old state.new) }
    ensures stops { IfOk result (λ o. ErrStops o) }
{
    match member {
        Member::Value { key, .. } => match key {
            Key::Text(text) => {
                let set = state.add_property(site, id, text, value)?;
                Ok(set)
            }
            Key::Number(number) => {
                let key = number_key(alloc, *number)?;
                let set = state.add_property(site, id, &key, value)?;
                Ok(set)
            }
        },
        Member::Shorthand(shorthand) => {
            let set = state.add_property(site, id, &shorthand.name, value)?;
            Ok(set)
        }
    }
}

/// The first of these members has its value.
pub fn member<'a>(
    alloc: Global,
    state: &mut State<'a>,
    frames: &mut Frames<'a>,
    site: u32,
    list: &'a [Member<Boxed<Expr>>],
    scope: Scope,
    id: u32,
    value: Shadow,
) -> Result<Work<'a>, NoMemory>
    requires frames { FitFrames state.old frames.old }
    requires value { Fits state.old.table value }
    ensures leads { IfOk result (λ next. Continues state.old frames.old (AMember site list.entry scope id) value state.new frames.new next) }
    ensures falls { IfOk result (λ next. Falls state.old frames.old 15 state.new frames.new (cost_of_work next)) }
    ensures earns { IfOk result (λ next. Earns state.old state.new (credits frames.old + 14) (credits frames.new + credit_of_work next)) }
    ensures fits { IfOk result (λ next. FitAll state.new frames.new next) }
{
    match list {
        [] => {
            drop(value);
            Ok(Work::Give(Completion::Value(object(id))))
        }
        [first, rest @ ..] => {
            let added = set(alloc, state, site, id, first, value)?;
            match added {
                Err(completion) => Ok(Work::Give(completion)),
                Ok(()) => {
                    let work = members(state, frames, site, rest, scope, id)?;
                    Ok(work)
                }
            }
        }
    }
}

/// The arguments from here on.
pub(crate) fn gather<'a>(
    frames: &mut Frames<'a>,
    gathered: Boxed<Gathered<'a>>,
    rest: &'a [Boxed<Expr>],
) -> Result<Work<'a>, NoMemory>
    ensures leads { (st : Contents) → IfOk result (λ next. Leads st frames.old (λ view st w. gathering expr rest.entry.now (calling w) w.loops (scope_of gathered.entry.scope) (map (seen_at view) gathered.entry.values) (aimed view w gathered.entry.aim gathered.entry.scope) (place_of view st)) st frames.new next) }
    ensures falls { (st : Contents) → IfOk result (λ next. Falls st frames.old 18 st frames.new (cost_of_work next)) }
    ensures earns { IfOk result (λ next. credits frames.new + credit_of_work next ≤ credits frames.old + credit_of_gathered gathered.entry) }
    ensures fits { (st : Contents) → FitFrames st frames.old → InGathered (Fits st.table) gathered.entry → IfOk result (λ next. FitAll st frames.new next) }
{
    match rest {
        [] => Ok(Work::Invoke(gathered)),
        [first, more @ ..] => {
            let scope = gathered.get().scope;
            frames.push(Frame::Awaits(Part::Gathering {
                gathered,
                rest: more,
            }))?;
            Ok(Work::Eval(first, scope))
        }
    }
}

/// The arguments so far, and one more.
fn with_value<'a>(
    alloc: Global,
    gathered: Boxed<Gathered<'a>>,
    value: Shadow,
) -> Result<Boxed<Gathered<'a>>, NoMemory>
    ensures { IfOk result (λ more. more ≡ record gathered.entry { values = gathered.entry.values ++ value ∷ [] }) }
{
    let Gathered { values, aim, scope } = gathered.into_inner();
    let mut values = values;
    values.push(value)?;
    let more = Boxed::new(alloc, Gathered { values, aim, scope })?;
    Ok(more)
}

/// An argument has its value.
pub fn argument<'a>(
    alloc: Global,
    state: &State<'a>,
    frames: &mut Frames<'a>,
    gathered: Boxed<Gathered<'a>>,
    rest: &'a [Boxed<Expr>],
    value: Shadow,
) -> Result<Work<'a>, NoMemory>
    requires frames { FitFrames state.now frames.old }
    requires gathered { InGathered (Fits state.now.table) gathered }
    requires value { Fits state.now.table value }
    ensures leads { IfOk result (λ next. Continues state.now frames.old (Gathering gathered.entry rest.entry) value state.now frames.new next) }
    ensures falls { IfOk result (λ next. Falls state.now frames.old 19 state.now frames.new (cost_of_work next)) }
    ensures earns { IfOk result (λ next. Earns state.now state.now (credits frames.old + credit_of_gathered gathered.entry + 7) (credits frames.new + credit_of_work next)) }
    ensures fits { IfOk result (λ next. FitAll state.now frames.new next) }
{
    let more = with_value(alloc, gathered, value)?;
    let work = gather(frames, more, rest)?;
    Ok(work)
}
