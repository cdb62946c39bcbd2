//! A function is activated: its turn, its scope and its parameters (ECMA-262, sections 10.2.1 and 10.2.11).

ghost use Rattle.std.specs.Prelude.{◌≡◌, suc, map, List, IfOk, OnOk};
ghost use Rattle.term_table.specs.Fitting.{Fits};
ghost use Rattle.term_table.specs.Views.{View, at as seen_at};
ghost use Rattle.term_table.specs.declared.term.Term.{Term};
ghost use Rattle.js_meaning.specs.Blocks.{first_of, rest_of, open_parameters as opening, with_this, activate as activating};
ghost use Rattle.js_meaning.specs.Running.{Outcome};
ghost use Rattle.js_meaning.specs.Values.{Place, Scope as SpecScope};
ghost use Rattle.js_state.specs.Fitting.{AllOf, ErrStops};
ghost use Rattle.js_state.specs.Held.{scope_of, this_of, code_of};
ghost use Rattle.js_state.specs.Playing.{Quiet, Still};
ghost use Rattle.js_state.specs.Seen.{place_of, MatchResult};

use js_ast::Identifier;
use js_state::{Closure, Completion, Scope, State, UNDEFINED, cut, share};
use js_units::NoMemory;
use path_core::Budget;
use term_table::Shadow;

/// The first of these arguments, as a copy; a missing one is undefined.
fn argument(values: &[Shadow]) -> Result<Shadow, NoMemory>
    ensures value { IfOk result (λ s. (view : View) → seen_at view s ≡ first_of (map (seen_at view) values.now)) }
    ensures fits { (terms : List Term) → AllOf (Fits terms) values.now → IfOk result (λ s. Fits terms s) }
{
    match values {
        [] => Ok(UNDEFINED),
        [first, ..] => {
            let copy = share(first)?;
            Ok(copy)
        }
    }
}

/// The arguments behind the first.
fn further<'b>(values: &'b [Shadow]) -> &'b [Shadow]
    ensures seen { (view : View) → map (seen_at view) result.now ≡ rest_of (map (seen_at view) values.now) }
    ensures fits { (terms : List Term) → AllOf (Fits terms) values.now → AllOf (Fits terms) result.now }
{
    match values {
        [] => values,
        [_, rest @ ..] => rest,
    }
}

/// A binding for each parameter, with its argument, and the scope inside them. Further arguments are left out.
fn parameters<'a>(
    state: &mut State<'a>,
    names: &'a [Identifier],
    values: &[Shadow],
    scope: Scope,
) -> Result<Result<Scope, Completion>, NoMemory>
    requires { AllOf (Fits state.old.table) values.now }
    ensures goes { IfOk result (λ o. (view : View) (go : SpecScope → Place → Outcome) → opening names.entry.now (map (seen_at view) values.now) (scope_of scope) (place_of view state.old) go ≡ MatchResult view scope_of o (place_of view state.new) go) }
    ensures still { IfOk result (λ o. Still state.old state.new) }
    ensures stops { IfOk result (λ o. ErrStops o) }
{
    let mut inner = scope;
    let mut left = names;
    let mut given = values;
    while let [first, rest @ ..] = left {
        let value = argument(given)?;
        let opened = state.open_cell(first.site, &first.name, true, Some(value), inner)?;
        match opened {
            Err(completion) => return Ok(Err(completion)),
            Ok(opened) => inner = opened,
        }
        given = further(given);
        left = rest;
    }
    Ok(Ok(inner))
}

/// The scope around the parameters: a function has the `this` of its call, an arrow the one around it (section 10.2.1.2).
fn scope_around(closure: Closure, this: Option<u32>) -> Scope
    ensures { scope_of result ≡ with_this closure.entry.is_arrow (this_of this) (scope_of closure.entry.scope) }
{
    if closure.is_arrow {
        closure.scope
    } else {
        Scope {
            cell: closure.scope.cell,
            this,
        }
    }
}

/// A call takes a turn, and opens the scope of its function. No turn left stops the run at the call.
pub(crate) fn activate<'a>(
    state: &mut State<'a>,
    site: u32,
    closure: Closure<'a>,
    this: Option<u32>,
    values: &[Shadow],
) -> Result<Result<Scope, Completion>, NoMemory>
    requires { AllOf (Fits state.old.table) values.now }
    ensures goes { IfOk result (λ o. (view : View) (go : SpecScope → Place → Outcome) → activating site (code_of closure.entry) (this_of this) (map (seen_at view) values.now) (place_of view state.old) go ≡ MatchResult view scope_of o (place_of view state.new) go) }
    ensures quiet { IfOk result (λ o. Quiet state.old state.new) }
    ensures nodes { IfOk result (λ o. state.new.nodes ≡ state.old.nodes) }
    ensures taken { IfOk result (λ o. OnOk o (suc state.new.turns ≡ state.old.turns)) }
    ensures stops { IfOk result (λ o. ErrStops o) }
{
    if !state.take_turn() {
        return Ok(Err(cut(site, Budget::Turns)));
    }
    let scope = scope_around(closure, this);
    let opened = parameters(state, closure.parameters, values, scope)?;
    Ok(opened)
}
