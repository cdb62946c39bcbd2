//! Expressions that are values at once (ECMA-262, sections 13.1 and 13.2).

ghost use Rattle.std.specs.Prelude.{◌≡◌, ◌≤◌, ◌<◌, ◌+◌, ◌*◌, [], pos, length, IfOk, true, false};
ghost use Rattle.path_core.specs.declared.path.Why.TheVariants as why;
ghost use Rattle.term_table.specs.Fitting.{Fits, IsValue};
ghost use Rattle.term_table.specs.Views.{View, plain_value};
ghost use Rattle.js_meaning.specs.Meaning.{number_literal, text_literal};
ghost use Rattle.js_meaning.specs.Names.{read_name as reading};
ghost use Rattle.js_meaning.specs.Running.{count as counting, done, given};
ghost use Rattle.js_meaning.specs.Values.{int};
ghost use Rattle.js_values.specs.Numbers.{is_safe};
ghost use Rattle.js_state.specs.Fitting.{InCompletion};
ghost use Rattle.js_state.specs.Held.{scope_of, this_of};
ghost use Rattle.js_state.specs.Playing.{Quiet};
ghost use Rattle.js_state.specs.Seen.{place_of};
ghost use Rattle.js_state.specs.Spending.{credit_of_given};
ghost use Rattle.js_frames.specs.Credit.{Earns};
ghost use Rattle.js_frames.specs.Machine.{Gives};
ghost use Rattle.js_frames.specs.Weight.{Falls, cost_of_given};

use js_ast::Identifier;
use js_state::{Completion, Scope, State, cut};
use js_units::{NoMemory, Units};
use path_core::{Budget, Why};
use std::alloc::Global;
use term_table::{Plain, Shadow, Text};

const TEXT_LIMIT: usize = 65_536;

const MOST_SAFE: u64 = 9_007_199_254_740_991;

/// A name that is read.
pub(crate) fn name(
    state: &mut State,
    name: &Identifier,
    scope: Scope,
) -> Result<Completion, NoMemory>
    ensures gives { IfOk result (λ completion. Gives (λ view. counting name.now.site (place_of view state.old) (λ st. reading name.now.site name.now.name (scope_of scope) st)) state.new completion) }
    ensures quiet { IfOk result (λ completion. Quiet state.old state.new) }
    ensures falls { IfOk result (λ completion. Falls state.old [] 1 state.new [] (cost_of_given completion)) }
    ensures earns { IfOk result (λ completion. Earns state.old state.new 0 (credit_of_given completion)) }
    ensures fits { IfOk result (λ completion. InCompletion (Fits state.new.table) completion) }
{
    if !state.count() {
        return Ok(cut(name.site, Budget::Nodes));
    }
    let completion = state.read_name(name.site, &name.name, scope)?;
    Ok(completion)
}

/// The object that is `this`, or undefined.
pub(crate) fn this_plain(this: Option<u32>) -> Plain
    ensures value { plain_value result ≡ this_of this }
    ensures fits { IsValue result }
{
    match this {
        Some(id) => Plain::Object(id),
        None => Plain::Undefined,
    }
}

/// A value that needs no memory.
pub(crate) fn constant(state: &mut State, site: u32, plain: Plain) -> Completion
    requires { IsValue plain }
    ensures gives { Gives (λ view. counting site (place_of view state.old) (λ st. done st (given (plain_value plain)))) state.new result }
    ensures quiet { Quiet state.old state.new }
    ensures falls { Falls state.old [] 1 state.new [] (cost_of_given result) }
    ensures earns { Earns state.old state.new 0 (credit_of_given result) }
    ensures fits { InCompletion (Fits state.new.table) result }
{
    if !state.count() {
        drop(plain);
        return cut(site, Budget::Nodes);
    }
    Completion::Value(Shadow { plain, term: None })
}

/// A whole number that the script spells. One above 2^53 - 1, which no script spells, leaves the profile.
#[tactic(auto, using(std::proofs::lemmas::Bool::Decides::nat_tests))]
pub(crate) fn number(state: &mut State, site: u32, value: u64) -> Completion
    ensures gives { Gives (λ view. counting site (place_of view state.old) (λ st. number_literal site value st)) state.new result }
    ensures quiet { Quiet state.old state.new }
    ensures falls { Falls state.old [] 1 state.new [] (cost_of_given result) }
    ensures earns { Earns state.old state.new 0 (credit_of_given result) }
    ensures fits { InCompletion (Fits state.new.table) result }
{
    if !state.count() {
        return cut(site, Budget::Nodes);
    }
    if value > MOST_SAFE {
        return state.left(site, Why::Size);
    }
    Completion::Value(Shadow {
        plain: Plain::Int(value as i64),
        term: None,
    })
}

/// A text that the script spells. One of more than 65,536 units leaves the profile.
#[tactic(auto, using(std::proofs::lemmas::Bool::Decides::nat_tests))]
pub(crate) fn text(
    alloc: Global,
    state: &mut State,
    site: u32,
    value: &Units,
) -> Result<Completion, NoMemory>
    ensures gives { IfOk result (λ completion. Gives (λ view. counting site (place_of view state.old) (λ st. text_literal site value.now st)) state.new completion) }
    ensures quiet { IfOk result (λ completion. Quiet state.old state.new) }
    ensures falls { IfOk result (λ completion. Falls state.old [] 1 state.new [] (cost_of_given completion)) }
    ensures earns { IfOk result (λ completion. Earns state.old state.new 0 (credit_of_given completion)) }
    ensures fits { IfOk result (λ completion. InCompletion (Fits state.new.table) completion) }
{
    if !state.count() {
        return Ok(cut(site, Budget::Nodes));
    }
    if value.len() > TEXT_LIMIT {
        return Ok(state.left(site, Why::Size));
    }
    let units = value.copy()?;
    let text = Text::new(alloc, units)?;
    Ok(Completion::Value(Shadow {
        plain: Plain::Text(text),
        term: None,
    }))
}
