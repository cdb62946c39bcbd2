//! Function expressions and arrows (ECMA-262, sections 15.2 and 15.3).

ghost use Rattle.std.specs.Prelude.{◌≡◌, ◌≤◌, ◌<◌, ◌+◌, ◌*◌, [], Some, IfOk, true, false};
ghost use Rattle.term_table.specs.Fitting.{Fits};
ghost use Rattle.term_table.specs.Views.{View};
ghost use Rattle.js_meaning.specs.Blocks.{function_expression, plain_code, arrow_code};
ghost use Rattle.js_meaning.specs.Parts.{make_function};
ghost use Rattle.js_meaning.specs.Running.{count as counting, done, given};
ghost use Rattle.js_state.specs.Fitting.{InCompletion};
ghost use Rattle.js_state.specs.Held.{scope_of, code_of, body_of};
ghost use Rattle.js_state.specs.Playing.{Quiet, Still};
ghost use Rattle.js_state.specs.Seen.{place_of};
ghost use Rattle.js_state.specs.Spending.{credit_of_given};
ghost use Rattle.js_frames.specs.Credit.{Earns};
ghost use Rattle.js_frames.specs.Machine.{Gives};
ghost use Rattle.js_frames.specs.Weight.{Falls, cost_of_given};

use js_ast::{Identifier, Stmt};
use js_state::{Closure, Code, Completion, Scope, State, cut, object};
use js_units::NoMemory;
use path_core::Budget;

/// A function object is the value.
fn make<'a>(state: &mut State<'a>, site: u32, closure: Closure<'a>) -> Result<Completion, NoMemory>
    ensures gives { IfOk result (λ completion. Gives (λ view. make_function site (code_of closure.entry) (place_of view state.old) (λ f st. done st (given f))) state.new completion) }
    ensures still { IfOk result (λ completion. Still state.old state.new) }
    ensures fits { IfOk result (λ completion. InCompletion (Fits state.new.table) completion) }
{
    let made = state.new_function(site, closure)?;
    match made {
        Err(completion) => Ok(completion),
        Ok(id) => Ok(Completion::Value(object(id))),
    }
}

/// A function is made inside a binding of its own name, which may not be assigned (section 15.2.5).
fn make_named<'a>(
    state: &mut State<'a>,
    site: u32,
    name: &'a Identifier,
    parameters: &'a [Identifier],
    body: &'a [Stmt],
    scope: Scope,
) -> Result<Completion, NoMemory>
    ensures gives { IfOk result (λ completion. Gives (λ view. function_expression site (Some name.entry.now) parameters.entry.now body.entry.now (scope_of scope) (place_of view state.old)) state.new completion) }
    ensures still { IfOk result (λ completion. Still state.old state.new) }
    ensures fits { IfOk result (λ completion. InCompletion (Fits state.new.table) completion) }
{
    let opened = state.open_cell(name.site, &name.name, false, None, scope)?;
    let inner = match opened {
        Ok(inner) => inner,
        Err(completion) => return Ok(completion),
    };
    let closure = Closure {
        parameters,
        code: Code::Statements(body),
        is_arrow: false,
        scope: inner,
    };
    let made = state.new_function(site, closure)?;
    match made {
        Err(completion) => Ok(completion),
        Ok(id) => {
            state.init_name(&name.name, inner, object(id));
            Ok(Completion::Value(object(id)))
        }
    }
}

/// A function expression.
pub(crate) fn function<'a>(
    state: &mut State<'a>,
    site: u32,
    name: &'a Option<Identifier>,
    parameters: &'a [Identifier],
    body: &'a [Stmt],
    scope: Scope,
) -> Result<Completion, NoMemory>
    ensures gives { IfOk result (λ completion. Gives (λ view. counting site (place_of view state.old) (λ st. function_expression site name.entry.now parameters.entry.now body.entry.now (scope_of scope) st)) state.new completion) }
    ensures quiet { IfOk result (λ completion. Quiet state.old state.new) }
    ensures falls { IfOk result (λ completion. Falls state.old [] 1 state.new [] (cost_of_given completion)) }
    ensures earns { IfOk result (λ completion. Earns state.old state.new 0 (credit_of_given completion)) }
    ensures fits { IfOk result (λ completion. InCompletion (Fits state.new.table) completion) }
{
    if !state.count() {
        return Ok(cut(site, Budget::Nodes));
    }
    match name {
        None => {
            let closure = Closure {
                parameters,
                code: Code::Statements(body),
                is_arrow: false,
                scope,
            };
            let completion = make(state, site, closure)?;
            Ok(completion)
        }
        Some(name) => {
            let completion = make_named(state, site, name, parameters, body, scope)?;
            Ok(completion)
        }
    }
}

/// An arrow, which has the `this` around it.
pub(crate) fn arrow<'a>(
    state: &mut State<'a>,
    site: u32,
    parameters: &'a [Identifier],
    code: Code<'a>,
    scope: Scope,
) -> Result<Completion, NoMemory>
    ensures gives { IfOk result (λ completion. Gives (λ view. counting site (place_of view state.old) (λ st. make_function site (arrow_code parameters.entry.now (body_of code.entry) (scope_of scope)) st (λ f st. done st (given f)))) state.new completion) }
    ensures quiet { IfOk result (λ completion. Quiet state.old state.new) }
    ensures falls { IfOk result (λ completion. Falls state.old [] 1 state.new [] (cost_of_given completion)) }
    ensures earns { IfOk result (λ completion. Earns state.old state.new 0 (credit_of_given completion)) }
    ensures fits { IfOk result (λ completion. InCompletion (Fits state.new.table) completion) }
{
    if !state.count() {
        return Ok(cut(site, Budget::Nodes));
    }
    let closure = Closure {
        parameters,
        code,
        is_arrow: true,
        scope,
    };
    let completion = make(state, site, closure)?;
    Ok(completion)
}
