//! The functions that a block declares are made (ECMA-262, section 14.2.3).

ghost use Rattle.std.specs.Prelude.{◌≡◌, IfOk};
ghost use Rattle.js_ast.specs.declared.statement.Stmt.{out-Stmt};
ghost use Rattle.term_table.specs.Views.{View};
ghost use Rattle.js_meaning.specs.Blocks.{start_function as starting, start_functions as starting_all};
ghost use Rattle.js_meaning.specs.Names.{init_name as initialising};
ghost use Rattle.js_meaning.specs.Parts.{make_function};
ghost use Rattle.js_meaning.specs.Running.{Outcome};
ghost use Rattle.js_meaning.specs.Values.{Place};
ghost use Rattle.js_state.specs.Fitting.{ErrStops};
ghost use Rattle.js_state.specs.Held.{scope_of, code_of};
ghost use Rattle.js_state.specs.Playing.{Still};
ghost use Rattle.js_state.specs.Seen.{place_of, MatchResult};

use js_ast::{Identifier, Stmt};
use js_state::{Closure, Code, Completion, Scope, State, object};
use js_units::NoMemory;

/// A declared function is made, and its name initialised.
fn make<'a>(
    state: &mut State<'a>,
    site: u32,
    name: &'a Identifier,
    closure: Closure<'a>,
) -> Result<Result<(), Completion>, NoMemory>
    ensures goes { IfOk result (λ o. (view : View) (go : Place → Outcome) → make_function site (code_of closure.entry) (place_of view state.old) (λ f st. go (initialising name.entry.now.name (scope_of closure.entry.scope) f st)) ≡ MatchResult view (λ x. x) o (place_of view state.new) (λ x st. go st)) }
    ensures still { IfOk result (λ o. Still state.old state.new) }
    ensures stops { IfOk result (λ o. ErrStops o) }
{
    let scope = closure.scope;
    let made = state.new_function(site, closure)?;
    match made {
        Err(completion) => Ok(Err(completion)),
        Ok(id) => {
            state.init_name(&name.name, scope, object(id));
            Ok(Ok(()))
        }
    }
}

/// The function that a statement declares.
fn start_function<'a>(
    state: &mut State<'a>,
    statement: &'a Stmt,
    scope: Scope,
) -> Result<Result<(), Completion>, NoMemory>
    ensures goes { IfOk result (λ o. (view : View) (go : Place → Outcome) → starting (out-Stmt statement.entry.now) (scope_of scope) (place_of view state.old) go ≡ MatchResult view (λ x. x) o (place_of view state.new) (λ x st. go st)) }
    ensures still { IfOk result (λ o. Still state.old state.new) }
    ensures stops { IfOk result (λ o. ErrStops o) }
{
    match statement {
        Stmt::Function {
            site,
            name,
            parameters,
            body,
        } => {
            let closure = Closure {
                parameters: parameters.as_slice(),
                code: Code::Statements(body.as_slice()),
                is_arrow: false,
                scope,
            };
            let made = make(state, *site, name, closure)?;
            Ok(made)
        }
        _ => Ok(Ok(())),
    }
}

/// The functions that the statements of a block declare. Too many objects end the run.
pub(crate) fn start_functions<'a>(
    state: &mut State<'a>,
    body: &'a [Stmt],
    scope: Scope,
) -> Result<Result<(), Completion>, NoMemory>
    ensures goes { IfOk result (λ o. (view : View) (go : Place → Outcome) → starting_all body.entry.now (scope_of scope) (place_of view state.old) go ≡ MatchResult view (λ x. x) o (place_of view state.new) (λ x st. go st)) }
    ensures still { IfOk result (λ o. Still state.old state.new) }
    ensures stops { IfOk result (λ o. ErrStops o) }
{
    let mut left = body;
    'functions: while let [first, rest @ ..] = left {
        let started = start_function(state, first, scope)?;
        match started {
            Ok(()) => {}
            Err(completion) => return Ok(Err(completion)),
        }
        left = rest;
    }
    Ok(Ok(()))
}
