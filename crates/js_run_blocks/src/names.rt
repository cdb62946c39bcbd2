//! The names that a block declares are opened (ECMA-262, section 14.2.3).

ghost use Rattle.std.specs.Prelude.{◌≡◌, IfOk};
ghost use Rattle.js_ast.specs.declared.statement.Stmt.{out-Stmt};
ghost use Rattle.term_table.specs.Views.{View};
ghost use Rattle.js_meaning.specs.Blocks.{is_let as assigns, declared_of, declared_by, names_of, open_names as opening};
ghost use Rattle.js_meaning.specs.Running.{Outcome};
ghost use Rattle.js_meaning.specs.Values.{Place, Scope as SpecScope};
ghost use Rattle.js_state.specs.Fitting.{ErrStops};
ghost use Rattle.js_state.specs.Held.{scope_of};
ghost use Rattle.js_state.specs.Playing.{Still};
ghost use Rattle.js_state.specs.Seen.{place_of, MatchResult};

use js_ast::{DeclarationKind, Declarator, Expr, Stmt};
use js_state::{Completion, Scope, State};
use js_units::NoMemory;
use sqlite_items::Boxed;

/// Whether the names of a declaration may be assigned.
fn is_let(kind: DeclarationKind) -> bool
    ensures { result ≡ assigns kind }
{
    match kind {
        DeclarationKind::Let => true,
        DeclarationKind::Const => false,
    }
}

/// A binding for each declared name, not initialised, and the scope inside them. Too many bindings end the run.
pub fn open_names<'a>(
    state: &mut State<'a>,
    kind: DeclarationKind,
    declarators: &'a [Declarator<Boxed<Expr>>],
    scope: Scope,
) -> Result<Result<Scope, Completion>, NoMemory>
    ensures goes { IfOk result (λ o. (view : View) (go : SpecScope → Place → Outcome) → opening (declared_of kind declarators.entry.now) (scope_of scope) (place_of view state.old) go ≡ MatchResult view scope_of o (place_of view state.new) go) }
    ensures still { IfOk result (λ o. Still state.old state.new) }
    ensures stops { IfOk result (λ o. ErrStops o) }
{
    let is_mutable = is_let(kind);
    let mut inner = scope;
    let mut left = declarators;
    'names: while let [first, rest @ ..] = left {
        let opened = state.open_cell(first.name.site, &first.name.name, is_mutable, None, inner)?;
        match opened {
            Ok(next) => inner = next,
            Err(completion) => return Ok(Err(completion)),
        }
        left = rest;
    }
    Ok(Ok(inner))
}

/// The names that a statement declares in its block.
fn open_declared<'a>(
    state: &mut State<'a>,
    statement: &'a Stmt,
    scope: Scope,
) -> Result<Result<Scope, Completion>, NoMemory>
    ensures goes { IfOk result (λ o. (view : View) (go : SpecScope → Place → Outcome) → opening (declared_by (out-Stmt statement.entry.now)) (scope_of scope) (place_of view state.old) go ≡ MatchResult view scope_of o (place_of view state.new) go) }
    ensures still { IfOk result (λ o. Still state.old state.new) }
    ensures stops { IfOk result (λ o. ErrStops o) }
{
    match statement {
        Stmt::Declare {
            kind,
            declarators,
            ..
        } => {
            let opened = open_names(state, *kind, declarators.as_slice(), scope)?;
            Ok(opened)
        }
        Stmt::Function { name, .. } => {
            let opened = state.open_cell(name.site, &name.name, true, None, scope)?;
            Ok(opened)
        }
        _ => Ok(Ok(scope)),
    }
}

/// The names that the statements of a block declare.
pub(crate) fn open_all<'a>(
    state: &mut State<'a>,
    body: &'a [Stmt],
    scope: Scope,
) -> Result<Result<Scope, Completion>, NoMemory>
    ensures goes { IfOk result (λ o. (view : View) (go : SpecScope → Place → Outcome) → opening (names_of body.entry.now) (scope_of scope) (place_of view state.old) go ≡ MatchResult view scope_of o (place_of view state.new) go) }
    ensures still { IfOk result (λ o. Still state.old state.new) }
    ensures stops { IfOk result (λ o. ErrStops o) }
{
    let mut inner = scope;
    let mut left = body;
    'names: while let [first, rest @ ..] = left {
        let opened = open_declared(state, first, inner)?;
        match opened {
            Ok(next) => inner = next,
            Err(completion) => return Ok(Err(completion)),
        }
        left = rest;
    }
    Ok(Ok(inner))
}
