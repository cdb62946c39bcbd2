//! Fresh bindings for each round of a `for` (CreatePerIterationEnvironment; ECMA-262, section 14.7.4.4).

ghost use Rattle.std.specs.Prelude.{◌≡◌, ◌<◌, IfOk, true};
ghost use Rattle.term_table.specs.Views.{View};
ghost use Rattle.js_ast.specs.declared.operators.DeclarationKind.TheVariants.{Let};
ghost use Rattle.js_meaning.specs.Blocks.{declared_of};
ghost use Rattle.js_meaning.specs.Loops.{copy_cells, next_scope as next_scoping};
ghost use Rattle.js_meaning.specs.Running.{Outcome};
ghost use Rattle.js_meaning.specs.Values.{Place, Scope as SpecScope};
ghost use Rattle.js_state.specs.Fitting.{ErrStops};
ghost use Rattle.js_state.specs.Held.{scope_of};
ghost use Rattle.js_state.specs.Playing.{Still};
ghost use Rattle.js_state.specs.Seen.{place_of, MatchResult};
ghost use Rattle.js_frames.specs.Machine.{copied as copied_by};

use js_ast::{DeclarationKind, Declarator, Expr, LoopHead};
use js_state::{Completion, Scope, State};
use js_units::NoMemory;
use sqlite_items::Boxed;

/// A binding for each declared name, with the value that it has in the last scope.
fn copy_names<'a>(
    state: &mut State<'a>,
    declarators: &'a [Declarator<Boxed<Expr>>],
    last: Scope,
    outer: Scope,
) -> Result<Result<Scope, Completion>, NoMemory>
    ensures goes { IfOk result (λ o. (view : View) (go : SpecScope → Place → Outcome) → copy_cells (declared_of Let declarators.entry.now) (scope_of last) (scope_of outer) (place_of view state.old) go ≡ MatchResult view scope_of o (place_of view state.new) go) }
    ensures still { IfOk result (λ o. Still state.old state.new) }
    ensures stops { IfOk result (λ o. ErrStops o) }
{
    let mut left = declarators;
    let mut scope = outer;
    'copying: while let [first, rest @ ..] = left {
        let value = state.value_of(&first.name.name, last)?;
        let opened = state.open_cell(first.name.site, &first.name.name, true, value, scope)?;
        match opened {
            Err(completion) => return Ok(Err(completion)),
            Ok(inner) => {
                scope = inner;
                left = rest;
            }
        }
    }
    Ok(Ok(scope))
}

/// The declarations whose names are copied: those of `let`.
fn copied<'a>(head: &'a LoopHead<Boxed<Expr>>) -> &'a [Declarator<Boxed<Expr>>]
    ensures { declared_of Let result.now ≡ copied_by head.now }
{
    match head {
        LoopHead::Nothing => &[],
        LoopHead::Value(_) => &[],
        LoopHead::Declare { kind, declarators } => match kind {
            DeclarationKind::Let => declarators.as_slice(),
            DeclarationKind::Const => &[],
        },
    }
}

/// The scope of the next round. Where no name is copied, the loop stays in its scope.
pub(crate) fn next_scope<'a>(
    state: &mut State<'a>,
    head: &'a LoopHead<Boxed<Expr>>,
    last: Scope,
    outer: Scope,
) -> Result<Result<Scope, Completion>, NoMemory>
    ensures goes { IfOk result (λ o. (view : View) (go : SpecScope → Place → Outcome) → next_scoping (copied_by head.entry.now) (scope_of last) (scope_of outer) (place_of view state.old) go ≡ MatchResult view scope_of o (place_of view state.new) go) }
    ensures still { IfOk result (λ o. Still state.old state.new) }
    ensures stops { IfOk result (λ o. ErrStops o) }
{
    let names = copied(head);
    match names {
        [] => Ok(Ok(last)),
        [_, ..] => {
            let scope = copy_names(state, names, last, outer)?;
            Ok(scope)
        }
    }
}
