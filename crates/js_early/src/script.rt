//! Early names of a whole script.

ghost use Rattle.std.specs.Prelude.{◌≡◌, ◌+◌, IfOk, OnOk};
ghost use Rattle.js_early.specs.Early.{early_places, IsLeast};
ghost use Rattle.js_early.specs.Parts.{least_with};
ghost use Rattle.js_early.specs.Search.{tree_places, tree_below};

use crate::expressions::in_expr;
use crate::scopes::{Names, in_globals, in_scope};
use crate::search::Search;
use crate::statements::{in_stmt, in_stmts};
use crate::tree::Tree;
use js_ast::Script;
use js_units::NoMemory;
use std::alloc::Global;

fn offset(found: Option<u32>) -> Option<usize>
    ensures { result ≡ found }
{
    match found {
        Some(place) => Some(place as usize),
        None => None,
    }
}

fn in_tree<'a>(alloc: Global, tree: Tree<'a>, search: &mut Search<'a>) -> Result<(), NoMemory>
    ensures least { OnOk result (search.new.least ≡ least_with search.old.least (tree_places tree.entry)) }
    ensures weight { OnOk result (search.new.weight ≡ search.old.weight + tree_below tree.entry) }
{
    match tree {
        Tree::Expression(expr) => in_expr(alloc, expr, search),
        Tree::Statement(stmt) => in_stmt(alloc, stmt, search),
    }
}

/// Searches all that is left.
#[tactic(auto, using(crate::proofs::Turns::tree_itself))]
fn in_trees(alloc: Global, search: &mut Search<'_>) -> Result<Option<u32>, NoMemory>
    ensures { IfOk result (λ found. found ≡ search.old.least) }
{
    loop {
        match search.next() {
            Ok(tree) => in_tree(alloc, tree, search)?,
            Err(found) => return Ok(found),
        }
    }
}

/// The least place, as a byte offset, of a name that is declared where it may not be, or none (after ECMA-262,
/// sections 14.2.1, 14.3.1.1, 14.15.1, 15.2.1, 15.3.1 and 16.1.1): the later of two equal names in one scope, of which
/// a function's parameters and a catch name are names too, or `undefined`, `NaN` or `Infinity` in the outermost scope.
pub fn early_name(alloc: Global, script: &Script) -> Result<Option<usize>, NoMemory>
    ensures least { IfOk result (λ found. IsLeast (early_places script.now) found) }
{
    let body = script.body.as_slice();
    let mut names = Names::new(alloc);
    names.push_body(body)?;
    let mut found = None;
    in_globals(&names, &mut found);
    in_scope(alloc, &names, &mut found)?;
    let mut search = Search::new(alloc, found);
    in_stmts(body, &mut search)?;
    let found = in_trees(alloc, &mut search)?;
    Ok(offset(found))
}
