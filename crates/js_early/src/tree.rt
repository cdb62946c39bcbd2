//! Trees that are still to be searched.

use js_ast::{Expr, Stmt};

/// A tree.
#[derive(Clone, Copy)]
pub enum Tree<'a> {
    Expression(&'a Expr),
    Statement(&'a Stmt),
}
