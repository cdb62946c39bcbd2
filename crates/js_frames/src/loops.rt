//! Loops that are going round, with the scope of their round.

use js_ast::{Expr, Identifier, LoopHead, Stmt};
use js_state::Scope;
use sqlite_items::Boxed;

/// `while` (ECMA-262, section 14.7.3).
#[derive(Clone, Copy)]
pub struct WhileLoop<'a> {
    pub site: u32,
    pub test: &'a Boxed<Expr>,
    pub body: &'a Boxed<Stmt>,
    pub scope: Scope,
}

/// `do` (section 14.7.2); the test is at its own site.
#[derive(Clone, Copy)]
pub struct DoLoop<'a> {
    pub site: u32,
    pub test_site: u32,
    pub test: &'a Boxed<Expr>,
    pub body: &'a Boxed<Stmt>,
    pub scope: Scope,
}

/// `for` (section 14.7.4), in the scope around it; names that its head declares by `let` have fresh bindings in each round.
#[derive(Clone, Copy)]
pub struct ForLoop<'a> {
    pub site: u32,
    pub head: &'a LoopHead<Boxed<Expr>>,
    pub test: &'a Option<Boxed<Expr>>,
    pub update: &'a Option<Boxed<Expr>>,
    pub body: &'a Boxed<Stmt>,
    pub outer: Scope,
}

/// for-of (section 14.7.5), over the items of an object.
#[derive(Clone, Copy)]
pub struct OfLoop<'a> {
    pub site: u32,
    pub name: &'a Identifier,
    pub is_mutable: bool,
    pub body: &'a Boxed<Stmt>,
    pub object: u32,
    pub scope: Scope,
}
