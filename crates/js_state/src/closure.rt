//! Scopes, and what function objects hold.

use js_ast::{Expr, Identifier, Stmt};
use sqlite_items::Boxed;

/// What stands around a part of a script: its innermost binding, and the object that is `this`, each where there is one. In
/// the profile `this` is an object or undefined.
#[derive(Clone, Copy)]
pub struct Scope {
    pub cell: Option<u32>,
    pub this: Option<u32>,
}

/// What a function does: statements between braces, or the one expression of an arrow.
#[derive(Clone, Copy)]
pub enum Code<'a> {
    Statements(&'a [Stmt]),
    Expression(&'a Boxed<Expr>),
}

/// What a function object holds (ECMA-262, section 10.2).
#[derive(Clone, Copy)]
pub struct Closure<'a> {
    pub parameters: &'a [Identifier],
    pub code: Code<'a>,
    pub is_arrow: bool,
    pub scope: Scope,
}
