//! What waits for the value of an expression.

use crate::loops::{DoLoop, ForLoop, OfLoop, WhileLoop};
use js_ast::{
    Arm, BinaryOp, Declarator, Expr, Identifier, Link, LogicalOp, Member, StepOp, Stmt, Suffix,
    UnaryOp,
};
use js_state::{Builtin, Reference, Scope};
use js_units::Units;
use sqlite_items::{Boxed, Items};
use term_table::Shadow;

/// What a list of values is gathered for.
#[derive(Drop)]
pub enum Aim<'a> {
    /// A call of what stands before it, at the site of its `(`, and then the suffixes behind it.
    Call {
        site: u32,
        reference: Reference,
        suffixes: &'a [Suffix<Boxed<Expr>>],
    },
    /// `new` of the constructor of an error.
    New {
        site: u32,
        name: &'a Units,
    },
}

/// Values so far.
#[derive(Drop)]
pub struct Gathered<'a> {
    pub values: Items<Shadow>,
    pub aim: Aim<'a>,
    pub scope: Scope,
}

/// What is done with a target.
#[derive(Clone, Copy)]
pub enum Goal<'a> {
    /// `++` or `--`.
    Step {
        site: u32,
        op: StepOp,
        is_prefix: bool,
    },
    /// `=`, or an operator and `=`.
    Assign {
        site: u32,
        op: Option<BinaryOp>,
        value: &'a Boxed<Expr>,
    },
}

/// What waits for the value of an expression; any other completion passes it.
#[derive(Drop)]
pub enum Part<'a> {
    /// An element of an array literal.
    Element {
        site: u32,
        rest: &'a [Boxed<Expr>],
        scope: Scope,
        object: u32,
    },
    /// The first of these members of an object literal.
    Member {
        site: u32,
        members: &'a [Member<Boxed<Expr>>],
        scope: Scope,
        object: u32,
    },
    /// An argument.
    Gathering {
        gathered: Boxed<Gathered<'a>>,
        rest: &'a [Boxed<Expr>],
    },
    /// The operand of an operator before it.
    Operand {
        site: u32,
        op: UnaryOp,
    },
    /// The left side of a chain of operators.
    LinksLeft {
        links: &'a [Link<BinaryOp, Boxed<Expr>>],
        scope: Scope,
    },
    /// The right side of an operator.
    LinkRight {
        site: u32,
        op: BinaryOp,
        left: Shadow,
        links: &'a [Link<BinaryOp, Boxed<Expr>>],
        scope: Scope,
    },
    /// The left side of `&&`, `||` or `??`.
    LogicalLeft {
        links: &'a [Link<LogicalOp, Boxed<Expr>>],
        scope: Scope,
    },
    /// The test of `?:`.
    ConditionalTest {
        site: u32,
        consequent: &'a Boxed<Expr>,
        alternate: &'a Boxed<Expr>,
        scope: Scope,
    },
    /// What is only a value from here on.
    ItsValue,
    /// A key in brackets behind a value.
    IndexKey {
        site: u32,
        is_static: bool,
        base: Shadow,
        suffixes: &'a [Suffix<Boxed<Expr>>],
        scope: Scope,
    },
    /// A key in brackets behind a built-in name, which stands at `at`.
    BuiltinKey {
        site: u32,
        is_static: bool,
        at: u32,
        name: Builtin,
        suffixes: &'a [Suffix<Boxed<Expr>>],
        scope: Scope,
    },
    /// The key of a target in brackets.
    TargetKey {
        site: u32,
        is_static: bool,
        base: Shadow,
        goal: Goal<'a>,
        scope: Scope,
    },
    /// The key of a target in brackets behind a built-in name.
    BuiltinTarget {
        site: u32,
    },
    /// The value of a name that is written.
    NameValue {
        site: u32,
        name: &'a Units,
        scope: Scope,
    },
    /// The value of a property that is written.
    PropertyValue {
        site: u32,
        base: Shadow,
        name: &'a Units,
    },
    /// The right side of an operator and `=`, behind a name at `at` and its value.
    CompoundName {
        site: u32,
        op: BinaryOp,
        at: u32,
        name: &'a Units,
        old: Shadow,
        scope: Scope,
    },
    /// The same behind a property at `at`: its base and its value.
    CompoundProperty {
        site: u32,
        op: BinaryOp,
        at: u32,
        name: &'a Units,
        base: Boxed<Shadow>,
        old: Shadow,
    },
    /// The value of a declared name.
    Declared {
        name: &'a Units,
        rest: &'a [Declarator<Boxed<Expr>>],
        scope: Scope,
    },
    /// An expression that is a statement.
    ExpressDone,
    /// The test of the first of these arms.
    ArmTest {
        arms: &'a [Arm],
        alternate: &'a Option<Boxed<Stmt>>,
        scope: Scope,
    },
    WhileTest(WhileLoop<'a>),
    DoTest(DoLoop<'a>),
    /// What stands first in the head of a `for`.
    ForValue(ForLoop<'a>),
    ForTest(ForLoop<'a>, Scope),
    ForUpdate(ForLoop<'a>, Scope),
    /// What a for-of runs over.
    OfItems {
        site: u32,
        name: &'a Identifier,
        is_mutable: bool,
        body: &'a Boxed<Stmt>,
        scope: Scope,
    },
    ReturnDone,
    ThrowDone {
        site: u32,
    },
}
