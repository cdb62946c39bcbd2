//! Expressions.

use crate::operators::{BinaryOp, LogicalOp, StepOp, UnaryOp};
use crate::parts::{Identifier, Link, Member, Suffix, Target};
use crate::statement::Stmt;
use js_units::Units;
use sqlite_items::{Boxed, Items};

/// An expression (ECMA-262, section 13). Its first token stands at `start`, or at the site where that isn't told.
/// Parentheses leave no trace.
#[cycle(trees)]
pub enum Expr {
    /// A name that is read
    Name(Identifier),
    /// A whole number from 0 to 2^53 - 1
    Number {
        site: u32,
        value: u64,
    },
    Text {
        site: u32,
        value: Units,
    },
    Null {
        site: u32,
    },
    True {
        site: u32,
    },
    False {
        site: u32,
    },
    This {
        site: u32,
    },
    /// `[` arguments `]`
    Array {
        site: u32,
        items: Items<Boxed<Expr>>,
    },
    /// `{` members `}`
    Object {
        site: u32,
        members: Items<Member<Boxed<Expr>>>,
    },
    /// `function`, with the name and its parameters (section 15.2)
    FunctionExpression {
        site: u32,
        name: Option<Identifier>,
        parameters: Items<Identifier>,
        body: Items<Stmt>,
    },
    /// Parameters, `=>` and an expression (section 15.3)
    Arrow {
        site: u32,
        parameters: Items<Identifier>,
        value: Boxed<Expr>,
    },
    /// Parameters, `=>` and statements between braces
    ArrowBlock {
        site: u32,
        parameters: Items<Identifier>,
        body: Items<Stmt>,
    },
    /// `new`, a name and arguments
    New {
        site: u32,
        name: Identifier,
        arguments: Items<Boxed<Expr>>,
    },
    /// A first part, and at least one suffix
    Call {
        first: Boxed<Expr>,
        suffixes: Items<Suffix<Boxed<Expr>>>,
    },
    /// An operator before its operand
    Unary {
        site: u32,
        op: UnaryOp,
        operand: Boxed<Expr>,
    },
    /// `++` or `--`, before its target or behind it
    Step {
        start: u32,
        site: u32,
        op: StepOp,
        is_prefix: bool,
        target: Target<Boxed<Expr>>,
    },
    /// A chain of operators of one row, from left to right: at least one
    Binary {
        first: Boxed<Expr>,
        links: Items<Link<BinaryOp, Boxed<Expr>>>,
    },
    /// A chain of `&&`, of `||` or of `??`: at least one
    Logical {
        first: Boxed<Expr>,
        links: Items<Link<LogicalOp, Boxed<Expr>>>,
    },
    /// A test, `?` at the site, and two values
    Conditional {
        start: u32,
        site: u32,
        test: Boxed<Expr>,
        consequent: Boxed<Expr>,
        alternate: Boxed<Expr>,
    },
    /// A target, a mark at the site, and a value; with an operator, the mark is that operator and `=`
    Assign {
        start: u32,
        site: u32,
        op: Option<BinaryOp>,
        target: Target<Boxed<Expr>>,
        value: Boxed<Expr>,
    },
}

// By hand, so that no crate above takes a tree apart to let it go.
impl Drop for Expr {
    #[cycle(drops)]
    fn drop(self) {
        match self {
            Expr::Name(name) => drop(name),
            Expr::Number { site: _, value: _ }
            | Expr::Null { site: _ }
            | Expr::True { site: _ }
            | Expr::False { site: _ }
            | Expr::This { site: _ } => {}
            Expr::Text { site: _, value } => drop(value),
            Expr::Array { site: _, items } => drop(items),
            Expr::Object { site: _, members } => drop(members),
            Expr::FunctionExpression {
                site: _,
                name,
                parameters,
                body,
            } => {
                drop(name);
                drop(parameters);
                drop(body);
            }
            Expr::Arrow {
                site: _,
                parameters,
                value,
            } => {
                drop(parameters);
                drop(value);
            }
            Expr::ArrowBlock {
                site: _,
                parameters,
                body,
            } => {
                drop(parameters);
                drop(body);
            }
            Expr::New {
                site: _,
                name,
                arguments,
            } => {
                drop(name);
                drop(arguments);
            }
            Expr::Call { first, suffixes } => {
                drop(first);
                drop(suffixes);
            }
            Expr::Unary {
                site: _,
                op: _,
                operand,
            } => drop(operand),
            Expr::Step {
                start: _,
                site: _,
                op: _,
                is_prefix: _,
                target,
            } => drop(target),
            Expr::Binary { first, links } => {
                drop(first);
                drop(links);
            }
            Expr::Logical { first, links } => {
                drop(first);
                drop(links);
            }
            Expr::Conditional {
                start: _,
                site: _,
                test,
                consequent,
                alternate,
            } => {
                drop(test);
                drop(consequent);
                drop(alternate);
            }
            Expr::Assign {
                start: _,
                site: _,
                op: _,
                target,
                value,
            } => {
                drop(target);
                drop(value);
            }
        }
    }
}
