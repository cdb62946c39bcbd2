//! Scripts as trees, for the whole language. A site is the byte offset of the token that it names.
#![tactic(auto)]

mod expression;
mod operators;
mod parts;
mod statement;
mod threads;

pub use expression::Expr;
pub use operators::{BinaryOp, DeclarationKind, LogicalOp, StepOp, UnaryOp};
pub use parts::{
    Access, Catch, Declarator, Identifier, Key, Link, LoopHead, Member, Suffix, Target,
};
pub use statement::{Arm, Script, Stmt};
