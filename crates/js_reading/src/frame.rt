//! What is around the part of the script that is being read.

use js_ast::{
    Arm, BinaryOp, Catch, DeclarationKind, Declarator, Expr, Identifier, Key, Link, LogicalOp,
    LoopHead, Member, StepOp, Stmt, Suffix, Target, UnaryOp,
};
use pile::Pile;
use sqlite_items::{Boxed, Items};

/// What stands to the left of an expression and ends where that ends.
#[derive(Drop)]
pub enum Pending {
    Prefix {
        site: u32,
        op: UnaryOp,
    },
    /// A chain whose last operator waits for its right side.
    Binary {
        start: u32,
        first: Boxed<Expr>,
        links: Items<Link<BinaryOp, Boxed<Expr>>>,
        site: u32,
        op: BinaryOp,
    },
    Logical {
        start: u32,
        first: Boxed<Expr>,
        links: Items<Link<LogicalOp, Boxed<Expr>>>,
        site: u32,
        op: LogicalOp,
    },
    /// Behind the `:`.
    Conditional {
        start: u32,
        site: u32,
        test: Boxed<Expr>,
        consequent: Boxed<Expr>,
    },
    Assign {
        start: u32,
        site: u32,
        op: Option<BinaryOp>,
        target: Target<Boxed<Expr>>,
    },
    /// Behind the `=>`.
    Arrow {
        start: u32,
        parameters: Items<Identifier>,
    },
}

/// What stands to the left of an expression and is ended by a mark behind it.
#[derive(Drop)]
pub enum Bracket {
    /// Behind the `?`.
    Question {
        start: u32,
        site: u32,
        test: Boxed<Expr>,
    },
    Round {
        site: u32,
    },
    Array {
        site: u32,
        items: Items<Boxed<Expr>>,
    },
    Call {
        start: u32,
        first: Boxed<Expr>,
        suffixes: Items<Suffix<Boxed<Expr>>>,
        site: u32,
        arguments: Items<Boxed<Expr>>,
    },
    New {
        site: u32,
        name: Identifier,
        arguments: Items<Boxed<Expr>>,
    },
    Index {
        start: u32,
        first: Boxed<Expr>,
        suffixes: Items<Suffix<Boxed<Expr>>>,
        site: u32,
    },
    Member {
        site: u32,
        members: Items<Member<Boxed<Expr>>>,
        key_site: u32,
        key: Key,
    },
}

/// Where names are declared.
#[derive(Clone, Copy)]
pub enum Place {
    Statement,
    /// In the head of a `for`.
    Loop,
}

/// Names that are being declared, and those before them. The site is that of the statement.
#[derive(Drop)]
pub struct Declaring {
    pub place: Place,
    pub site: u32,
    pub kind: DeclarationKind,
    pub declarators: Items<Declarator<Boxed<Expr>>>,
}

/// A statement up to one of its expressions.
#[derive(Drop)]
pub enum Part {
    Express {
        site: u32,
    },
    Declare {
        declaring: Declaring,
        name: Identifier,
    },
    Return {
        site: u32,
    },
    Throw {
        site: u32,
    },
    /// An `if`, behind the arms before it.
    If {
        arms: Items<Arm>,
        site: u32,
    },
    While {
        site: u32,
    },
    Do {
        site: u32,
        body: Boxed<Stmt>,
        test_site: u32,
    },
    ForFirst {
        site: u32,
    },
    ForTest {
        site: u32,
        head: LoopHead<Boxed<Expr>>,
    },
    ForUpdate {
        site: u32,
        head: LoopHead<Boxed<Expr>>,
        test: Option<Boxed<Expr>>,
    },
    ForOf {
        site: u32,
        kind: DeclarationKind,
        name: Identifier,
    },
}

/// A statement up to the one below it.
#[derive(Drop)]
pub enum Below {
    /// An `if`, behind the arms before it.
    Then {
        arms: Items<Arm>,
        site: u32,
        test: Boxed<Expr>,
    },
    Else {
        arms: Items<Arm>,
    },
    While {
        site: u32,
        test: Boxed<Expr>,
    },
    Do {
        site: u32,
    },
    For {
        site: u32,
        head: LoopHead<Boxed<Expr>>,
        test: Option<Boxed<Expr>>,
        update: Option<Boxed<Expr>>,
    },
    ForOf {
        site: u32,
        kind: DeclarationKind,
        name: Identifier,
        items: Boxed<Expr>,
    },
}

/// Whose braces are around statements.
#[derive(Drop)]
pub enum Braces {
    /// No braces: the script.
    Script,
    Block {
        site: u32,
    },
    Function {
        site: u32,
        name: Identifier,
        parameters: Items<Identifier>,
    },
    /// A function that is an expression.
    Value {
        site: u32,
        name: Option<Identifier>,
        parameters: Items<Identifier>,
    },
    Arrow {
        start: u32,
        parameters: Items<Identifier>,
    },
    Try {
        site: u32,
    },
    Catch {
        site: u32,
        body: Items<Stmt>,
        name: Option<Identifier>,
    },
    Finally {
        site: u32,
        body: Items<Stmt>,
        catch: Option<Catch<Items<Stmt>>>,
    },
}

/// What waits for what is being read.
#[derive(Drop)]
pub enum Frame {
    Pending(Pending),
    /// `++` or `--`, which waits for a target.
    Step { site: u32, op: StepOp },
    Bracket(Bracket),
    Part(Part),
    Below(Below),
    /// Statements, one behind another.
    List { braces: Braces, body: Items<Stmt> },
}

/// An expression from its start on, and what is around it.
#[derive(Drop)]
pub struct Closed {
    pub start: u32,
    pub value: Boxed<Expr>,
    pub frames: Pile<Frame>,
}

/// A statement that is over, and what is around it.
#[derive(Drop)]
pub struct Over {
    pub value: Boxed<Stmt>,
    pub frames: Pile<Frame>,
}
