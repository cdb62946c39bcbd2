//! What the parser has just read.

use crate::frame::{Braces, Declaring, Frame};
use js_ast::{Access, Catch, Expr, Identifier, Key, Member, Stmt, Suffix};
use pile::Pile;
use sqlite_items::{Boxed, Items};

/// An operand, and what it may still turn out to be.
#[derive(Drop)]
pub enum Operand {
    Name(Identifier),
    /// A name between parentheses, which may also be those of an arrow.
    RoundName(Identifier),
    /// A name between more of them.
    DeepName(Identifier),
    /// What ends in a property.
    Access {
        first: Boxed<Expr>,
        earlier: Items<Suffix<Boxed<Expr>>>,
        last: Access<Boxed<Expr>>,
    },
    /// That between parentheses.
    RoundAccess {
        first: Boxed<Expr>,
        earlier: Items<Suffix<Boxed<Expr>>>,
        last: Access<Boxed<Expr>>,
    },
    /// What ends in arguments.
    Call {
        first: Boxed<Expr>,
        suffixes: Items<Suffix<Boxed<Expr>>>,
    },
    /// A number or a text.
    Literal(Boxed<Expr>),
    /// Any other that suffixes may follow.
    Primary(Boxed<Expr>),
    /// What ends in `++` or `--`.
    Stepped(Boxed<Expr>),
    /// An arrow that ends in braces.
    Braced(Boxed<Expr>),
}

/// What is being given parameters.
#[derive(Drop)]
pub enum Header {
    Function { site: u32, name: Identifier },
    Value { site: u32, name: Option<Identifier> },
    Arrow { start: u32 },
}

/// A statement that may be over.
#[derive(Drop)]
pub enum Ending {
    /// `;` or the next token ended it.
    Over(Boxed<Stmt>),
    /// A `do`, behind which a `;` may stand.
    Do(Boxed<Stmt>),
    /// `break` or `continue`.
    Jump(Boxed<Stmt>),
    Return { site: u32 },
    Throw { site: u32 },
}

/// A `try` between its parts.
#[derive(Drop)]
pub enum Trying {
    Tried {
        site: u32,
        body: Items<Stmt>,
    },
    /// Behind the word `catch`.
    CatchHead {
        site: u32,
        body: Items<Stmt>,
    },
    CatchOpen {
        site: u32,
        body: Items<Stmt>,
    },
    CatchName {
        site: u32,
        body: Items<Stmt>,
        name: Identifier,
    },
    Caught {
        site: u32,
        body: Items<Stmt>,
        catch: Catch<Items<Stmt>>,
    },
}

/// The beginning of a statement.
#[derive(Drop)]
pub enum Opening {
    /// `(` is due, behind which an expression begins.
    Test,
    /// Behind the word `for`.
    For {
        site: u32,
    },
    ForHead {
        site: u32,
    },
    /// A name is due.
    Declare(Declaring),
    Named {
        declaring: Declaring,
        name: Identifier,
    },
    /// Behind the word `function`.
    Function {
        site: u32,
    },
}

/// Parameters, and what is behind them.
#[derive(Drop)]
pub enum Heading {
    /// `(` is due.
    Open(Header),
    /// A name or `)` is due.
    Parameters {
        header: Header,
        names: Items<Identifier>,
    },
    /// Behind a name.
    Parameter {
        header: Header,
        names: Items<Identifier>,
    },
    /// `=>` is due.
    Arrow {
        start: u32,
        names: Items<Identifier>,
    },
    /// `{` is due.
    Braces(Braces),
}

/// The beginning of an operand.
#[derive(Drop)]
pub enum Piece {
    /// A key or `}` is due.
    Key {
        site: u32,
        members: Items<Member<Boxed<Expr>>>,
    },
    /// Behind a key that is a name.
    NameKey {
        site: u32,
        members: Items<Member<Boxed<Expr>>>,
        name: Identifier,
    },
    OtherKey {
        site: u32,
        members: Items<Member<Boxed<Expr>>>,
        key_site: u32,
        key: Key,
    },
    /// Behind the word `new`.
    New {
        site: u32,
    },
    NewName {
        site: u32,
        name: Identifier,
    },
    /// Behind a `.`.
    Property {
        start: u32,
        first: Boxed<Expr>,
        suffixes: Items<Suffix<Boxed<Expr>>>,
        site: u32,
    },
    /// Behind the word `function`.
    Function {
        site: u32,
    },
}

/// What has just been read, or is due.
#[derive(Drop)]
pub enum Mode {
    /// A statement of a list is due.
    Statement,
    /// A statement below another is due.
    Below,
    /// An expression, or what is left of one, is due.
    Want,
    Operand { start: u32, operand: Operand },
    Ending(Ending),
    Trying(Trying),
    Opening(Opening),
    Heading(Heading),
    Piece(Piece),
}

/// A script up to some token.
#[derive(Drop)]
pub struct Parser {
    pub mode: Mode,
    pub frames: Pile<Frame>,
}
