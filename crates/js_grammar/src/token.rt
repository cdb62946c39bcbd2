//! Tokens as the grammar groups them.

use js_ast::{BinaryOp, LogicalOp, StepOp};
use js_units::Units;

/// The reserved words that the grammar names (ECMA-262, section 12.7.2).
#[derive(Clone, Copy)]
pub enum Word {
    Break,
    Catch,
    Const,
    Continue,
    Do,
    Else,
    False,
    Finally,
    For,
    Function,
    If,
    Let,
    New,
    Null,
    Return,
    This,
    Throw,
    True,
    Try,
    TypeOf,
    While,
    /// Any other. It stands only where any word may.
    Other,
}

/// What a token is. A mark that stands for an operator is told by it.
#[derive(Drop)]
pub enum TokenKind {
    /// A name that isn't reserved.
    Name(Units),
    /// A reserved word, with its units.
    Word { word: Word, units: Units },
    /// A whole number, or 2^53 where it is wide.
    Number(u64),
    /// A text, by its value.
    Text(Units),
    /// A pattern literal, which stands nowhere yet.
    Pattern,
    /// A mark between two operands; `+` and `-` stand before one too.
    Binary(BinaryOp),
    /// `&&`, `||` or `??`
    Logical(LogicalOp),
    /// `=`, or an operator and `=`
    Assign(Option<BinaryOp>),
    /// `++` or `--`
    Step(StepOp),
    /// `!`
    Not,
    /// `~`
    Complement,
    /// `=>`
    Arrow,
    /// `?`
    Question,
    /// `:`
    Colon,
    /// `.`
    Dot,
    /// `,`
    Comma,
    /// `;`
    Semicolon,
    /// `(`
    OpenRound,
    /// `)`
    CloseRound,
    /// `[`
    OpenSquare,
    /// `]`
    CloseSquare,
    /// `{`
    OpenBrace,
    /// `}`
    CloseBrace,
}

/// A token, the byte offset at which it starts, and whether a line end stands between it and the token before it.
#[derive(Drop)]
pub struct Token {
    pub kind: TokenKind,
    pub start: u32,
    pub line_before: bool,
}
