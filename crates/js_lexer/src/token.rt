//! Tokens, by their places in the text.

/// What a `/` begins where it begins no comment (ECMA-262, section 12: the goal symbols
/// InputElementDiv and InputElementRegExp).
#[derive(Clone, Copy)]
pub enum Goal {
    /// A mark: an operand stands before it.
    Division,
    /// A pattern: an expression may begin there.
    Pattern,
}

/// What a token is.
#[derive(Clone, Copy, PartialEq, Eq)]
pub enum TokenKind {
    Name,
    /// A reserved word.
    Word,
    /// A whole number of at most 2^53 - 1.
    Number,
    /// A whole number above that.
    WideNumber,
    /// A string between quotes.
    Text,
    /// A regular expression between slashes, with its flags.
    Pattern,
    /// A punctuator.
    Mark,
    /// The end of the text.
    Finish,
}

/// A token. Its places count code units of the text.
#[derive(Clone, Copy, PartialEq, Eq)]
pub struct Token {
    pub kind: TokenKind,
    pub start: usize,
    /// The place behind its last unit.
    pub end: usize,
    /// Whether a line end stands in the white space and comments before it.
    pub line_before: bool,
}

/// The place at which no token stands.
#[derive(Clone, Copy, Debug, PartialEq, Eq)]
pub struct LexRefusal {
    pub at: usize,
}

/// What units spell: a token, or something that is refused as a whole.
#[derive(Clone, Copy)]
pub enum Lexeme {
    Token(TokenKind),
    Refused,
}
