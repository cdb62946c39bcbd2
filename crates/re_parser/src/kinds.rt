//! What the pieces of a pattern's text are.

/// `\d`, `\D`, `\s`, `\S`, `\w` and `\W`.
#[derive(Clone, Copy)]
pub enum ClassEscape {
    Digit,
    NotDigit,
    Space,
    NotSpace,
    WordUnit,
    NotWordUnit,
}

/// A member of a class.
#[derive(Clone, Copy)]
pub enum Member {
    One(u16),
    Many(ClassEscape),
}

/// A member of a class, or two with `-` between them.
#[derive(Clone, Copy)]
pub enum ClassItem {
    Single(Member),
    Range(u16, u16),
    /// The `-` stands for itself.
    Apart(Member, Member),
}

/// `^`, `$`, `\b` and `\B`.
#[derive(Clone, Copy)]
pub enum Assertion {
    LineStart,
    LineEnd,
    Word,
    NotWord,
}

/// `(`, `(?:`, `(?=` and `(?!`.
#[derive(Clone, Copy)]
pub enum GroupKind {
    Capturing,
    Plain,
    Ahead,
    NotAhead,
}

/// An atom but a group or a class in brackets.
#[derive(Clone, Copy)]
pub enum Atom {
    Dot,
    Unit(u16),
    Escape(ClassEscape),
    Back(u32),
}

#[derive(Clone, Copy)]
pub enum Piece {
    Bar,
    Close,
    Open(GroupKind),
    Assertion(Assertion),
    Atom(Atom),
    /// `[` or, where it is negated, `[^`.
    Class(bool),
}

/// The numbers in braces.
#[derive(Clone, Copy)]
pub struct Braces {
    pub least: u32,
    pub most: Option<u32>,
}

#[derive(Clone, Copy)]
pub struct Quantifier {
    pub min: u32,
    pub max: Option<u32>,
    pub lazy: bool,
}
