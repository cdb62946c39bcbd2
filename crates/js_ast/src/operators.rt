//! Operators, one variant for each token.

/// What stands before its operand (ECMA-262, section 13.5), but for `++` and `--`.
#[derive(Clone, Copy)]
pub enum UnaryOp {
    /// `+`
    Plus,
    /// `-`
    Minus,
    /// `!`
    Not,
    /// `~`
    Complement,
    /// `typeof`
    TypeOf,
}

/// `++` and `--` (ECMA-262, section 13.4).
#[derive(Clone, Copy)]
pub enum StepOp {
    Increment,
    Decrement,
}

/// What stands between two operands, both of which are evaluated (ECMA-262, sections 13.7 to 13.12).
#[derive(Clone, Copy)]
pub enum BinaryOp {
    /// `*`
    Multiply,
    /// `/`
    Divide,
    /// `%`
    Remainder,
    /// `+`
    Add,
    /// `-`
    Subtract,
    /// `<<`
    ShiftLeft,
    /// `>>`
    ShiftRight,
    /// `>>>`
    ShiftRightZero,
    /// `<`
    Less,
    /// `>`
    Greater,
    /// `<=`
    LessEqual,
    /// `>=`
    GreaterEqual,
    /// `===`
    Equal,
    /// `!==`
    NotEqual,
    /// `&`
    BitAnd,
    /// `^`
    BitXor,
    /// `|`
    BitOr,
}

/// What evaluates its right side only where the left one doesn't decide (ECMA-262, section 13.13).
#[derive(Clone, Copy)]
pub enum LogicalOp {
    /// `&&`
    And,
    /// `||`
    Or,
    /// `??`
    Coalesce,
}

/// `let` and `const` (ECMA-262, section 14.3.1).
#[derive(Clone, Copy)]
pub enum DeclarationKind {
    Let,
    Const,
}
