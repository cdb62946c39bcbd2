//! The operators on whole numbers.

ghost use Rattle.std.specs.Prelude.{◌≡◌};
ghost use Rattle.int_encoder.specs.Rows.{part_count};

use bit_words::BitInt;
use cnf_core::Lit;

/// An operator of a constraint whose parts are whole numbers.
#[derive(Clone, Copy)]
pub enum IntOp {
    Eq,
    Less,
    Add,
    Sub,
    Mul,
    /// The quotient toward zero; 0 by 0.
    Quot,
    /// The remainder with the sign of the dividend; 0 by 0.
    Rem,
    /// Whether the number is a safe integer.
    Fits,
    /// The number where it is safe, else 0.
    Safe,
    BitAnd,
    BitOr,
    BitXor,
    Shl,
    Shr,
    Ushr,
}

/// What was made: a number or a truth value.
#[derive(Drop)]
pub enum IntBits {
    Int(BitInt),
    Flag(Lit),
}

impl IntOp {
    /// How many parts the operator has.
    pub fn parts(self) -> usize
        ensures { result ≡ part_count self }
    {
        match self {
            IntOp::Fits | IntOp::Safe => 1,
            _ => 2,
        }
    }
}
