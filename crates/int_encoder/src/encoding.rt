//! The clauses of an operator on whole numbers.

ghost use Rattle.std.specs.Prelude.{◌≡◌, ℕ, ◌+◌, ◌<◌, ◌≤◌, ◌^◌, length, IfOk, All};
ghost use Rattle.bit_words.specs.Builds.{Stands};
ghost use Rattle.int_encoder.specs.Rows.{IsPart, IsRow, part_count, own_cost, widest, made_bits};

use crate::bitwise::join_lowest;
use crate::op::{IntBits, IntOp};
use crate::safety::{fits, safe_or_zero};
use crate::shifts::{shift_left, shift_right, shift_right_zero};
use bit_words::{BitGate, BitInt, Builder};
use js_units::NoMemory;

/// Encodes an operator on these parts, as many as it has: adds variables and clauses that have, for every assignment of the
/// earlier bits, exactly one of the new ones, at which what is answered has the operator's value.
#[tactic(auto, using(crate::proofs::Standing::standing))]
pub fn encode_int(builder: &mut Builder, op: IntOp, parts: &[BitInt]) -> Result<IntBits, NoMemory>
    requires count { length parts.now ≡ part_count op }
    requires parts { All (IsPart builder.old.variables) parts.now }
    requires space { builder.old.variables + own_cost op (widest parts.now) ≤ 2 ^ 62 }
    ensures stands { Stands builder.old builder.new }
    ensures some { IfOk result (λ made. 0 < length (made_bits made)) }
    ensures row { IfOk result (λ made. IsRow builder.old builder.new op parts.now made) }
{
    let a = &parts[0];
    let b = &parts[parts.len() - 1];
    match op {
        IntOp::Eq => {
            let lit = builder.equal_words(a, b)?;
            return Ok(IntBits::Flag(lit));
        }
        IntOp::Less => {
            let lit = builder.less_words(a, b)?;
            return Ok(IntBits::Flag(lit));
        }
        IntOp::Add => {
            let word = builder.add_words(a, b)?;
            return Ok(IntBits::Int(word));
        }
        IntOp::Sub => {
            let word = builder.subtract_words(a, b)?;
            return Ok(IntBits::Int(word));
        }
        IntOp::Mul => {
            let word = builder.multiply_words(a, b)?;
            return Ok(IntBits::Int(word));
        }
        IntOp::Quot => {
            let word = builder.divide_words(a, b)?;
            return Ok(IntBits::Int(word));
        }
        IntOp::Rem => {
            let word = builder.rest_words(a, b)?;
            return Ok(IntBits::Int(word));
        }
        IntOp::Fits => {
            let lit = fits(builder, a)?;
            return Ok(IntBits::Flag(lit));
        }
        IntOp::Safe => {
            let word = safe_or_zero(builder, a)?;
            return Ok(IntBits::Int(word));
        }
        IntOp::BitAnd => {
            let word = join_lowest(builder, &BitGate::And, a, b)?;
            return Ok(IntBits::Int(word));
        }
        IntOp::BitOr => {
            let word = join_lowest(builder, &BitGate::Or, a, b)?;
            return Ok(IntBits::Int(word));
        }
        IntOp::BitXor => {
            let word = join_lowest(builder, &BitGate::Xor, a, b)?;
            return Ok(IntBits::Int(word));
        }
        IntOp::Shl => {
            let word = shift_left(builder, a, b)?;
            return Ok(IntBits::Int(word));
        }
        IntOp::Shr => {
            let word = shift_right(builder, a, b)?;
            return Ok(IntBits::Int(word));
        }
        IntOp::Ushr => {
            let word = shift_right_zero(builder, a, b)?;
            return Ok(IntBits::Int(word));
        }
    }
}
