//! Operators on the lowest 32 bits.

ghost use Rattle.std.specs.Prelude.{◌≡◌, ℕ, ◌+◌, ◌-◌, ◌*◌, ◌<◌, ◌≤◌, ◌^◌, length, max, take, drop, List, [], ◌∷◌, ◌++◌, replicate, IfOk, All, false};
ghost use Rattle.cnf_core.specs.Literals.{Names};
ghost use Rattle.bit_words.specs.Builds.{Stands, Built};
ghost use Rattle.bit_words.specs.Words.{bits, zip_bits};
ghost use Rattle.bit_words.specs.Joins.{gate_value, IsNamed};
ghost use Rattle.int_encoder.specs.Bits.{low_bits};

use bit_words::{BitGate, BitInt, Builder};
use js_units::NoMemory;
use std::alloc::Global;

/// How many bits the operators read.
const WIDTH: usize = 32;

/// The lowest 32 bits.
pub fn lowest(alloc: Global, a: &BitInt) -> Result<BitInt, NoMemory>
    requires some { 0 < length a.now }
    ensures bits { IfOk result (λ word. word ≡ low_bits a.now) }
    ensures width { IfOk result (λ word. length word ≡ 32) }
{
    let wide = a.extended(alloc, a.width().max(WIDTH + 1))?;
    let low = wide.narrowed(alloc, WIDTH)?;
    Ok(low)
}

/// A gate for each pair of the lowest 32 bits.
#[tactic(auto, using(crate::proofs::Standing::standing))]
pub fn join_lowest(
    builder: &mut Builder,
    gate: &BitGate,
    a: &BitInt,
    b: &BitInt,
) -> Result<BitInt, NoMemory>
    requires space { builder.old.variables + 32 ≤ 2 ^ 62 }
    requires gate { IsNamed builder.old.variables gate.now }
    requires a { All (Names builder.old.variables) a.now }
    requires b { All (Names builder.old.variables) b.now }
    requires some_a { 0 < length a.now }
    requires some_b { 0 < length b.now }
    ensures stands { Stands builder.old builder.new }
    ensures width { IfOk result (λ word. length word ≡ 32) }
    ensures bits { IfOk result (λ word. Built builder.old builder.new 32 word
        (λ v. bits v word ≡ zip_bits (gate_value v gate.now) (bits v (low_bits a.now)) (bits v (low_bits b.now)))) }
{
    let alloc = builder.allocator();
    let left = lowest(alloc, a)?;
    let right = lowest(alloc, b)?;
    let joined = builder.gate_words(gate, &left, &right)?;
    Ok(joined)
}
