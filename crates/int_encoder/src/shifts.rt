//! Shifts of the lowest 32 bits, by the lowest five of the count: a stage for each of them.

ghost use Rattle.std.specs.Prelude.{◌≡◌, ℕ, ℤ, ◌+◌, ◌*◌, ◌<◌, ◌≤◌, ◌^◌, ◌++◌, length, replicate, take, IfOk, All, Some, if◌then◌else◌};
ghost use Rattle.cnf_core.specs.Literals.{Names, lit_true};
ghost use Rattle.js_values.specs.Numbers.{halved, to_uint32};
ghost use Rattle.js_values.specs.Integers.{bits_left, bits_right, bits_right_zero};
ghost use Rattle.bit_words.specs.Builds.{Values, Stands, Built};
ghost use Rattle.bit_words.specs.Words.{IsWord, word_value, bits};
ghost use Rattle.int_encoder.specs.Bits.{low_bits, shift_count_of, IsRaised};

use crate::bitwise::lowest;
use bit_words::{BitInt, Builder};
use cnf_core::Lit;
use js_units::NoMemory;

/// The number halved so many times, rounded down, where the literal holds.
#[tactic(auto, using(crate::proofs::Standing::standing))]
fn halved_where(builder: &mut Builder, a: &BitInt, by: usize, when: Lit) -> Result<BitInt, NoMemory>
    requires space { builder.old.variables + length a.now ≤ 2 ^ 62 }
    requires a { All (Names builder.old.variables) a.now }
    requires fewer { by < length a.now }
    requires when { Names builder.old.variables when }
    ensures stands { Stands builder.old builder.new }
    ensures width { IfOk result (λ word. length word ≡ length a.now) }
    ensures word { IfOk result (λ word. IsWord builder.old builder.new (length a.now) word
        (λ v. if lit_true v when then halved (word_value v a.now) by else word_value v a.now)) }
{
    let alloc = builder.allocator();
    let upper = a.upper(alloc, by)?;
    let word = builder.choose_words(when, &upper, a)?;
    Ok(word)
}

/// The number halved as many times as the lowest five bits of the count say.
#[tactic(auto, using(crate::proofs::Standing::standing))]
fn shift_down(builder: &mut Builder, a: &BitInt, count: &BitInt) -> Result<BitInt, NoMemory>
    requires space { builder.old.variables + 5 * length a.now ≤ 2 ^ 62 }
    requires a { All (Names builder.old.variables) a.now }
    requires wide { 32 ≤ length a.now }
    requires count { All (Names builder.old.variables) count.now }
    requires enough { 5 ≤ length count.now }
    ensures stands { Stands builder.old builder.new }
    ensures word { IfOk result (λ word. IsWord builder.old builder.new (5 * length a.now) word
        (λ v. halved (word_value v a.now) (shift_count_of v count.now))) }
{
    let one = halved_where(builder, a, 1, count.bit(0))?;
    let two = halved_where(builder, &one, 2, count.bit(1))?;
    let three = halved_where(builder, &two, 4, count.bit(2))?;
    let four = halved_where(builder, &three, 8, count.bit(3))?;
    let five = halved_where(builder, &four, 16, count.bit(4))?;
    Ok(five)
}

/// The shift to the right that keeps the sign.
#[tactic(auto, using(crate::proofs::Standing::standing))]
pub fn shift_right(builder: &mut Builder, a: &BitInt, b: &BitInt) -> Result<BitInt, NoMemory>
    requires space { builder.old.variables + 160 ≤ 2 ^ 62 }
    requires a { All (Names builder.old.variables) a.now }
    requires b { All (Names builder.old.variables) b.now }
    requires some_a { 0 < length a.now }
    requires some_b { 0 < length b.now }
    ensures stands { Stands builder.old builder.new }
    ensures word { IfOk result (λ word. IsWord builder.old builder.new 160 word
        (λ v. bits_right (word_value v a.now) (word_value v b.now))) }
{
    let alloc = builder.allocator();
    let low = lowest(alloc, a)?;
    let count = lowest(alloc, b)?;
    let word = shift_down(builder, &low, &count)?;
    Ok(word)
}

/// The shift to the right that fills with zero bits.
#[tactic(auto, using(crate::proofs::Standing::standing))]
pub fn shift_right_zero(builder: &mut Builder, a: &BitInt, b: &BitInt) -> Result<BitInt, NoMemory>
    requires space { builder.old.variables + 166 ≤ 2 ^ 62 }
    requires a { All (Names builder.old.variables) a.now }
    requires b { All (Names builder.old.variables) b.now }
    requires some_a { 0 < length a.now }
    requires some_b { 0 < length b.now }
    ensures stands { Stands builder.old builder.new }
    ensures word { IfOk result (λ word. IsWord builder.old builder.new 166 word
        (λ v. bits_right_zero (word_value v a.now) (word_value v b.now))) }
{
    let alloc = builder.allocator();
    let low = lowest(alloc, a)?;
    let count = lowest(alloc, b)?;
    let never = builder.never()?;
    let sign = BitInt::repeated(alloc, never, 1)?;
    let whole = low.followed_by(alloc, &sign)?;
    let word = shift_down(builder, &whole, &count)?;
    Ok(word)
}

/// 32 bits moved up so many places where the literal holds: `never` stands in the new ones.
#[tactic(auto, using(crate::proofs::Standing::standing))]
fn raised_where(
    builder: &mut Builder,
    a: &BitInt,
    by: usize,
    when: Lit,
    never: Lit,
) -> Result<BitInt, NoMemory>
    requires space { builder.old.variables + 32 ≤ 2 ^ 62 }
    requires a { All (Names builder.old.variables) a.now }
    requires width { length a.now ≡ 32 }
    requires some { 0 < by }
    requires fewer { by < 32 }
    requires when { Names builder.old.variables when }
    requires never { Names builder.old.variables never }
    ensures stands { Stands builder.old builder.new }
    ensures width { IfOk result (λ word. length word ≡ 32) }
    ensures word { IfOk result (λ word. Built builder.old builder.new 32 word (IsRaised a.now by when never word)) }
{
    let alloc = builder.allocator();
    let lower = a.narrowed(alloc, a.width() - by)?;
    let zeros = BitInt::repeated(alloc, never, by)?;
    let moved = zeros.followed_by(alloc, &lower)?;
    let word = builder.choose_words(when, &moved, a)?;
    Ok(word)
}

/// The shift to the left.
#[tactic(auto, using(crate::proofs::Standing::standing))]
pub fn shift_left(builder: &mut Builder, a: &BitInt, b: &BitInt) -> Result<BitInt, NoMemory>
    requires space { builder.old.variables + 161 ≤ 2 ^ 62 }
    requires a { All (Names builder.old.variables) a.now }
    requires b { All (Names builder.old.variables) b.now }
    requires some_a { 0 < length a.now }
    requires some_b { 0 < length b.now }
    ensures stands { Stands builder.old builder.new }
    ensures word { IfOk result (λ word. IsWord builder.old builder.new 161 word
        (λ v. bits_left (word_value v a.now) (word_value v b.now))) }
{
    let alloc = builder.allocator();
    let low = lowest(alloc, a)?;
    let count = lowest(alloc, b)?;
    let never = builder.never()?;
    let one = raised_where(builder, &low, 1, count.bit(0), never)?;
    let two = raised_where(builder, &one, 2, count.bit(1), never)?;
    let three = raised_where(builder, &two, 4, count.bit(2), never)?;
    let four = raised_where(builder, &three, 8, count.bit(3), never)?;
    let five = raised_where(builder, &four, 16, count.bit(4), never)?;
    Ok(five)
}
