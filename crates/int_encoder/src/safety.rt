//! Which numbers are safe integers.

ghost use Rattle.std.specs.Prelude.{◌≡◌, ℕ, ◌+◌, ◌*◌, ◌<◌, ◌≤◌, ◌^◌, length, IfOk, All};
ghost use Rattle.cnf_core.specs.Literals.{Names};
ghost use Rattle.js_values.specs.Numbers.{is_safe};
ghost use Rattle.js_values.specs.Integers.{safe};
ghost use Rattle.bit_words.specs.Builds.{Stands, IsGate};
ghost use Rattle.bit_words.specs.Words.{IsWord, word_value};

use bit_words::{BitInt, Builder};
use cnf_core::Lit;
use js_units::NoMemory;

/// Each number of fewer bits is a safe integer.
const SAFE_WIDTH: usize = 54;

/// Whether a word of at least 54 bits and its negative both lie in 54.
#[tactic(auto, using(crate::proofs::Standing::standing))]
fn wide_fits(builder: &mut Builder, a: &BitInt) -> Result<Lit, NoMemory>
    requires space { builder.old.variables + (7 * length a.now + 9) ≤ 2 ^ 62 }
    requires a { All (Names builder.old.variables) a.now }
    requires wide { 54 ≤ length a.now }
    ensures stands { Stands builder.old builder.new }
    ensures gate { IfOk result (λ lit. IsGate builder.old builder.new (7 * length a.now + 9) lit (λ v. is_safe (word_value v a.now))) }
{
    let alloc = builder.allocator();
    let low = a.narrowed(alloc, SAFE_WIDTH)?;
    let same = builder.equal_words(a, &low)?;
    let never = builder.never()?;
    let zero = BitInt::repeated(alloc, never, 1)?;
    let negative = builder.subtract_from(&zero, a, never)?;
    let low_negative = negative.narrowed(alloc, SAFE_WIDTH)?;
    let same_negative = builder.equal_words(&negative, &low_negative)?;
    let both = builder.gate_and(same, same_negative)?;
    Ok(both)
}

/// Whether the number is a safe integer.
#[tactic(auto, using(crate::proofs::Standing::standing))]
pub fn fits(builder: &mut Builder, a: &BitInt) -> Result<Lit, NoMemory>
    requires space { builder.old.variables + (7 * length a.now + 9) ≤ 2 ^ 62 }
    requires a { All (Names builder.old.variables) a.now }
    requires some { 0 < length a.now }
    ensures stands { Stands builder.old builder.new }
    ensures gate { IfOk result (λ lit. IsGate builder.old builder.new (7 * length a.now + 9) lit (λ v. is_safe (word_value v a.now))) }
{
    if a.width() < SAFE_WIDTH {
        let always = builder.always()?;
        return Ok(always);
    }
    let lit = wide_fits(builder, a)?;
    Ok(lit)
}

/// A number of at least 54 bits where it is a safe integer, else 0.
#[tactic(auto, using(crate::proofs::Standing::standing))]
fn wide_safe(builder: &mut Builder, a: &BitInt) -> Result<BitInt, NoMemory>
    requires space { builder.old.variables + 16 * length a.now ≤ 2 ^ 62 }
    requires a { All (Names builder.old.variables) a.now }
    requires wide { 54 ≤ length a.now }
    ensures stands { Stands builder.old builder.new }
    ensures word { IfOk result (λ word. IsWord builder.old builder.new (16 * length a.now) word (λ v. safe (word_value v a.now))) }
{
    let alloc = builder.allocator();
    let low = a.narrowed(alloc, SAFE_WIDTH)?;
    let is_safe = wide_fits(builder, a)?;
    let never = builder.never()?;
    let zero = BitInt::repeated(alloc, never, 1)?;
    let word = builder.choose_words(is_safe, &low, &zero)?;
    Ok(word)
}

/// The number where it is a safe integer, else 0.
#[tactic(auto, using(crate::proofs::Standing::standing))]
pub fn safe_or_zero(builder: &mut Builder, a: &BitInt) -> Result<BitInt, NoMemory>
    requires space { builder.old.variables + 16 * length a.now ≤ 2 ^ 62 }
    requires a { All (Names builder.old.variables) a.now }
    requires some { 0 < length a.now }
    ensures stands { Stands builder.old builder.new }
    ensures word { IfOk result (λ word. IsWord builder.old builder.new (16 * length a.now) word (λ v. safe (word_value v a.now))) }
{
    if a.width() < SAFE_WIDTH {
        let same = a.extended(builder.allocator(), a.width())?;
        return Ok(same);
    }
    let word = wide_safe(builder, a)?;
    Ok(word)
}
