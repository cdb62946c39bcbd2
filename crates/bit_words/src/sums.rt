//! Sums and differences.

ghost use Rattle.std.specs.Prelude.{◌≡◌, ℕ, ◌+◌, ◌*◌, ◌<◌, ◌≤◌, ◌^◌, length, ◌∷◌, [], max, ◌+ℤ◌, ◌-ℤ◌, IfOk, All, if◌then◌else◌};
ghost use Rattle.cnf_core.specs.Literals.{Names, lit_true};
ghost use Rattle.bit_words.specs.Builds.{Stands, Built, differ};
ghost use Rattle.bit_words.specs.Words.{IsWord, IsSum, bit_int, word_value};

use crate::builder::Builder;
use crate::words::BitInt;
use cnf_core::Lit;
use js_units::NoMemory;

impl Builder {
    /// A full adder: the last bit of the sum of three bits, and what is carried.
    #[tactic(auto, using(crate::proofs::Standing::standing))]
    fn full_add(&mut self, a: Lit, b: Lit, c: Lit) -> Result<(Lit, Lit), NoMemory>
        requires space { self.old.variables + 3 ≤ 2 ^ 62 }
        requires a { Names self.old.variables a }
        requires b { Names self.old.variables b }
        requires c { Names self.old.variables c }
        ensures stands { Stands self.old self.new }
        ensures sum { IfOk result (λ pair. Built self.old self.new 3 (pair.0 ∷ pair.1 ∷ [])
            (λ v. (lit_true v pair.0 ≡ differ (differ (lit_true v a) (lit_true v b)) (lit_true v c))
            × (lit_true v pair.1 ≡ (if differ (lit_true v a) (lit_true v b) then lit_true v c else lit_true v a)))) }
    {
        let either = self.gate_xor(a, b)?;
        let sum = self.gate_xor(either, c)?;
        let carry = self.choose(either, c, a)?;
        Ok((sum, carry))
    }

    /// The bits of the sum of two words of one width and of what is carried, whose last carry is dropped.
    #[tactic(auto, using(crate::proofs::Standing::standing))]
    fn ripple(&mut self, a: &BitInt, b: &BitInt, carry: Lit) -> Result<BitInt, NoMemory>
        requires space { self.old.variables + 3 * length a.now ≤ 2 ^ 62 }
        requires width { length a.now ≡ length b.now }
        requires a { All (Names self.old.variables) a.now }
        requires b { All (Names self.old.variables) b.now }
        requires carry { Names self.old.variables carry }
        ensures stands { Stands self.old self.new }
        ensures sum { IfOk result (λ word. IsSum self.old self.new a.now b.now carry word) }
    {
        let mut bits = Vec::new(self.alloc);
        let mut carried = carry;
        'bits: for i in 0..a.width() {
            let (sum, next) = self.full_add(a.bit(i), b.bit(i), carried)?;
            bits.push(sum)?;
            carried = next;
        }
        Ok(BitInt::from_bits(bits))
    }

    /// The exact sum of two numbers, and of 1 where `carry` holds.
    #[tactic(auto, using(crate::proofs::Standing::standing))]
    pub fn add_from(&mut self, a: &BitInt, b: &BitInt, carry: Lit) -> Result<BitInt, NoMemory>
        requires space { self.old.variables + (3 * max (length a.now) (length b.now) + 3) ≤ 2 ^ 62 }
        requires a { All (Names self.old.variables) a.now }
        requires b { All (Names self.old.variables) b.now }
        requires some_a { 0 < length a.now }
        requires some_b { 0 < length b.now }
        requires carry { Names self.old.variables carry }
        ensures stands { Stands self.old self.new }
        ensures width { IfOk result (λ word. length word ≡ max (length a.now) (length b.now) + 1) }
        ensures word { IfOk result (λ word. IsWord self.old self.new (3 * max (length a.now) (length b.now) + 3) word
            (λ v. (word_value v a.now +ℤ word_value v b.now) +ℤ bit_int (lit_true v carry))) }
    {
        let width = a.width().max(b.width()) + 1;
        let left = a.extended(self.alloc, width)?;
        let right = b.extended(self.alloc, width)?;
        let sum = self.ripple(&left, &right, carry)?;
        Ok(sum)
    }

    /// The exact sum.
    #[tactic(auto, using(crate::proofs::Standing::standing))]
    pub fn add_words(&mut self, a: &BitInt, b: &BitInt) -> Result<BitInt, NoMemory>
        requires space { self.old.variables + (3 * max (length a.now) (length b.now) + 4) ≤ 2 ^ 62 }
        requires a { All (Names self.old.variables) a.now }
        requires b { All (Names self.old.variables) b.now }
        requires some_a { 0 < length a.now }
        requires some_b { 0 < length b.now }
        ensures stands { Stands self.old self.new }
        ensures width { IfOk result (λ word. length word ≡ max (length a.now) (length b.now) + 1) }
        ensures word { IfOk result (λ word. IsWord self.old self.new (3 * max (length a.now) (length b.now) + 4) word
            (λ v. word_value v a.now +ℤ word_value v b.now)) }
    {
        let never = self.never()?;
        let sum = self.add_from(a, b, never)?;
        Ok(sum)
    }

    /// The exact difference of two numbers, less 1 where `borrow` holds.
    #[tactic(auto, using(crate::proofs::Standing::standing))]
    pub fn subtract_from(&mut self, a: &BitInt, b: &BitInt, borrow: Lit) -> Result<BitInt, NoMemory>
        requires space { self.old.variables + (3 * max (length a.now) (length b.now) + 3) ≤ 2 ^ 62 }
        requires a { All (Names self.old.variables) a.now }
        requires b { All (Names self.old.variables) b.now }
        requires some_a { 0 < length a.now }
        requires some_b { 0 < length b.now }
        requires borrow { Names self.old.variables borrow }
        ensures stands { Stands self.old self.new }
        ensures width { IfOk result (λ word. length word ≡ max (length a.now) (length b.now) + 1) }
        ensures word { IfOk result (λ word. IsWord self.old self.new (3 * max (length a.now) (length b.now) + 3) word
            (λ v. (word_value v a.now -ℤ word_value v b.now) -ℤ bit_int (lit_true v borrow))) }
    {
        let opposites = b.opposites(self.alloc)?;
        let difference = self.add_from(a, &opposites, borrow.opposite())?;
        Ok(difference)
    }

    /// The exact difference.
    #[tactic(auto, using(crate::proofs::Standing::standing))]
    pub fn subtract_words(&mut self, a: &BitInt, b: &BitInt) -> Result<BitInt, NoMemory>
        requires space { self.old.variables + (3 * max (length a.now) (length b.now) + 4) ≤ 2 ^ 62 }
        requires a { All (Names self.old.variables) a.now }
        requires b { All (Names self.old.variables) b.now }
        requires some_a { 0 < length a.now }
        requires some_b { 0 < length b.now }
        ensures stands { Stands self.old self.new }
        ensures width { IfOk result (λ word. length word ≡ max (length a.now) (length b.now) + 1) }
        ensures word { IfOk result (λ word. IsWord self.old self.new (3 * max (length a.now) (length b.now) + 4) word
            (λ v. word_value v a.now -ℤ word_value v b.now)) }
    {
        let never = self.never()?;
        let difference = self.subtract_from(a, b, never)?;
        Ok(difference)
    }
}
