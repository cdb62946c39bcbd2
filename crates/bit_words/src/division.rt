//! Quotients and remainders, by long division of magnitudes.

ghost use Rattle.std.specs.Prelude.{◌≡◌, ℕ, ◌+◌, ◌-◌, ◌*◌, ◌<◌, ◌≤◌, ◌^◌, ◌/◌, ◌%◌, length, [], ◌∷◌, max, ◌+ℤ◌, ◌-ℤ◌, ◌≤ℤ◌, ◌<ℤ◌, IfOk, All, if◌then◌else◌, pos, false, unsigned_abs};
ghost use Rattle.std.specs.Ordering.{int_eq};
ghost use Rattle.cnf_core.specs.Literals.{Names, lit_true};
ghost use Rattle.js_values.specs.Integers.{quotient, rest};
ghost use Rattle.bit_words.specs.Builds.{Stands, Built};
ghost use Rattle.bit_words.specs.Words.{IsWord, word_value};
ghost use Rattle.bit_words.specs.LongDivision.{IsStep, IsQuotient, AreDivided};

use crate::builder::Builder;
use crate::words::BitInt;
use cnf_core::Lit;
use js_units::NoMemory;

impl Builder {
    /// The negative of the number where the literal `c` holds, else the number. `never` is a literal that never holds.
    #[tactic(auto, using(crate::proofs::Standing::standing))]
    fn negated_where(&mut self, c: Lit, a: &BitInt, never: Lit) -> Result<BitInt, NoMemory>
        requires space { self.old.variables + (4 * length a.now + 4) ≤ 2 ^ 62 }
        requires c { Names self.old.variables c }
        requires a { All (Names self.old.variables) a.now }
        requires some { 0 < length a.now }
        requires never { Names self.old.variables never }
        ensures stands { Stands self.old self.new }
        ensures width { IfOk result (λ word. length word ≡ length a.now + 1) }
        ensures word { IfOk result (λ word. Built self.old self.new (4 * length a.now + 4) word
            (λ v. lit_true v never ≡ false → word_value v word ≡ (if lit_true v c then pos 0 -ℤ word_value v a.now else word_value v a.now))) }
    {
        let zero = BitInt::repeated(self.alloc, never, 1)?;
        let negative = self.subtract_from(&zero, a, never)?;
        let chosen = self.choose_words(c, &negative, a)?;
        Ok(chosen)
    }

    /// The number, but 0 where the divisor is 0.
    #[tactic(auto, using(crate::proofs::Standing::standing))]
    fn unless_zero(&mut self, divisor: &BitInt, a: &BitInt, never: Lit) -> Result<BitInt, NoMemory>
        requires space { self.old.variables + (2 * length divisor.now + 1 + length a.now) ≤ 2 ^ 62 }
        requires divisor { All (Names self.old.variables) divisor.now }
        requires a { All (Names self.old.variables) a.now }
        requires some_divisor { 0 < length divisor.now }
        requires some { 0 < length a.now }
        requires never { Names self.old.variables never }
        ensures stands { Stands self.old self.new }
        ensures width { IfOk result (λ word. length word ≡ length a.now) }
        ensures word { IfOk result (λ word. Built self.old self.new (2 * length divisor.now + 1 + length a.now) word
            (λ v. lit_true v never ≡ false →
            word_value v word ≡ (if int_eq (word_value v divisor.now) (pos 0) then pos 0 else word_value v a.now))) }
    {
        let zero = BitInt::repeated(self.alloc, never, 1)?;
        let is_zero = self.equal_words(divisor, &zero)?;
        let chosen = self.choose_words(is_zero, &zero, a)?;
        Ok(chosen)
    }

    /// One step of long division: the next bit of the quotient, and what is left.
    #[tactic(auto, using(crate::proofs::Standing::standing))]
    fn divide_step(
        &mut self,
        next: &BitInt,
        divisor: &BitInt,
        never: Lit,
    ) -> Result<(Lit, BitInt), NoMemory>
        requires space { self.old.variables + (4 * length divisor.now + 8) ≤ 2 ^ 62 }
        requires next { All (Names self.old.variables) next.now }
        requires divisor { All (Names self.old.variables) divisor.now }
        requires some { 0 < length divisor.now }
        requires width { length next.now ≡ length divisor.now + 1 }
        requires never { Names self.old.variables never }
        ensures stands { Stands self.old self.new }
        ensures width { IfOk result (λ pair. length pair.1 ≡ length divisor.now) }
        ensures step { IfOk result (λ pair. Built self.old self.new (4 * length divisor.now + 8) (pair.0 ∷ pair.1)
            (λ v. lit_true v never ≡ false →
            IsStep (word_value v next.now) (word_value v divisor.now) (lit_true v pair.0) (word_value v pair.1))) }
    {
        let difference = self.subtract_from(next, divisor, never)?;
        let less = difference.sign();
        let kept = self.choose_words(less, next, &difference)?;
        let rest = kept.narrowed(self.alloc, divisor.width())?;
        Ok((less.opposite(), rest))
    }

    /// The quotient's bits and the rest of two numbers that aren't negative, of which the first one's sign is left out.
    #[tactic(auto, using(crate::proofs::Standing::standing))]
    fn divide_bits(
        &mut self,
        low: &BitInt,
        divisor: &BitInt,
        never: Lit,
    ) -> Result<(BitInt, BitInt), NoMemory>
        requires space { self.old.variables + length low.now * (4 * length divisor.now + 8) ≤ 2 ^ 62 }
        requires low { All (Names self.old.variables) low.now }
        requires divisor { All (Names self.old.variables) divisor.now }
        requires some { 0 < length divisor.now }
        requires never { Names self.old.variables never }
        ensures stands { Stands self.old self.new }
        ensures divided { IfOk result (λ pair. AreDivided self.old self.new low.now divisor.now never pair.0 pair.1) }
    {
        let count = low.width();
        let mut rest = BitInt::repeated(self.alloc, never, divisor.width())?;
        let mut bits = Vec::new(self.alloc);
        'steps: for i in 0..count {
            let next = rest.behind(self.alloc, low.bit(count - 1 - i))?;
            let (digit, after) = self.divide_step(&next, divisor, never)?;
            bits.insert(0, digit)?;
            rest = after;
        }
        bits.push(never)?;
        Ok((BitInt::from_bits(bits), rest))
    }

    /// The quotient and the rest of two numbers that aren't negative.
    #[tactic(auto, using(crate::proofs::Standing::standing))]
    fn long_divide(
        &mut self,
        top: &BitInt,
        divisor: &BitInt,
        never: Lit,
    ) -> Result<(BitInt, BitInt), NoMemory>
        requires space { self.old.variables + (length top.now - 1) * (4 * length divisor.now + 8) ≤ 2 ^ 62 }
        requires top { All (Names self.old.variables) top.now }
        requires divisor { All (Names self.old.variables) divisor.now }
        requires some { 0 < length divisor.now }
        requires more { 1 < length top.now }
        requires never { Names self.old.variables never }
        ensures stands { Stands self.old self.new }
        ensures quotient_width { IfOk result (λ pair. length pair.0 ≡ length top.now) }
        ensures rest_width { IfOk result (λ pair. length pair.1 ≡ length divisor.now) }
        ensures quotient_names { IfOk result (λ pair. All (Names self.new.variables) pair.0) }
        ensures rest_names { IfOk result (λ pair. All (Names self.new.variables) pair.1) }
        ensures divided { IfOk result (λ pair. Built self.old self.new ((length top.now - 1) * (4 * length divisor.now + 8)) []
            (λ v. lit_true v never ≡ false → pos 0 ≤ℤ word_value v top.now → pos 0 <ℤ word_value v divisor.now →
            IsQuotient (word_value v top.now) (word_value v divisor.now) (word_value v pair.0) (word_value v pair.1))) }
    {
        let low = top.narrowed(self.alloc, top.width() - 1)?;
        let pair = self.divide_bits(&low, divisor, never)?;
        Ok(pair)
    }

    /// The quotient and the rest of the magnitudes.
    #[tactic(auto, using(crate::proofs::Standing::standing))]
    fn divide_magnitudes(
        &mut self,
        a: &BitInt,
        b: &BitInt,
        never: Lit,
    ) -> Result<(BitInt, BitInt), NoMemory>
        requires space { self.old.variables + (4 * length a.now + 4 * length b.now + 8 + length a.now * (4 * length b.now + 12)) ≤ 2 ^ 62 }
        requires a { All (Names self.old.variables) a.now }
        requires b { All (Names self.old.variables) b.now }
        requires some_a { 0 < length a.now }
        requires some_b { 0 < length b.now }
        requires never { Names self.old.variables never }
        ensures stands { Stands self.old self.new }
        ensures quotient_width { IfOk result (λ pair. length pair.0 ≡ length a.now + 1) }
        ensures rest_width { IfOk result (λ pair. length pair.1 ≡ length b.now + 1) }
        ensures quotient_names { IfOk result (λ pair. All (Names self.new.variables) pair.0) }
        ensures rest_names { IfOk result (λ pair. All (Names self.new.variables) pair.1) }
        ensures divided { IfOk result (λ pair. Built self.old self.new
            (4 * length a.now + 4 * length b.now + 8 + length a.now * (4 * length b.now + 12)) []
            (λ v. lit_true v never ≡ false → 0 < unsigned_abs (word_value v b.now) →
            (word_value v pair.0 ≡ pos (unsigned_abs (word_value v a.now) / unsigned_abs (word_value v b.now)))
            × (word_value v pair.1 ≡ pos (unsigned_abs (word_value v a.now) % unsigned_abs (word_value v b.now))))) }
    {
        let top = self.negated_where(a.sign(), a, never)?;
        let divisor = self.negated_where(b.sign(), b, never)?;
        let pair = self.long_divide(&top, &divisor, never)?;
        Ok(pair)
    }

    /// The quotient toward zero; 0 by 0.
    #[tactic(auto, using(crate::proofs::Standing::standing))]
    pub fn divide_words(&mut self, a: &BitInt, b: &BitInt) -> Result<BitInt, NoMemory>
        requires space { self.old.variables + (length a.now * (4 * length b.now + 12) + 9 * length a.now + 6 * length b.now + 21) ≤ 2 ^ 62 }
        requires a { All (Names self.old.variables) a.now }
        requires b { All (Names self.old.variables) b.now }
        requires some_a { 0 < length a.now }
        requires some_b { 0 < length b.now }
        ensures stands { Stands self.old self.new }
        ensures width { IfOk result (λ word. length word ≡ length a.now + 2) }
        ensures word { IfOk result (λ word. IsWord self.old self.new
            (length a.now * (4 * length b.now + 12) + 9 * length a.now + 6 * length b.now + 21) word
            (λ v. quotient (word_value v a.now) (word_value v b.now))) }
    {
        let never = self.never()?;
        let (quotient, rest) = self.divide_magnitudes(a, b, never)?;
        drop(rest);
        let apart = self.gate_xor(a.sign(), b.sign())?;
        let signed = self.negated_where(apart, &quotient, never)?;
        let word = self.unless_zero(b, &signed, never)?;
        Ok(word)
    }

    /// What the division toward zero leaves, with the sign of the dividend; 0 by 0.
    #[tactic(auto, using(crate::proofs::Standing::standing))]
    pub fn rest_words(&mut self, a: &BitInt, b: &BitInt) -> Result<BitInt, NoMemory>
        requires space { self.old.variables + (length a.now * (4 * length b.now + 12) + 4 * length a.now + 11 * length b.now + 20) ≤ 2 ^ 62 }
        requires a { All (Names self.old.variables) a.now }
        requires b { All (Names self.old.variables) b.now }
        requires some_a { 0 < length a.now }
        requires some_b { 0 < length b.now }
        ensures stands { Stands self.old self.new }
        ensures width { IfOk result (λ word. length word ≡ length b.now + 2) }
        ensures word { IfOk result (λ word. IsWord self.old self.new
            (length a.now * (4 * length b.now + 12) + 4 * length a.now + 11 * length b.now + 20) word
            (λ v. rest (word_value v a.now) (word_value v b.now))) }
    {
        let never = self.never()?;
        let (quotient, rest) = self.divide_magnitudes(a, b, never)?;
        drop(quotient);
        let signed = self.negated_where(a.sign(), &rest, never)?;
        let word = self.unless_zero(b, &signed, never)?;
        Ok(word)
    }
}
