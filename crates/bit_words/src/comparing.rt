//! Comparisons of numbers.

ghost use Rattle.std.specs.Prelude.{◌≡◌, ℕ, ◌+◌, ◌*◌, ◌<◌, ◌≤◌, ◌^◌, length, ◌∷◌, [], max, IfOk, All, int_lt, true, false};
ghost use Rattle.std.specs.Ordering.{int_eq};
ghost use Rattle.cnf_core.specs.Literals.{Names, lit_true};
ghost use Rattle.bit_words.specs.Builds.{Stands, IsGate};
ghost use Rattle.bit_words.specs.Words.{bits, word_value, equal_bits, less_bits};

use crate::builder::Builder;
use crate::words::BitInt;
use cnf_core::Lit;
use js_units::NoMemory;

impl Builder {
    /// Whether all bits of two words of one width agree.
    #[tactic(auto, using(crate::proofs::Standing::standing))]
    fn all_agree(&mut self, a: &BitInt, b: &BitInt) -> Result<Lit, NoMemory>
        requires space { self.old.variables + (2 * length a.now + 1) ≤ 2 ^ 62 }
        requires width { length a.now ≡ length b.now }
        requires a { All (Names self.old.variables) a.now }
        requires b { All (Names self.old.variables) b.now }
        ensures stands { Stands self.old self.new }
        ensures gate { IfOk result (λ lit.
            IsGate self.old self.new (2 * length a.now + 1) lit (λ v. equal_bits true (bits v a.now) (bits v b.now))) }
    {
        let mut so_far = self.always()?;
        'bits: for i in 0..a.width() {
            let differ = self.gate_xor(a.bit(i), b.bit(i))?;
            so_far = self.gate_and(so_far, differ.opposite())?;
        }
        Ok(so_far)
    }

    /// Whether the numbers are equal.
    #[tactic(auto, using(crate::proofs::Standing::standing))]
    pub fn equal_words(&mut self, a: &BitInt, b: &BitInt) -> Result<Lit, NoMemory>
        requires space { self.old.variables + (2 * max (length a.now) (length b.now) + 1) ≤ 2 ^ 62 }
        requires a { All (Names self.old.variables) a.now }
        requires b { All (Names self.old.variables) b.now }
        requires some_a { 0 < length a.now }
        requires some_b { 0 < length b.now }
        ensures stands { Stands self.old self.new }
        ensures gate { IfOk result (λ lit. IsGate self.old self.new (2 * max (length a.now) (length b.now) + 1) lit
            (λ v. int_eq (word_value v a.now) (word_value v b.now))) }
    {
        let width = a.width().max(b.width());
        let left = a.extended(self.alloc, width)?;
        let right = b.extended(self.alloc, width)?;
        let agree = self.all_agree(&left, &right)?;
        Ok(agree)
    }

    /// Whether the first of two numbers of one width is less, from the lowest bits up.
    #[tactic(auto, using(crate::proofs::Standing::standing))]
    fn is_less(&mut self, a: &BitInt, b: &BitInt) -> Result<Lit, NoMemory>
        requires space { self.old.variables + (length a.now + 1) ≤ 2 ^ 62 }
        requires width { length a.now ≡ length b.now }
        requires a { All (Names self.old.variables) a.now }
        requires b { All (Names self.old.variables) b.now }
        requires some { 0 < length a.now }
        ensures stands { Stands self.old self.new }
        ensures gate { IfOk result (λ lit.
            IsGate self.old self.new (length a.now + 1) lit (λ v. less_bits false (bits v a.now) (bits v b.now))) }
    {
        let last = a.width() - 1;
        let mut so_far = self.never()?;
        'bits: for i in 0..last {
            let not_a = a.bit(i).opposite();
            so_far = self.gate_majority(not_a, b.bit(i), so_far)?;
        }
        let not_b = b.bit(last).opposite();
        let less = self.gate_majority(a.bit(last), not_b, so_far)?;
        Ok(less)
    }

    /// Whether the first number is less.
    #[tactic(auto, using(crate::proofs::Standing::standing))]
    pub fn less_words(&mut self, a: &BitInt, b: &BitInt) -> Result<Lit, NoMemory>
        requires space { self.old.variables + (max (length a.now) (length b.now) + 1) ≤ 2 ^ 62 }
        requires a { All (Names self.old.variables) a.now }
        requires b { All (Names self.old.variables) b.now }
        requires some_a { 0 < length a.now }
        requires some_b { 0 < length b.now }
        ensures stands { Stands self.old self.new }
        ensures gate { IfOk result (λ lit. IsGate self.old self.new (max (length a.now) (length b.now) + 1) lit
            (λ v. int_lt (word_value v a.now) (word_value v b.now))) }
    {
        let width = a.width().max(b.width());
        let left = a.extended(self.alloc, width)?;
        let right = b.extended(self.alloc, width)?;
        let less = self.is_less(&left, &right)?;
        Ok(less)
    }
}
