//! Words bit by bit.

ghost use Rattle.std.specs.Prelude.{◌≡◌, ℕ, ◌+◌, ◌<◌, ◌≤◌, ◌^◌, length, ◌∷◌, [], max, IfOk, All, if◌then◌else◌, ◌||◌, pos};
ghost use Rattle.cnf_core.specs.Literals.{Names, lit_true};
ghost use Rattle.bit_words.specs.Builds.{Stands, IsGate, Built};
ghost use Rattle.bit_words.specs.Words.{IsWord, bits, word_value, zip_bits};
ghost use Rattle.bit_words.specs.Joins.{gate_value, IsNamed};

use crate::builder::Builder;
use crate::words::BitInt;
use cnf_core::Lit;
use js_units::NoMemory;

/// What is made of each pair of bits.
#[derive(Clone, Copy)]
pub enum BitGate {
    And,
    Or,
    Xor,
    /// The first bit where this literal holds, and the second elsewhere.
    Choose(Lit),
}

impl Builder {
    /// A literal that holds where one of the two does.
    #[tactic(auto, using(crate::proofs::Standing::standing))]
    pub fn gate_or(&mut self, a: Lit, b: Lit) -> Result<Lit, NoMemory>
        requires space { self.old.variables < 2 ^ 62 }
        requires a { Names self.old.variables a }
        requires b { Names self.old.variables b }
        ensures stands { Stands self.old self.new }
        ensures gate { IfOk result (λ lit. IsGate self.old self.new 1 lit (λ v. lit_true v a || lit_true v b)) }
    {
        let neither = self.gate_and(a.opposite(), b.opposite())?;
        Ok(neither.opposite())
    }

    #[tactic(auto, using(crate::proofs::Standing::standing))]
    fn gate_of(&mut self, gate: &BitGate, a: Lit, b: Lit) -> Result<Lit, NoMemory>
        requires space { self.old.variables < 2 ^ 62 }
        requires gate { IsNamed self.old.variables gate.now }
        requires a { Names self.old.variables a }
        requires b { Names self.old.variables b }
        ensures stands { Stands self.old self.new }
        ensures gate { IfOk result (λ lit.
            IsGate self.old self.new 1 lit (λ v. gate_value v gate.now (lit_true v a) (lit_true v b))) }
    {
        match gate {
            BitGate::And => self.gate_and(a, b),
            BitGate::Or => self.gate_or(a, b),
            BitGate::Xor => self.gate_xor(a, b),
            BitGate::Choose(chosen) => self.choose(*chosen, a, b),
        }
    }

    /// One gate for each pair of bits of two words of one width.
    #[tactic(auto, using(crate::proofs::Standing::standing))]
    pub fn gate_words(&mut self, gate: &BitGate, a: &BitInt, b: &BitInt) -> Result<BitInt, NoMemory>
        requires space { self.old.variables + length a.now ≤ 2 ^ 62 }
        requires width { length a.now ≡ length b.now }
        requires gate { IsNamed self.old.variables gate.now }
        requires a { All (Names self.old.variables) a.now }
        requires b { All (Names self.old.variables) b.now }
        ensures stands { Stands self.old self.new }
        ensures width { IfOk result (λ word. length word ≡ length a.now) }
        ensures bits { IfOk result (λ word. Built self.old self.new (length a.now) word
            (λ v. bits v word ≡ zip_bits (gate_value v gate.now) (bits v a.now) (bits v b.now))) }
    {
        let mut bits = Vec::new(self.alloc);
        'bits: for i in 0..a.width() {
            let bit = self.gate_of(gate, a.bit(i), b.bit(i))?;
            bits.push(bit)?;
        }
        Ok(BitInt::from_bits(bits))
    }

    /// The first number where the literal holds, and the second elsewhere.
    #[tactic(auto, using(crate::proofs::Standing::standing))]
    pub fn choose_words(&mut self, c: Lit, a: &BitInt, b: &BitInt) -> Result<BitInt, NoMemory>
        requires space { self.old.variables + max (length a.now) (length b.now) ≤ 2 ^ 62 }
        requires c { Names self.old.variables c }
        requires a { All (Names self.old.variables) a.now }
        requires b { All (Names self.old.variables) b.now }
        requires some_a { 0 < length a.now }
        requires some_b { 0 < length b.now }
        ensures stands { Stands self.old self.new }
        ensures width { IfOk result (λ word. length word ≡ max (length a.now) (length b.now)) }
        ensures word { IfOk result (λ word. IsWord self.old self.new (max (length a.now) (length b.now)) word
            (λ v. if lit_true v c then word_value v a.now else word_value v b.now)) }
    {
        let width = a.width().max(b.width());
        let left = a.extended(self.alloc, width)?;
        let right = b.extended(self.alloc, width)?;
        let chosen = self.gate_words(&BitGate::Choose(c), &left, &right)?;
        Ok(chosen)
    }
}
