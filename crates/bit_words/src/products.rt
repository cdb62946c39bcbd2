//! Products, by adding rows.

ghost use Rattle.std.specs.Prelude.{◌≡◌, ℕ, ◌+◌, ◌*◌, ◌<◌, ◌≤◌, ◌^◌, length, ◌*ℤ◌, IfOk, All, if◌then◌else◌, pos};
ghost use Rattle.cnf_core.specs.Literals.{Names, lit_true};
ghost use Rattle.bit_words.specs.Builds.{Stands};
ghost use Rattle.bit_words.specs.Words.{IsWord, word_value};

use crate::builder::Builder;
use crate::joining::BitGate;
use crate::words::BitInt;
use cnf_core::Lit;
use js_units::NoMemory;

impl Builder {
    /// The number where the literal holds, and 0 elsewhere.
    #[tactic(auto, using(crate::proofs::Standing::standing))]
    fn masked(&mut self, a: &BitInt, keep: Lit) -> Result<BitInt, NoMemory>
        requires space { self.old.variables + length a.now ≤ 2 ^ 62 }
        requires a { All (Names self.old.variables) a.now }
        requires some { 0 < length a.now }
        requires keep { Names self.old.variables keep }
        ensures stands { Stands self.old self.new }
        ensures width { IfOk result (λ word. length word ≡ length a.now) }
        ensures word { IfOk result (λ word. IsWord self.old self.new (length a.now) word
            (λ v. if lit_true v keep then word_value v a.now else pos 0)) }
    {
        let mask = BitInt::repeated(self.alloc, keep, a.width())?;
        let kept = self.gate_words(&BitGate::And, a, &mask)?;
        Ok(kept)
    }

    /// The exact product. Each bit of the second word but the last adds the first word to what is left of the rows before,
    /// whose lowest bit is then done; the last bit, which counts negatively, takes it away.
    #[tactic(auto, using(crate::proofs::Standing::standing))]
    pub fn multiply_words(&mut self, a: &BitInt, b: &BitInt) -> Result<BitInt, NoMemory>
        requires space { self.old.variables + (length b.now * (4 * length a.now + 3) + 1) ≤ 2 ^ 62 }
        requires a { All (Names self.old.variables) a.now }
        requires b { All (Names self.old.variables) b.now }
        requires some_a { 0 < length a.now }
        requires some_b { 0 < length b.now }
        ensures stands { Stands self.old self.new }
        ensures width { IfOk result (λ word. length word ≡ length a.now + length b.now) }
        ensures word { IfOk result (λ word. IsWord self.old self.new (length b.now * (4 * length a.now + 3) + 1) word
            (λ v. word_value v a.now *ℤ word_value v b.now)) }
    {
        let last = b.width() - 1;
        let never = self.never()?;
        let mut rows = BitInt::repeated(self.alloc, never, a.width())?;
        let mut bits = Vec::new(self.alloc);
        'rows: for i in 0..last {
            let row = self.masked(a, b.bit(i))?;
            let sum = self.add_from(&rows, &row, never)?;
            bits.push(sum.bit(0))?;
            rows = sum.upper(self.alloc, 1)?;
        }
        let row = self.masked(a, b.bit(last))?;
        let rest = self.subtract_from(&rows, &row, never)?;
        rest.append_to(&mut bits)?;
        Ok(BitInt::from_bits(bits))
    }
}
