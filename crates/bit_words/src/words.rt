//! Words of bits.

ghost use Rattle.std.specs.Prelude.{◌≡◌, ◌^◌, ℕ, ◌+◌, ◌-◌, ◌*◌, ◌<◌, ◌≤◌, length, List, ◌∷◌, [], map, take, drop, slice_index_or, IfOk, OnOk, ◌++◌, All, replicate, neg_ℤ};
ghost use Rattle.cnf_core.specs.Literals.{Names};
ghost use Rattle.bit_words.specs.Builds.{Values, Stands};
ghost use Rattle.bit_words.specs.Words.{FitsIn, padded, word_value};

use crate::builder::Builder;
use cnf_core::Lit;
use js_units::NoMemory;
use std::alloc::Global;
use std::marker::Model;

/// A whole number's bits in two's complement, least first. Contracts see the list of literals.
#[derive(Drop)]
pub struct BitInt {
    bits: Vec<Lit>,
}

impl Model for BitInt {
    ghost use Rattle.std.specs.Prelude.{List, ℤ};

    ghost Value = { List ℤ };

    ghost view = { λ w. w.bits.items };
}

impl BitInt {
    /// The word of these bits, least first.
    pub fn from_bits(bits: Vec<Lit>) -> BitInt
        ensures { result ≡ bits.items }
    {
        BitInt { bits }
    }

    /// Copies of one bit: 0, or -1 where it holds.
    pub fn repeated(alloc: Global, bit: Lit, width: usize) -> Result<BitInt, NoMemory>
        requires some { 0 < width }
        ensures bits { IfOk result (λ word. word ≡ padded (width - 1) (bit ∷ [])) }
        ensures width { IfOk result (λ word. length word ≡ width) }
    {
        let one = BitInt::from_bits(vec![in alloc; bit]?);
        one.extended(alloc, width)
    }

    /// How many bits there are. The number lies in that many.
    pub fn width(&self) -> usize
        ensures width { result ≡ length self.now }
        ensures range { (v : Values) → FitsIn (length self.now) (word_value v self.now) }
    {
        self.bits.len()
    }

    /// One of the bits.
    pub fn bit(&self, place: usize) -> Lit
        requires { place < length self.now }
        ensures { result ≡ slice_index_or self.now place result }
    {
        self.bits[place]
    }

    /// The last bit, which holds where the number is below 0.
    pub fn sign(&self) -> Lit
        requires some { 0 < length self.now }
        ensures { result ≡ slice_index_or self.now (length self.now - 1) result }
    {
        self.bits[self.bits.len() - 1]
    }

    /// The same number in `width` bits, which are at least as many: the sign stands once more in each new one.
    pub fn extended(&self, alloc: Global, width: usize) -> Result<BitInt, NoMemory>
        requires some { 0 < length self.now }
        requires fits { length self.now ≤ width }
        ensures bits { IfOk result (λ word. word ≡ padded (width - length self.now) self.now) }
        ensures width { IfOk result (λ word. length word ≡ width) }
        ensures value { (v : Values) → IfOk result (λ word. word_value v word ≡ word_value v self.now) }
    {
        let mut bits = Vec::new(alloc);
        bits.extend_from_slice(&self.bits)?;
        let sign = self.sign();
        'more: for _ in self.width()..width {
            bits.push(sign)?;
        }
        Ok(BitInt { bits })
    }

    /// The first `width` bits, which are at most as many as there are: the same number where it lies in so many.
    pub fn narrowed(&self, alloc: Global, width: usize) -> Result<BitInt, NoMemory>
        requires some { 0 < width }
        requires fits { width ≤ length self.now }
        ensures bits { IfOk result (λ word. word ≡ take width self.now) }
        ensures width { IfOk result (λ word. length word ≡ width) }
        ensures range { (v : Values) → IfOk result (λ word. FitsIn width (word_value v word)) }
        ensures value { (v : Values) → FitsIn width (word_value v self.now) →
            IfOk result (λ word. word_value v word ≡ word_value v self.now) }
    {
        let mut bits = Vec::new(alloc);
        bits.extend_from_slice(&self.bits[..width])?;
        Ok(BitInt { bits })
    }

    /// All bits but the first ones, of which there are fewer than bits.
    pub fn upper(&self, alloc: Global, from: usize) -> Result<BitInt, NoMemory>
        requires some { from < length self.now }
        ensures bits { IfOk result (λ word. word ≡ drop from self.now) }
    {
        let mut bits = Vec::new(alloc);
        bits.extend_from_slice(&self.bits[from..])?;
        Ok(BitInt { bits })
    }

    /// The bits, and then those of the other word.
    pub fn followed_by(&self, alloc: Global, upper: &BitInt) -> Result<BitInt, NoMemory>
        ensures bits { IfOk result (λ word. word ≡ self.now ++ upper.now) }
    {
        let mut bits = Vec::new(alloc);
        bits.extend_from_slice(&self.bits)?;
        upper.append_to(&mut bits)?;
        Ok(BitInt { bits })
    }

    /// The bits behind one more.
    pub fn behind(&self, alloc: Global, low: Lit) -> Result<BitInt, NoMemory>
        ensures { IfOk result (λ word. word ≡ low ∷ self.now) }
    {
        let mut bits = Vec::new(alloc);
        bits.push(low)?;
        bits.extend_from_slice(&self.bits)?;
        Ok(BitInt { bits })
    }

    /// Puts the bits behind these.
    pub(crate) fn append_to(&self, bits: &mut Vec<Lit>) -> Result<(), NoMemory>
        ensures { OnOk result (bits.new.items ≡ bits.old.items ++ self.now) }
    {
        bits.extend_from_slice(&self.bits)?;
        Ok(())
    }

    /// The opposite of each bit.
    pub fn opposites(&self, alloc: Global) -> Result<BitInt, NoMemory>
        ensures { IfOk result (λ word. word ≡ map neg_ℤ self.now) }
    {
        let mut bits = Vec::new(alloc);
        'bits: for i in 0..self.bits.len() {
            let bit = self.bit(i);
            bits.push(bit.opposite())?;
        }
        Ok(BitInt { bits })
    }
}

impl Builder {
    /// A word of new bits, of any value.
    #[tactic(auto, using(crate::proofs::Standing::standing))]
    pub fn new_word(&mut self, width: usize) -> Result<BitInt, NoMemory>
        requires space { self.old.variables + width ≤ 2 ^ 62 }
        ensures stands { Stands self.old self.new }
        ensures clauses { self.new.clauses ≡ self.old.clauses }
        ensures variables { IfOk result (λ word. self.new.variables ≡ self.old.variables + width) }
        ensures width { IfOk result (λ word. length word ≡ width) }
        ensures names { IfOk result (λ word. All (Names self.new.variables) word) }
    {
        let mut bits = Vec::new(self.alloc);
        'bits: for _ in 0..width {
            let bit = self.new_bit();
            bits.push(bit)?;
        }
        Ok(BitInt::from_bits(bits))
    }
}
