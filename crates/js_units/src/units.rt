//! A string of the language: any list of 16-bit code units (ECMA-262, section 6.1.4).

ghost use Rattle.std.specs.Prelude.{◌≡◌, ◌<◌, [], ◌∷◌, ◌++◌, length, slice_index, bytes_eq, IfOk, OnOk, OnErr, IsTrue, ◌↔◌};
ghost use Rattle.std.proofs.Common.{ap};
ghost use Rattle.std.specs.Cmp.{partial_equiv_from_equiv};
ghost use Rattle.std.specs.Cmp.Lexicographic.{bytes_decides, nat_list_eq_equiv};
ghost use Rattle.std.specs.Hash as fed;
ghost use Rattle.js_units.specs.CodeUnits.{encode, code_units};

use crate::memory::NoMemory;
use std::alloc::Global;
use std::hash::{Hash, Hasher};
use std::marker::Model;

/// A string, which contracts see as the list of its code units.
#[derive(Debug, Drop)]
pub struct Units {
    units: Vec<u16>,
}

/// Whether the units are the numbers of the bytes.
pub fn equals_bytes(bytes: &[u8], units: &[u16]) -> bool
    ensures { result ≡ bytes_eq bytes.now units.now }
{
    let mut left = bytes;
    let mut rest = units;
    while let [byte, others @ ..] = left {
        let [unit, more @ ..] = rest else {
            return false;
        };
        if u16::from(*byte) != *unit {
            return false;
        }
        left = others;
        rest = more;
    }
    rest.is_empty()
}

impl Model for Units {
    ghost use Rattle.std.specs.Prelude.{ℕ, List};

    ghost Value = { List ℕ };

    ghost view = { λ u. u.units.items };
}

// Equal are strings with the same units.
impl PartialEq for Units {
    ghost eq = { bytes_eq };

    ghost laws = { partial_equiv_from_equiv nat_list_eq_equiv };

    fn eq(&self, other: &Units) -> bool {
        self.units.as_slice() == other.units.as_slice()
    }
}

impl Eq for Units {
    ghost laws = { nat_list_eq_equiv };
}

// A string is the key of a map.
impl Hash for Units {
    ghost hash_input = { fed.slice fed.u16 };

    ghost respects_eq = { λ a b h. ap (fed.slice fed.u16) ((bytes_decides a b).0 h) };

    fn hash<H: Hasher>(&self, state: &mut H) {
        self.units.hash(state);
    }
}

impl Units {
    /// The empty string.
    pub fn new(alloc: Global) -> Units
        ensures { result ≡ [] }
    {
        Units {
            units: Vec::new(alloc),
        }
    }

    /// The string of the bytes, each standing for the unit of its number.
    pub fn from_bytes(alloc: Global, bytes: &[u8]) -> Result<Units, NoMemory>
        ensures { IfOk result (λ text. text ≡ bytes.now) }
    {
        let mut text = Units::new(alloc);
        for byte in bytes {
            text.push(u16::from(*byte))?;
        }
        Ok(text)
    }

    /// The code units of the text.
    #[tactic(auto, unfolding(crate::specs::CodeUnits::code_units))]
    pub fn from_text(alloc: Global, text: &str) -> Result<Units, NoMemory>
        ensures { IfOk result (λ units. units ≡ code_units text.now) }
    {
        let mut units = Units::new(alloc);
        for character in text.chars() {
            units.push_character(character)?;
        }
        Ok(units)
    }

    fn push_character(&mut self, character: char) -> Result<(), NoMemory>
        ensures { OnOk result (self.new ≡ self.old ++ encode character) }
    {
        let point = character as u32;
        if point < 0x1_0000 {
            self.push(point as u16)?;
            return Ok(());
        }
        self.push((0xd800 + (point - 0x1_0000) / 0x400) as u16)?;
        self.push((0xdc00 + (point - 0x1_0000) % 0x400) as u16)?;
        Ok(())
    }

    /// How many units there are.
    pub fn len(&self) -> usize
        ensures { result ≡ length self.now }
    {
        self.units.len()
    }

    /// Whether there is no unit.
    pub fn is_empty(&self) -> bool
        ensures { IsTrue result ↔ (self.now ≡ []) }
    {
        self.units.is_empty()
    }

    /// The unit at a place, counted from 0.
    pub fn at(&self, i: usize) -> u16
        requires { i < length self.now }
        ensures { result ≡ slice_index self.now i }
    {
        self.units[i]
    }

    /// Adds a unit at the end. A refused push changes nothing.
    pub fn push(&mut self, unit: u16) -> Result<(), NoMemory>
        ensures ok { OnOk result (self.new ≡ self.old ++ unit ∷ []) }
        ensures err { OnErr result (self.new ≡ self.old) }
    {
        self.units.push(unit)?;
        Ok(())
    }

    /// An equal string.
    pub fn copy(&self) -> Result<Units, NoMemory>
        ensures { IfOk result (λ text. text ≡ self.now) }
    {
        Ok(Units {
            units: self.units.clone()?,
        })
    }

    /// Whether the units are the numbers of the bytes.
    #[tactic(auto, using(crate::proofs::Equality::either_way))]
    pub fn equals_bytes(&self, bytes: &[u8]) -> bool
        ensures { result ≡ bytes_eq self.now bytes.now }
    {
        equals_bytes(bytes, &self.units)
    }

    /// Whether the two have the same units.
    pub fn equals(&self, other: &Units) -> bool
        ensures { result ≡ bytes_eq self.now other.now }
    {
        self == other
    }

    /// The units, in order.
    pub fn as_slice(&self) -> &[u16]
        ensures { result.now ≡ self.now }
    {
        self.units.as_slice()
    }
}
