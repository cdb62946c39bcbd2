//! What is declared of the inputs, and the budgets of a run and of a search.

ghost use Rattle.path_core.specs.declared.bounds.BoundsRefusal.TheVariants as refusal;
ghost use Rattle.std.specs.Prelude.{◌≡◌};

use js_units::{NoMemory, Units};
use sqlite_items::Items;
use std::alloc::{AllocError, AllocFailed};

/// The values that an input may have.
#[derive(Drop)]
pub enum Kind {
    /// The whole numbers from `low` to `high`, both safe.
    Int {
        low: i64,
        high: i64,
    },
    /// The strings of `least` to `most` units, each of them of the alphabet.
    Text {
        least: u32,
        most: u32,
        alphabet: Units,
    },
}

/// An input: its name and its values.
#[derive(Drop)]
pub struct Declared {
    pub name: Units,
    pub kind: Kind,
}

/// The declared inputs, and how much is spent on them.
#[derive(Drop)]
pub struct Bounds {
    /// Loop turns and calls of one run, from 1 to 1,000,000.
    pub turns: u64,
    /// Printed paths, from 1 to 65,536.
    pub paths: u64,
    /// Candidates kept for one question, from 1 to 65,536.
    pub candidates: u64,
    /// Derivation steps of one solve, from 1 to 2^53 - 1.
    pub steps: u64,
    /// Cost of one constraint, from 1 to 1,000,000,000.
    pub width: u64,
    /// Parallel pieces, from 1 to 64.
    pub pieces: u32,
    /// At most 16 inputs, with different names.
    pub inputs: Items<Declared>,
}

/// Why no bounds stand in a file.
#[derive(Debug, Drop)]
pub enum BoundsRefusal {
    /// No JSON object stands there.
    Json,
    /// The version is missing or isn't 1.
    Version,
    /// The member of this name is missing, of the wrong kind, or unknown.
    Field { name: Units },
    /// The range of the member or input of this name is none.
    Range { name: Units },
    /// The alphabet of the input of this name is none.
    Alphabet { name: Units },
    /// Memory ran out.
    NoMemory,
}

impl From<NoMemory> for BoundsRefusal {
    ghost from_gives = { λ _ e. e ≡ refusal.NoMemory };

    fn from(_: NoMemory) -> BoundsRefusal {
        BoundsRefusal::NoMemory
    }
}

impl From<AllocError> for BoundsRefusal {
    ghost from_gives = { λ _ e. e ≡ refusal.NoMemory };

    fn from(_: AllocError) -> BoundsRefusal {
        BoundsRefusal::NoMemory
    }
}

impl<T: Drop> From<AllocFailed<T>> for BoundsRefusal {
    ghost from_gives = { λ _ e. e ≡ refusal.NoMemory };

    fn from(_: AllocFailed<T>) -> BoundsRefusal {
        BoundsRefusal::NoMemory
    }
}
