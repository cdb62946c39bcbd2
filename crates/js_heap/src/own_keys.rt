//! The order of an object's own keys.

ghost use Rattle.std.specs.Prelude.{◌≡◌, ℕ, ◌↔◌, Some, IfOk, bytes_eq};
ghost use Rattle.std.specs.List.{IsDistinct};
ghost use Rattle.js_values.specs.OwnKeys.{number_from, begins_well, array_index, IsIndexText, IsOwnKeys, own_keys};
ghost use Rattle.js_heap.specs.Sorting.{rank};

use js_units::{NoMemory, Units};
use std::alloc::Global;

const MOST_INDEX: u64 = 4294967294;

fn number_of(digits: &[u16]) -> Option<u32>
    ensures { result ≡ number_from 0 digits.now }
{
    let mut number = 0u64;
    let mut left = digits;
    while let [digit, rest @ ..] = left {
        if *digit < 48 || 57 < *digit {
            return None;
        }
        number = 10 * number + u64::from(*digit - 48);
        if MOST_INDEX < number {
            return None;
        }
        left = rest;
    }
    Some(number as u32)
}

fn begins_well(units: &[u16]) -> bool
    ensures { result ≡ begins_well units.now }
{
    match units {
        [] => false,
        [_] => true,
        [first, ..] => *first != 48,
    }
}

/// The number of an array index, None for any other key (ECMA-262, section 6.1.7). Takes no memory.
pub fn array_index(key: &Units) -> Option<u32>
    ensures value { result ≡ array_index key.now }
    ensures numeral { (n : ℕ) → (result ≡ Some n) ↔ IsIndexText n key.now }
{
    let units = key.as_slice();
    if begins_well(units) {
        number_of(units)
    } else {
        None
    }
}

fn rank(key: &Units) -> u32
    ensures { result ≡ rank key.now }
{
    array_index(key).unwrap_or(4294967295)
}

fn copies(alloc: Global, keys: &[Units]) -> Result<Vec<Units>, NoMemory>
    ensures { IfOk result (λ copies. copies.items ≡ keys.now) }
{
    let mut copies = Vec::new(alloc);
    for key in keys {
        copies.push(key.copy()?)?;
    }
    Ok(copies)
}

/// Keys in the standard's order, from their order of creation.
pub(crate) fn own_keys(alloc: Global, created: &[Units]) -> Result<Vec<Units>, NoMemory>
    requires { IsDistinct bytes_eq created.now }
    ensures value { IfOk result (λ keys. keys.items ≡ own_keys created.now) }
    ensures order { IfOk result (λ keys. IsOwnKeys created.now keys.items) }
    ensures distinct { IfOk result (λ keys. IsDistinct bytes_eq keys.items) }
{
    let mut keys = copies(alloc, created)?;
    keys.sort_by_key(
        |key: &Units| -> u32
            ensures { result ≡ rank key.now }
        { rank(key) },
    )?;
    Ok(keys)
}
