//! Formulas that grow, and words, cross threads. Nothing runs here: that the check takes these functions is what they are for.

use crate::builder::Builder;
use crate::joining::BitGate;
use crate::words::BitInt;

fn crosses<T: Send + Sync>(_value: &T) {}

fn all_cross(builder: &Builder, word: &BitInt, gate: &BitGate) {
    crosses(builder);
    crosses(word);
    crosses(gate);
}
