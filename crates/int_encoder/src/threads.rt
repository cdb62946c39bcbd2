//! What is encoded crosses threads. Nothing runs here: that the check takes these functions is what they are for.

use crate::op::{IntBits, IntOp};

fn crosses<T: Send + Sync>(_value: &T) {}

fn all_cross(op: &IntOp, made: &IntBits) {
    crosses(op);
    crosses(made);
}
