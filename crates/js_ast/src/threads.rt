//! Scripts cross threads. Nothing runs here: that the check takes these functions is what they are for.

use crate::statement::Script;

fn crosses<T: Send + Sync>(_value: &T) {}

fn all_cross(script: &Script) {
    crosses(script);
}
