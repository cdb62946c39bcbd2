//! What a match answers.

use smallvec::SmallVec;

/// What each group captured, group 1 first: from a place up to another, or nothing.
pub type Groups = SmallVec<Option<(usize, usize)>, 9>;

/// A match: where it begins and ends, in code units from 0, and what the groups captured.
#[derive(Drop)]
pub struct Caps {
    pub start: usize,
    pub end: usize,
    pub groups: Groups,
}
