//! Patterns as trees (ECMA-262, section 22.2.1).

use sqlite_items::{Boxed, Items};

/// The flags `g`, `i`, `m` and `y` of a pattern.
#[derive(Clone, Copy, PartialEq, Eq)]
pub struct Flags {
    /// `g`. Without effect on a single match.
    pub global: bool,
    /// `i`. ASCII letters match in either case.
    pub ignore_case: bool,
    /// `m`. `^` and `$` match beside the ends of lines, too.
    pub multiline: bool,
    /// `y`. A match begins at the one place where it is asked for.
    pub sticky: bool,
}

/// A class of code units, `[..]` or `[^..]`, or an escape such as `\d`.
#[derive(Drop)]
pub struct ClassSet {
    /// Ranges of code units, with both ends.
    pub ranges: Items<(u16, u16)>,
    /// `[^..]`: the units that match none of the members.
    pub negated: bool,
}

/// A whole pattern.
#[derive(Drop)]
pub struct Pattern {
    pub node: Node,
    /// How many groups capture. They are numbered from 1.
    pub groups: u32,
    pub flags: Flags,
}

/// A part of a pattern (ECMA-262, section 22.2.1).
#[derive(Drop)]
pub enum Node {
    /// Nothing at all.
    Empty,
    /// A code unit that stands for itself.
    Unit(u16),
    /// `.`
    Dot,
    Class(ClassSet),
    /// `^`
    LineStart,
    /// `$`
    LineEnd,
    /// `\b`
    Word,
    /// `\B`
    NotWord,
    /// `(` body `)`, which captures.
    Group {
        index: u32,
        body: Boxed<Node>,
    },
    /// `\` and the number of a group.
    Back(u32),
    /// `(?=` body `)`, or `(?!` body `)` where it is negative.
    Look {
        negative: bool,
        body: Boxed<Node>,
    },
    /// From `min` to `max` turns of the body, any number from `min` on where there is no `max`. The
    /// groups from `first` up to, but not with, `past` are those inside the body.
    Repeat {
        body: Boxed<Node>,
        min: u32,
        max: Option<u32>,
        lazy: bool,
        first: u32,
        past: u32,
    },
    /// One part after another.
    Seq(Items<Node>),
    /// Alternatives between `|`.
    Alt(Items<Node>),
}
