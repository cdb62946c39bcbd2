//! Inputs, and the path of a run on one: the events that it made, and its end.

use js_units::Units;
use sqlite_items::Items;

/// The value of one input.
#[derive(Drop)]
pub enum InputValue {
    Int(i64),
    Text(Units),
}

/// A value for each declared input, in their order.
#[derive(Drop)]
pub struct Input {
    pub values: Items<InputValue>,
}

/// The kinds of events whose outcome is a number.
#[derive(Clone, Copy, PartialEq, Eq)]
pub enum PickKind {
    /// The test of a branch: 1 where it is truthy, 0 where it isn't.
    Branch,
    /// An index into a string: 1 inside, 0 outside.
    Place,
    /// `parseInt`: 1 for a number, 0 for NaN.
    Number,
    /// One exec of a pattern: 1 for a match, 0 for none.
    Match,
    /// A group of a match: 1 where it is set, 0 where it is undefined.
    Group,
    /// A search: 1 where it found something, 0 where not.
    Found,
    /// A computed key: its position among the own keys or indexes, or their number.
    Key,
    /// A bound of a slice of an array: the clamped place.
    Clamp,
}

/// One choice that a run made. A site is a byte offset into the script.
#[derive(Drop)]
pub enum Event {
    /// The outcome `out` of so many ways.
    Pick {
        site: u32,
        kind: PickKind,
        out: u32,
        ways: u32,
    },
    /// A text that was computed.
    Value {
        site: u32,
        text: Units,
    },
}

/// The errors of the language that the profile has.
#[derive(Clone, Copy, PartialEq, Eq)]
pub enum ErrorName {
    Error,
    TypeError,
    RangeError,
    ReferenceError,
}

/// What was thrown and not caught.
#[derive(Clone, Copy, PartialEq, Eq)]
pub enum Thrown {
    /// A value that is no error.
    Value,
    Named(ErrorName),
}

/// Why a run left the profile.
#[derive(Clone, Copy, PartialEq, Eq)]
pub enum Why {
    /// A result beyond the safe integers.
    Range,
    /// A quotient that is no whole number.
    Divide,
    /// A conversion that isn't made.
    Convert,
    /// A name that an object would inherit.
    Inherited,
    /// The message of an error that the engine threw.
    Message,
    /// A unit of 128 or more where case is ignored.
    Unicode,
    /// A replacement text with two digits behind a `$`.
    Template,
    /// Something larger than the profile holds.
    Size,
    /// A key that is none.
    Key,
    /// A property that isn't written.
    Set,
    /// A built-in used in another way than the profile has.
    Builtin,
    /// A name that is found nowhere.
    Name,
    /// A string that is run over.
    Iterate,
    /// A `new` of something else than an error.
    New,
}

/// What a run may use up.
#[derive(Clone, Copy, PartialEq, Eq)]
pub enum Budget {
    Turns,
    Events,
    Nodes,
}

/// How a run ended.
#[derive(Clone, Copy, PartialEq, Eq)]
pub enum End {
    /// At the end of the script.
    Done,
    /// By a throw that nothing caught.
    Threw {
        site: u32,
        what: Thrown,
    },
    /// Out of the profile, after so many turns, and after so many activations of script functions
    /// that have ended since the last turn was taken.
    Left {
        site: u32,
        why: Why,
        turns: u32,
        ended: u32,
    },
    /// At the end of a budget.
    Cut {
        site: u32,
        what: Budget,
    },
}

/// The events of a run in their order, and its end.
#[derive(Drop)]
pub struct Path {
    pub events: Items<Event>,
    pub end: End,
}

/// What may follow a prefix of a path.
#[derive(Drop)]
pub enum Child {
    Event(Event),
    End(End),
}
