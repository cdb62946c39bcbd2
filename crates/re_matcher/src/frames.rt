//! What a machine has still to do: frames, which are what follows one another, and choices, which are
//! tried one after another.

ghost use Rattle.std.specs.Prelude.{◌≡◌};
ghost use Rattle.re_matcher.specs.Pending.{choice_kept};

use crate::caps::Groups;
use re_ast::Node;

/// What is still to be matched, before what comes next.
#[derive(Clone, Copy)]
pub enum Item<'a> {
    Enter(&'a Node),
    /// Parts in a row.
    AllOf(&'a [Node]),
    /// Alternatives.
    AnyOf(&'a [Node]),
    /// The group that began at `from` ends.
    Close { index: u32, from: usize },
    Turn(Turn<'a>),
}

/// The turns that are left of a repetition.
#[derive(Clone, Copy)]
pub struct Turn<'a> {
    pub body: &'a Node,
    pub min: u32,
    pub max: Option<u32>,
    pub lazy: bool,
    pub first: u32,
    pub past: u32,
    /// Where the turn before began, if it had to move on.
    pub start: Option<usize>,
}

/// An item, and the number of the frame behind it. Frames are numbered from 1; 0 is the end of the
/// pattern or of the lookahead.
#[derive(Clone, Copy)]
pub struct Frame<'a> {
    pub item: Item<'a>,
    pub next: usize,
}

/// A place in the text and the captures so far (ECMA-262, section 22.2.2.1, MatchState).
pub struct Spot {
    pub place: usize,
    pub groups: Groups,
}

impl Spot {
    /// The captures.
    pub fn into_groups(self) -> Groups
        ensures { result ≡ self.groups }
    {
        let Spot { place: _, groups } = self;
        groups
    }
}

// By hand, so that no function that lets one go takes its list of captures apart for that.
impl Drop for Spot {
    fn drop(self) {
        let Spot { place: _, groups } = self;
        drop(groups);
    }
}

/// A way that is still to be tried. It stores how many frames there were when it was put aside: it
/// and the choices below it need no others.
#[derive(Drop)]
pub enum Choice {
    /// Goes on with this frame.
    Try {
        frame: usize,
        kept: usize,
        spot: Spot,
    },
    /// A lookahead began here: the choices above are its own.
    Mark {
        negative: bool,
        frame: usize,
        kept: usize,
        spot: Spot,
    },
}

impl Choice {
    /// How many frames the choice needs.
    pub fn kept(&self) -> usize
        ensures { result ≡ choice_kept self.now }
    {
        match self {
            Choice::Try {
                frame: _,
                kept,
                spot: _,
            } => *kept,
            Choice::Mark {
                negative: _,
                frame: _,
                kept,
                spot: _,
            } => *kept,
        }
    }
}

/// How far one step came.
#[derive(Drop)]
pub enum Progress {
    Going,
    Ended(Option<Spot>),
}
