//! How deep what has just been read is nested.

ghost use Rattle.std.specs.Prelude.{◌≡◌, nat_lt, Some};
ghost use Rattle.js_reading.specs.Frames.{begun, begins_pending, begins, depth, depth_before};
ghost use Rattle.js_reading.specs.Reading.{nesting, nesting_in};
ghost use Rattle.js_parser.specs.Nesting.{less, left_by};

use js_reading::{Below, Frame, Header, Heading, Mode, Opening, Parser, Part, Pending, Pile};

/// The nesting of the deepest token.
pub const MOST_NESTED: usize = 200;

fn begun(frame: &Frame) -> usize
    ensures { result ≡ begun frame.now }
{
    match frame {
        Frame::Pending(Pending::Prefix { .. }) => 1,
        Frame::Step { .. } => 1,
        Frame::Part(Part::If { arms, .. }) => arms.len(),
        Frame::Below(Below::Then { arms, .. }) => arms.len(),
        Frame::Below(Below::Else { arms }) => arms.len().saturating_sub(1),
        _ => 0,
    }
}

fn begins_pending(pending: &Pending) -> usize
    ensures { result ≡ begins_pending pending.now }
{
    match pending {
        Pending::Prefix { .. } => 0,
        Pending::Binary { .. } => 0,
        Pending::Logical { .. } => 0,
        _ => 1,
    }
}

fn begins(frame: &Frame) -> usize
    ensures { result ≡ begins frame.now }
{
    match frame {
        Frame::Pending(pending) => begins_pending(pending),
        Frame::Step { .. } => 0,
        _ => 1,
    }
}

/// What is left once more has begun.
fn less(left: Option<usize>, taken: usize) -> Option<usize>
    ensures { result ≡ less left taken }
{
    match left {
        Some(left) => left.checked_sub(taken),
        None => None,
    }
}

/// What the frames leave of a nesting.
fn left_by(most: usize, frames: &[Frame]) -> Option<usize>
    ensures { result ≡ left_by (Some most) frames.now }
{
    let mut left = Some(most);
    let mut inside = frames;
    while let [first, rest @ ..] = inside {
        left = less(less(left, begun(first)), begins(first));
        inside = rest;
    }
    left
}

/// Whether the frames nest deeper.
#[tactic(auto, using(crate::proofs::Rooms::too_deep_none, crate::proofs::Rooms::too_deep_some))]
fn is_deeper(most: usize, frames: &[Frame]) -> bool
    ensures { result ≡ nat_lt most (depth frames.now) }
{
    match left_by(most, frames) {
        Some(_) => false,
        None => true,
    }
}

/// Where nothing has begun yet behind the last frame, the nesting that it may have with what begins there.
#[tactic(auto, using(crate::proofs::Depths::before_top, crate::proofs::Depths::begins_most))]
fn most_before(frames: &Pile<Frame>) -> usize
    ensures { nat_lt result (depth frames.now) ≡ nat_lt 200 (depth_before frames.now) }
{
    match frames.top() {
        Some(top) => MOST_NESTED + begins(top),
        None => MOST_NESTED,
    }
}

/// How deep the frames may nest.
#[tactic(auto, using(crate::proofs::Depths::arrow_name))]
fn most_of(mode: &Mode, frames: &Pile<Frame>) -> usize
    ensures { nat_lt result (depth frames.now) ≡ nat_lt 200 (nesting_in mode.now frames.now) }
{
    match mode {
        Mode::Statement => most_before(frames),
        Mode::Below => most_before(frames),
        Mode::Want => most_before(frames),
        Mode::Opening(Opening::Test) => most_before(frames),
        Mode::Heading(
            Heading::Parameter {
                header: Header::Arrow { .. },
                ..
            },
        ) => MOST_NESTED - 1,
        _ => MOST_NESTED,
    }
}

/// Whether the token with which this was reached is nested deeper than any may be.
#[tactic(auto, using(crate::proofs::Depths::depth_reverse))]
pub fn is_too_deep(parser: &Parser) -> bool
    ensures { result ≡ nat_lt 200 (nesting parser.now) }
{
    is_deeper(
        most_of(&parser.mode, &parser.frames),
        parser.frames.as_slice(),
    )
}
