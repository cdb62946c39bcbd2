//! Frames that only hand on what a chain has come to.

ghost use Rattle.std.specs.Prelude.{◌≡◌, ◌≤◌, true, false};
ghost use Rattle.term_table.specs.Fitting.{Fits};
ghost use Rattle.term_table.specs.Views.{View};
ghost use Rattle.js_meaning.specs.Running.{done};
ghost use Rattle.js_state.specs.Fitting.{InCompletion, is_result as resulting};
ghost use Rattle.js_state.specs.Seen.{place_of, completion_at};
ghost use Rattle.js_state.specs.Spending.{credit_of_given};
ghost use Rattle.js_frames.specs.Machine.{Fuel, frame_of};
ghost use Rattle.js_frames.specs.Weight.{cost_of_given};
ghost use Rattle.js_machine.specs.Handing.{acts as acting, part_acts as part_acting};

use js_frames::{Frame, Part};
use js_state::{Completion, State};

#[inline(always)]
fn is_result(completion: &Completion) -> bool
    ensures { result ≡ resulting completion.now }
{
    matches!(completion, Completion::Value(_) | Completion::Refers(_))
}

#[inline(always)]
fn part_acts(part: &Part, completion: &Completion) -> bool
    ensures { result ≡ part_acting part.now completion.now }
{
    match part {
        Part::LinksLeft { links, scope: _ } => links.len() > 0 && is_result(completion),
        Part::LogicalLeft { links, scope: _ } => links.len() > 0 && is_result(completion),
        _ => true,
    }
}

/// Whether a frame does something with a completion: one of a chain with no link left, or behind a completion that ends the
/// chain, only hands on.
#[inline(always)]
pub(crate) fn acts(frame: &Frame, completion: &Completion) -> bool
    ensures { result ≡ acting frame.now completion.now }
{
    match frame {
        Frame::Awaits(part) => part_acts(part, completion),
        Frame::Chain { suffixes, scope: _ } => suffixes.len() > 0 && is_result(completion),
        _ => true,
    }
}

/// What a frame that does nothing hands on.
pub(crate) fn hand_on<'a>(state: &State<'a>, frame: Frame<'a>, completion: Completion) -> Completion
    requires idle { acting frame completion ≡ false }
    requires fits { InCompletion (Fits state.now.table) completion }
    ensures gives { (view : View) (w : Fuel) → frame_of view w frame.entry (place_of view state.now) (completion_at view completion) ≡ done (place_of view state.now) (completion_at view result) }
    ensures cost { cost_of_given result ≤ cost_of_given completion }
    ensures credit { credit_of_given result ≤ credit_of_given completion }
    ensures fits { InCompletion (Fits state.now.table) result }
{
    if !is_result(&completion) {
        drop(frame);
        return completion;
    }
    match frame {
        Frame::Chain { .. } => match state.reference(completion) {
            Ok(reference) => Completion::Refers(reference),
            Err(other) => other,
        },
        other => {
            drop(other);
            match state.value(completion) {
                Ok(value) => Completion::Value(value),
                Err(other) => other,
            }
        }
    }
}
