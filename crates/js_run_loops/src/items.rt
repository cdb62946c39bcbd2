//! What a for-of runs over (GetIterator; ECMA-262, section 7.4.3).

ghost use Rattle.std.specs.Prelude.{◌≡◌, ◌<◌, ℕ, IfOk};
ghost use Rattle.term_table.specs.Fitting.{Fits};
ghost use Rattle.term_table.specs.Views.{View, at as seen_at};
ghost use Rattle.js_meaning.specs.Loops.{of_start};
ghost use Rattle.js_meaning.specs.Running.{Outcome};
ghost use Rattle.js_meaning.specs.Values.{Place};
ghost use Rattle.js_state.specs.Fitting.{InResult};
ghost use Rattle.js_state.specs.Playing.{Still};
ghost use Rattle.js_state.specs.Seen.{place_of, MatchResult};

use js_state::{Completion, State};
use js_units::NoMemory;
use path_core::{ErrorName, Why};
use term_table::{Plain, Shadow};

/// The number of an array or of the result of a match. A string leaves the profile, and anything else throws.
pub(crate) fn iterated(
    state: &mut State,
    site: u32,
    value: &Shadow,
) -> Result<Result<u32, Completion>, NoMemory>
    ensures goes { IfOk result (λ o. (view : View) (go : ℕ → Place → Outcome) → of_start site go (seen_at view value.now) (place_of view state.old) ≡ MatchResult view (λ k. k) o (place_of view state.new) go) }
    ensures still { IfOk result (λ o. Still state.old state.new) }
    ensures fits { IfOk result (λ o. InResult (λ k. Unit {0}) (Fits state.new.table) o) }
{
    match &value.plain {
        Plain::Object(id) => {
            let id = *id;
            if state.is_array(id) {
                return Ok(Ok(id));
            }
            let completion = state.throw_error(site, ErrorName::TypeError)?;
            Ok(Err(completion))
        }
        Plain::Text(_) => Ok(Err(state.left(site, Why::Iterate))),
        _ => {
            let completion = state.throw_error(site, ErrorName::TypeError)?;
            Ok(Err(completion))
        }
    }
}
