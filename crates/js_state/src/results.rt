//! Values and references of completions.

ghost use Rattle.std.specs.Prelude.{◌≡◌, OnOk, true};
ghost use Rattle.js_meaning.specs.Parts.{settled};
ghost use Rattle.js_meaning.specs.Running.{Outcome, Reference as Referred, get_value, on_value, on_reference};
ghost use Rattle.js_meaning.specs.Values.{Place, Value as SpecValue};
ghost use Rattle.term_table.specs.Fitting.{Fits};
ghost use Rattle.term_table.specs.Views.{View, at as seen_at};
ghost use Rattle.js_state.specs.Fitting.{InCompletion, InReference, InResult, ErrStops, is_result};
ghost use Rattle.js_state.specs.Seen.{place_of, completion_at, reference_at, MatchResult};
ghost use Rattle.js_state.specs.Spending.{ErrPoor};

use crate::completion::{Completion, Reference};
use crate::state::State;
use path_core::Why;
use term_table::Shadow;

impl<'a> State<'a> {
    /// The value of a reference; a built-in alone leaves the profile.
    fn referred(&self, reference: Reference) -> Result<Shadow, Completion>
        requires { InReference (Fits self.now.table) reference }
        ensures goes { (view : View) (go : SpecValue → Place → Outcome) → get_value go (reference_at view reference) (place_of view self.now) ≡ MatchResult view (seen_at view) result (place_of view self.now) go }
        ensures fits { InResult (Fits self.now.table) (Fits self.now.table) result }
        ensures poor { ErrPoor result }
        ensures stops { ErrStops result }
    {
        match reference {
            Reference::Callee { value, this: _ } => Ok(value),
            Reference::Intrinsic { site, name: _ } => Err(self.left(site, Why::Builtin)),
            Reference::Static { site, key: _ } => Err(self.left(site, Why::Builtin)),
            Reference::Method {
                site,
                base,
                method: _,
            } => {
                drop(base);
                Err(self.left(site, Why::Builtin))
            }
        }
    }

    /// The value of an expression (ECMA-262, section 6.2.5.5). A built-in name or method that isn't called leaves the
    /// profile, and a completion that has no value is handed on.
    #[inline(always)]
    pub fn value(&self, completion: Completion) -> Result<Shadow, Completion>
        requires { InCompletion (Fits self.now.table) completion }
        ensures goes { (view : View) (go : SpecValue → Place → Outcome) → on_value go (place_of view self.now) (completion_at view completion) ≡ MatchResult view (seen_at view) result (place_of view self.now) go }
        ensures fits { InResult (Fits self.now.table) (Fits self.now.table) result }
        ensures poor { ErrPoor result }
        ensures found { OnOk result (is_result completion ≡ true) }
        ensures stops { is_result completion ≡ true → ErrStops result }
    {
        match completion {
            Completion::Value(value) => Ok(value),
            Completion::Refers(reference) => self.referred(reference),
            other => Err(other),
        }
    }

    /// What an expression refers to; a value has no `this`. A completion that is neither is handed on.
    #[inline(always)]
    pub fn reference(&self, completion: Completion) -> Result<Reference, Completion>
        requires { InCompletion (Fits self.now.table) completion }
        ensures goes { (view : View) (go : Referred → Place → Outcome) → on_reference go (place_of view self.now) (completion_at view completion) ≡ MatchResult view (reference_at view) result (place_of view self.now) go }
        ensures fits { InResult (InReference (Fits self.now.table)) (Fits self.now.table) result }
        ensures poor { ErrPoor result }
        ensures found { OnOk result (is_result completion ≡ true) }
        ensures stops { is_result completion ≡ true → ErrStops result }
    {
        match completion {
            Completion::Value(value) => Ok(Reference::Callee { value, this: None }),
            Completion::Refers(reference) => Ok(reference),
            other => Err(other),
        }
    }

    /// A built-in method, or a listed property of a built-in name, that isn't called leaves the profile as soon as that shows.
    pub fn settle(&self, reference: &Reference) -> Result<(), Completion>
        ensures goes { (view : View) (go : Place → Outcome) → settled (reference_at view reference.now) (place_of view self.now) go ≡ MatchResult view (λ x. x) result (place_of view self.now) (λ x st. go st) }
        ensures stops { ErrStops result }
    {
        match reference {
            Reference::Callee { .. } => Ok(()),
            Reference::Intrinsic { .. } => Ok(()),
            Reference::Static { site, .. } => Err(self.left(*site, Why::Builtin)),
            Reference::Method { site, .. } => Err(self.left(*site, Why::Builtin)),
        }
    }
}
