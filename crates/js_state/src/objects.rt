//! Objects are made.

ghost use Rattle.std.specs.Prelude.{◌≡◌, ◌≤◌, ◌<◌, ℕ, IfOk, [], true, false};
ghost use Rattle.path_core.specs.declared.path.ErrorName.{ErrorName as SpecErrorName};
ghost use Rattle.term_table.specs.Fitting.{Fits};
ghost use Rattle.term_table.specs.Views.{View};
ghost use Rattle.js_meaning.specs.Running.{Outcome, done, new_object as making, throw_error as throwing};
ghost use Rattle.js_meaning.specs.Values.{Place, plain, array, function, error};
ghost use Rattle.js_state.specs.Fitting.{CodeBelow, ErrStops, IsAbrupt, InCompletion};
ghost use Rattle.js_state.specs.Held.{class_of, code_of};
ghost use Rattle.js_state.specs.Playing.{Still};
ghost use Rattle.js_state.specs.Seen.{place_of, completion_at, MatchResult};

use crate::closure::Closure;
use crate::completion::Completion;
use crate::shadows::object;
use crate::state::State;
use js_heap::Class;
use js_units::NoMemory;
use path_core::{ErrorName, Why};

const OBJECT_LIMIT: u32 = 1_000_000;

impl<'a> State<'a> {
    fn new_object(&mut self, site: u32, class: Class) -> Result<Result<u32, Completion>, NoMemory>
        requires { CodeBelow 0 class }
        ensures goes { IfOk result (λ o. (view : View) (go : ℕ → Place → Outcome) → making site (class_of [] class) (place_of view self.old) go ≡ MatchResult view (λ k. k) o (place_of view self.new) go) }
        ensures still { IfOk result (λ o. Still self.old self.new) }
        ensures stops { IfOk result (λ o. ErrStops o) }
    {
        if self.heap.objects() < OBJECT_LIMIT {
            let id = self.heap.new_object(class)?;
            Ok(Ok(id))
        } else {
            Ok(Err(self.left(site, Why::Size)))
        }
    }

    /// A new object with nothing in it, by its number. There may be 1,000,000.
    pub fn new_plain(&mut self, site: u32) -> Result<Result<u32, Completion>, NoMemory>
        ensures goes { IfOk result (λ o. (view : View) (go : ℕ → Place → Outcome) → making site plain (place_of view self.old) go ≡ MatchResult view (λ k. k) o (place_of view self.new) go) }
        ensures still { IfOk result (λ o. Still self.old self.new) }
        ensures stops { IfOk result (λ o. ErrStops o) }
    {
        let made = self.new_object(site, Class::Plain)?;
        Ok(made)
    }

    /// A new array with no items.
    pub fn new_array(&mut self, site: u32) -> Result<Result<u32, Completion>, NoMemory>
        ensures goes { IfOk result (λ o. (view : View) (go : ℕ → Place → Outcome) → making site array (place_of view self.old) go ≡ MatchResult view (λ k. k) o (place_of view self.new) go) }
        ensures still { IfOk result (λ o. Still self.old self.new) }
        ensures stops { IfOk result (λ o. ErrStops o) }
    {
        let made = self.new_object(site, Class::Array)?;
        Ok(made)
    }

    /// A new function object.
    #[tactic(auto, using(std::proofs::lemmas::Bool::Decides::nat_tests), unfolding(js_meaning::specs::Running::new_object))]
    pub fn new_function(
        &mut self,
        site: u32,
        closure: Closure<'a>,
    ) -> Result<Result<u32, Completion>, NoMemory>
        ensures goes { IfOk result (λ o. (view : View) (go : ℕ → Place → Outcome) → making site (function (code_of closure.entry)) (place_of view self.old) go ≡ MatchResult view (λ k. k) o (place_of view self.new) go) }
        ensures still { IfOk result (λ o. Still self.old self.new) }
        ensures stops { IfOk result (λ o. ErrStops o) }
    {
        if self.heap.objects() < OBJECT_LIMIT {
            let code = self.closures.len() as u32;
            self.closures.push(closure)?;
            match self.heap.new_object(Class::Function { code, scope: 0 }) {
                Ok(id) => Ok(Ok(id)),
                Err(refusal) => {
                    drop(self.closures.pop());
                    Err(refusal)
                }
            }
        } else {
            Ok(Err(self.left(site, Why::Size)))
        }
    }

    /// The engine throws an error, which is an object like any other (ECMA-262, section 5.2.3.2).
    #[tactic(auto, unfolding(js_meaning::specs::Running::new_object))]
    pub fn throw_error(&mut self, site: u32, name: ErrorName) -> Result<Completion, NoMemory>
        ensures gives { IfOk result (λ completion. (view : View) → throwing site name (place_of view self.old) ≡ done (place_of view self.new) (completion_at view completion)) }
        ensures still { IfOk result (λ completion. Still self.old self.new) }
        ensures fits { IfOk result (λ completion. InCompletion (Fits self.new.table) completion) }
        ensures abrupt { IfOk result (λ completion. IsAbrupt completion) }
    {
        let made = self.new_object(site, Class::Error { name, engine: true })?;
        match made {
            Ok(id) => {
                let value = object(id);
                Ok(Completion::Throw { site, value })
            }
            Err(completion) => Ok(completion),
        }
    }
}
