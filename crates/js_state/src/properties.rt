//! Properties, read and written by static keys, and items (ECMA-262, sections 7.3 and 10.1).

ghost use Rattle.std.specs.Prelude.{◌≡◌, ◌<◌, ◌≤◌, ℕ, List, [], ◌∷◌, Option, Some, None, option_map, map, length, slice_index_or, IfOk, IfSome, true, false};
ghost use Rattle.js_meaning.specs.Builtins.{among};
ghost use Rattle.js_meaning.specs.Loops.{item_at as item_of};
ghost use Rattle.js_meaning.specs.Objects.{look_up, code_of as coded, is_array as arrayed, object_at as object_in};
ghost use Rattle.term_table.specs.Fitting.{Fits};
ghost use Rattle.term_table.specs.Views.{View, at as seen_at};
ghost use Rattle.js_state.specs.Fitting.{InSome};
ghost use Rattle.js_state.specs.Held.{code_of as code_held};
ghost use Rattle.js_state.specs.Seen.{place_of};
ghost use Rattle.js_state.specs.Properties.{class_kind, held_at};

use crate::closure::Closure;
use crate::shadows::share;
use crate::state::State;
use js_heap::Class;
use js_units::{NoMemory, Units};
use path_core::ErrorName;
use term_table::{Plain, Shadow};

/// What kind of object an object is, with the code of a function.
#[derive(Clone, Copy)]
pub enum Kind<'a> {
    Plain,
    Array,
    /// The result of a match.
    Match,
    Function(Closure<'a>),
    /// A pattern, by its literal.
    Pattern(u32),
    /// An error, and whether the engine threw it.
    Error(ErrorName, bool),
}

impl<'a> State<'a> {
    /// The kind of an object; one that isn't there counts as a plain one.
    pub(crate) fn kind(&self, id: u32) -> Kind<'a>
        ensures { class_kind result ≡ (held_at self.now id).class }
    {
        if id >= self.heap.objects() {
            return Kind::Plain;
        }
        match self.heap.class(id) {
            Class::Plain => Kind::Plain,
            Class::Array => Kind::Array,
            Class::Match => Kind::Match,
            Class::Function { code, .. } => Kind::Function(self.closures.as_slice()[code as usize]),
            Class::Pattern { literal } => Kind::Pattern(literal),
            Class::Error { name, engine } => Kind::Error(name, engine),
        }
    }

    /// The value of an own key, as a copy.
    pub(crate) fn own(&self, id: u32, key: &Units) -> Result<Option<Shadow>, NoMemory>
        ensures found { IfOk result (λ o. (view : View) → option_map (seen_at view) o ≡ look_up key.now (object_in (place_of view self.now).objects id).properties) }
        ensures fits { IfOk result (λ o. InSome (Fits self.now.table) o) }
    {
        if id >= self.heap.objects() {
            return Ok(None);
        }
        match self.heap.get(id, key) {
            None => Ok(None),
            Some(value) => {
                let value = share(value)?;
                Ok(Some(value))
            }
        }
    }

    /// The item of an object at a place, as a copy. There are at most 65,536.
    pub fn item_at(&self, id: u32, at: usize) -> Result<Option<Shadow>, NoMemory>
        ensures found { IfOk result (λ o. (view : View) → option_map (seen_at view) o ≡ item_of (place_of view self.now).objects id at) }
        ensures fits { IfOk result (λ o. InSome (Fits self.now.table) o) }
        ensures within { IfOk result (λ o. IfSome o (λ x. at < 65536)) }
    {
        if id >= self.heap.objects() {
            return Ok(None);
        }
        match self.heap.item(id, at) {
            None => Ok(None),
            Some(value) => {
                let value = share(value)?;
                Ok(Some(value))
            }
        }
    }

    /// How many items an object has.
    pub(crate) fn items(&self, id: u32) -> u32
        ensures count { result ≡ length (held_at self.now id).items }
        ensures most { result ≤ 65536 }
    {
        if id >= self.heap.objects() {
            return 0;
        }
        self.heap.items(id) as u32
    }

    /// The code of what may be called.
    pub fn code_of(&self, value: &Shadow) -> Option<Closure<'a>>
        ensures { (view : View) → option_map code_held result ≡ coded (seen_at view value.now) (place_of view self.now).objects }
    {
        let Plain::Object(id) = value.plain else {
            return None;
        };
        match self.kind(id) {
            Kind::Function(closure) => Some(closure),
            _ => None,
        }
    }

    /// Whether an object is an array or the result of a match.
    pub fn is_array(&self, id: u32) -> bool
        ensures { (view : View) → result ≡ arrayed (object_in (place_of view self.now).objects id).class }
    {
        matches!(self.kind(id), Kind::Array | Kind::Match)
    }
}
