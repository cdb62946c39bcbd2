//! Properties and items are written (ECMA-262, section 7.3).

ghost use Rattle.std.specs.Prelude.{◌≡◌, ◌≤◌, ◌<◌, ◌∷◌, [], ℕ, IfOk, List, true, false, map, codes, length, is_some, nat_lt, ◌||◌, if◌then◌else◌};
ghost use Rattle.js_meaning.specs.Builtins.{among, array_methods, pattern_methods};
ghost use Rattle.js_meaning.specs.Objects.{look_up, written, add_property as adding_property, add_item as adding_item, with_property, with_item, set_leaves, inherits, set_plain as setting_plain, set_pattern as setting_pattern, set_in, set_row, object_at as object_in};
ghost use Rattle.js_meaning.specs.Running.{Outcome, done, given};
ghost use Rattle.js_meaning.specs.Values.{Place};
ghost use Rattle.term_table.specs.Fitting.{Fits};
ghost use Rattle.term_table.specs.Views.{View, at as seen_at};
ghost use Rattle.js_state.specs.Fitting.{InCompletion, IsPlayed, ErrStops, IsStop};
ghost use Rattle.js_state.specs.Playing.{Still};
ghost use Rattle.js_state.specs.Properties.{held_at};
ghost use Rattle.js_state.specs.Seen.{place_of, completion_at, MatchResult};

use crate::completion::Completion;
use crate::properties::Kind;
use crate::reading::is_among;
use crate::shadows::{Base, base_of, share};
use crate::state::State;
use js_units::{NoMemory, Units};
use path_core::{ErrorName, Why};
use term_table::Shadow;

const ENTRY_LIMIT: usize = 65_536;

const MOST_ITEMS: u32 = 65_536;

/// What an array has beside its items.
const OF_ARRAYS: [&str; 15] = [
    "length", "push", "pop", "shift", "slice", "concat", "indexOf", "includes", "join", "map",
    "filter", "forEach", "some", "every", "reduce",
];

/// What the result of a match has besides.
const OF_MATCHES: [&str; 4] = ["length", "index", "input", "groups"];

/// The methods of patterns.
const OF_PATTERNS: [&str; 2] = ["exec", "test"];

fn is_of_array(key: &Units) -> bool
    ensures { result ≡ among key.now (codes "length" ∷ array_methods) }
{
    is_among(key, OF_ARRAYS.as_slice())
}

fn is_of_match(key: &Units) -> bool
    ensures { result ≡ among key.now (codes "length" ∷ codes "index" ∷ codes "input" ∷ codes "groups" ∷ array_methods) }
{
    is_among(key, OF_MATCHES.as_slice()) || is_of_array(key)
}

fn is_of_pattern(key: &Units) -> bool
    ensures { result ≡ among key.now pattern_methods }
{
    is_among(key, OF_PATTERNS.as_slice())
}

impl<'a> State<'a> {
    /// Sets a property of an object, or makes it as the last one.
    fn store(&mut self, id: u32, key: &Units, value: Shadow) -> Result<(), NoMemory>
        requires { Fits self.old.table value }
        ensures stored { IfOk result (λ _. (view : View) → place_of view self.new ≡ record (place_of view self.old) { objects = with_property (place_of view self.old).objects id key.now (seen_at view value) }) }
        ensures still { IfOk result (λ _. Still self.old self.new) }
    {
        if id < self.heap.objects() {
            let key = key.copy()?;
            self.heap.set(id, key, value)?;
        } else {
            drop(value);
        }
        Ok(())
    }

    fn has_room(&self, id: u32, key: &Units) -> bool
        ensures { (view : View) → result ≡ (is_some (look_up key.now (object_in (place_of view self.now).objects id).properties) || nat_lt (length (object_in (place_of view self.now).objects id).properties) 65536) }
    {
        if id >= self.heap.objects() {
            return true;
        }
        match self.heap.get(id, key) {
            Some(_) => true,
            None => self.heap.properties(id) < ENTRY_LIMIT,
        }
    }

    /// A key that is there gets the value, or a new one where there is room: 65,536 keys.
    pub fn add_property(
        &mut self,
        site: u32,
        id: u32,
        key: &Units,
        value: Shadow,
    ) -> Result<Result<(), Completion>, NoMemory>
        requires { Fits self.old.table value }
        ensures goes { IfOk result (λ o. (view : View) (go : Place → Outcome) → written (adding_property site (place_of view self.old).objects id key.now (seen_at view value)) (place_of view self.old) go ≡ MatchResult view (λ x. x) o (place_of view self.new) (λ x st. go st)) }
        ensures still { IfOk result (λ o. Still self.old self.new) }
        ensures stops { IfOk result (λ o. ErrStops o) }
    {
        if !self.has_room(id, key) {
            drop(value);
            return Ok(Err(self.left(site, Why::Size)));
        }
        self.store(id, key, value)?;
        Ok(Ok(()))
    }

    fn push_item(&mut self, id: u32, value: Shadow) -> Result<(), NoMemory>
        requires fits { Fits self.old.table value }
        requires room { length (held_at self.old id).items < 65536 }
        ensures pushed { IfOk result (λ _. (view : View) → place_of view self.new ≡ record (place_of view self.old) { objects = with_item (place_of view self.old).objects id (seen_at view value) }) }
        ensures still { IfOk result (λ _. Still self.old self.new) }
    {
        if id < self.heap.objects() {
            self.heap.push_item(id, value)?;
        } else {
            drop(value);
        }
        Ok(())
    }

    /// An item behind the last one of an array, where there is room: 65,536 items.
    pub fn add_item(
        &mut self,
        site: u32,
        id: u32,
        value: Shadow,
    ) -> Result<Result<(), Completion>, NoMemory>
        requires { Fits self.old.table value }
        ensures goes { IfOk result (λ o. (view : View) (go : Place → Outcome) → written (adding_item site (place_of view self.old).objects id (seen_at view value)) (place_of view self.old) go ≡ MatchResult view (λ x. x) o (place_of view self.new) (λ x st. go st)) }
        ensures still { IfOk result (λ o. Still self.old self.new) }
        ensures stops { IfOk result (λ o. ErrStops o) }
    {
        if self.items(id) >= MOST_ITEMS {
            drop(value);
            return Ok(Err(self.left(site, Why::Size)));
        }
        self.push_item(id, value)?;
        Ok(Ok(()))
    }

    /// A name that isn't written: one that the object has, or another.
    fn not_set(&self, site: u32, has: bool) -> Completion
        ensures gives { (view : View) (go : Place → Outcome) → written (if has then set_leaves site else inherits site) (place_of view self.now) go ≡ done (place_of view self.now) (completion_at view result) }
        ensures stop { IsStop result }
    {
        if has {
            self.left(site, Why::Set)
        } else {
            self.left(site, Why::Inherited)
        }
    }

    fn set_plain(
        &mut self,
        site: u32,
        id: u32,
        key: &Units,
        value: Shadow,
    ) -> Result<Result<(), Completion>, NoMemory>
        requires { Fits self.old.table value }
        ensures goes { IfOk result (λ o. (view : View) (go : Place → Outcome) → written (setting_plain site (place_of view self.old).objects id key.now (seen_at view value)) (place_of view self.old) go ≡ MatchResult view (λ x. x) o (place_of view self.new) (λ x st. go st)) }
        ensures still { IfOk result (λ o. Still self.old self.new) }
        ensures stops { IfOk result (λ o. ErrStops o) }
    {
        if key.equals_bytes(b"__proto__") {
            drop(value);
            return Ok(Err(self.left(site, Why::Inherited)));
        }
        let set = self.add_property(site, id, key, value)?;
        Ok(set)
    }

    fn set_pattern(
        &mut self,
        site: u32,
        id: u32,
        key: &Units,
        value: Shadow,
    ) -> Result<Result<(), Completion>, NoMemory>
        requires { Fits self.old.table value }
        ensures goes { IfOk result (λ o. (view : View) (go : Place → Outcome) → written (setting_pattern site (place_of view self.old).objects id key.now (seen_at view value)) (place_of view self.old) go ≡ MatchResult view (λ x. x) o (place_of view self.new) (λ x st. go st)) }
        ensures still { IfOk result (λ o. Still self.old self.new) }
        ensures stops { IfOk result (λ o. ErrStops o) }
    {
        if key.equals_bytes(b"lastIndex") {
            self.store(id, key, value)?;
            return Ok(Ok(()));
        }
        drop(value);
        Ok(Err(self.not_set(site, is_of_pattern(key))))
    }

    /// A property of an object is written.
    fn set_own(
        &mut self,
        site: u32,
        id: u32,
        key: &Units,
        value: Shadow,
    ) -> Result<Result<(), Completion>, NoMemory>
        requires { Fits self.old.table value }
        ensures goes { IfOk result (λ o. (view : View) (go : Place → Outcome) → written (set_in site (place_of view self.old).objects id key.now (seen_at view value) (object_in (place_of view self.old).objects id).class) (place_of view self.old) go ≡ MatchResult view (λ x. x) o (place_of view self.new) (λ x st. go st)) }
        ensures still { IfOk result (λ o. Still self.old self.new) }
        ensures stops { IfOk result (λ o. ErrStops o) }
    {
        match self.kind(id) {
            Kind::Plain => {
                let set = self.set_plain(site, id, key, value)?;
                Ok(set)
            }
            Kind::Array => {
                drop(value);
                Ok(Err(self.not_set(site, is_of_array(key))))
            }
            Kind::Match => {
                drop(value);
                Ok(Err(self.not_set(site, is_of_match(key))))
            }
            Kind::Function(_) => {
                drop(value);
                Ok(Err(self.left(site, Why::Set)))
            }
            Kind::Pattern(_) => {
                let set = self.set_pattern(site, id, key, value)?;
                Ok(set)
            }
            Kind::Error(_, _) => {
                drop(value);
                Ok(Err(self.left(site, Why::Set)))
            }
        }
    }

    fn set_object(
        &mut self,
        site: u32,
        id: u32,
        key: &Units,
        value: Shadow,
    ) -> Result<Completion, NoMemory>
        requires { Fits self.old.table value }
        ensures gives { IfOk result (λ completion. (view : View) → written (set_in site (place_of view self.old).objects id key.now (seen_at view value) (object_in (place_of view self.old).objects id).class) (place_of view self.old) (λ st. done st (given (seen_at view value))) ≡ done (place_of view self.new) (completion_at view completion)) }
        ensures still { IfOk result (λ completion. Still self.old self.new) }
        ensures fits { IfOk result (λ completion. InCompletion (Fits self.new.table) completion) }
        ensures kind { IfOk result (λ completion. IsPlayed completion) }
    {
        let copy = share(&value)?;
        match self.set_own(site, id, key, value)? {
            Ok(()) => Ok(Completion::Value(copy)),
            Err(completion) => {
                drop(copy);
                Ok(completion)
            }
        }
    }

    /// A property of a value is written by a static key; the value is that of the whole.
    pub fn set(
        &mut self,
        site: u32,
        base: &Shadow,
        key: &Units,
        value: Shadow,
    ) -> Result<Completion, NoMemory>
        requires base { Fits self.old.table base.now }
        requires value { Fits self.old.table value }
        ensures gives { IfOk result (λ completion. (view : View) → written (set_row site (seen_at view base.now) key.now (seen_at view value) (place_of view self.old).objects) (place_of view self.old) (λ st. done st (given (seen_at view value))) ≡ done (place_of view self.new) (completion_at view completion)) }
        ensures still { IfOk result (λ completion. Still self.old self.new) }
        ensures fits { IfOk result (λ completion. InCompletion (Fits self.new.table) completion) }
        ensures kind { IfOk result (λ completion. IsPlayed completion) }
    {
        match base_of(&base.plain) {
            Base::Nothing => {
                drop(value);
                let completion = self.throw_error(site, ErrorName::TypeError)?;
                Ok(completion)
            }
            Base::Primitive => {
                drop(value);
                Ok(self.left(site, Why::Set))
            }
            Base::Text(_) => {
                drop(value);
                Ok(self.left(site, Why::Set))
            }
            Base::Object(id) => {
                let completion = self.set_object(site, id, key, value)?;
                Ok(completion)
            }
        }
    }
}
