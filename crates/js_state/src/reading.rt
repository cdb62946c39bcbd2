//! Properties are read by static keys (ECMA-262, section 7.3.3).

ghost use Rattle.std.specs.Prelude.{◌≡◌, ◌≤◌, IfOk, ℕ, [], List, Option, Some, None, true, false, map, length, bytes_eq, codes, pos, if◌then◌else◌};
ghost use Rattle.path_core.specs.declared.path.ErrorName.{ErrorName as SpecErrorName};
ghost use Rattle.js_meaning.specs.Builtins.{among, is_static as statics};
ghost use Rattle.js_meaning.specs.Objects.{other as others, own_or_undefined, own_or_other, length_or, message_row, error_row, error_text as named, look_up, get_own as getting_own, get_row as getting, may_have_methods as methods_of, bracket_method as bracketed, property_row, bracket_row, inherited_names, object_at as object_in};
ghost use Rattle.js_meaning.specs.Running.{comes_to, ending, static, intrinsic, callee, done, bind, on_value, Outcome, play as playing};
ghost use Rattle.js_meaning.specs.Values.{Place, Value as SpecValue, text as a_text, int, object as an_object};
ghost use Rattle.term_table.specs.Fitting.{Fits};
ghost use Rattle.term_table.specs.declared.term.Term.{Term};
ghost use Rattle.term_table.specs.Views.{View, at as seen_at};
ghost use Rattle.js_state.specs.Fitting.{InCompletion, InReference, InSome, IsReached, IsStop};
ghost use Rattle.js_state.specs.Playing.{Still};
ghost use Rattle.js_meaning.specs.Path.{thrown_of};
ghost use Rattle.js_state.specs.Builtins.{builtin_text};
ghost use Rattle.path_core.specs.declared.path.Why.TheVariants as why;
ghost use Rattle.js_state.specs.Properties.{held_at};
ghost use Rattle.js_state.specs.Seen.{place_of, completion_at, reference_at};
ghost use Rattle.js_state.specs.declared.completion.Completion.TheVariants.{Refers};
ghost use Rattle.js_state.specs.Bases.{IsBase};
ghost use Rattle.js_state.specs.declared.shadows.Base.TheVariants.{Text as SomeText};
ghost use Rattle.js_state.specs.declared.completion.Reference.TheVariants.{Callee};

use crate::builtins::{Builtin, method_of, static_of};
use crate::completion::{Completion, Reference};
use crate::properties::Kind;
use crate::shadows::{Base, UNDEFINED, base_of, object, share};
use crate::state::State;
use js_units::{NoMemory, Units};
use path_core::{ErrorName, Thrown, Why};
use term_table::{Plain, Shadow, Text};

/// The names that a plain object inherits (sections 20.1.3 and B.2.2).
const INHERITED: [&str; 12] = [
    "constructor",
    "hasOwnProperty",
    "isPrototypeOf",
    "propertyIsEnumerable",
    "toLocaleString",
    "toString",
    "valueOf",
    "__proto__",
    "__defineGetter__",
    "__defineSetter__",
    "__lookupGetter__",
    "__lookupSetter__",
];

/// Whether the name is one of these.
pub(crate) fn is_among(name: &Units, names: &[&str]) -> bool
    ensures { result ≡ among name.now (map (λ n. n.now) names.now) }
{
    let mut left = names;
    while let [first, rest @ ..] = left {
        if name.equals_bytes(first.as_bytes()) {
            return true;
        }
        left = rest;
    }
    false
}

fn is_inherited(key: &Units) -> bool
    ensures { result ≡ among key.now inherited_names }
{
    is_among(key, INHERITED.as_slice())
}

fn is_length(key: &Units) -> bool
    ensures { result ≡ bytes_eq key.now (codes "length") }
{
    key.equals_bytes(b"length")
}

/// A number of units or items.
fn whole(n: u32) -> Shadow
    ensures value { (view : View) → seen_at view result ≡ int (pos n) }
    ensures fits { (terms : List Term) → Fits terms result }
{
    Shadow {
        plain: Plain::Int(i64::from(n)),
        term: None,
    }
}

/// A value that was read of an object.
fn holds(id: u32, value: Shadow) -> Completion
    ensures { result ≡ Refers (Callee value (Some id)) }
{
    Completion::Refers(Reference::Callee {
        value,
        this: Some(id),
    })
}

/// The text of an error's name (section 20.5.3.3).
fn error_text(name: ErrorName) -> &'static str
    ensures { result.now ≡ named name }
{
    match name {
        ErrorName::Error => "Error",
        ErrorName::TypeError => "TypeError",
        ErrorName::RangeError => "RangeError",
        ErrorName::ReferenceError => "ReferenceError",
    }
}

impl<'a> State<'a> {
    pub(crate) fn constant(&self, text: &str) -> Result<Shadow, NoMemory>
        requires { length text.now ≤ 65536 }
        ensures value { IfOk result (λ s. (view : View) → seen_at view s ≡ a_text text.now) }
        ensures fits { IfOk result (λ s. Fits self.now.table s) }
    {
        let units = Units::from_bytes(self.alloc, text.as_bytes())?;
        let text = Text::new(self.alloc, units)?;
        Ok(Shadow {
            plain: Plain::Text(text),
            term: None,
        })
    }

    /// A name that is no own key: a method of the table, or one that would be inherited.
    fn other(&self, site: u32, base: &Shadow, key: &Units) -> Result<Completion, NoMemory>
        requires { Fits self.now.table base.now }
        ensures gives { IfOk result (λ completion. (view : View) → playing (others site (seen_at view base.now) key.now) (place_of view self.now) ≡ done (place_of view self.now) (completion_at view completion)) }
        ensures fits { IfOk result (λ completion. InCompletion (Fits self.now.table) completion) }
        ensures kind { IfOk result (λ completion. IsReached completion) }
    {
        match method_of(key) {
            Some(method) => {
                let base = share(base)?;
                Ok(Completion::Refers(Reference::Method { site, base, method }))
            }
            None => Ok(self.left(site, Why::Inherited)),
        }
    }

    fn get_plain(&self, site: u32, id: u32, key: &Units) -> Result<Completion, NoMemory>
        ensures gives { IfOk result (λ completion. (view : View) → playing (own_or_undefined site (an_object id) key.now (look_up key.now (object_in (place_of view self.now).objects id).properties)) (place_of view self.now) ≡ done (place_of view self.now) (completion_at view completion)) }
        ensures fits { IfOk result (λ completion. InCompletion (Fits self.now.table) completion) }
        ensures kind { IfOk result (λ completion. IsReached completion) }
    {
        match self.own(id, key)? {
            Some(value) => Ok(holds(id, value)),
            None => {
                if is_inherited(key) {
                    Ok(self.left(site, Why::Inherited))
                } else {
                    Ok(holds(id, UNDEFINED))
                }
            }
        }
    }

    /// An own key, or another name.
    fn get_listed(&self, site: u32, id: u32, key: &Units) -> Result<Completion, NoMemory>
        ensures gives { IfOk result (λ completion. (view : View) → playing (own_or_other site (an_object id) key.now (look_up key.now (object_in (place_of view self.now).objects id).properties)) (place_of view self.now) ≡ done (place_of view self.now) (completion_at view completion)) }
        ensures fits { IfOk result (λ completion. InCompletion (Fits self.now.table) completion) }
        ensures kind { IfOk result (λ completion. IsReached completion) }
    {
        match self.own(id, key)? {
            Some(value) => Ok(holds(id, value)),
            None => {
                let base = object(id);
                let completion = self.other(site, &base, key)?;
                Ok(completion)
            }
        }
    }

    /// The number of an object's items.
    fn length(&self, id: u32) -> Shadow
        ensures value { (view : View) → seen_at view result ≡ int (pos (length (object_in (place_of view self.now).objects id).items)) }
        ensures fits { Fits self.now.table result }
    {
        whole(self.items(id))
    }

    fn get_array(&self, site: u32, id: u32, key: &Units) -> Result<Completion, NoMemory>
        ensures gives { IfOk result (λ completion. (view : View) → playing (own_or_other site (an_object id) key.now (length_or (object_in (place_of view self.now).objects id).items key.now None)) (place_of view self.now) ≡ done (place_of view self.now) (completion_at view completion)) }
        ensures fits { IfOk result (λ completion. InCompletion (Fits self.now.table) completion) }
        ensures kind { IfOk result (λ completion. IsReached completion) }
    {
        if is_length(key) {
            return Ok(holds(id, self.length(id)));
        }
        let base = object(id);
        let completion = self.other(site, &base, key)?;
        Ok(completion)
    }

    fn get_match(&self, site: u32, id: u32, key: &Units) -> Result<Completion, NoMemory>
        ensures gives { IfOk result (λ completion. (view : View) → playing (own_or_other site (an_object id) key.now (length_or (object_in (place_of view self.now).objects id).items key.now (look_up key.now (object_in (place_of view self.now).objects id).properties))) (place_of view self.now) ≡ done (place_of view self.now) (completion_at view completion)) }
        ensures fits { IfOk result (λ completion. InCompletion (Fits self.now.table) completion) }
        ensures kind { IfOk result (λ completion. IsReached completion) }
    {
        if is_length(key) {
            return Ok(holds(id, self.length(id)));
        }
        let completion = self.get_listed(site, id, key)?;
        Ok(completion)
    }

    /// The message of an error (section 20.5.3.2).
    fn message(&self, site: u32, id: u32, engine: bool, key: &Units) -> Result<Completion, NoMemory>
        ensures gives { IfOk result (λ completion. (view : View) → playing (message_row site (an_object id) engine (look_up key.now (object_in (place_of view self.now).objects id).properties)) (place_of view self.now) ≡ done (place_of view self.now) (completion_at view completion)) }
        ensures fits { IfOk result (λ completion. InCompletion (Fits self.now.table) completion) }
        ensures kind { IfOk result (λ completion. IsReached completion) }
    {
        if engine {
            return Ok(self.left(site, Why::Message));
        }
        match self.own(id, key)? {
            Some(value) => Ok(holds(id, value)),
            None => {
                let empty = self.constant("")?;
                Ok(holds(id, empty))
            }
        }
    }

    fn get_error(
        &self,
        site: u32,
        id: u32,
        name: ErrorName,
        engine: bool,
        key: &Units,
    ) -> Result<Completion, NoMemory>
        ensures gives { IfOk result (λ completion. (view : View) → playing (error_row site (an_object id) name engine key.now (object_in (place_of view self.now).objects id).properties) (place_of view self.now) ≡ done (place_of view self.now) (completion_at view completion)) }
        ensures fits { IfOk result (λ completion. InCompletion (Fits self.now.table) completion) }
        ensures kind { IfOk result (λ completion. IsReached completion) }
    {
        if key.equals_bytes(b"name") {
            let text = self.constant(error_text(name))?;
            return Ok(holds(id, text));
        }
        if key.equals_bytes(b"message") {
            let completion = self.message(site, id, engine, key)?;
            return Ok(completion);
        }
        let base = object(id);
        let completion = self.other(site, &base, key)?;
        Ok(completion)
    }

    /// A property of an object.
    fn get_own(&self, site: u32, id: u32, key: &Units) -> Result<Completion, NoMemory>
        ensures gives { IfOk result (λ completion. (view : View) → playing (getting_own site id key.now (object_in (place_of view self.now).objects id)) (place_of view self.now) ≡ done (place_of view self.now) (completion_at view completion)) }
        ensures fits { IfOk result (λ completion. InCompletion (Fits self.now.table) completion) }
        ensures kind { IfOk result (λ completion. IsReached completion) }
    {
        match self.kind(id) {
            Kind::Plain => {
                let completion = self.get_plain(site, id, key)?;
                Ok(completion)
            }
            Kind::Array => {
                let completion = self.get_array(site, id, key)?;
                Ok(completion)
            }
            Kind::Match => {
                let completion = self.get_match(site, id, key)?;
                Ok(completion)
            }
            Kind::Function(_) => {
                let base = object(id);
                let completion = self.other(site, &base, key)?;
                Ok(completion)
            }
            Kind::Pattern(_) => {
                let completion = self.get_listed(site, id, key)?;
                Ok(completion)
            }
            Kind::Error(name, engine) => {
                let completion = self.get_error(site, id, name, engine, key)?;
                Ok(completion)
            }
        }
    }

    /// A property of a string.
    fn get_text(
        &self,
        site: u32,
        base: &Shadow,
        text: &Text,
        key: &Units,
    ) -> Result<Completion, NoMemory>
        requires fits { Fits self.now.table base.now }
        requires same { IsBase base.now.plain (SomeText text) }
        ensures gives { IfOk result (λ completion. (view : View) → playing (getting site (seen_at view base.now) key.now (place_of view self.now).objects) (place_of view self.now) ≡ done (place_of view self.now) (completion_at view completion)) }
        ensures fits { IfOk result (λ completion. InCompletion (Fits self.now.table) completion) }
        ensures kind { IfOk result (λ completion. IsReached completion) }
    {
        if is_length(key) {
            let value = whole(text.units().len() as u32);
            return Ok(Completion::Refers(Reference::Callee { value, this: None }));
        }
        let completion = self.other(site, base, key)?;
        Ok(completion)
    }

    /// A property of a value, by a static key.
    pub fn get(&mut self, site: u32, base: &Shadow, key: &Units) -> Result<Completion, NoMemory>
        requires { Fits self.old.table base.now }
        ensures gives { IfOk result (λ completion. (view : View) → playing (getting site (seen_at view base.now) key.now (place_of view self.old).objects) (place_of view self.old) ≡ done (place_of view self.new) (completion_at view completion)) }
        ensures still { IfOk result (λ completion. Still self.old self.new) }
        ensures fits { IfOk result (λ completion. InCompletion (Fits self.new.table) completion) }
        ensures kind { IfOk result (λ completion. IsReached completion) }
    {
        match base_of(&base.plain) {
            Base::Nothing => {
                let completion = self.throw_error(site, ErrorName::TypeError)?;
                Ok(completion)
            }
            Base::Primitive => {
                let completion = self.other(site, base, key)?;
                Ok(completion)
            }
            Base::Text(text) => {
                let completion = self.get_text(site, base, text, key)?;
                Ok(completion)
            }
            Base::Object(id) => {
                let completion = self.get_own(site, id, key)?;
                Ok(completion)
            }
        }
    }

    /// A property of a built-in name: only a listed one (section 6.2.5).
    fn listed(&self, site: u32, name: Builtin, key: &Units) -> Completion
        ensures gives { (view : View) → playing (if statics (builtin_text name) key.now then ([], comes_to (static site (builtin_text name) key.now)) else ending site why.Builtin) (place_of view self.now) ≡ done (place_of view self.now) (completion_at view result) }
        ensures fits { InCompletion (Fits self.now.table) result }
        ensures kind { IsReached result }
    {
        match static_of(name, key) {
            Some(key) => Completion::Refers(Reference::Static { site, key }),
            None => self.left(site, Why::Builtin),
        }
    }

    /// A property of what a chain of suffixes has come to, by a static key.
    pub fn property(
        &mut self,
        site: u32,
        reference: &Reference,
        key: &Units,
    ) -> Result<Completion, NoMemory>
        requires { InReference (Fits self.old.table) reference.now }
        ensures gives { IfOk result (λ completion. (view : View) → playing (property_row site (reference_at view reference.now) key.now (place_of view self.old).objects) (place_of view self.old) ≡ done (place_of view self.new) (completion_at view completion)) }
        ensures still { IfOk result (λ completion. Still self.old self.new) }
        ensures fits { IfOk result (λ completion. InCompletion (Fits self.new.table) completion) }
        ensures kind { IfOk result (λ completion. IsReached completion) }
    {
        match reference {
            Reference::Callee { value, .. } => {
                let completion = self.get(site, value, key)?;
                Ok(completion)
            }
            Reference::Intrinsic { name, .. } => Ok(self.listed(site, *name, key)),
            Reference::Static { .. } => Ok(self.left(site, Why::Builtin)),
            Reference::Method { .. } => Ok(self.left(site, Why::Builtin)),
        }
    }

    /// Whether a method may be a property of the value.
    fn may_have_methods(&self, base: &Shadow) -> bool
        requires { Fits self.now.table base.now }
        ensures { (view : View) → result ≡ methods_of (seen_at view base.now) (place_of view self.now).objects }
    {
        match &base.plain {
            Plain::Undefined => false,
            Plain::Null => false,
            Plain::Object(id) => !matches!(self.kind(*id), Kind::Plain),
            _ => true,
        }
    }

    /// A property in brackets that one text literal names: a method of the table.
    fn bracket_method(&self, site: u32, base: &Shadow, key: &Units) -> Result<Completion, NoMemory>
        requires { Fits self.now.table base.now }
        ensures gives { IfOk result (λ completion. (view : View) → playing (bracketed site (seen_at view base.now) (Some key.now) (place_of view self.now).objects) (place_of view self.now) ≡ done (place_of view self.now) (completion_at view completion)) }
        ensures fits { IfOk result (λ completion. InCompletion (Fits self.now.table) completion) }
        ensures kind { IfOk result (λ completion. IsReached completion) }
    {
        let Some(method) = method_of(key) else {
            return Ok(self.left(site, Why::Key));
        };
        if !self.may_have_methods(base) {
            return Ok(self.left(site, Why::Key));
        }
        let base = share(base)?;
        Ok(Completion::Refers(Reference::Method { site, base, method }))
    }

    /// A property of a value in brackets, by the key's value; the flag tells a literal alone.
    #[tactic(auto, unfolding(js_meaning::specs::Objects::bracket_row))]
    pub fn bracket(
        &self,
        site: u32,
        is_static: bool,
        base: &Shadow,
        key: &Shadow,
    ) -> Result<Completion, NoMemory>
        requires base { Fits self.now.table base.now }
        requires key { Fits self.now.table key.now }
        ensures gives { IfOk result (λ completion. (view : View) (this : SpecValue) → playing (bracket_row site is_static (callee (seen_at view base.now) this) (seen_at view key.now) (place_of view self.now).objects) (place_of view self.now) ≡ done (place_of view self.now) (completion_at view completion)) }
        ensures fits { IfOk result (λ completion. InCompletion (Fits self.now.table) completion) }
        ensures kind { IfOk result (λ completion. IsReached completion) }
    {
        if is_static {
            if let Base::Text(text) = base_of(&key.plain) {
                let completion = self.bracket_method(site, base, text.units())?;
                return Ok(completion);
            }
        }
        Ok(self.left(site, Why::Key))
    }

    fn method_value(&self, site: u32, base: &Shadow, key: &Units) -> Completion
        requires { Fits self.now.table base.now }
        ensures gives { (view : View) (go : SpecValue → Place → Outcome) → bind (playing (bracketed site (seen_at view base.now) (Some key.now) (place_of view self.now).objects) (place_of view self.now)) (on_value go) ≡ done (place_of view self.now) (completion_at view result) }
        ensures stops { IsStop result }
    {
        match method_of(key) {
            None => self.left(site, Why::Key),
            Some(_) => {
                if self.may_have_methods(base) {
                    self.left(site, Why::Builtin)
                } else {
                    self.left(site, Why::Key)
                }
            }
        }
    }

    /// A property of a value in brackets whose value is asked for: so far that leaves the profile.
    #[tactic(auto, unfolding(js_meaning::specs::Objects::bracket_row))]
    pub fn bracket_value(
        &self,
        site: u32,
        is_static: bool,
        base: &Shadow,
        key: &Shadow,
    ) -> Completion
        requires base { Fits self.now.table base.now }
        requires key { Fits self.now.table key.now }
        ensures gives { (view : View) (this : SpecValue) (go : SpecValue → Place → Outcome) → bind (playing (bracket_row site is_static (callee (seen_at view base.now) this) (seen_at view key.now) (place_of view self.now).objects) (place_of view self.now)) (on_value go) ≡ done (place_of view self.now) (completion_at view result) }
        ensures stops { IsStop result }
    {
        if is_static {
            if let Base::Text(text) = base_of(&key.plain) {
                return self.method_value(site, base, text.units());
            }
        }
        self.left(site, Why::Key)
    }

    /// A property of a built-in name in brackets.
    #[tactic(auto, unfolding(js_meaning::specs::Objects::bracket_row))]
    pub fn builtin_bracket(
        &self,
        site: u32,
        is_static: bool,
        name: Builtin,
        key: &Shadow,
    ) -> Completion
        requires { Fits self.now.table key.now }
        ensures gives { (view : View) (at : ℕ) → playing (bracket_row site is_static (intrinsic at (builtin_text name)) (seen_at view key.now) (place_of view self.now).objects) (place_of view self.now) ≡ done (place_of view self.now) (completion_at view result) }
        ensures fits { InCompletion (Fits self.now.table) result }
        ensures kind { IsReached result }
    {
        if is_static {
            if let Base::Text(text) = base_of(&key.plain) {
                return self.listed(site, name, text.units());
            }
        }
        self.left(site, Why::Builtin)
    }

    /// What an uncaught throw of the value ends with.
    pub fn thrown(&self, value: &Shadow) -> Thrown
        requires { Fits self.now.table value.now }
        ensures { (view : View) → result ≡ thrown_of (seen_at view value.now) (place_of view self.now).objects }
    {
        let Plain::Object(id) = &value.plain else {
            return Thrown::Value;
        };
        match self.kind(*id) {
            Kind::Error(name, _) => Thrown::Named(name),
            _ => Thrown::Value,
        }
    }
}
