//! Names: bindings, and where a name is found (ECMA-262, section 9.1).

ghost use Rattle.std.specs.Prelude.{◌≡◌, ◌≤◌, ◌<◌, ℕ, Bool, List, Option, Some, None, option_map, option_copied, length, map, slice_get, slice_set, is_some, true, false, IfOk, IfSome, OnSome, MatchOption};
ghost use Rattle.term_table.specs.Fitting.{Fits};
ghost use Rattle.term_table.specs.Views.{View, at as seen_at};
ghost use Rattle.term_table.specs.declared.shadow.Shadow.{Shadow as SpecShadow};
ghost use Rattle.js_meaning.specs.Loops.{value_of as valued};
ghost use Rattle.js_meaning.specs.Names.{resolve as resolving, binding_of as bound_by, read_found, put_found, found_input, open_cell as opening, read_name as reading, put_name as putting, init_name as initialising, find_name as finding, listed};
ghost use Rattle.js_state.specs.Builtins.{builtin_text};
ghost use Rattle.js_meaning.specs.Objects.{look_up};
ghost use Rattle.js_meaning.specs.Running.{Outcome, done};
ghost use Rattle.js_meaning.specs.Values.{Place, Scope as SpecScope, Value as SpecValue};
ghost use Rattle.js_state.specs.Fitting.{AllOf, IsSupplied, InSome, InCompletion, ErrStops, IsAbrupt, IsReached, IsPlayed};
ghost use Rattle.js_state.specs.Held.{scope_of, cells_of, Cell as SpecCell};
ghost use Rattle.js_state.specs.Playing.{Still};
ghost use Rattle.js_state.specs.Seen.{place_of, completion_at, binding_at, supplied_at, input_at, MatchResult};
ghost use Rattle.js_state.specs.declared.held.Supplied.{Supplied as SpecSupplied};

use crate::builtins::{Builtin, builtin_of};
use crate::closure::Scope;
use crate::completion::{Completion, Reference};
use crate::held::{Bound, Supplied};
use crate::shadows::{UNDEFINED, share, share_plain};
use crate::state::State;
use js_units::{NoMemory, Units};
use path_core::{ErrorName, Why};
use sqlite_items::at;
use term_table::{Plain, Shadow};

const BINDING_LIMIT: u32 = 1_000_000;

/// The binding of a name, from the innermost outwards. Takes no memory.
fn resolve(names: &[Bound], cell: Option<u32>, name: &Units) -> Option<u32>
    ensures gives { (view : View) (values : List (Option SpecShadow)) → length names.now ≡ length values → result ≡ resolving (length names.now) (map (binding_at view) (cells_of names.now values)) cell name.now }
    ensures within { IfSome result (λ k. k < length names.now) }
{
    let mut cell = cell;
    let mut left = names.len();
    while left > 0 {
        let Some(number) = cell else {
            return None;
        };
        let Some(bound) = at(names, number as usize) else {
            return None;
        };
        if bound.name.equals(name) {
            return Some(number);
        }
        cell = bound.outer;
        left -= 1;
    }
    None
}

/// The input of a name.
fn supplied<'b, 'a>(inputs: &'b [Supplied<'a>], name: &Units) -> Option<&'b Supplied<'a>>
    requires { AllOf IsSupplied inputs.now }
    ensures is_supplied { IfSome result (λ s. IsSupplied s.now) }
    ensures found { (view : View) → option_map (λ s. input_at view s.value s.number) (option_copied result) ≡ look_up name.now (map (supplied_at view) inputs.now) }
{
    let mut left = inputs;
    while let [first, rest @ ..] = left {
        if name.equals(first.name) {
            return Some(first);
        }
        left = rest;
    }
    None
}

impl<'a> State<'a> {
    /// A new binding in front of a scope, and the scope inside it. There may be 1,000,000.
    #[tactic(auto, using(std::proofs::lemmas::Bool::Decides::nat_tests), unfolding(js_meaning::specs::Names::open_cell))]
    pub fn open_cell(
        &mut self,
        site: u32,
        name: &'a Units,
        is_mutable: bool,
        value: Option<Shadow>,
        scope: Scope,
    ) -> Result<Result<Scope, Completion>, NoMemory>
        requires { InSome (Fits self.old.table) value }
        ensures goes { IfOk result (λ o. (view : View) (go : SpecScope → Place → Outcome) → opening site name.entry.now is_mutable (option_map (seen_at view) value) (scope_of scope) (place_of view self.old) go ≡ MatchResult view scope_of o (place_of view self.new) go) }
        ensures still { IfOk result (λ o. Still self.old self.new) }
        ensures stops { IfOk result (λ o. ErrStops o) }
    {
        if self.heap.cells() >= BINDING_LIMIT {
            return Ok(Err(self.left(site, Why::Size)));
        }
        let bound = Bound {
            name,
            is_mutable,
            outer: scope.cell,
        };
        self.names.push(bound)?;
        match self.heap.new_cell(value) {
            Ok(id) => Ok(Ok(Scope {
                cell: Some(id),
                this: scope.this,
            })),
            Err(refusal) => {
                drop(self.names.pop());
                Err(refusal)
            }
        }
    }

    fn binding_of(&self, scope: Scope, name: &Units) -> Option<u32>
        ensures gives { (view : View) → result ≡ bound_by (scope_of scope) name.now (place_of view self.now) }
        ensures within { IfSome result (λ k. k < length self.now.cells) }
    {
        resolve(self.names.as_slice(), scope.cell, name)
    }

    /// The value of a name where it has one, as a copy.
    pub fn value_of(&self, name: &Units, scope: Scope) -> Result<Option<Shadow>, NoMemory>
        ensures gives { IfOk result (λ o. (view : View) → option_map (seen_at view) o ≡ valued name.now (scope_of scope) (place_of view self.now)) }
        ensures fits { IfOk result (λ o. InSome (Fits self.now.table) o) }
    {
        let Some(number) = self.binding_of(scope, name) else {
            return Ok(None);
        };
        match self.heap.cell(number) {
            None => Ok(None),
            Some(value) => {
                let value = share(value)?;
                Ok(Some(value))
            }
        }
    }

    /// A name gets its first value.
    pub fn init_name(&mut self, name: &Units, scope: Scope, value: Shadow)
        requires { Fits self.old.table value }
        ensures gives { (view : View) → place_of view self.new ≡ initialising name.now (scope_of scope) (seen_at view value) (place_of view self.old) }
        ensures still { Still self.old self.new }
    {
        match self.binding_of(scope, name) {
            None => drop(value),
            Some(number) => self.heap.set_cell(number, value),
        }
    }

    /// The value of a name that is no binding: an input, or a built-in name.
    fn read_outside(&self, site: u32, name: &Units) -> Result<Completion, NoMemory>
        ensures gives { IfOk result (λ completion. (view : View) → read_found site name.now (found_input (look_up name.now (place_of view self.now).run.inputs) name.now) (place_of view self.now) ≡ done (place_of view self.now) (completion_at view completion)) }
        ensures fits { IfOk result (λ completion. InCompletion (Fits self.now.table) completion) }
        ensures kind { IfOk result (λ completion. IsReached completion) }
    {
        if let Some(input) = supplied(self.inputs.as_slice(), name) {
            let value = share_plain(&input.value)?;
            return Ok(Completion::Value(Shadow {
                plain: value,
                term: None,
            }));
        }
        match builtin_of(name) {
            None => Ok(self.left(site, Why::Name)),
            Some(Builtin::Undefined) => Ok(Completion::Value(UNDEFINED)),
            Some(Builtin::NotNumber) => Ok(Completion::Value(Shadow {
                plain: Plain::NotNumber,
                term: None,
            })),
            Some(builtin) => Ok(Completion::Refers(Reference::Intrinsic {
                site,
                name: builtin,
            })),
        }
    }
}

impl<'a> State<'a> {
    /// The built-in name that a name stands for, where it is neither bound nor an input.
    #[tactic(auto, unfolding(js_meaning::specs::Names::find_name))]
    pub fn built_in(&self, name: &Units, scope: Scope) -> Option<Builtin>
        ensures { (view : View) → MatchOption result (finding (scope_of scope) name.now (place_of view self.now) ≡ listed → ⊥) (λ b. (finding (scope_of scope) name.now (place_of view self.now) ≡ listed) × (builtin_text b ≡ name.now)) }
    {
        if self.binding_of(scope, name).is_some() {
            return None;
        }
        if supplied(self.inputs.as_slice(), name).is_some() {
            return None;
        }
        builtin_of(name)
    }

    /// The value of a name, or what it refers to (ECMA-262, section 9.1.1.1.6).
    #[tactic(auto, unfolding(js_meaning::specs::Names::read_name, js_meaning::specs::Names::find_name))]
    pub fn read_name(
        &mut self,
        site: u32,
        name: &Units,
        scope: Scope,
    ) -> Result<Completion, NoMemory>
        ensures gives { IfOk result (λ completion. (view : View) → reading site name.now (scope_of scope) (place_of view self.old) ≡ done (place_of view self.new) (completion_at view completion)) }
        ensures still { IfOk result (λ completion. Still self.old self.new) }
        ensures fits { IfOk result (λ completion. InCompletion (Fits self.new.table) completion) }
        ensures kind { IfOk result (λ completion. IsReached completion) }
    {
        let Some(number) = self.binding_of(scope, name) else {
            let completion = self.read_outside(site, name)?;
            return Ok(completion);
        };
        match self.heap.cell(number) {
            Some(value) => {
                let value = share(value)?;
                Ok(Completion::Value(value))
            }
            None => {
                let completion = self.throw_error(site, ErrorName::ReferenceError)?;
                Ok(completion)
            }
        }
    }

    /// A name that is no binding is written.
    fn put_outside(&mut self, site: u32, name: &Units) -> Result<Completion, NoMemory>
        ensures gives { IfOk result (λ completion. (view : View) (x : SpecValue) → put_found site x (found_input (look_up name.now (place_of view self.old).run.inputs) name.now) (place_of view self.old) ≡ done (place_of view self.new) (completion_at view completion)) }
        ensures still { IfOk result (λ completion. Still self.old self.new) }
        ensures fits { IfOk result (λ completion. InCompletion (Fits self.new.table) completion) }
        ensures abrupt { IfOk result (λ completion. IsAbrupt completion) }
    {
        if supplied(self.inputs.as_slice(), name).is_some() {
            let completion = self.throw_error(site, ErrorName::TypeError)?;
            return Ok(completion);
        }
        match builtin_of(name) {
            None => Ok(self.left(site, Why::Name)),
            Some(_) => Ok(self.left(site, Why::Builtin)),
        }
    }

    /// A name is written; the value is that of the whole (section 9.1.1.1.5).
    #[tactic(auto, unfolding(js_meaning::specs::Names::put_name, js_meaning::specs::Names::find_name))]
    pub fn put_name(
        &mut self,
        site: u32,
        name: &Units,
        scope: Scope,
        value: Shadow,
    ) -> Result<Completion, NoMemory>
        requires { Fits self.old.table value }
        ensures gives { IfOk result (λ completion. (view : View) → putting site name.now (scope_of scope) (seen_at view value) (place_of view self.old) ≡ done (place_of view self.new) (completion_at view completion)) }
        ensures still { IfOk result (λ completion. Still self.old self.new) }
        ensures fits { IfOk result (λ completion. InCompletion (Fits self.new.table) completion) }
        ensures kind { IfOk result (λ completion. IsPlayed completion) }
    {
        let Some(number) = self.binding_of(scope, name) else {
            drop(value);
            let completion = self.put_outside(site, name)?;
            return Ok(completion);
        };
        if !self.is_initialised(number) {
            drop(value);
            let completion = self.throw_error(site, ErrorName::ReferenceError)?;
            return Ok(completion);
        }
        if !self.is_mutable(number) {
            drop(value);
            let completion = self.throw_error(site, ErrorName::TypeError)?;
            return Ok(completion);
        }
        let copy = share(&value)?;
        self.write_cell(number, value);
        Ok(Completion::Value(copy))
    }

    fn is_initialised(&self, number: u32) -> bool
        requires { number < length self.now.cells }
        ensures { (cell : SpecCell) → slice_get self.now.cells number ≡ Some cell → result ≡ is_some cell.value }
    {
        match self.heap.cell(number) {
            None => false,
            Some(_) => true,
        }
    }

    fn write_cell(&mut self, number: u32, value: Shadow)
        requires within { number < length self.old.cells }
        requires fits { Fits self.old.table value }
        ensures still { Still self.old self.new }
        ensures written { (cell : SpecCell) → slice_get self.old.cells number ≡ Some cell → self.new ≡ record self.old { cells = slice_set self.old.cells number (record cell { value = Some value }) } }
    {
        self.heap.set_cell(number, value);
    }

    fn is_mutable(&self, number: u32) -> bool
        requires { number < length self.now.cells }
        ensures { (cell : SpecCell) → slice_get self.now.cells number ≡ Some cell → result ≡ cell.is_mutable }
    {
        self.names.as_slice()[number as usize].is_mutable
    }
}
