//! Objects and cells by their numbers.

ghost use Rattle.std.specs.Prelude.{◌≡◌, ◌-◌, ◌<◌, ◌≤◌, [], ◌∷◌, ◌++◌, length, take, drop, slice_get, slice_set, option_copied, bytes_eq, Some, IfOk, OnOk, OnErr};
ghost use Rattle.std.specs.List.{IsDistinct};
ghost use Rattle.std.specs.Map.{keys_of};
ghost use Rattle.js_values.specs.OwnKeys.{IsOwnKeys, own_keys};
ghost use Rattle.js_heap.specs.Properties.{value_of, put};

use crate::class::Class;
use crate::object::Object;
use js_units::{NoMemory, Units};
use std::alloc::Global;
use std::marker::Model;

/// Objects and cells, each numbered from 0.
#[derive(Drop)]
pub struct Heap<V> {
    objects: Vec<Object<V>>,
    cells: Vec<Option<V>>,
    alloc: Global,
}

impl<V> Model for Heap<V> {
    ghost use Rattle.std.specs.Prelude.{◌≤◌, length};
    ghost use Rattle.js_heap.specs.Contents.{Heap as Contents};

    ghost Value = { Contents V };

    ghost view = { λ h. record { objects = h.objects.items; cells = h.cells.items } };

    ghost invariant = { λ h. (length h.objects.items ≤ 1000000) × (length h.cells.items ≤ 1000000) };
}

impl<V> Heap<V> {
    ghost use Rattle.js_heap.specs.Contents.{object_at, properties_at, items_at, cell_at, with_properties, with_items, with_cell, with_new_object, with_new_cell};

    /// No objects and no cells.
    pub fn new(alloc: Global) -> Heap<V>
        ensures { result ≡ record { objects = []; cells = [] } }
    {
        Heap {
            objects: Vec::new(alloc),
            cells: Vec::new(alloc),
            alloc,
        }
    }

    /// How many objects there are.
    pub fn objects(&self) -> u32
        ensures count { result ≡ length self.now.objects }
        ensures most { result ≤ 1000000 }
    {
        self.objects.len() as u32
    }

    /// How many cells there are.
    pub fn cells(&self) -> u32
        ensures count { result ≡ length self.now.cells }
        ensures most { result ≤ 1000000 }
    {
        self.cells.len() as u32
    }

    /// The class of an object.
    pub fn class(&self, id: u32) -> Class
        requires { id < length self.now.objects }
        ensures { result ≡ (object_at self.now id).class }
    {
        self.objects[id as usize].class()
    }

    /// Makes an object with no properties and no items, whose number is the count of those before it. A refused call changes nothing.
    pub fn new_object(&mut self, class: Class) -> Result<u32, NoMemory>
    where
        V: Drop,
        requires { length self.old.objects < 1000000 }
        ensures id { IfOk result (λ id. id ≡ length self.old.objects) }
        ensures ok { OnOk result (self.new ≡ with_new_object self.old class) }
        ensures err { OnErr result (self.new ≡ self.old) }
    {
        let id = self.objects.len() as u32;
        self.objects.push(Object::new(self.alloc, class))?;
        Ok(id)
    }

    /// Makes a cell, whose number is the count of those before it. A refused call changes nothing.
    pub fn new_cell(&mut self, value: Option<V>) -> Result<u32, NoMemory>
    where
        V: Drop,
        requires { length self.old.cells < 1000000 }
        ensures id { IfOk result (λ id. id ≡ length self.old.cells) }
        ensures ok { OnOk result (self.new ≡ with_new_cell self.old value) }
        ensures err { OnErr result (self.new ≡ self.old) }
    {
        let id = self.cells.len() as u32;
        self.cells.push(value)?;
        Ok(id)
    }

    /// The value of a property, None exactly where there is no such key. Takes no memory.
    pub fn get(&self, id: u32, key: &Units) -> Option<&V>
        requires { id < length self.now.objects }
        ensures { option_copied result ≡ value_of key.now (properties_at self.now id) }
    {
        self.objects[id as usize].get(key)
    }

    /// How many properties an object has.
    pub fn properties(&self, id: u32) -> usize
        requires { id < length self.now.objects }
        ensures { result ≡ length (properties_at self.now id) }
    {
        self.objects[id as usize].properties()
    }

    /// Sets a property, or creates it as the last one. A refused call changes nothing.
    pub fn set(&mut self, id: u32, key: Units, value: V) -> Result<(), NoMemory>
    where
        V: Drop,
        requires { id < length self.old.objects }
        ensures ok { OnOk result (self.new ≡ with_properties self.old id (put (properties_at self.old id) key value)) }
        ensures err { OnErr result (self.new ≡ self.old) }
    {
        let object = &mut self.objects[id as usize];
        object.set(key, value)
    }

    /// The keys of an object, in the standard's order.
    pub fn keys(&self, id: u32) -> Result<Vec<Units>, NoMemory>
        requires { id < length self.now.objects }
        ensures value { IfOk result (λ keys. keys.items ≡ own_keys (keys_of (properties_at self.now id))) }
        ensures order { IfOk result (λ keys. IsOwnKeys (keys_of (properties_at self.now id)) keys.items) }
        ensures distinct { IfOk result (λ keys. IsDistinct bytes_eq keys.items) }
    {
        self.objects[id as usize].keys(self.alloc)
    }

    /// How many items an object has.
    pub fn items(&self, id: u32) -> usize
        requires { id < length self.now.objects }
        ensures { result ≡ length (items_at self.now id) }
    {
        self.objects[id as usize].items()
    }

    /// An item, None exactly where there is no such place. Takes no memory.
    pub fn item(&self, id: u32, at: usize) -> Option<&V>
        requires { id < length self.now.objects }
        ensures { option_copied result ≡ slice_get (items_at self.now id) at }
    {
        self.objects[id as usize].item(at)
    }

    /// Sets an item.
    pub fn set_item(&mut self, id: u32, at: usize, value: V)
    where
        V: Drop,
        requires id { id < length self.old.objects }
        requires at { at < length (items_at self.old id) }
        ensures { self.new ≡ with_items self.old id (slice_set (items_at self.old id) at value) }
    {
        let object = &mut self.objects[id as usize];
        object.set_item(at, value)
    }

    /// Adds an item at the end. A refused call changes nothing.
    pub fn push_item(&mut self, id: u32, value: V) -> Result<(), NoMemory>
    where
        V: Drop,
        requires { id < length self.old.objects }
        ensures ok { OnOk result (self.new ≡ with_items self.old id (items_at self.old id ++ value ∷ [])) }
        ensures err { OnErr result (self.new ≡ self.old) }
    {
        let object = &mut self.objects[id as usize];
        object.push_item(value)
    }

    /// Takes the last item, None exactly where there is none.
    pub fn pop_item(&mut self, id: u32) -> Option<V>
        requires { id < length self.old.objects }
        ensures last { result ≡ slice_get (items_at self.old id) (length (items_at self.old id) - 1) }
        ensures rest { self.new ≡ with_items self.old id (take (length (items_at self.old id) - 1) (items_at self.old id)) }
    {
        let object = &mut self.objects[id as usize];
        object.pop_item()
    }

    /// Takes the first item, None exactly where there is none. The others stay where they lie in memory.
    pub fn shift_item(&mut self, id: u32) -> Option<V>
        requires { id < length self.old.objects }
        ensures first { result ≡ slice_get (items_at self.old id) 0 }
        ensures rest { self.new ≡ with_items self.old id (drop 1 (items_at self.old id)) }
    {
        let object = &mut self.objects[id as usize];
        object.shift_item()
    }

    /// The value of a cell, None exactly where it isn't initialised. Takes no memory.
    pub fn cell(&self, id: u32) -> Option<&V>
        requires { id < length self.now.cells }
        ensures { option_copied result ≡ cell_at self.now id }
    {
        self.cells[id as usize].as_ref()
    }

    /// Sets the value of a cell.
    pub fn set_cell(&mut self, id: u32, value: V)
    where
        V: Drop,
        requires { id < length self.old.cells }
        ensures { self.new ≡ with_cell self.old id (Some value) }
    {
        self.cells[id as usize] = Some(value);
    }
}
