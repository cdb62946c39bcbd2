//! One object.

ghost use Rattle.std.specs.Prelude.{◌≡◌, ◌-◌, ◌<◌, [], ◌∷◌, ◌++◌, length, take, drop, slice_get, slice_set, option_copied, bytes_eq, IfOk, OnOk, OnErr};
ghost use Rattle.std.specs.List.{IsDistinct};
ghost use Rattle.std.specs.Map.{keys_of};
ghost use Rattle.js_values.specs.OwnKeys.{IsOwnKeys, own_keys};
ghost use Rattle.js_heap.specs.Properties.{value_of, put};

use crate::class::Class;
use crate::own_keys::own_keys;
use indexmap::IndexMap;
use js_units::{NoMemory, Units};
use std::alloc::Global;
use std::collections::VecDeque;
use std::marker::Model;

/// A class, properties in the order of their creation, and items.
#[derive(Drop)]
pub struct Object<V> {
    class: Class,
    properties: IndexMap<Units, V>,
    items: VecDeque<V>,
}

impl<V> Model for Object<V> {
    ghost use Rattle.js_heap.specs.Contents.{Object as Parts};

    ghost Value = { Parts V };

    ghost view = { λ o. record { class = o.class; properties = o.properties.entries; items = o.items.items } };
}

impl<V> Object<V> {
    ghost use Rattle.js_heap.specs.Contents.{bare_object};

    pub(crate) fn new(alloc: Global, class: Class) -> Object<V>
        ensures { result ≡ bare_object class }
    {
        Object {
            class,
            properties: IndexMap::new(alloc),
            items: VecDeque::new(alloc),
        }
    }

    pub(crate) fn class(&self) -> Class
        ensures { result ≡ self.now.class }
    {
        self.class
    }

    pub(crate) fn get(&self, key: &Units) -> Option<&V>
        ensures { option_copied result ≡ value_of key.now self.now.properties }
    {
        self.properties.get(key)
    }

    pub(crate) fn properties(&self) -> usize
        ensures { result ≡ length self.now.properties }
    {
        self.properties.len()
    }

    pub(crate) fn set(&mut self, key: Units, value: V) -> Result<(), NoMemory>
    where
        V: Drop,
        ensures ok { OnOk result (self.new ≡ record self.old { properties = put self.old.properties key value }) }
        ensures err { OnErr result (self.new ≡ self.old) }
    {
        self.properties.insert(key, value)?;
        Ok(())
    }

    /// The keys in the standard's order.
    pub(crate) fn keys(&self, alloc: Global) -> Result<Vec<Units>, NoMemory>
        ensures value { IfOk result (λ keys. keys.items ≡ own_keys (keys_of self.now.properties)) }
        ensures order { IfOk result (λ keys. IsOwnKeys (keys_of self.now.properties) keys.items) }
        ensures distinct { IfOk result (λ keys. IsDistinct bytes_eq keys.items) }
    {
        let created = self.properties.keys();
        own_keys(alloc, created.as_slice())
    }

    pub(crate) fn items(&self) -> usize
        ensures { result ≡ length self.now.items }
    {
        self.items.len()
    }

    pub(crate) fn item(&self, at: usize) -> Option<&V>
        ensures { option_copied result ≡ slice_get self.now.items at }
    {
        self.items.get(at)
    }

    pub(crate) fn set_item(&mut self, at: usize, value: V)
    where
        V: Drop,
        requires { at < length self.old.items }
        ensures { self.new ≡ record self.old { items = slice_set self.old.items at value } }
    {
        self.items[at] = value;
    }

    pub(crate) fn push_item(&mut self, value: V) -> Result<(), NoMemory>
    where
        V: Drop,
        ensures ok { OnOk result (self.new ≡ record self.old { items = self.old.items ++ value ∷ [] }) }
        ensures err { OnErr result (self.new ≡ self.old) }
    {
        self.items.push_back(value)?;
        Ok(())
    }

    pub(crate) fn pop_item(&mut self) -> Option<V>
        ensures last { result ≡ slice_get self.old.items (length self.old.items - 1) }
        ensures rest { self.new ≡ record self.old { items = take (length self.old.items - 1) self.old.items } }
    {
        self.items.pop_back()
    }

    pub(crate) fn shift_item(&mut self) -> Option<V>
        ensures first { result ≡ slice_get self.old.items 0 }
        ensures rest { self.new ≡ record self.old { items = drop 1 self.old.items } }
    {
        self.items.pop_front()
    }
}
