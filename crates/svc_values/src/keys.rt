//! Maps and sets by key: which keys were met so far, and what stands beside each.
ghost use Rattle.std.specs.Prelude.{◌≡◌, ◌+◌, ◌||◌, if◌then◌else◌, [], length};
ghost use Rattle.std.specs.Prelude.{Some, is_some, OnOk, OnErr};
ghost use Rattle.std.specs.Option.{option_copied};
ghost use Rattle.svc_values.specs.Keys.{is_key, value_of};

use crate::memory::NoMemory;
use std::alloc::Global;
use std::collections::{BTreeMap, BTreeSet};
use std::marker::Model;

/// A value for each key that was put, seen as the list of the keys with their values. Each call
/// takes the logarithm of their number.
#[derive(Drop)]
pub struct KeyMap<K: Ord + Drop, V: Drop> {
    map: BTreeMap<K, V>,
}

impl<K: Ord + Drop, V: Drop> Model for KeyMap<K, V> {
    ghost use Rattle.std.specs.Prelude.{List};

    ghost Value = { List (K × V) };

    ghost view = { λ m. m.map.entries };
}

impl<K: Ord + Drop, V: Drop> KeyMap<K, V> {
    /// No key has a value. It takes no memory.
    pub fn new(alloc: Global) -> KeyMap<K, V>
        ensures { result ≡ [] }
    {
        KeyMap {
            map: BTreeMap::new(alloc),
        }
    }

    /// Puts the value at the key, in the place of the one that was there, if any. Where memory is
    /// refused the map is as it was.
    pub fn put(&mut self, key: K, value: V) -> Result<(), NoMemory>
        ensures ok { OnOk result ((k : K) → value_of K.eq self.new k
            ≡ (if K.eq k key then Some value else value_of K.eq self.old k)) }
        ensures count { OnOk result (length self.new
            ≡ length self.old + (if is_some (value_of K.eq self.old key) then 0 else 1)) }
        ensures err { OnErr result (self.new ≡ self.old) }
    {
        self.map.insert(key, value)?;
        Ok(())
    }

    /// The value at the key, and `None` exactly where none was put.
    pub fn get(&self, key: &K) -> Option<&V>
        ensures { option_copied result ≡ value_of K.eq self.now key.now }
    {
        self.map.get(key)
    }

    /// Whether the key has a value.
    pub fn has(&self, key: &K) -> bool
        ensures { result ≡ is_some (value_of K.eq self.now key.now) }
    {
        self.map.contains_key(key)
    }

    /// How many keys have a value.
    pub fn len(&self) -> usize
        ensures { result ≡ length self.now }
    {
        self.map.len()
    }
}

/// Keys, seen as the list of them. Each call takes the logarithm of their number.
#[derive(Drop)]
pub struct KeySet<K: Ord + Drop> {
    keys: BTreeSet<K>,
}

impl<K: Ord + Drop> Model for KeySet<K> {
    ghost use Rattle.std.specs.Prelude.{List};

    ghost Value = { List K };

    ghost view = { λ s. s.keys.keys };
}

impl<K: Ord + Drop> KeySet<K> {
    /// No key is there. It takes no memory.
    pub fn new(alloc: Global) -> KeySet<K>
        ensures { result ≡ [] }
    {
        KeySet {
            keys: BTreeSet::new(alloc),
        }
    }

    /// Whether the key is there.
    pub fn has(&self, key: &K) -> bool
        ensures { result ≡ is_key K.eq self.now key.now }
    {
        self.keys.contains(key)
    }

    /// Adds the key, where it is not there. Where memory is refused the set is as it was.
    pub fn add(&mut self, key: K) -> Result<(), NoMemory>
        ensures ok { OnOk result ((k : K) → is_key K.eq self.new k
            ≡ (is_key K.eq self.old k || K.eq k key)) }
        ensures count { OnOk result (length self.new
            ≡ length self.old + (if is_key K.eq self.old key then 0 else 1)) }
        ensures err { OnErr result (self.new ≡ self.old) }
    {
        self.keys.insert(key)?;
        Ok(())
    }

    /// How many keys are there.
    pub fn len(&self) -> usize
        ensures { result ≡ length self.now }
    {
        self.keys.len()
    }
}
