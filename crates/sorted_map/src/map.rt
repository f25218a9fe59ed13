//! A sorted map that is seen as the list of its pairs.

ghost use Rattle.std.specs.Prelude.{◌≡◌, ◌↔◌, [], length, IsTrue, IfOk, IfErr, OnOk, OnErr, None, is_some};
ghost use Rattle.std.specs.Option.{option_copied, option_copied_mut};
ghost use Rattle.std.specs.Borrow.{sem};
ghost use Rattle.sorted_map.specs.SortedMap.{IsOrdered, get, insert, remove};
ghost use Rattle.sorted_map.specs.Lends.{sorted_lends_get};

use crate::roomy::RoomyMap;
use std::alloc::{AllocError, AllocFailed, Global};
use std::cmp::Ord;
use std::marker::Model;

/// A map from `K` to `V`, in the order of its keys.
#[derive(Drop)]
pub struct SortedMap<K: Ord, V> {
    map: RoomyMap<K, V>,
}

impl<K: Ord, V> Model for SortedMap<K, V> {
    ghost use Rattle.std.specs.Prelude.{List};

    ghost Value = { List (K × V) };

    ghost view = { λ m. m.map.pairs };
}

impl<K: Ord + Copy, V: Copy> Clone for SortedMap<K, V> {
    ghost use Rattle.std.specs.Prelude.{◌≡◌};

    ghost is_clone = { λ map copy. copy ≡ map };

    fn clone(&self) -> Result<Self, AllocError> {
        let map = self.map.clone()?;
        Ok(SortedMap { map })
    }
}

impl<K: Ord, V> SortedMap<K, V> {
    /// An empty map.
    pub fn new(alloc: Global) -> Self
        ensures { result ≡ [] }
    {
        SortedMap {
            map: RoomyMap::new(alloc),
        }
    }

    /// How many pairs there are.
    pub fn len(&self) -> usize
        ensures len { result ≡ length self.now }
        ensures ordered { IsOrdered K.cmp self.now }
    {
        self.map.len()
    }

    /// Whether there is no pair.
    pub fn is_empty(&self) -> bool
        ensures { IsTrue result ↔ (self.now ≡ []) }
    {
        self.map.is_empty()
    }

    /// The pairs, in the order of their keys.
    pub fn as_slice(&self) -> &[(K, V)]
        ensures pairs { result.now ≡ self.now }
        ensures ordered { IsOrdered K.cmp self.now }
    {
        self.map.as_slice()
    }

    /// The value at a key.
    pub fn get(&self, key: &K) -> Option<&V>
        ensures { option_copied result ≡ get K.cmp self.now key.now }
    {
        self.map.get(key)
    }

    /// The value at a key, to be changed in place. Where a value is written, the map is the one
    /// before with that value at the key.
    pub fn get_mut(&mut self, key: &K) -> Option<&mut V>
        ensures* writes_back { sem 𝓛 (sorted_lends_get K.row V.row K.Ord self.entry key.now result) }
        ensures value { option_copied_mut result ≡ get K.cmp self.old key.now }
        ensures ordered { IsOrdered K.cmp self.old }
    {
        self.map.get_mut(key)
    }

    /// Whether there is a pair with a key.
    pub fn contains_key(&self, key: &K) -> bool
        ensures { result ≡ is_some (get K.cmp self.now key.now) }
    {
        self.map.contains_key(key)
    }

    /// Puts a value at a key, and gives the value before. To write over a value takes no memory.
    pub fn insert(&mut self, key: K, value: V) -> Result<Option<V>, AllocFailed<(K, V)>>
    where
        K: Drop,
        ensures before { IfOk result (λ before. before ≡ get K.cmp self.old key) }
        ensures ok { OnOk result (self.new ≡ insert K.cmp self.old key value) }
        ensures was_ordered { IsOrdered K.cmp self.old }
        ensures ordered { IsOrdered K.cmp self.new }

        // Memory is refused only to a new key. The map then stays, and the pair comes back.
        ensures absent { OnErr result (get K.cmp self.old key ≡ None) }
        ensures err { OnErr result (self.new ≡ self.old) }
        ensures pair_returned { IfErr result (λ refused. refused.value ≡ (key, value)) }
    {
        self.map.insert(key, value)
    }

    /// Takes a key out, and gives its value.
    pub fn remove(&mut self, key: &K) -> Option<V>
    where
        K: Drop,
        ensures before { result ≡ get K.cmp self.old key.now }
        ensures pairs { self.new ≡ remove K.cmp self.old key.now }
        ensures was_ordered { IsOrdered K.cmp self.old }
        ensures ordered { IsOrdered K.cmp self.new }
    {
        self.map.remove(key)
    }
}
