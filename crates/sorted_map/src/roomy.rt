//! A sorted map that is seen with its free places.

ghost use Rattle.std.specs.Prelude.{◌≡◌, ◌++◌, reverse, ◌+◌, ◌-◌, ◌<◌, ◌≤◌, ◌↔◌, [], length, IsTrue, IfOk, IfErr, OnOk, OnErr, None, Some, is_some, if◌then◌else◌, take, drop, slice_get, vec_capacity, vec_len};
ghost use Rattle.std.specs.Option.{option_copied, option_copied_mut};
ghost use Rattle.std.specs.Borrow.{sem};
ghost use Rattle.std.specs.Fn.{CalledAt};
ghost use Rattle.std.specs.List.Retain.{IsFiltered};
ghost use Rattle.sorted_map.specs.SortedMap.{IsOrdered, get, insert, remove};
ghost use Rattle.sorted_map.specs.Lends.{roomy_lends_value, roomy_lends_get};
ghost use Rattle.sorted_map.specs.Blocks.{first_from};
ghost use Rattle.sorted_map.specs.code.Place.{IsPlaceOf, IsGapFor};

use std::alloc::{AllocError, AllocFailed, Global};
use std::cmp::Ord;
use std::marker::Model;
use std::mem;

/// How many new keys a clone has room for at once: it is mostly made to be changed.
const CLONED_ROOM: usize = 8;

/// A map from `K` to `V`, in the order of its keys, that shows how many new keys it takes without
/// memory.
#[derive(Drop)]
pub struct RoomyMap<K: Ord, V> {
    pairs: Vec<(K, V)>,
}

impl<K: Ord, V> Model for RoomyMap<K, V> {
    ghost use Rattle.std.specs.Prelude.{◌-◌, vec_len, vec_capacity};
    ghost use Rattle.sorted_map.specs.SortedMap.{IsOrdered};
    ghost use Rattle.sorted_map.specs.Roomy.{Roomy};

    ghost Value = { Roomy K V };

    ghost view = { λ m. record { pairs = m.pairs.items; room = vec_capacity m.pairs - vec_len m.pairs } };

    ghost invariant = { λ m. IsOrdered K.cmp m.pairs.items };
}

impl<K: Ord + Copy, V: Copy> Clone for RoomyMap<K, V> {
    ghost use Rattle.std.specs.Prelude.{◌≡◌};

    ghost is_clone = { λ map copy. copy.pairs ≡ map.pairs };

    fn clone(&self) -> Result<Self, AllocError> {
        let room = self.pairs.len().saturating_add(CLONED_ROOM);
        let mut pairs = Vec::with_capacity(*self.pairs.allocator(), room)?;
        pairs.extend_from_slice(&self.pairs)?;
        Ok(RoomyMap { pairs })
    }
}

impl<K: Ord + Copy, V: Clone> RoomyMap<K, V> {
    /// An equal map, with room for some new keys. The values' clones are equal to them.
    pub(crate) fn copied(&self, alloc: Global) -> Result<Self, AllocError>
        requires equal { (value copy : V) → V.is_clone value copy → copy ≡ value }
        ensures pairs { IfOk result (λ map. map.pairs ≡ self.now.pairs) }
        ensures room { IfOk result (λ map. 8 ≤ map.room) }
    {
        let room = self.pairs.len().saturating_add(CLONED_ROOM);
        let mut pairs = Vec::with_capacity(alloc, room)?;
        copy_pairs(&self.pairs, &mut pairs)?;
        Ok(RoomyMap { pairs })
    }
}

/// Appends equal pairs to a vector that has room for them.
fn copy_pairs<K: Copy, V: Clone>(pairs: &[(K, V)], out: &mut Vec<(K, V)>) -> Result<(), AllocError>
    requires equal { (value copy : V) → V.is_clone value copy → copy ≡ value }
    requires room { length pairs.now + vec_len out.old ≤ vec_capacity out.old }
    ensures pairs { OnOk result (out.new.items ≡ out.old.items ++ pairs.now) }
    ensures len { OnOk result (vec_len out.new ≡ vec_len out.old + length pairs.now) }
    ensures capacity { OnOk result (vec_capacity out.new ≡ vec_capacity out.old) }
{
    for (key, value) in pairs {
        out.push_reserved((*key, value.clone()?));
    }
    Ok(())
}

impl<K: Ord, V> RoomyMap<K, V> {
    /// An empty map.
    pub fn new(alloc: Global) -> Self
        ensures { result.pairs ≡ [] }
    {
        RoomyMap {
            pairs: Vec::new(alloc),
        }
    }

    /// The map of these pairs, which are not copied. What the vector has free is room.
    pub fn from_ordered(pairs: Vec<(K, V)>) -> Self
        requires { IsOrdered K.cmp pairs.items }
        ensures pairs { result.pairs ≡ pairs.items }
        ensures room { result.room ≡ vec_capacity pairs - vec_len pairs }
    {
        RoomyMap { pairs }
    }

    /// How many pairs there are.
    pub fn len(&self) -> usize
        ensures len { result ≡ length self.now.pairs }
        ensures ordered { IsOrdered K.cmp self.now.pairs }
    {
        self.pairs.len()
    }

    /// Whether there is no pair.
    pub fn is_empty(&self) -> bool
        ensures { IsTrue result ↔ (self.now.pairs ≡ []) }
    {
        self.pairs.is_empty()
    }

    /// How many new keys it takes without memory.
    pub fn room(&self) -> usize
        ensures { result ≡ self.now.room }
    {
        self.pairs.capacity() - self.pairs.len()
    }

    /// The pairs, in the order of their keys.
    pub fn as_slice(&self) -> &[(K, V)]
        ensures pairs { result.now ≡ self.now.pairs }
        ensures ordered { IsOrdered K.cmp self.now.pairs }
    {
        &self.pairs
    }

    /// The value at a key.
    pub fn get(&self, key: &K) -> Option<&V>
        ensures { option_copied result ≡ get K.cmp self.now.pairs key.now }
    {
        match self.search(key) {
            Ok(at) => Some(&self.pairs[at].1),
            Err(_) => None,
        }
    }

    /// The value at a key, to be changed in place. Where a value is written, the map is the one
    /// before with that value at the key.
    pub fn get_mut(&mut self, key: &K) -> Option<&mut V>
        ensures* writes_back { sem 𝓛 (roomy_lends_get K.row V.row K.Ord self.entry key.now result) }
        ensures value { option_copied_mut result ≡ get K.cmp self.old.pairs key.now }
        ensures ordered { IsOrdered K.cmp self.old.pairs }
    {
        match self.search(key) {
            Ok(at) => Some(self.value_mut(key, at)),
            Err(_) => None,
        }
    }

    /// The value at a key whose place is known, to be changed in place.
    fn value_mut(&mut self, key: &K, at: usize) -> &mut V
        requires { IsPlaceOf K.cmp self.old.pairs key.now at }
        ensures* writes_back { sem 𝓛 (roomy_lends_value K.row V.row K.Ord self.entry key.now result) }
        ensures value { get K.cmp self.old.pairs key.now ≡ Some result.now }
    {
        let pair = &mut self.pairs[at];
        &mut pair.1
    }

    /// The first pair at a key or above it.
    pub fn first_from(&self, key: &K) -> Option<&(K, V)>
        ensures first { option_copied result ≡ first_from K.cmp key.now self.now.pairs }
        ensures ordered { IsOrdered K.cmp self.now.pairs }
    {
        let at = first_place(&self.pairs, key);
        self.pairs.get(at)
    }

    /// Whether there is a pair with a key.
    pub fn contains_key(&self, key: &K) -> bool
        ensures { result ≡ is_some (get K.cmp self.now.pairs key.now) }
    {
        self.get(key).is_some()
    }

    /// Puts a value at a key, and gives the value before. To write over a value takes no memory.
    pub fn insert(&mut self, key: K, value: V) -> Result<Option<V>, AllocFailed<(K, V)>>
    where
        K: Drop,
        ensures before { IfOk result (λ before. before ≡ get K.cmp self.old.pairs key) }
        ensures ok { OnOk result (self.new.pairs ≡ insert K.cmp self.old.pairs key value) }
        ensures room { IfOk result (λ before. self.old.room ≤ self.new.room + (if is_some before then 0 else 1)) }
        ensures was_ordered { IsOrdered K.cmp self.old.pairs }
        ensures ordered { IsOrdered K.cmp self.new.pairs }

        // Memory is refused only to a new key in a map without room. The pair comes back.
        ensures full { OnErr result (self.old.room ≡ 0) }
        ensures absent { OnErr result (get K.cmp self.old.pairs key ≡ None) }
        ensures err { OnErr result (self.new.pairs ≡ self.old.pairs) }
        ensures pair_returned { IfErr result (λ refused. refused.value ≡ (key, value)) }
    {
        match self.search(&key) {
            Ok(at) => Ok(Some(mem::replace(&mut self.pairs[at].1, value))),
            Err(at) => {
                self.pairs.insert(at, (key, value))?;
                Ok(None)
            }
        }
    }

    /// Puts a value at a key, and gives the value before. Where the key is new, there is room for it.
    pub fn insert_in_room(&mut self, key: K, value: V) -> Option<V>
    where
        K: Drop,
        V: Drop,
        requires { get K.cmp self.old.pairs key ≡ None → 0 < self.old.room }
        ensures before { result ≡ get K.cmp self.old.pairs key }
        ensures pairs { self.new.pairs ≡ insert K.cmp self.old.pairs key value }
        ensures room { self.old.room ≤ self.new.room + (if is_some result then 0 else 1) }
        ensures was_ordered { IsOrdered K.cmp self.old.pairs }
        ensures ordered { IsOrdered K.cmp self.new.pairs }
    {
        self.insert(key, value).unwrap()
    }

    /// Takes a key out, and gives its value. Its place stays as room.
    pub fn remove(&mut self, key: &K) -> Option<V>
    where
        K: Drop,
        ensures before { result ≡ get K.cmp self.old.pairs key.now }
        ensures pairs { self.new.pairs ≡ remove K.cmp self.old.pairs key.now }
        ensures room { self.new.room ≡ self.old.room + (if is_some result then 1 else 0) }
        ensures was_ordered { IsOrdered K.cmp self.old.pairs }
        ensures ordered { IsOrdered K.cmp self.new.pairs }
    {
        match self.search(key) {
            Ok(at) => {
                let (_, value) = self.pairs.remove(at);
                Some(value)
            }
            Err(_) => None,
        }
    }

    /// Keeps the pairs that pass a test. The places of the others stay as room.
    pub fn retain<F: FnMut(&(K, V)) -> bool>(&mut self, keep: F)
    where
        K: Drop,
        V: Drop,
        requires { F.IsAlwaysCallable keep }
        ensures pairs { IsFiltered (CalledAt F.FnMut) keep self.old.pairs self.new.pairs }
        ensures fewer { length self.new.pairs ≤ length self.old.pairs }
        ensures room { self.new.room + length self.new.pairs ≡ self.old.room + length self.old.pairs }
        ensures ordered { IsOrdered K.cmp self.new.pairs }
    {
        self.pairs.retain(keep);
    }

    /// Makes room for this many new keys. An error leaves the map as it was.
    pub fn reserve(&mut self, additional: usize) -> Result<(), AllocError>
        ensures ok { OnOk result (additional ≤ self.new.room) }
        ensures pairs { self.new.pairs ≡ self.old.pairs }
        ensures room { self.old.room ≤ self.new.room }
        ensures full { OnErr result (self.old.room < additional) }
        ensures err { OnErr result (self.new ≡ self.old) }
    {
        self.pairs.reserve(additional)
    }

    /// Moves the pairs from a place on into an empty map that has room for them.
    pub(crate) fn halve(&mut self, upper: &mut RoomyMap<K, V>, keep: usize)
        requires keep { keep ≤ length self.old.pairs }
        requires empty { upper.old.pairs ≡ [] }
        requires room { length self.old.pairs ≤ upper.old.room + keep }
        ensures lower { self.new.pairs ≡ take keep self.old.pairs }
        ensures upper { upper.new.pairs ≡ drop keep self.old.pairs }
        ensures lower_room { self.new.room + keep ≡ self.old.room + length self.old.pairs }
        ensures upper_room { upper.new.room + length self.old.pairs ≡ upper.old.room + keep }
        ensures was_ordered { IsOrdered K.cmp self.old.pairs }
    {
        move_behind(&mut self.pairs, &mut upper.pairs, keep);
    }

    /// Where a key stands, or where it would stand.
    fn search(&self, key: &K) -> Result<usize, usize>
        ensures found { IfOk result (IsPlaceOf K.cmp self.now.pairs key.now) }
        ensures absent { IfErr result (IsGapFor K.cmp self.now.pairs key.now) }
        ensures ordered { IsOrdered K.cmp self.now.pairs }
    {
        self.pairs.binary_search_by(|pair| pair.0.cmp(key))
    }
}

/// How many pairs are below a key.
fn first_place<K: Ord, V>(pairs: &[(K, V)], key: &K) -> usize
    requires { IsOrdered K.cmp pairs.now }
    ensures { first_from K.cmp key.now pairs.now ≡ slice_get pairs.now result }
{
    pairs.partition_point(|pair| pair.0.cmp(key).is_lt())
}

/// Moves the items from a place on into an empty vector that has room for them.
fn move_behind<T>(items: &mut Vec<T>, to: &mut Vec<T>, keep: usize)
    requires keep { keep ≤ length items.old.items }
    requires empty { to.old.items ≡ [] }
    requires room { length items.old.items ≤ vec_capacity to.old + keep }
    ensures kept { items.new.items ≡ take keep items.old.items }
    ensures len { vec_len items.new ≡ keep }
    ensures was_len { vec_len items.old ≡ length items.old.items }
    ensures within { vec_len items.old ≤ vec_capacity items.old }
    ensures moved { to.new.items ≡ drop keep items.old.items }
    ensures capacity { vec_capacity items.new ≡ vec_capacity items.old }
    ensures to_capacity { vec_capacity to.new ≡ vec_capacity to.old }
{
    while items.len() > keep {
        move_last(items, to);
    }
    to.reverse();
}

/// Moves the last item to the end of a vector that has room for it.
fn move_last<T>(items: &mut Vec<T>, to: &mut Vec<T>)
    requires some { 0 < length items.old.items }
    requires room { vec_len to.old < vec_capacity to.old }
    ensures items { items.new.items ++ reverse to.new.items ≡ items.old.items ++ reverse to.old.items }
    ensures len { length items.new.items + 1 ≡ length items.old.items }
    ensures to_len { length to.new.items ≡ length to.old.items + 1 }
    ensures capacity { vec_capacity items.new ≡ vec_capacity items.old }
    ensures to_capacity { vec_capacity to.new ≡ vec_capacity to.old }
{
    if let Some(item) = items.pop() {
        to.push_reserved(item);
    }
}
