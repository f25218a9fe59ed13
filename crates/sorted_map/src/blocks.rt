//! A sorted map in blocks, that is seen with its free places.

ghost use Rattle.std.specs.Prelude.{◌≡◌, ◌≢◌, ◌+◌, ◌-◌, ◌<◌, ◌≤◌, ◌↔◌, ◌∷◌, ◌++◌, [], length, take, drop, get_or, slice_get, IsTrue, IfOk, IfErr, OnOk, OnErr, None, Some, is_some, if◌then◌else◌, vec_capacity, vec_len};
ghost use Rattle.std.specs.List as list;
ghost use Rattle.std.specs.Option.{option_copied};
ghost use Rattle.sorted_map.specs.SortedMap.{IsOrdered, get, insert, remove};
ghost use Rattle.sorted_map.specs.Roomy.{Roomy};
ghost use Rattle.sorted_map.specs.Blocks.{joined, room_in, capacity_in, starts_by, first_from, AreBelow, AreBlocks, AreSpare, IsSpare, IsIn, CanTake, IsPut};

use crate::block_copies::{append_all, copied_blocks};
use crate::roomy::RoomyMap;
use std::alloc::{AllocError, Global};
use std::cmp::Ord;
use std::marker::Model;

/// How many pairs a block has room for.
const BLOCK: usize = 64;

/// A map from `K` to `V`, in the order of its keys, that shows how many new keys it takes without memory. The first
/// block may be empty, each of the rest has a pair. A block that is full is split, and takes a spare one.
#[derive(Drop)]
pub struct BlockMap<K: Ord, V> {
    first: RoomyMap<K, V>,
    rest: Vec<RoomyMap<K, V>>,
    spare: Vec<RoomyMap<K, V>>,
}

impl<K: Ord, V> Model for BlockMap<K, V> {
    ghost use Rattle.std.specs.Prelude.{◌≡◌, ◌≢◌, ◌+◌, ◌≤◌, [], ◌∷◌, length, vec_capacity, vec_len};
    ghost use Rattle.sorted_map.specs.SortedMap.{IsOrdered};
    ghost use Rattle.sorted_map.specs.Roomy.{Roomy};
    ghost use Rattle.sorted_map.specs.Blocks.{joined, room_in, AreBlocks, AreSpare, capacity_in};

    ghost Value = { Roomy K V };

    ghost view = { λ m. record { pairs = joined (m.first ∷ m.rest.items); room = room_in m.first m.rest.items m.spare.items } };

    ghost invariant = { λ m. IsOrdered K.cmp (joined (m.first ∷ m.rest.items)) × AreBlocks m.rest.items × AreSpare m.spare.items
        × (m.spare.items ≢ [] → 2 ≤ capacity_in m.first) × (length m.spare.items + vec_len m.rest ≤ vec_capacity m.rest) };
}

impl<K: Ord, V> BlockMap<K, V> {
    /// An empty map.
    pub fn new(alloc: Global) -> Self
        ensures { result.pairs ≡ [] }
    {
        BlockMap {
            first: RoomyMap::new(alloc),
            rest: Vec::new(alloc),
            spare: Vec::new(alloc),
        }
    }

    /// Whether there is no pair.
    pub fn is_empty(&self) -> bool
        ensures { IsTrue result ↔ (self.now.pairs ≡ []) }
    {
        self.first.is_empty() && self.rest.is_empty()
    }

    /// The value at a key.
    pub fn get(&self, key: &K) -> Option<&V>
        ensures { option_copied result ≡ get K.cmp self.now.pairs key.now }
    {
        get_in(&self.first, &self.rest, key)
    }

    /// The first pair at a key or above it.
    pub fn first_from(&self, key: &K) -> Option<&(K, V)>
        ensures first { option_copied result ≡ first_from K.cmp key.now self.now.pairs }
        ensures ordered { IsOrdered K.cmp self.now.pairs }
    {
        first_in(&self.first, &self.rest, key)
    }

    /// Whether there is a pair with a key.
    pub fn contains_key(&self, key: &K) -> bool
        ensures { result ≡ is_some (get K.cmp self.now.pairs key.now) }
    {
        self.get(key).is_some()
    }

    /// How many new keys it takes without memory.
    pub fn room(&self) -> usize
        ensures least { result ≤ self.now.room }
        ensures spare { self.now.room ≡ 0 → result ≡ 0 }
    {
        self.spare.len()
    }

    /// Puts a value at a key, and gives the value before. Where the key is new, there is room for it.
    pub fn insert_in_room(&mut self, key: K, value: V) -> Option<V>
    where
        K: Drop,
        V: Drop,
        requires { get K.cmp self.old.pairs key ≡ None → 0 < self.old.room }
        ensures before { result ≡ get K.cmp self.old.pairs key }
        ensures pairs { self.new.pairs ≡ insert K.cmp self.old.pairs key value }
        ensures room { self.old.room ≤ self.new.room + (if is_some result then 0 else 1) }
        ensures was_ordered { IsOrdered K.cmp self.old.pairs }
        ensures ordered { IsOrdered K.cmp self.new.pairs }
    {
        let at = place_in(&self.first, &self.rest, &key);
        if at == 0 {
            put_first(&mut self.first, &mut self.rest, &mut self.spare, key, value)
        } else {
            put_in(&mut self.rest, &mut self.spare, at - 1, key, value)
        }
    }

    /// Takes a key out, and gives its value. A block that is left empty is given back.
    pub fn remove(&mut self, key: &K) -> Option<V>
    where
        K: Drop,
        V: Drop,
        ensures before { result ≡ get K.cmp self.old.pairs key.now }
        ensures pairs { self.new.pairs ≡ remove K.cmp self.old.pairs key.now }
        ensures room { self.old.room ≤ self.new.room }
        ensures was_ordered { IsOrdered K.cmp self.old.pairs }
        ensures ordered { IsOrdered K.cmp self.new.pairs }
    {
        let at = place_in(&self.first, &self.rest, key);
        if at == 0 {
            self.first.remove(key)
        } else {
            remove_in(&mut self.rest, at - 1, key)
        }
    }

    /// Makes room for this many new keys: in the only block where they fit it, and else by spare blocks.
    pub fn reserve(&mut self, additional: usize) -> Result<(), AllocError>
    where
        K: Drop,
        V: Drop,
        ensures ok { OnOk result (additional ≤ self.new.room) }
        ensures pairs { self.new.pairs ≡ self.old.pairs }
        ensures room { self.old.room ≤ self.new.room }
    {
        if self.rest.is_empty() && self.first.len().saturating_add(additional) <= BLOCK {
            return self.first.reserve(additional);
        }
        if self.spare.len() < additional {
            self.first.reserve(2)?;
            self.rest.reserve(additional)?;
            add_spare(&mut self.spare, additional)?;
        }
        Ok(())
    }
}

impl<K: Ord + Copy, V: Clone> BlockMap<K, V> {
    /// An equal map, but for its room. The values' clones are equal to them.
    pub fn copied(&self, alloc: Global) -> Result<Self, AllocError>
        requires equal { (value copy : V) → V.is_clone value copy → copy ≡ value }
        ensures { IfOk result (λ map. map.pairs ≡ self.now.pairs) }
    {
        let first = self.first.copied(alloc)?;
        let rest = copied_blocks(alloc, &self.rest)?;
        Ok(BlockMap {
            first,
            rest,
            spare: Vec::new(alloc),
        })
    }
}

impl<K: Ord + Copy, V: Copy> BlockMap<K, V> {
    /// Appends the pairs to a vector, in the order of their keys.
    pub fn append_to(&self, out: &mut Vec<(K, V)>) -> Result<(), AllocError>
        ensures { OnOk result (out.new.items ≡ out.old.items ++ self.now.pairs) }
    {
        out.extend_from_slice(self.first.as_slice())?;
        append_all(&self.rest, out)
    }
}

/// How many of the blocks start by a key or below it: the place of the block for a key, with one more in front.
fn place<K: Ord, V>(rest: &[RoomyMap<K, V>], key: &K) -> usize
    requires blocks { AreBlocks rest.now }
    requires ordered { IsOrdered K.cmp (joined rest.now) }
    ensures place { (first : Roomy K V) → IsOrdered K.cmp (joined (first ∷ rest.now)) → IsIn K.cmp key.now (first ∷ rest.now) result }
    ensures within { result ≤ length rest.now }
{
    rest.partition_point(|block| starts(block, key))
}

/// The place of the block for a key among all blocks.
fn place_in<K: Ord, V>(first: &RoomyMap<K, V>, rest: &Vec<RoomyMap<K, V>>, key: &K) -> usize
    requires blocks { AreBlocks rest.now.items }
    requires ordered { IsOrdered K.cmp (joined (first.now ∷ rest.now.items)) }
    ensures place { IsIn K.cmp key.now (first.now ∷ rest.now.items) result }
    ensures within { result ≤ vec_len rest.now }
{
    let _ = first;
    place(rest, key)
}

/// Whether a block starts by a key or below it.
fn starts<K: Ord, V>(block: &RoomyMap<K, V>, key: &K) -> bool
    ensures { result ≡ starts_by K.cmp key.now block.now.pairs }
{
    match block.as_slice().first() {
        Some(pair) => !key.cmp(&pair.0).is_lt(),
        None => true,
    }
}

/// The value at a key.
fn get_in<'a, K: Ord, V>(
    first: &'a RoomyMap<K, V>,
    rest: &'a Vec<RoomyMap<K, V>>,
    key: &K,
) -> Option<&'a V>
    requires blocks { AreBlocks rest.now.items }
    requires ordered { IsOrdered K.cmp (joined (first.now ∷ rest.now.items)) }
    ensures { option_copied result ≡ get K.cmp (joined (first.now ∷ rest.now.items)) key.now }
{
    let at = place_in(first, rest, key);
    if at == 0 {
        first.get(key)
    } else {
        rest[at - 1].get(key)
    }
}

/// Puts a value at a key that belongs to the first block.
fn put_first<K: Ord + Drop, V: Drop>(
    first: &mut RoomyMap<K, V>,
    rest: &mut Vec<RoomyMap<K, V>>,
    spare: &mut Vec<RoomyMap<K, V>>,
    key: K,
    value: V,
) -> Option<V>
    requires place { IsIn K.cmp key (first.old ∷ rest.old.items) 0 }
    requires blocks { AreBlocks rest.old.items }
    requires spare { AreSpare spare.old.items }
    requires room { CanTake K.cmp key first.old spare.old.items }
    requires space { length spare.old.items + vec_len rest.old ≤ vec_capacity rest.old }
    ensures before { result ≡ get K.cmp (joined (first.old ∷ rest.old.items)) key }
    ensures pairs { joined (first.new ∷ rest.new.items) ≡ insert K.cmp (joined (first.old ∷ rest.old.items)) key value }
    ensures blocks { AreBlocks rest.new.items }
    ensures spare { AreSpare spare.new.items }
    ensures first { capacity_in first.old ≤ capacity_in first.new }
    ensures space { length spare.new.items + vec_len rest.new ≤ vec_capacity rest.new }
    ensures room { room_in first.old rest.old.items spare.old.items ≤ room_in first.new rest.new.items spare.new.items + (if is_some result then 0 else 1) }
    ensures fewer { spare.new.items ≢ [] → spare.old.items ≢ [] }
{
    let (before, upper) = put(first, spare, key, value);
    match upper {
        Some(upper) => insert_block(rest, 0, upper),
        None => {}
    }
    before
}

/// Puts a value at a key that belongs to a block behind the first.
fn put_in<K: Ord + Drop, V: Drop>(
    rest: &mut Vec<RoomyMap<K, V>>,
    spare: &mut Vec<RoomyMap<K, V>>,
    at: usize,
    key: K,
    value: V,
) -> Option<V>
    requires place { IsIn K.cmp key rest.old.items at }
    requires within { at < vec_len rest.old }
    requires blocks { AreBlocks rest.old.items }
    requires spare { AreSpare spare.old.items }
    requires room { get K.cmp (joined rest.old.items) key ≡ None → 0 < length spare.old.items }
    requires space { length spare.old.items + vec_len rest.old ≤ vec_capacity rest.old }
    ensures before { result ≡ get K.cmp (joined rest.old.items) key }
    ensures pairs { joined rest.new.items ≡ insert K.cmp (joined rest.old.items) key value }
    ensures blocks { AreBlocks rest.new.items }
    ensures some { 0 < length rest.new.items }
    ensures spare { AreSpare spare.new.items }
    ensures space { length spare.new.items + vec_len rest.new ≤ vec_capacity rest.new }
    ensures room { length spare.old.items ≤ length spare.new.items + (if is_some result then 0 else 1) }
    ensures fewer { spare.new.items ≢ [] → spare.old.items ≢ [] }
{
    let (before, upper) = put(&mut rest[at], spare, key, value);
    match upper {
        Some(upper) => insert_block(rest, at + 1, upper),
        None => {}
    }
    before
}

/// Puts a block at a place, for which there is room.
fn insert_block<K: Ord + Drop, V: Drop>(
    rest: &mut Vec<RoomyMap<K, V>>,
    at: usize,
    block: RoomyMap<K, V>,
)
    requires place { at ≤ vec_len rest.old }
    requires room { vec_len rest.old < vec_capacity rest.old }
    ensures items { rest.new.items ≡ list.insert rest.old.items at block }
    ensures len { vec_len rest.new ≡ vec_len rest.old + 1 }
    ensures capacity { vec_capacity rest.old ≤ vec_capacity rest.new }
{
    rest.insert(at, block).unwrap();
}

/// Takes a key out that belongs to a block behind the first.
fn remove_in<K: Ord + Drop, V: Drop>(
    rest: &mut Vec<RoomyMap<K, V>>,
    at: usize,
    key: &K,
) -> Option<V>
    requires place { IsIn K.cmp key.now rest.old.items at }
    requires within { at < vec_len rest.old }
    requires blocks { AreBlocks rest.old.items }
    ensures before { result ≡ get K.cmp (joined rest.old.items) key.now }
    ensures pairs { joined rest.new.items ≡ remove K.cmp (joined rest.old.items) key.now }
    ensures blocks { AreBlocks rest.new.items }
    ensures fewer { vec_len rest.new ≤ vec_len rest.old }
    ensures capacity { vec_capacity rest.new ≡ vec_capacity rest.old }
{
    let block = &mut rest[at];
    let value = block.remove(key);
    if block.len() == 0 {
        rest.remove(at);
    }
    value
}

/// The first pair at a key or above it.
fn first_in<'a, K: Ord, V>(
    first: &'a RoomyMap<K, V>,
    rest: &'a Vec<RoomyMap<K, V>>,
    key: &K,
) -> Option<&'a (K, V)>
    requires blocks { AreBlocks rest.now.items }
    requires ordered { IsOrdered K.cmp (joined (first.now ∷ rest.now.items)) }
    ensures { option_copied result ≡ first_from K.cmp key.now (joined (first.now ∷ rest.now.items)) }
{
    let at = place_in(first, rest, key);
    match block_at(first, rest, at).first_from(key) {
        Some(pair) => Some(pair),
        None => start_at(rest, at),
    }
}

/// The block at a place.
fn block_at<'a, K: Ord, V>(
    first: &'a RoomyMap<K, V>,
    rest: &'a Vec<RoomyMap<K, V>>,
    at: usize,
) -> &'a RoomyMap<K, V>
    requires { at ≤ vec_len rest.now }
    ensures { result.now ≡ get_or (first.now ∷ rest.now.items) at result.now }
{
    if at == 0 { first } else { &rest[at - 1] }
}

/// The first pair of a block behind the first.
fn start_at<K: Ord, V>(rest: &Vec<RoomyMap<K, V>>, at: usize) -> Option<&(K, V)>
    ensures some { (d : Roomy K V) → at < length rest.now.items → option_copied result ≡ slice_get (get_or rest.now.items at d).pairs 0 }
    ensures none { length rest.now.items ≤ at → option_copied result ≡ None }
{
    if at < rest.len() {
        rest[at].as_slice().first()
    } else {
        None
    }
}

/// Puts a value at a key of a block. Where the block has no room, its upper half goes to a spare block.
fn put<K: Ord + Drop, V: Drop>(
    block: &mut RoomyMap<K, V>,
    spare: &mut Vec<RoomyMap<K, V>>,
    key: K,
    value: V,
) -> (Option<V>, Option<RoomyMap<K, V>>)
    requires room { CanTake K.cmp key block.old spare.old.items }
    requires spare { AreSpare spare.old.items }
    ensures { IsPut K.cmp key value block.old block.new spare.old.items spare.new.items result.0 result.1 }
{
    if block.room() > 0 || block.contains_key(&key) {
        return (block.insert_in_room(key, value), None);
    }
    match take_spare(spare) {
        Some(mut upper) => {
            put_parted(block, &mut upper, key, value);
            (None, Some(upper))
        }
        None => (block.insert_in_room(key, value), None),
    }
}

/// Takes a spare block.
fn take_spare<K: Ord, V>(spare: &mut Vec<RoomyMap<K, V>>) -> Option<RoomyMap<K, V>>
    requires { AreSpare spare.old.items }
    ensures spare { AreSpare spare.new.items }
    ensures some { (b : Roomy K V) → result ≡ Some b → IsSpare b × (length spare.new.items + 1 ≡ length spare.old.items) }
    ensures none { result ≡ None → (spare.new.items ≡ spare.old.items) × (length spare.old.items ≡ 0) }
{
    spare.pop()
}

/// Puts a new key into a block without room, or a spare one behind it: alone where it is above all others, so that keys
/// that rise fill their blocks, and else beside the upper half.
fn put_parted<K: Ord + Drop, V: Drop>(
    block: &mut RoomyMap<K, V>,
    upper: &mut RoomyMap<K, V>,
    key: K,
    value: V,
)
    requires spare { IsSpare upper.old }
    requires new { get K.cmp block.old.pairs key ≡ None }
    requires full { block.old.room ≡ 0 }
    requires two { 2 ≤ length block.old.pairs }
    ensures pairs { block.new.pairs ++ upper.new.pairs ≡ insert K.cmp block.old.pairs key value }
    ensures lower { (0 < length block.new.pairs) × (capacity_in block.old ≤ capacity_in block.new) }
    ensures upper { (0 < length upper.new.pairs) × (2 ≤ capacity_in upper.new) }
{
    if is_above(block, &key) {
        upper.insert_in_room(key, value);
    } else {
        put_halved(block, upper, key, value);
    }
}

/// Whether a key is above all of a block.
fn is_above<K: Ord, V>(block: &RoomyMap<K, V>, key: &K) -> bool
    ensures { IsTrue result → AreBelow K.cmp key.now block.now.pairs }
{
    match block.first_from(key) {
        Some(_pair) => false,
        None => true,
    }
}

/// Puts a new key into a block without room, of which the upper half goes to another.
fn put_halved<K: Ord + Drop, V: Drop>(
    block: &mut RoomyMap<K, V>,
    upper: &mut RoomyMap<K, V>,
    key: K,
    value: V,
)
    requires spare { IsSpare upper.old }
    requires new { get K.cmp block.old.pairs key ≡ None }
    requires full { block.old.room ≡ 0 }
    requires two { 2 ≤ length block.old.pairs }
    ensures pairs { block.new.pairs ++ upper.new.pairs ≡ insert K.cmp block.old.pairs key value }
    ensures lower { (0 < length block.new.pairs) × (capacity_in block.old ≤ capacity_in block.new) }
    ensures upper { (0 < length upper.new.pairs) × (2 ≤ capacity_in upper.new) }
{
    let keep = lower_half(block.len());
    block.halve(upper, keep);
    if starts(upper, &key) {
        upper.insert_in_room(key, value);
    } else {
        block.insert_in_room(key, value);
    }
}

/// How many of so many pairs a block keeps that is split.
fn lower_half(len: usize) -> usize
    requires { 2 ≤ len }
    ensures some { 0 < result }
    ensures fewer { result < len }
    ensures half { len ≤ result + 32 }
{
    len - (len / 2).min(BLOCK / 2)
}

/// Adds spare blocks until there are so many.
fn add_spare<K: Ord + Drop, V: Drop>(
    spare: &mut Vec<RoomyMap<K, V>>,
    wanted: usize,
) -> Result<(), AllocError>
    requires { AreSpare spare.old.items }
    ensures spare { AreSpare spare.new.items }
    ensures ok { OnOk result (wanted ≤ length spare.new.items) }
    ensures more { length spare.old.items ≤ length spare.new.items }
    ensures most { length spare.old.items ≤ wanted → length spare.new.items ≤ wanted }
{
    while spare.len() < wanted {
        let alloc = *spare.allocator();
        let mut block = RoomyMap::new(alloc);
        block.reserve(BLOCK)?;
        spare.push(block)?;
    }
    Ok(())
}
