//! The verdicts of transactions, kept by agent, in blocks. An agent numbers its transactions upwards, so its new
//! verdict is mostly the last of its own, and moves none of the others; it never moves more than a block.

ghost use Rattle.std.specs.Prelude.{◌≡◌, ◌≢◌, ℕ, ◌<◌, ◌≤◌, [], length, get_or, IfOk, OnOk, IsTrue};
ghost use Rattle.std.specs.Option.{option_copied};
ghost use Rattle.std.specs.Ordering.{nat_cmp};
ghost use Rattle.sorted_map.specs.SortedMap.{get, insert};
ghost use Rattle.rep_core.specs.code.ByAgent as by_agent;

use crate::kept_verdict::KeptVerdict;
use crate::packed_names::PackedLists;
use crate::reply::Verdict;
use crate::sameness::same_verdicts;
use sorted_map::BlockMap;
use std::alloc::{AllocError, Global};
use std::marker::Model;
use suite_prefix::MAX_AGENTS;

/// The verdicts of transactions, seen in the order of their transactions, with the room of each agent. Beside them the
/// lists that were packed, which a copy does not know.
#[derive(Drop)]
pub(crate) struct Verdicts {
    maps: Vec<BlockMap<u64, KeptVerdict>>,
    lists: PackedLists,
}

impl Model for Verdicts {
    ghost use Rattle.rep_core.specs.code.ByAgent.{IsByAgent};
    ghost use Rattle.rep_core.specs.code.Holding.{Recording, recording_of};

    ghost Value = { Recording };

    ghost view = { λ v. recording_of v.maps.items };

    ghost invariant = { λ v. IsByAgent v.maps.items };
}

impl Verdicts {
    /// None.
    pub(crate) fn new(alloc: Global) -> Verdicts
        ensures { result.pairs ≡ [] }
    {
        Verdicts {
            maps: Vec::new(alloc),
            lists: PackedLists::new(alloc),
        }
    }

    /// Equal ones.
    pub(crate) fn copy(&self, alloc: Global) -> Result<Verdicts, AllocError>
        ensures { IfOk result (λ copy. copy.pairs ≡ self.now.pairs) }
    {
        let maps = copied_each(alloc, &self.maps)?;
        let lists = PackedLists::new(alloc);
        Ok(Verdicts { maps, lists })
    }

    /// Whether they are the same.
    pub(crate) fn same(&self, other: &Verdicts) -> bool
        ensures { IsTrue result → self.now.pairs ≡ other.now.pairs }
    {
        same_maps(&self.maps, &other.maps)
    }

    /// That of a transaction.
    pub(crate) fn get(&self, t: u64) -> Option<&KeptVerdict>
        ensures { option_copied result ≡ get nat_cmp self.now.pairs t }
    {
        find(&self.maps, t)
    }

    /// A verdict as it is kept.
    pub(crate) fn kept(
        &mut self,
        alloc: Global,
        verdict: &Verdict,
    ) -> Result<KeptVerdict, AllocError>
        ensures kept { IfOk result (λ kept. kept ≡ verdict.now) }
        ensures same { self.new ≡ self.old }
    {
        KeptVerdict::new(alloc, verdict, &mut self.lists)
    }

    /// Makes room for that of a transaction.
    pub(crate) fn make_room(&mut self, t: u64) -> Result<(), AllocError>
        ensures ok { OnOk result (0 < by_agent.room_for t self.new.rooms) }
        ensures pairs { self.new.pairs ≡ self.old.pairs }
    {
        let agent = agent_of(t);
        grow(&mut self.maps, agent + 1)?;
        reserve_at(&mut self.maps, agent)
    }

    /// Keeps that of a transaction, for which there is room.
    pub(crate) fn insert_in_room(&mut self, t: u64, verdict: KeptVerdict)
        requires { 0 < by_agent.room_for t self.old.rooms }
        ensures pairs { self.new.pairs ≡ insert nat_cmp self.old.pairs t verdict }
    {
        insert_at(&mut self.maps, t, verdict);
    }
}

/// The number of the agent that numbered a transaction.
fn agent_of(t: u64) -> usize
    ensures agent { result ≡ by_agent.agent_of t }
    ensures few { result < MAX_AGENTS }
{
    (t % MAX_AGENTS as u64) as usize
}

/// What the map of its agent has at a transaction.
fn find(maps: &[BlockMap<u64, KeptVerdict>], t: u64) -> Option<&KeptVerdict>
    ensures { option_copied result ≡ get nat_cmp (by_agent.pairs_at maps.now (by_agent.agent_of t)) t }
{
    let agent = agent_of(t);
    if agent < maps.len() {
        maps[agent].get(&t)
    } else {
        None
    }
}

/// Whether each agent has the same in both.
fn same_maps(own: &[BlockMap<u64, KeptVerdict>], theirs: &[BlockMap<u64, KeptVerdict>]) -> bool
    ensures { IsTrue result → (k : ℕ) → by_agent.pairs_at own.now k ≡ by_agent.pairs_at theirs.now k }
{
    let most = own.len().max(theirs.len());
    for agent in 0..most {
        if !same_at(own, theirs, agent) {
            return false;
        }
    }
    true
}

/// Whether an agent has the same in both.
fn same_at(
    own: &[BlockMap<u64, KeptVerdict>],
    theirs: &[BlockMap<u64, KeptVerdict>],
    agent: usize,
) -> bool
    ensures { IsTrue result → by_agent.pairs_at own.now agent ≡ by_agent.pairs_at theirs.now agent }
{
    if agent < own.len() && agent < theirs.len() {
        return same_verdicts(&own[agent], &theirs[agent]);
    }
    has_none(own, agent) && has_none(theirs, agent)
}

/// Whether an agent has no verdict.
fn has_none(maps: &[BlockMap<u64, KeptVerdict>], agent: usize) -> bool
    ensures { IsTrue result → by_agent.pairs_at maps.now agent ≡ [] }
{
    agent >= maps.len() || maps[agent].is_empty()
}

/// Adds empty maps until there are so many.
fn grow(maps: &mut Vec<BlockMap<u64, KeptVerdict>>, wanted: usize) -> Result<(), AllocError>
    ensures ok { OnOk result (wanted ≤ length maps.new.items) }
    ensures pairs { (k : ℕ) → by_agent.pairs_at maps.new.items k ≡ by_agent.pairs_at maps.old.items k }
{
    while maps.len() < wanted {
        let alloc = *maps.allocator();
        maps.push(BlockMap::new(alloc))?;
    }
    Ok(())
}

/// Makes room for a new transaction of an agent.
fn reserve_at(maps: &mut Vec<BlockMap<u64, KeptVerdict>>, agent: usize) -> Result<(), AllocError>
    requires { agent < length maps.old.items }
    ensures ok { OnOk result (0 < (get_or maps.new.items agent by_agent.empty).room) }
    ensures pairs { (k : ℕ) → by_agent.pairs_at maps.new.items k ≡ by_agent.pairs_at maps.old.items k }
{
    maps[agent].reserve(1)
}

/// Keeps a verdict in the map of its agent, in which there is room.
fn insert_at(maps: &mut Vec<BlockMap<u64, KeptVerdict>>, t: u64, verdict: KeptVerdict)
    requires { 0 < by_agent.room_for t (by_agent.rooms_of maps.old.items) }
    ensures here { let own = by_agent.agent_of t in by_agent.pairs_at maps.new.items own ≡ insert nat_cmp (by_agent.pairs_at maps.old.items own) t verdict }
    ensures apart { (k : ℕ) → k ≢ by_agent.agent_of t → by_agent.pairs_at maps.new.items k ≡ by_agent.pairs_at maps.old.items k }
{
    let agent = agent_of(t);
    maps[agent].insert_in_room(t, verdict);
}

/// A map of equal pairs for each agent.
fn copied_each(
    alloc: Global,
    maps: &[BlockMap<u64, KeptVerdict>],
) -> Result<Vec<BlockMap<u64, KeptVerdict>>, AllocError>
    ensures { IfOk result (λ copies. (k : ℕ) → by_agent.pairs_at copies.items k ≡ by_agent.pairs_at maps.now k) }
{
    let mut copies = Vec::with_capacity(alloc, maps.len())?;
    for own in maps {
        copies.push(own.copied(alloc)?)?;
    }
    Ok(copies)
}
