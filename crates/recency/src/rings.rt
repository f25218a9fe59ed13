//! The nodes of a shelf in their two lists.

ghost use Rattle.std.specs.Prelude.{◌≡◌, ◌+◌, ◌<◌, ◌≤◌, [], ◌∷◌, length, IfOk, IfSome, IfNone, OnSome, true};
ghost use Rattle.std.specs.Vec.{vec_ptr, vec_len, vec_capacity};
ghost use Rattle.recency.specs.Rings.{IsAlone};
ghost use Rattle.recency.specs.Links.{index_of, IsNode, number};

use crate::node::{Link, Node, NodeAt, enter_all, enter_own, leave_all, leave_own, look, relist};
use crate::place::place;
use std::alloc::{AllocError, Global};
use std::marker::Model;

/// The smaller list of the free nodes.
const FREE: usize = 16;

/// The list of all nodes.
const ALL: usize = 17;

/// How many lists have heads.
const HEADS: usize = 18;

/// Nodes, each of which is free or is put down for a site. Those that are not free lie in the list of all
/// and in their site's list, from the newest to the oldest.
#[derive(Drop)]
pub struct Rings {
    nodes: Vec<Node>,
    slots: usize,
}

impl Model for Rings {
    ghost use Rattle.std.specs.Vec.{vec_ptr};
    ghost use Rattle.recency.specs.Order.{Listed, listed_in, IsFound};

    ghost Value = { Listed };

    ghost view = { λ rings. listed_in rings.slots (vec_ptr rings.nodes) rings.nodes.items };

    ghost invariant = { λ rings. IsFound rings.slots (vec_ptr rings.nodes) rings.nodes.items };
}

/// Where a node lies.
fn place_of(nodes: &Vec<Node>, index: usize) -> NodeAt
    requires { index < vec_len nodes.now }
    ensures node { IsNode nodes.now result.ptr }
    ensures index { index_of nodes.now result.ptr ≡ index }
{
    NodeAt {
        ptr: place(nodes, nodes.as_ptr(), index),
    }
}

/// A node that is to stand at an index, alone in its lists.
fn alone(nodes: &Vec<Node>, index: usize, list: usize) -> Node
    requires { index < vec_capacity nodes.now }
    ensures slot { (result.slot ≡ index) × (result.list ≡ list) }
    ensures alone { IsAlone (vec_ptr nodes.now) index result }
{
    let here = NodeAt {
        ptr: place(nodes, nodes.as_ptr(), index),
    };
    let link = Link {
        newer: here,
        older: here,
    };
    Node {
        slot: index,
        list,
        all: link,
        own: link,
    }
}

impl Rings {
    ghost use Rattle.std.specs.Prelude.{◌≡◌, ◌+◌, ◌<◌, ◌≤◌, [], ◌∷◌, length, IfOk, IfSome, IfNone, option_map, Option};
    ghost use Rattle.recency.specs.Paths.{In};
    ghost use Rattle.recency.specs.Order.{Listed, keys, without_slot, touched, first_of, older_than, last_of, of_site};

    /// All nodes are free.
    pub(crate) fn new(alloc: Global, slots: usize) -> Result<Rings, AllocError>
        ensures { IfOk result (λ rings. (rings.slots ≡ slots) × (rings.order ≡ [])) }
    {
        let many = slots.saturating_add(HEADS);
        let mut nodes = Vec::with_capacity(alloc, many)?;
        for index in 0..many {
            let node = alone(
                &nodes,
                index,
                if index < slots { FREE } else { index - slots },
            );
            nodes.push_reserved(node);
        }
        let head = place_of(&nodes, slots + FREE);
        for index in 0..slots {
            let at = place_of(&nodes, index);
            enter_own(&mut nodes, head, at);
        }
        Ok(Rings { nodes, slots })
    }

    /// A free node becomes the newest, of a site.
    pub(crate) fn put(&mut self, site: usize) -> Option<usize>
        requires { site < 16 }
        ensures none { IfNone result ((length self.old.order ≡ self.old.slots) × (self.new ≡ self.old)) }
        ensures some { IfSome result (λ slot. (self.new.order ≡ (slot, site) ∷ self.old.order) × (self.new.slots ≡ self.old.slots)) }
        ensures room { IfSome result (λ slot. length self.old.order < self.old.slots) }
        ensures fresh { IfSome result (λ slot. (slot < self.old.slots) × (In slot (keys self.old.order) → ⊥)) }
    {
        let free = place_of(&self.nodes, self.slots + FREE);
        let at = look(&self.nodes, free).own.older;
        let slot = look(&self.nodes, at).slot;
        if slot >= self.slots {
            return None;
        }
        leave_own(&mut self.nodes, at);
        relist(&mut self.nodes, at, site);
        let own = place_of(&self.nodes, self.slots + site);
        enter_own(&mut self.nodes, own, at);
        let all = place_of(&self.nodes, self.slots + ALL);
        enter_all(&mut self.nodes, all, at);
        Some(slot)
    }

    /// A node that is not free becomes the newest.
    pub(crate) fn touch(&mut self, slot: usize)
        requires { In slot (keys self.old.order) }
        ensures { (self.new.order ≡ touched slot self.old.order) × (self.new.slots ≡ self.old.slots) }
    {
        let here = place_of(&self.nodes, slot);
        let site = look(&self.nodes, here).list;
        leave_own(&mut self.nodes, here);
        let own = place_of(&self.nodes, self.slots + site);
        enter_own(&mut self.nodes, own, here);
        leave_all(&mut self.nodes, here);
        let head = place_of(&self.nodes, self.slots + ALL);
        enter_all(&mut self.nodes, head, here);
    }

    /// A node becomes free. Its site comes back.
    pub(crate) fn take(&mut self, slot: usize) -> usize
        requires { In slot (keys self.old.order) }
        ensures site { (result < 16) × In slot (keys (of_site result self.old.order)) }
        ensures order { (self.new.order ≡ without_slot slot self.old.order) × (self.new.slots ≡ self.old.slots) }
    {
        let gone = place_of(&self.nodes, slot);
        let site = look(&self.nodes, gone).list;
        leave_own(&mut self.nodes, gone);
        leave_all(&mut self.nodes, gone);
        relist(&mut self.nodes, gone, FREE);
        let free = place_of(&self.nodes, self.slots + FREE);
        enter_own(&mut self.nodes, free, gone);
        site
    }

    /// The newest of all.
    pub(crate) fn newest(&self) -> Option<usize>
        ensures { result ≡ option_map (λ e. e.0) (first_of self.now.order) }
    {
        let all = place_of(&self.nodes, self.slots + ALL);
        let at = look(&self.nodes, all).all.older;
        let slot = look(&self.nodes, at).slot;
        (slot < self.slots).then_some(slot)
    }

    /// The next older one of all.
    pub(crate) fn older(&self, slot: usize) -> Option<usize>
        requires { In slot (keys self.now.order) }
        ensures { result ≡ option_map (λ e. e.0) (older_than slot self.now.order) }
    {
        let here = place_of(&self.nodes, slot);
        let at = look(&self.nodes, here).all.older;
        let next = look(&self.nodes, at).slot;
        (next < self.slots).then_some(next)
    }

    /// The oldest of all.
    pub(crate) fn oldest(&self) -> Option<usize>
        ensures { result ≡ option_map (λ e. e.0) (last_of self.now.order) }
    {
        let all = place_of(&self.nodes, self.slots + ALL);
        let at = look(&self.nodes, all).all.newer;
        let slot = look(&self.nodes, at).slot;
        (slot < self.slots).then_some(slot)
    }

    /// The oldest of a site.
    pub(crate) fn oldest_of(&self, site: usize) -> Option<usize>
        requires { site < 16 }
        ensures { result ≡ option_map (λ e. e.0) (last_of (of_site site self.now.order)) }
    {
        let own = place_of(&self.nodes, self.slots + site);
        let at = look(&self.nodes, own).own.newer;
        let slot = look(&self.nodes, at).slot;
        (slot < self.slots).then_some(slot)
    }
}
