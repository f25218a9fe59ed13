//! What a service is opened with.

ghost use Rattle.std.specs.Prelude.{◌≡◌, ℕ, ◌≤◌, ◌<◌, ◌↔◌, true, false, not, ◌&&◌, All, IsOk, IfOk, nat_le};
ghost use Rattle.std.specs.List.{list_any};
ghost use Rattle.std.specs.Result.{result_err};
ghost use Rattle.std.specs.FinSet.{contains};
ghost use Rattle.vote_core.specs.Servers.{are_below};
ghost use Rattle.suite_prefix.specs.Forms.{FitsOne, fits_one};
ghost use Rattle.suite_prefix.specs.SettingsRules.{IsAccepted, first_fault, form_of_root};

use crate::forms::Form;
use acl_core::Lists;
use std::alloc::AllocError;
use std::marker::Model;
use thiserror::Error;
use vote_core::{MAX_SERVERS, ServerSet, Votes};

/// The most agents that there are.
pub const MAX_AGENTS: usize = 64;

/// The most bytes of an agent's cache, and of a site's part of it.
pub const MAX_CACHE: usize = 268_435_456;

/// The most entries of an agent's cache.
pub const MAX_SLOTS: usize = 4_096;

/// Why settings are refused, in the order in which it is answered.
#[derive(Clone, Copy, Debug, PartialEq, Eq, Error)]
pub enum SettingsFault {
    /// There are not 1 to [`MAX_SERVERS`] servers, or not 1 to [`MAX_AGENTS`] agents.
    #[error("there have to be 1 to {servers} servers, and 1 to {agents} agents", servers = MAX_SERVERS, agents = MAX_AGENTS)]
    BadCount,
    /// The opening votes, or the servers that have the root in form 1, list one that there is not.
    #[error("a server is listed that is not there")]
    UnknownServer,
    /// The cache's budget, its quota or its slots are above their limit.
    #[error("a cache has at most 268,435,456 bytes, a site of it as many, and 4,096 entries")]
    BadCache,
    /// Some servers are to open with their root in form 1, which cannot hold it.
    #[error("a root with a default list, with more than 64 entries or at servers above 15 has no form 1")]
    OldTooLarge,
}

/// How many servers and agents there are, the opening votes, the root's owner, group and lists, the
/// limits of each agent's cache, and the servers that open with the root as it was written in form 1.
#[derive(Debug, Drop)]
pub struct Settings {
    servers: usize,
    agents: usize,
    c0: Votes,
    root_owner: u32,
    root_group: u32,
    root_acl: Lists,
    budget: usize,
    quota: usize,
    slots: usize,
    old: ServerSet,
}

impl Model for Settings {
    ghost use Rattle.suite_prefix.specs.SettingsRules.{Opening, IsAccepted};
    ghost use Rattle.suite_prefix.specs.code.SettingsView.{opening_of};

    ghost Value = { Opening };

    ghost use Rattle.std.specs.Coded.{codes};
    ghost use Rattle.suite_prefix.specs.code.ServersCode.{servers_code};

    ghost coded = { Prim.hlevel (codes, servers_code) };

    ghost view = { opening_of };

    ghost invariant = { λ settings. IsAccepted (opening_of settings) };
}

impl Clone for Settings {
    ghost is_clone = { λ settings copy. copy ≡ settings };

    fn clone(&self) -> Result<Settings, AllocError> {
        let root_acl = self.root_acl.clone()?;
        Ok(Settings {
            servers: self.servers,
            agents: self.agents,
            c0: self.c0,
            root_owner: self.root_owner,
            root_group: self.root_group,
            root_acl,
            budget: self.budget,
            quota: self.quota,
            slots: self.slots,
            old: self.old,
        })
    }
}

impl PartialEq for Settings {
    ghost use Rattle.suite_prefix.specs.code.SettingsEquality.{same_settings, same_settings_partial_laws};

    ghost eq = { same_settings };

    ghost laws = { same_settings_partial_laws };

    fn eq(&self, other: &Settings) -> bool {
        let same_counts = self.servers == other.servers && self.agents == other.agents;
        let same_root = self.root_owner == other.root_owner
            && self.root_group == other.root_group
            && self.root_acl == other.root_acl
            && self.old == other.old;
        let same_cache = self.budget == other.budget
            && self.quota == other.quota
            && self.slots == other.slots;
        same_counts && self.c0 == other.c0 && same_root && same_cache
    }
}

impl Eq for Settings {
    ghost use Rattle.suite_prefix.specs.code.SettingsEquality.{same_settings_laws};

    ghost laws = { same_settings_laws };
}

impl Settings {
    /// Settings of these numbers, votes and lists, and of the servers that open with their root in form 1.
    /// The fault that is answered is the first.
    pub fn new(
        servers: usize,
        agents: usize,
        c0: Votes,
        root_owner: u32,
        root_group: u32,
        root_acl: Lists,
        budget: usize,
        quota: usize,
        slots: usize,
        old: ServerSet,
    ) -> Result<Settings, SettingsFault>
        ensures fault { result_err result ≡ first_fault (record {
          servers = servers;
          agents = agents;
          c0 = c0;
          root_owner = root_owner;
          root_group = root_group;
          root_acl = root_acl;
          budget = budget;
          quota = quota;
          slots = slots;
          old = old;
        }) }
        ensures accepted { IsOk result ↔ IsAccepted (record {
          servers = servers;
          agents = agents;
          c0 = c0;
          root_owner = root_owner;
          root_group = root_group;
          root_acl = root_acl;
          budget = budget;
          quota = quota;
          slots = slots;
          old = old;
        }) }
        ensures value { IfOk result (λ settings. settings ≡ record {
          servers = servers;
          agents = agents;
          c0 = c0;
          root_owner = root_owner;
          root_group = root_group;
          root_acl = root_acl;
          budget = budget;
          quota = quota;
          slots = slots;
          old = old;
        }) }
    {
        if servers == 0 || servers > MAX_SERVERS || agents == 0 || agents > MAX_AGENTS {
            return Err(SettingsFault::BadCount);
        }
        if lists_unknown(servers, &c0) || goes_beyond(servers, &old) {
            return Err(SettingsFault::UnknownServer);
        }
        if budget > MAX_CACHE || quota > MAX_CACHE || slots > MAX_SLOTS {
            return Err(SettingsFault::BadCache);
        }
        if is_too_large(&old, &root_acl, &c0) {
            return Err(SettingsFault::OldTooLarge);
        }
        Ok(Settings {
            servers,
            agents,
            c0,
            root_owner,
            root_group,
            root_acl,
            budget,
            quota,
            slots,
            old,
        })
    }

    /// How many servers there are: they are numbered from 0.
    pub fn servers(&self) -> usize
        ensures value { result ≡ self.now.servers }
        ensures accepted { IsAccepted self.now }
    {
        self.servers
    }

    /// How many agents there are.
    pub fn agents(&self) -> usize
        ensures value { result ≡ self.now.agents }
        ensures accepted { IsAccepted self.now }
    {
        self.agents
    }

    /// The votes of what has no others.
    pub fn c0(&self) -> &Votes
        ensures { result.now ≡ self.now.c0 }
    {
        &self.c0
    }

    /// The root's owner.
    pub fn root_owner(&self) -> u32
        ensures { result ≡ self.now.root_owner }
    {
        self.root_owner
    }

    /// The root's group.
    pub fn root_group(&self) -> u32
        ensures { result ≡ self.now.root_group }
    {
        self.root_group
    }

    /// The root's lists.
    pub fn root_acl(&self) -> &Lists
        ensures { result.now ≡ self.now.root_acl }
    {
        &self.root_acl
    }

    /// The most bytes of an agent's cache.
    pub fn budget(&self) -> usize
        ensures value { result ≡ self.now.budget }
        ensures accepted { IsAccepted self.now }
    {
        self.budget
    }

    /// The most bytes of a site's part of it.
    pub fn quota(&self) -> usize
        ensures value { result ≡ self.now.quota }
        ensures accepted { IsAccepted self.now }
    {
        self.quota
    }

    /// The most entries of an agent's cache.
    pub fn slots(&self) -> usize
        ensures value { result ≡ self.now.slots }
        ensures accepted { IsAccepted self.now }
    {
        self.slots
    }

    /// The form in which a server that has the root opens with it.
    pub fn form_of_root(&self, server: u8) -> Form
        ensures { result ≡ form_of_root self.now server }
    {
        if self.old.contains(server) {
            Form::One
        } else {
            Form::Two
        }
    }
}

/// Whether votes list a server that there is not.
fn lists_unknown(servers: usize, votes: &Votes) -> bool
    ensures { result ≡ list_any (λ rep. nat_le servers rep.0) votes.now.reps }
{
    votes
        .reps()
        .iter()
        .any(|(server, _)| usize::from(*server) >= servers)
}

/// Whether there is a server that is not numbered below this.
fn goes_beyond(end: usize, servers: &ServerSet) -> bool
    ensures test { result ≡ not (are_below end servers.now) }
    ensures none { (result ≡ false) ↔ ((server : ℕ) → contains servers.now server ≡ true → server < end) }
{
    !servers.are_below(end)
}

/// Whether some servers are to have in form 1 what it cannot hold.
fn is_too_large(old: &ServerSet, acl: &Lists, votes: &Votes) -> bool
    ensures test { result ≡ (not (are_below 0 old.now) && not (fits_one acl.now votes.now)) }
    ensures held { (result ≡ false) ↔ ((server : ℕ) → contains old.now server ≡ true → FitsOne acl.now votes.now) }
{
    goes_beyond(0, old) && !Form::One.holds(acl, votes)
}
