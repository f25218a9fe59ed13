//! What a transaction learned of a suite.

ghost use Rattle.std.specs.Prelude.{◌≡◌, OnOk, OnErr};
ghost use Rattle.std.specs.Option.{option_copied};
ghost use Rattle.txn_core.specs.code.Learning.{Fits, adds, kept_by};
ghost use Rattle.txn_core.specs.code.Plans.{shelved};
ghost use Rattle.txn_core.specs.code.Seeing.{changed_at, learned_suites, settled_with, with_content};
ghost use Rattle.txn_core.specs.Suites.{suite_of};

use crate::cache_after::Fetched;
use crate::pending_quorum::PendingQuorum;
use crate::suites::GatheredSuite;
use sorted_map::RoomyMap;
use std::alloc::AllocError;
use suite_content::Content;
use weak_cache::WeakCache;

/// What a transaction learned since it was executed last.
#[derive(Drop)]
pub(crate) enum Learned {
    /// Nothing.
    Nothing,
    /// This suite has a quorum.
    Quorum(u64, PendingQuorum),
    /// A suite has this content, which the cache is to keep, too.
    Content(Fetched),
}

impl Learned {
    /// What the cache is to keep.
    pub(crate) fn fetched(&self) -> Option<&Fetched>
        ensures { option_copied result ≡ kept_by self.now }
    {
        match self {
            Learned::Content(fetched) => Some(fetched),
            _ => None,
        }
    }

    /// Whether more is known by it, and nothing else than before: a suite had no quorum, or is held in its mode or a
    /// stronger one, or its content was not there, and this one is of its kind.
    pub(crate) fn adds_to(&self, suites: &RoomyMap<u64, GatheredSuite>) -> bool
        ensures { result ≡ adds self.now suites.now.pairs }
    {
        match self {
            Learned::Nothing => true,
            Learned::Quorum(number, _) => match suites.get(number) {
                Some(suite) => suite.first().is_none() || suite.wants_more(),
                None => true,
            },
            Learned::Content(fetched) => match suites.get(&fetched.suite) {
                Some(suite) => suite.takes(&fetched.content),
                None => false,
            },
        }
    }

    /// It is set, of its suite and in the cache. Only a content may run out of memory: then nothing changes.
    pub(crate) fn set(
        self,
        suites: &mut RoomyMap<u64, GatheredSuite>,
        cache: &mut WeakCache,
    ) -> Result<(), AllocError>
        requires { Fits self }
        ensures suites { OnOk result (suites.new.pairs ≡ learned_suites self suites.old.pairs) }
        ensures cache { OnOk result (cache.new ≡ record cache.old { entries = shelved cache.old (kept_by self) }) }
        ensures err { OnErr result ((suites.new.pairs ≡ suites.old.pairs) × (cache.new ≡ cache.old)) }
        ensures room { suites.new.room ≡ suites.old.room }
    {
        match self {
            Learned::Nothing => {}
            Learned::Quorum(number, pending) => settle(suites, number, pending),
            Learned::Content(fetched) => {
                let (number, content) = (fetched.suite, fetched.content.clone()?);
                fetched.put(cache)?;
                open(suites, number, content);
            }
        }
        Ok(())
    }
}

/// A suite has a quorum from now on.
pub(crate) fn settle(suites: &mut RoomyMap<u64, GatheredSuite>, number: u64, pending: PendingQuorum)
    ensures suites { suites.new.pairs ≡ changed_at (settled_with pending) number (suite_of suites.old.pairs number) suites.old.pairs }
    ensures room { suites.new.room ≡ suites.old.room }
{
    if let Some(suite) = suites.get_mut(&number) {
        suite.settle(pending);
    }
}

/// A suite has its content from now on.
fn open(suites: &mut RoomyMap<u64, GatheredSuite>, number: u64, content: Content)
    ensures suites { suites.new.pairs ≡ changed_at (with_content content) number (suite_of suites.old.pairs number) suites.old.pairs }
    ensures room { suites.new.room ≡ suites.old.room }
{
    if let Some(suite) = suites.get_mut(&number) {
        suite.open(content);
    }
}
