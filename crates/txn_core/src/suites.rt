//! What a transaction gathered of a suite.

ghost use Rattle.std.specs.FinSet.{contains};
ghost use Rattle.std.specs.Prelude.{◌≡◌, ℕ, ◌<◌, IfOk, IfErr, IfSome, IsTrue, OnErr, None, Some, is_some, false, true};
ghost use Rattle.std.specs.Option.{option_copied, option_or};
ghost use Rattle.rep_core.specs.Fits.{is_held};
ghost use Rattle.rep_core.specs.Store.{is_used_up};
ghost use Rattle.suite_prefix.specs.LockModes.{serves};
ghost use Rattle.suite_collect.specs.Answering.{Comes};
ghost use Rattle.suite_collect.specs.Collecting as spec;
ghost use Rattle.suite_collect.specs.Telling.{newest};
ghost use Rattle.txn_core.specs.code.Hearing.{Hears, IsFirstAfter, IsSound, SettlesBy};
ghost use Rattle.txn_core.specs.code.Plans.{takes_in};
ghost use Rattle.txn_core.specs.code.Seeing.{settled_with, suite_view_of, view_of_suite};
ghost use Rattle.txn_core.specs.Suites as gathering;
ghost use Rattle.txn_core.specs.code.Unused.{GaveUnused, first_unused, shows_unused, says_unused};

use crate::pending_quorum::PendingQuorum;
use crate::suites_after::SuiteView;
use rep_core::Reply;
use std::alloc::{AllocError, Global};
use std::marker::Model;
use suite_collect::{Collect, Coming, Hearing, ReadPoint, Told};
use suite_content::Content;
use suite_prefix::{LockMode, SharedPrefix};
use vote_core::{MAX_SERVERS, ServerSet, Votes};

/// A suite that was asked for. What was gathered of it stands on the heap, so that it is cheap to move.
#[derive(Drop)]
pub struct GatheredSuite {
    gathered: Box<Gathered>,
}

/// What was collected of a suite, what its first quorum gave, in which mode it had a quorum last, and its
/// content, once it is there.
#[derive(Drop)]
struct Gathered {
    collect: Collect,
    first: Option<ReadPoint>,
    mode: LockMode,
    content: Option<Content>,
}

impl Model for GatheredSuite {
    ghost use Rattle.txn_core.specs.Suites as gathering;
    ghost use Rattle.txn_core.specs.code.SuiteFields.{suite_of, IsUnused};

    ghost Value = { gathering.GatheredSuite };

    ghost view = { suite_of };

    ghost invariant = { IsUnused };
}

/// The same suites.
pub(crate) fn copied(
    alloc: Global,
    suites: &[(u64, GatheredSuite)],
) -> Result<Vec<(u64, GatheredSuite)>, AllocError>
    ensures { IfOk result (λ copy. copy.items ≡ suites.now) }
{
    let mut copy = Vec::with_capacity(alloc, suites.len())?;
    for (number, suite) in suites {
        copy.push((*number, suite.copy(alloc)?))?;
    }
    Ok(copy)
}

impl GatheredSuite {
    /// A suite of which nothing was told. `start` is a prefix that it once had, or that of what was never
    /// made.
    pub(crate) fn new(
        alloc: Global,
        t: u64,
        number: u64,
        mode: LockMode,
        start: SharedPrefix,
    ) -> Result<GatheredSuite, AllocError>
        requires { is_used_up start.pver ≡ false }
        ensures { IfOk result (λ suite. suite ≡ record { collector = spec.collect mode start; first = None; mode = LockMode.Shared; content = None }) }
    {
        let gathered = Gathered {
            collect: Collect::new(t, number, mode, start),
            first: None,
            mode: LockMode::Shared,
            content: None,
        };
        let gathered = Box::new(alloc, gathered)?;
        Ok(GatheredSuite { gathered })
    }

    /// The same.
    pub(crate) fn copy(&self, alloc: Global) -> Result<GatheredSuite, AllocError>
        ensures { IfOk result (λ copy. copy ≡ self.now) }
    {
        let collect = self.gathered.collect.clone()?;
        let first = match &self.gathered.first {
            Some(first) => Some(first.clone()?),
            None => None,
        };
        let content = match &self.gathered.content {
            Some(content) => Some(content.clone()?),
            None => None,
        };
        let gathered = Gathered {
            collect,
            first,
            mode: self.gathered.mode,
            content,
        };
        let gathered = Box::new(alloc, gathered)?;
        Ok(GatheredSuite { gathered })
    }

    /// What its first quorum gave.
    pub fn first(&self) -> Option<&ReadPoint>
        ensures value { option_copied result ≡ self.now.first }
        ensures unused { IfSome (option_copied result) GaveUnused }
    {
        self.gathered.first.as_ref()
    }

    /// The newest prefix that was shown, or that from which it is gathered. A widening leaves it as it was.
    pub fn newest(&self) -> &SharedPrefix
        ensures { result.now ≡ newest self.now.collector.start self.now.collector.told }
    {
        self.gathered.collect.newest()
    }

    /// The mode in which locks are wanted. A widening leaves it as it was.
    pub fn mode(&self) -> LockMode
        ensures { result ≡ self.now.collector.mode }
    {
        self.gathered.collect.mode()
    }

    /// Whether its content is there.
    pub fn is_open(&self) -> bool
        ensures { result ≡ is_some self.now.content }
    {
        self.gathered.content.is_some()
    }

    /// Its content is there from now on.
    pub(crate) fn open(&mut self, content: Content)
        ensures { self.new ≡ record self.old { content = Some content } }
    {
        self.gathered.content = Some(content);
    }

    /// Whether it had a quorum, its content is not there, and this one is of its kind.
    pub(crate) fn takes(&self, content: &Content) -> bool
        ensures { result ≡ takes_in (Some self.now) content.now }
    {
        match self.suite_view().known() {
            Some(known) => known.takes(content),
            None => false,
        }
    }

    /// Whether the mode that is wanted serves the one in which it had a quorum last.
    pub(crate) fn wants_more(&self) -> bool
        ensures { result ≡ serves self.now.collector.mode self.now.mode }
    {
        let gathered = &self.gathered;
        gathered.collect.mode().serves(gathered.mode)
    }

    /// From now on an exclusive lock is wanted.
    pub(crate) fn raise(&mut self)
        ensures { self.new ≡ record self.old { collector = spec.raise self.old.collector } }
    {
        self.gathered.collect.raise();
    }

    /// From now on a write quorum of these votes is wanted.
    pub(crate) fn widen(&mut self, votes: &Votes)
        ensures { self.new ≡ record self.old { collector = spec.widen votes.now self.old.collector } }
    {
        self.gathered.collect.widen(votes);
    }

    /// What comes next. It takes no memory.
    pub(crate) fn next(&self) -> Coming
        ensures { Comes result (spec.next self.now.collector) }
    {
        self.gathered.collect.coming()
    }

    /// Hears the reply to what was asked next. With a lock that gives a quorum nothing changes yet. Only a lock
    /// that is held may run out of memory, and nothing has changed then.
    pub(crate) fn hear(&mut self, reply: &Reply) -> Result<Hearing, AllocError>
        requires { shows_unused reply.now ≡ true }
        ensures ok { IfOk result (λ hearing. Hears hearing self.old reply.now self.new) }
        ensures err { OnErr result (self.new ≡ self.old) }
        ensures memory { IfErr result (λ _. IsTrue (is_held reply.now)) }
    {
        self.gathered.collect.hear(reply)
    }

    /// The quorum that it is to have with a lock that completes one.
    pub(crate) fn pending(&self, last: Told) -> Result<PendingQuorum, AllocError>
        requires { IsSound last }
        ensures { IfOk result (λ pending. SettlesBy (Some self.now) last (Some pending)) }
    {
        let first = self.first_after(&last)?;
        let pending = PendingQuorum { last, first };
        Ok(pending)
    }

    /// What the first quorum gives, where there is one once this is told, and was none before.
    fn first_after(&self, last: &Told) -> Result<Option<ReadPoint>, AllocError>
        requires known { last.now.server < MAX_SERVERS }
        requires unused { says_unused last.now.said ≡ true }
        ensures value { IfOk result (λ first. IsFirstAfter self.now last.now first) }
        ensures unused { IfOk result (λ first. first_unused first ≡ true) }
    {
        if self.first().is_some() {
            return Ok(None);
        }
        let point = self.gathered.collect.quorum_after(last)?;
        Ok(Some(point))
    }

    /// From now on it has the quorum. It takes no memory.
    pub(crate) fn settle(&mut self, pending: PendingQuorum)
        ensures { self.new ≡ settled_with pending self.old }
    {
        let gathered = &mut self.gathered;
        gathered.collect.tell(pending.last);
        gathered.mode = gathered.collect.mode();
        keep_first(&mut gathered.first, pending.first);
    }

    /// What is known of it.
    pub(crate) fn suite_view(&self) -> SuiteView<'_>
        ensures { suite_view_of result ≡ view_of_suite self.now }
    {
        let gathered = &self.gathered;
        SuiteView {
            first: gathered.first.as_ref(),
            mode: gathered.mode,
            content: gathered.content.as_ref(),
        }
    }

    /// What is known of it once it has a quorum.
    pub(crate) fn view_settled<'a>(&'a self, pending: &'a PendingQuorum) -> SuiteView<'a>
        ensures { suite_view_of result ≡ view_of_suite (settled_with pending.now self.now) }
    {
        let gathered = &self.gathered;
        SuiteView {
            first: gathered.first.as_ref().or(pending.first.as_ref()),
            mode: gathered.collect.mode(),
            content: gathered.content.as_ref(),
        }
    }

    /// Whether a server answered that it holds a lock.
    pub fn holds_lock(&self, server: u8) -> bool
        ensures { result ≡ gathering.holds_lock self.now server }
    {
        self.gathered.collect.holds(LockMode::Shared, server)
    }

    /// The servers that answered that they hold a lock.
    pub(crate) fn lock_holders(&self) -> ServerSet
        ensures { (server : ℕ) → contains result server ≡ gathering.holds_lock self.now server }
    {
        self.gathered.collect.holders(LockMode::Shared)
    }

    /// Whether a server answered that it holds an exclusive lock.
    pub fn holds_exclusively(&self, server: u8) -> bool
        ensures { result ≡ gathering.holds_exclusively self.now server }
    {
        self.gathered.collect.holds(LockMode::Exclusive, server)
    }

    /// The mode in which a server holds a lock.
    pub(crate) fn lock_mode(&self, server: u8) -> LockMode
        ensures { result ≡ gathering.lock_mode self.now server }
    {
        if self.holds_exclusively(server) {
            LockMode::Exclusive
        } else {
            LockMode::Shared
        }
    }
}

/// What a first quorum gave stays; where there was none, another is the first.
fn keep_first(first: &mut Option<ReadPoint>, given: Option<ReadPoint>)
    ensures { first.new ≡ option_or first.old given }
{
    if first.is_none() {
        *first = given;
    }
}
