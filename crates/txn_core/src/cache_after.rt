//! What a cache has, once a content that was fetched is put there.

ghost use Rattle.std.specs.Prelude.{◌≡◌, ◌<◌, IfOk, OnOk, OnErr, Some};
ghost use Rattle.std.specs.Option.{option_copied};
ghost use Rattle.weak_cache.specs.Cache.{content_at, hint};
ghost use Rattle.weak_cache.specs.Entries.{max_sites};
ghost use Rattle.txn_core.specs.code.Learning.{IsKeepable};
ghost use Rattle.txn_core.specs.code.Plans.{entries_on, kept_of, shelved};
ghost use Rattle.txn_core.specs.code.Unused.{GaveUnused};

use crate::task::Task;
use std::alloc::AllocError;
use suite_collect::ReadPoint;
use suite_content::Content;
use suite_prefix::SharedPrefix;
use weak_cache::{NewEntry, WeakCache};

/// A content that was fetched, and with what it is kept.
#[derive(Drop)]
pub(crate) struct Fetched {
    pub(crate) site: u8,
    pub(crate) suite: u64,
    pub(crate) prefix: SharedPrefix,
    pub(crate) dver: u64,
    pub(crate) content: Content,
}

impl Fetched {
    /// A content of a suite, with what the first quorum gave, for the site of a transaction.
    pub(crate) fn new(
        task: &Task,
        number: u64,
        first: &ReadPoint,
        content: &Content,
    ) -> Result<Fetched, AllocError>
        requires { GaveUnused first.now }
        ensures value { IfOk result (λ one. one ≡ kept_of task.now number content.now first.now) }
        ensures keepable { IfOk result (λ one. IsKeepable one) }
    {
        task.facts();
        Ok(Fetched {
            site: task.site,
            suite: number,
            prefix: first.prefix.clone()?,
            dver: first.dver,
            content: content.clone()?,
        })
    }

    /// It as an entry that may be put.
    fn entry(&self) -> NewEntry<'_>
        ensures site { result.site ≡ self.now.site }
        ensures suite { result.suite ≡ self.now.suite }
        ensures prefix { result.prefix.now ≡ self.now.prefix }
        ensures dver { result.dver ≡ self.now.dver }
        ensures content { result.content.now ≡ self.now.content }
    {
        NewEntry {
            site: self.site,
            suite: self.suite,
            prefix: &self.prefix,
            dver: self.dver,
            content: &self.content,
        }
    }

    /// It is put into a cache. An error leaves the cache as it was.
    pub(crate) fn put(self, cache: &mut WeakCache) -> Result<(), AllocError>
        requires { self.site < max_sites }
        ensures ok { OnOk result (cache.new ≡ record cache.old { entries = shelved cache.old (Some self) }) }
        ensures err { OnErr result (cache.new ≡ cache.old) }
    {
        cache.put(self.site, self.suite, self.prefix, self.dver, self.content)
    }
}

/// What a cache has, once what was fetched is put there.
#[derive(Clone, Copy)]
pub(crate) struct CacheAfter<'a> {
    pub(crate) cache: &'a WeakCache,
    pub(crate) fetched: Option<&'a Fetched>,
}

impl<'a> CacheAfter<'a> {
    /// The content that a site has of a suite, if it is of this version.
    pub(crate) fn content(self, site: u8, suite: u64, dver: u64) -> Option<&'a Content>
        ensures { option_copied result ≡ content_at (entries_on self.entry) site suite dver }
    {
        match self.fetched {
            Some(fetched) => self
                .cache
                .content_beside(fetched.entry(), site, suite, dver),
            None => self.cache.content(site, suite, dver),
        }
    }

    /// The prefix that a site has of a suite.
    pub(crate) fn hint(self, site: u8, suite: u64) -> Option<&'a SharedPrefix>
        ensures { option_copied result ≡ hint (entries_on self.entry) site suite }
    {
        match self.fetched {
            Some(fetched) => self.cache.hint_beside(fetched.entry(), site, suite),
            None => self.cache.hint(site, suite),
        }
    }
}
