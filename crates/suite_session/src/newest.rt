//! The newest copies of a suite.

ghost use Rattle.std.specs.Prelude.{◌≡◌, IfOk};
ghost use Rattle.std.specs.Option.{option_copied};
ghost use Rattle.std.specs.Ordering.{nat_cmp};
ghost use Rattle.rep_core.specs.Store.{prepared_of};
ghost use Rattle.run_core.specs.Worlds.{server_at};
ghost use Rattle.sorted_map.specs.SortedMap.{get};
ghost use Rattle.suite_session.specs.Rows.{answered_or, copies_of, copy_in, has_answered, is_answered, newer, newest, version_of};

use crate::open_service::OpenService;
use crate::side::Side;
use rep_core::Server;
use std::alloc::{AllocError, Global};
use suite_prefix::StoredCopy;
use txn_core::home_among;

/// Which copies of the servers are meant.
#[derive(Clone, Copy)]
pub(crate) enum Which {
    /// Those that are stored.
    Stored,
    /// Those that are in effect: what a transaction is prepared to leave where its home recorded that it was answered,
    /// and else those that are stored.
    InEffect,
}

impl Side {
    /// The version of this side of a copy.
    pub(crate) fn version(self, alloc: Global, copy: &StoredCopy) -> Result<u64, AllocError>
        ensures { IfOk result (λ version. version ≡ version_of self copy.now.copy) }
    {
        let (prefix, dver) = copy.head(alloc)?;
        match self {
            Side::Prefix => Ok(prefix.pver),
            Side::Content => Ok(dver),
        }
    }
}

/// Whether a transaction was answered, as its home recorded.
fn is_answered(service: &OpenService, transaction: u64) -> bool
    ensures { result ≡ is_answered service.now.world.world service.now.settings.servers transaction }
{
    let home = home_among(service.settings.servers(), transaction);
    match service.world.server(home) {
        Some(server) => server.was_answered(transaction),
        None => false,
    }
}

/// The copy of a suite that is in effect at a server.
fn in_effect<'a>(service: &OpenService, server: &'a Server, suite: u64) -> Option<&'a StoredCopy>
    ensures { copy_in (option_copied result)
        ≡ answered_or (is_answered service.now.world.world service.now.settings.servers)
        (prepared_of server.now.state.store suite) (get nat_cmp server.now.state.store.copies suite) }
{
    match server.prepared(suite) {
        Some((transaction, left)) if is_answered(service, transaction) => Some(left),
        _ => server.copy_of(suite),
    }
}

/// The copy of a suite at a server, where it has one.
pub(crate) fn copy_at<'a>(
    service: &'a OpenService,
    which: Which,
    server: u8,
    suite: u64,
) -> Option<&'a StoredCopy>
    ensures { copy_in (option_copied result)
        ≡ copies_of which service.now.world.world service.now.settings.servers server suite }
{
    match (service.world.server(server), which) {
        (Some(found), Which::Stored) => found.copy_of(suite),
        (Some(found), Which::InEffect) => in_effect(service, found, suite),
        (None, _) => None,
    }
}

/// The newer of two copies.
fn newer<'a>(
    alloc: Global,
    side: Side,
    copy: Option<&'a StoredCopy>,
    other: Option<&'a StoredCopy>,
) -> Result<Option<&'a StoredCopy>, AllocError>
    ensures { IfOk result (λ best. copy_in (option_copied best)
        ≡ newer side (copy_in (option_copied copy.entry)) (copy_in (option_copied other.entry))) }
{
    let Some(copy) = copy else {
        return Ok(other);
    };
    let Some(other) = other else {
        return Ok(Some(copy));
    };
    if side.version(alloc, copy)? < side.version(alloc, other)? {
        Ok(Some(other))
    } else {
        Ok(Some(copy))
    }
}

/// The newest copy of a suite at all servers.
#[tactic(auto, using(crate::proofs::OneMore::newest_more, crate::proofs::OneMore::none_newest))]
pub(crate) fn newest<'a>(
    alloc: Global,
    service: &'a OpenService,
    which: Which,
    side: Side,
    suite: u64,
) -> Result<Option<&'a StoredCopy>, AllocError>
    ensures { IfOk result (λ copy. copy_in (option_copied copy)
        ≡ newest side (copies_of which service.now.world.world service.now.settings.servers) suite service.now.settings.servers) }
{
    let mut best = None;
    for server in 0..service.settings.servers() as u8 {
        let copy = copy_at(service, which, server, suite);
        best = newer(alloc, side, best, copy)?;
    }
    Ok(best)
}
