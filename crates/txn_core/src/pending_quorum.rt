//! A quorum that a suite is to have.

ghost use Rattle.std.specs.Prelude.{◌≡◌, ◌<◌, true};
ghost use Rattle.vote_core.specs.declared.TheConstants.{MAX_SERVERS};
ghost use Rattle.txn_core.specs.code.Unused.{first_unused, says_unused};

use suite_collect::{ReadPoint, Told};

/// A quorum that a suite is to have: the lock that completes it, and what it gives, where it is the first.
#[derive(Drop)]
pub(crate) struct PendingQuorum {
    pub(crate) last: Told,
    pub(crate) first: Option<ReadPoint>,
    ghost known: { last.server < MAX_SERVERS },
    ghost unused: { says_unused last.said ≡ true },
    ghost gave_unused: { first_unused first ≡ true },
}
