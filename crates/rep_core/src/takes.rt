//! What is taken of a suite.

ghost use Rattle.std.specs.Prelude.{◌≡◌};
ghost use Rattle.std.specs.List.{list_any, list_all};
ghost use Rattle.rep_core.specs.code.Planning.{is_whole};
ghost use Rattle.rep_core.specs.Store as store;

use crate::request::{Part, Take};
use suite_prefix::PrefixKind;

/// Whether nothing is taken.
pub(crate) fn is_keep(what: &Take) -> bool
    ensures { result ≡ store.is_keep what.now }
{
    match what {
        Take::Keep => true,
        Take::Prefix(_) | Take::Whole(_) => false,
    }
}

/// Whether a copy of a kind may get a prefix of another kind: any where nothing was made, and else its
/// own.
pub(crate) fn may_become(kind: PrefixKind, next: PrefixKind) -> bool
    ensures { result ≡ store.may_become kind next }
{
    match kind {
        PrefixKind::Absent => true,
        PrefixKind::File | PrefixKind::Folder => kind == next,
    }
}

/// Whether a version is used up.
pub(crate) fn is_used_up(number: u64) -> bool
    ensures { result ≡ store.is_used_up number }
{
    number >= u64::MAX
}

/// Whether what is taken holds a version that is used up.
pub(crate) fn holds_last(what: &Take) -> bool
    ensures { result ≡ store.holds_last what.now }
{
    match what {
        Take::Keep => false,
        Take::Prefix(prefix) => is_used_up(prefix.pver),
        Take::Whole(replica) => is_used_up(replica.prefix.pver) || is_used_up(replica.dver),
    }
}

pub(crate) fn any_holds_last(parts: &[Part]) -> bool
    ensures { result ≡ list_any (λ part. store.holds_last part.take) parts.now }
{
    parts.iter().any(|part| holds_last(&part.take))
}

pub(crate) fn take_nothing(parts: &[Part]) -> bool
    ensures { result ≡ list_all (λ part. store.is_keep part.take) parts.now }
{
    parts.iter().all(|part| is_keep(&part.take))
}

/// Whether a whole copy is taken.
pub(crate) fn is_whole(what: &Take) -> bool
    ensures { result ≡ is_whole what.now }
{
    match what {
        Take::Keep | Take::Prefix(_) => false,
        Take::Whole(_) => true,
    }
}
