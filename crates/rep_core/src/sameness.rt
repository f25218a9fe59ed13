//! What servers keep, compared. Where it is told to be the same, it is.

ghost use Rattle.std.specs.Prelude.{◌≡◌, IsTrue};
ghost use Rattle.std.specs.Option.{option_copied};
ghost use Rattle.file_ops.specs.code.RefusalEquality.{same_item};

use crate::intention::Planned;
use crate::kept_verdict::KeptVerdict;
use crate::lock::Lock;
use file_ops::AuditItem;
use sorted_map::BlockMap;
use suite_prefix::{Prefix, StoredCopy};

/// Whether two lists of copies are the same.
pub(crate) fn same_copies(own: &[(u64, StoredCopy)], theirs: &[(u64, StoredCopy)]) -> bool
    ensures { IsTrue result → own.now ≡ theirs.now }
{
    if own.len() != theirs.len() {
        return false;
    }
    for (i, pair) in own.iter().enumerate() {
        if !same_copy(pair, &theirs[i]) {
            return false;
        }
    }
    true
}

fn same_copy(own: &(u64, StoredCopy), theirs: &(u64, StoredCopy)) -> bool
    ensures { IsTrue result → own.now ≡ theirs.now }
{
    own.0 == theirs.0 && same_bytes(&own.1, &theirs.1)
}

/// Whether two copies have the same bytes.
fn same_bytes(own: &StoredCopy, theirs: &StoredCopy) -> bool
    ensures { IsTrue result → own.now ≡ theirs.now }
{
    own.as_bytes() == theirs.as_bytes()
}

/// Whether two lists of intentions are the same.
pub(crate) fn same_intentions(own: &[(u64, Planned)], theirs: &[(u64, Planned)]) -> bool
    ensures { IsTrue result → own.now ≡ theirs.now }
{
    if own.len() != theirs.len() {
        return false;
    }
    for (i, pair) in own.iter().enumerate() {
        if !same_intention(pair, &theirs[i]) {
            return false;
        }
    }
    true
}

fn same_intention(own: &(u64, Planned), theirs: &(u64, Planned)) -> bool
    ensures { IsTrue result → own.now ≡ theirs.now }
{
    own.0 == theirs.0 && same_planned(&own.1, &theirs.1)
}

fn same_planned(own: &Planned, theirs: &Planned) -> bool
    ensures { IsTrue result → own.now ≡ theirs.now }
{
    own.t == theirs.t && own.whole == theirs.whole && same_bytes(&own.left, &theirs.left)
}

/// Whether two prefixes have the same votes.
pub(crate) fn same_votes(own: &Prefix, theirs: &Prefix) -> bool
    ensures { IsTrue result → own.now.votes ≡ theirs.now.votes }
{
    own.votes == theirs.votes
}

/// Whether two lists of locks are the same.
pub(crate) fn same_locks(own: &[Lock], theirs: &[Lock]) -> bool
    ensures { IsTrue result → own.now ≡ theirs.now }
{
    own == theirs
}

/// Whether two audits are the same.
pub(crate) fn same_audit(own: &[AuditItem], theirs: &[AuditItem]) -> bool
    ensures { IsTrue result → own.now ≡ theirs.now }
{
    if own.len() != theirs.len() {
        return false;
    }
    for (i, item) in own.iter().enumerate() {
        if !same_denial(item, &theirs[i]) {
            return false;
        }
    }
    true
}

fn same_denial(own: &AuditItem, theirs: &AuditItem) -> bool
    ensures { IsTrue result → own.now ≡ theirs.now }
{
    is_item(own, theirs)
}

fn is_item(own: &AuditItem, theirs: &AuditItem) -> bool
    ensures { result ≡ same_item own.now theirs.now }
{
    own == theirs
}

/// Whether two maps have the same verdicts.
pub(crate) fn same_verdicts(
    own: &BlockMap<u64, KeptVerdict>,
    theirs: &BlockMap<u64, KeptVerdict>,
) -> bool
    ensures { IsTrue result → own.now.pairs ≡ theirs.now.pairs }
{
    let mut from = 0;
    loop {
        let next = own.first_from(&from);
        if !same_verdict(next, theirs.first_from(&from)) {
            return false;
        }
        match next {
            Some(pair) if pair.0 < u64::MAX => from = pair.0 + 1,
            Some(_last) => return false,
            None => return true,
        }
    }
}

/// Whether there is the same verdict twice, or none.
fn same_verdict(own: Option<&(u64, KeptVerdict)>, theirs: Option<&(u64, KeptVerdict)>) -> bool
    ensures { IsTrue result → option_copied own.entry ≡ option_copied theirs.entry }
{
    match (own, theirs) {
        (Some(own), Some(theirs)) => own.0 == theirs.0 && own.1.same(&theirs.1),
        (None, None) => true,
        _ => false,
    }
}
