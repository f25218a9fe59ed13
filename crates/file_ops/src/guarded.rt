//! The rules of permission, which the table and the executor share.

ghost use Rattle.std.specs.Prelude.{◌≡◌};
ghost use Rattle.file_ops.specs.Walks.{nothing, to_change};
ghost use Rattle.file_ops.specs.Permitting.{permit_guarded, permit_others_guarded, owner_only_guarded};

use crate::refusal::{Denial, Why};
use acl_core::{Acl, Caller, Check, Decider, Perms};

/// What the rules look at: a suite, whose it is, and its access list.
#[derive(Clone, Copy)]
pub struct Guarded<'a> {
    pub suite: u64,
    pub owner: u32,
    pub group: u32,
    pub acl: &'a Acl,
}

impl<'a> Guarded<'a> {
    /// Whether the caller has what it wants of a file or a folder.
    #[inline(always)]
    pub fn permit(self, caller: &Caller, wanted: Perms) -> Result<(), Why>
        ensures { result ≡ permit_guarded caller.now self.entry wanted }
    {
        match self.acl.check(self.owner, self.group, caller, wanted) {
            Check::Granted => Ok(()),
            Check::Denied(decider) => Err(Why::Denied(Denial {
                suite: self.suite,
                wanted,
                decider,
            })),
        }
    }

    /// The same, of whoever does not own it.
    pub fn permit_others(self, caller: &Caller, wanted: Perms) -> Result<(), Why>
        ensures { result ≡ permit_others_guarded caller.now self.entry wanted }
    {
        if caller.uid() == self.owner {
            return Ok(());
        }
        self.permit(caller, wanted)
    }

    /// Whether the caller owns it.
    pub fn owner_only(self, caller: &Caller) -> Result<(), Why>
        ensures { result ≡ owner_only_guarded caller.now self.entry }
    {
        if caller.uid() == self.owner {
            return Ok(());
        }
        Err(Why::Denied(Denial {
            suite: self.suite,
            wanted: nothing(),
            decider: Decider::OwnerRule,
        }))
    }
}

/// Nothing wanted.
fn nothing() -> Perms
    ensures { result ≡ nothing }
{
    Perms::of(false, false, false)
}

/// What is wanted of a folder in which a name is put or dropped.
pub fn to_change() -> Perms
    ensures { result ≡ to_change }
{
    Perms::of(false, true, true)
}
