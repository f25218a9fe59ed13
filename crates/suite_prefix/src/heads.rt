//! What stands before the content in the bytes of a copy, borrowed from them.

ghost use Rattle.std.specs.Prelude.{◌≡◌, ◌<◌, All, IfOk, map};
ghost use Rattle.acl_core.specs.AccessLists.{IsAcl};
ghost use Rattle.suite_prefix.specs.Reading.{Reads, entry_from};
ghost use Rattle.suite_prefix.specs.TwoLists.{default_of};
ghost use Rattle.suite_prefix.specs.code.Heads.{IsOfValid, MakesDefaultAcl, head_at, prefix_of};

use crate::copies::Prefix;
use crate::entries::Entries;
use crate::faults::CopyFault;
use crate::reading::{form_at, identity_at, listed_at, u16_at, u64_at};
use crate::shapes::Identity;
use acl_core::{Acl, Lists};
use std::alloc::{AllocError, Global};
use std::marker::Model;
use vote_core::Votes;

/// What stands before the content.
#[derive(Drop)]
pub(crate) struct HeadParts<'a> {
    pub(crate) identity: Identity,
    pub(crate) entries: Entries<'a>,
    pub(crate) default: Entries<'a>,
    pub(crate) reps: &'a [(u8, u8)],
    pub(crate) r: u16,
    pub(crate) w: u16,
    pub(crate) dver: u64,
}

impl<'a> Model for HeadParts<'a> {
    ghost use Rattle.suite_prefix.specs.code.Heads.{Head};

    ghost Value = { Head };

    ghost view = { λ head. record {
      identity = head.identity;
      entries = head.entries;
      default = head.default;
      votes = record { reps = head.reps.now; r = head.r; w = head.w };
      dver = head.dver;
    } };
}

impl<'a> HeadParts<'a> {
    /// What stands before the content, and the bytes of the content. The representatives are put into the places.
    #[tactic(auto, unfolding(crate::specs::code::Heads::head_at, crate::specs::Reading::lists_at, crate::specs::Reading::votes_at))]
    pub(crate) fn at(
        bytes: &'a [u8],
        places: &'a mut [(u8, u8); 255],
    ) -> Result<(HeadParts<'a>, &'a [u8]), CopyFault>
        ensures { Reads (λ x. (x.0, x.1.now)) result (head_at bytes.now) }
    {
        let (form, rest) = form_at(bytes)?;
        let (identity, rest) = identity_at(rest)?;
        let (entries, rest) = Entries::at(rest)?;
        let (default, rest) = Entries::default_at(form, rest)?;
        let (reps, rest) = listed_at(rest, places)?;
        let (r, rest) = u16_at(rest)?;
        let (w, rest) = u16_at(rest)?;
        let (dver, rest) = u64_at(rest)?;
        let head = HeadParts {
            identity,
            entries,
            default,
            reps,
            r,
            w,
            dver,
        };
        Ok((head, rest))
    }

    /// The prefix of a valid copy, which is not judged again.
    pub(crate) fn prefix(&self, alloc: Global) -> Result<Prefix, AllocError>
        requires { IsOfValid self.now }
        ensures { IfOk result (λ prefix. prefix ≡ prefix_of self.now) }
    {
        let access = self.entries.list(alloc)?;
        let default = default_list(alloc, &self.default)?;
        let votes = Votes::known(self.reps, self.r, self.w);
        let identity = &self.identity;
        Ok(Prefix {
            pver: identity.pver,
            kind: identity.kind,
            owner: identity.owner,
            group: identity.group,
            acl: Lists { access, default },
            votes,
        })
    }
}

/// The default list of these entries, if there are some.
fn default_list(alloc: Global, entries: &Entries) -> Result<Option<Acl>, AllocError>
    requires known { All (λ entry. entry.permissions < 8) entries.now }
    requires acl { MakesDefaultAcl (map entry_from entries.now) }
    ensures { IfOk result (λ list. list ≡ default_of (map entry_from entries.now)) }
{
    if entries.is_empty() {
        return Ok(None);
    }
    let list = entries.list(alloc)?;
    Ok(Some(list))
}
