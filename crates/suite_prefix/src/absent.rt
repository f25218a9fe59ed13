//! What was never made.

ghost use Rattle.std.specs.Prelude.{◌≡◌, IfOk};
ghost use Rattle.acl_core.specs.Modes.{minimal_list};
ghost use Rattle.suite_prefix.specs.Absent.{absent_prefix};
ghost use Rattle.suite_prefix.specs.Copies as copies;
ghost use Rattle.suite_prefix.specs.Tests as test;

use crate::copies::{Prefix, PrefixKind};
use acl_core::{Acl, Lists, Mode};
use std::alloc::{AllocError, Global};
use suite_content::Kind;
use vote_core::Votes;

impl Prefix {
    /// The prefix of what was never made, in a service that opens with these votes.
    pub fn absent(alloc: Global, c0: Votes) -> Result<Prefix, AllocError>
        ensures { IfOk result (λ prefix. prefix ≡ absent_prefix c0) }
    {
        let acl = Lists::from(closed_list(alloc)?);
        Ok(Prefix {
            pver: 0,
            kind: PrefixKind::Absent,
            owner: 0,
            group: 0,
            acl,
            votes: c0,
        })
    }
}

/// The list of mode 000.
fn closed_list(alloc: Global) -> Result<Acl, AllocError>
    ensures { IfOk result (λ acl. acl ≡ minimal_list 0) }
{
    let mode = Mode::new(0).unwrap();
    Acl::from_mode(alloc, mode)
}

impl PrefixKind {
    /// Whether nothing was made.
    pub fn is_absent(self) -> bool
        ensures { result ≡ test.is_absent self }
    {
        match self {
            PrefixKind::Absent => true,
            PrefixKind::File | PrefixKind::Folder => false,
        }
    }

    /// What a copy with such a prefix holds: where nothing was made, no bytes.
    pub fn held(self) -> Kind
        ensures { result ≡ copies.held_by self }
    {
        match self {
            PrefixKind::Absent | PrefixKind::File => Kind::File,
            PrefixKind::Folder => Kind::Folder,
        }
    }
}
