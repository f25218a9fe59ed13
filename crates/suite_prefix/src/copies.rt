//! Prefixes and copies.

use acl_core::Lists;
use std::alloc::AllocError;
use suite_content::Content;
use vote_core::Votes;

/// What a prefix is of. Before it is made, a file or a folder is absent.
#[derive(Clone, Copy, Debug, PartialEq, Eq)]
pub enum PrefixKind {
    /// It was never made.
    Absent,
    /// It holds bytes.
    File,
    /// It holds names.
    Folder,
}

/// What is kept with a file or a folder beside its content: the version of all this, its kind, whose it
/// is, who may do what (and of a folder, what is made in it begins with), and where its copies are.
#[derive(Debug, Drop)]
pub struct Prefix {
    pub pver: u64,
    pub kind: PrefixKind,
    pub owner: u32,
    pub group: u32,
    pub acl: Lists,
    pub votes: Votes,
}

impl Clone for Prefix {
    ghost use Rattle.std.specs.Prelude.{◌≡◌};

    ghost is_clone = { λ prefix copy. copy ≡ prefix };

    fn clone(&self) -> Result<Prefix, AllocError> {
        let acl = self.acl.clone()?;
        Ok(Prefix {
            pver: self.pver,
            kind: self.kind,
            owner: self.owner,
            group: self.group,
            acl,
            votes: self.votes,
        })
    }
}

impl PartialEq for Prefix {
    ghost use Rattle.suite_prefix.specs.code.Equality.{same_prefix, same_prefix_partial_laws};

    ghost eq = { same_prefix };

    ghost laws = { same_prefix_partial_laws };

    fn eq(&self, other: &Prefix) -> bool {
        self.pver == other.pver
            && self.kind == other.kind
            && self.owner == other.owner
            && self.group == other.group
            && self.acl == other.acl
            && self.votes == other.votes
    }
}

impl Eq for Prefix {
    ghost use Rattle.suite_prefix.specs.code.Equality.{same_prefix_laws};

    ghost laws = { same_prefix_laws };
}

/// A copy: a prefix, the version of the content, and the content. A clone shares lists and content.
#[derive(Debug, Drop)]
pub struct Replica {
    pub prefix: Prefix,
    pub dver: u64,
    pub content: Content,
}

impl Clone for Replica {
    ghost use Rattle.std.specs.Prelude.{◌≡◌};

    ghost is_clone = { λ replica copy. copy ≡ replica };

    fn clone(&self) -> Result<Replica, AllocError> {
        let prefix = self.prefix.clone()?;
        let content = self.content.clone()?;
        Ok(Replica {
            prefix,
            dver: self.dver,
            content,
        })
    }
}

impl PartialEq for Replica {
    ghost use Rattle.suite_prefix.specs.code.Equality.{same_replica, same_replica_partial_laws};

    ghost eq = { same_replica };

    ghost laws = { same_replica_partial_laws };

    fn eq(&self, other: &Replica) -> bool {
        self.prefix == other.prefix && self.dver == other.dver && self.content == other.content
    }
}

impl Eq for Replica {
    ghost use Rattle.suite_prefix.specs.code.Equality.{same_replica_laws};

    ghost laws = { same_replica_laws };
}
