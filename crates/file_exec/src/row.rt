//! The row of a file or folder, as far as it is known.

ghost use Rattle.std.specs.Prelude.{◌≡◌};

use acl_core::Lists;
use std::alloc::AllocError;
use std::marker::Model;
use suite_content::Content;
use vote_core::Votes;

/// The row of a file or folder. A clone shares its lists and its content. A content that is not known
/// yet is the empty one of its kind.
#[derive(Drop)]
pub struct KnownRow {
    pub(crate) owner: u32,
    pub(crate) group: u32,
    pub(crate) acl: Lists,
    pub(crate) votes: Votes,
    pub(crate) content: Content,
}

impl Model for KnownRow {
    ghost use Rattle.file_ops.specs.Rows.{Row};

    ghost Value = { Row };

    ghost view = { λ row. record { owner = row.owner; group = row.group; acl = row.acl; votes = row.votes; content = row.content } };
}

impl Clone for KnownRow {
    ghost is_clone = { λ row copy. copy ≡ row };

    fn clone(&self) -> Result<KnownRow, AllocError> {
        let acl = self.acl.clone()?;
        let content = self.content.clone()?;
        Ok(KnownRow {
            owner: self.owner,
            group: self.group,
            acl,
            votes: self.votes,
            content,
        })
    }
}

impl KnownRow {
    /// Who owns it.
    pub fn owner(&self) -> u32
        ensures { result ≡ self.now.owner }
    {
        self.owner
    }

    /// Its group.
    pub fn group(&self) -> u32
        ensures { result ≡ self.now.group }
    {
        self.group
    }

    /// Its lists.
    pub fn acl(&self) -> &Lists
        ensures { result.now ≡ self.now.acl }
    {
        &self.acl
    }

    /// Its votes.
    pub fn votes(&self) -> &Votes
        ensures { result.now ≡ self.now.votes }
    {
        &self.votes
    }

    /// What it holds, as far as it is known.
    pub fn content(&self) -> &Content
        ensures { result.now ≡ self.now.content }
    {
        &self.content
    }
}
