//! A row as a transaction sees it.

ghost use Rattle.std.specs.Prelude.{◌≡◌, true, IfOk};
ghost use Rattle.suite_content.specs.Contents.{kind_of};
ghost use Rattle.file_exec.specs.code.Overlay.{content_seen, is_whole, seen_row};

use crate::row::KnownRow;
use acl_core::Lists;
use std::alloc::{AllocError, Global};
use suite_content::{Content, Kind};
use vote_core::Votes;

/// A content, as far as it is known.
#[derive(Clone, Copy)]
pub(crate) enum SeenContent<'a> {
    /// It is of this kind, and not known yet.
    OfKind(Kind),
    /// It is known, where it was known or set.
    Whole(&'a Content),
}

impl<'a> SeenContent<'a> {
    /// What it is of.
    pub(crate) fn kind(self) -> Kind
        ensures { result ≡ kind_of (content_seen self.entry) }
    {
        match self {
            SeenContent::OfKind(kind) => kind,
            SeenContent::Whole(content) => content.kind(),
        }
    }

    /// A content of its own, which shares bytes and names. One that is not known yet is the empty one of
    /// its kind.
    fn own(self, alloc: Global) -> Result<Content, AllocError>
        ensures { IfOk result (λ content. content ≡ content_seen self.entry) }
    {
        match self {
            SeenContent::OfKind(kind) => Ok(Content::empty(alloc, kind)),
            SeenContent::Whole(content) => content.clone(),
        }
    }
}

/// A row whose parts stand where they were known or set; nothing is copied.
#[derive(Clone, Copy)]
pub(crate) struct Seen<'a> {
    pub(crate) owner: u32,
    pub(crate) group: u32,
    pub(crate) acl: &'a Lists,
    pub(crate) votes: &'a Votes,
    pub(crate) content: SeenContent<'a>,
}

impl<'a> Seen<'a> {
    /// A row that was made.
    pub(crate) fn of(row: &'a KnownRow) -> Seen<'a>
        ensures row { seen_row result ≡ row.now }
        ensures whole { is_whole result.content ≡ true }
    {
        Seen {
            owner: row.owner,
            group: row.group,
            acl: &row.acl,
            votes: &row.votes,
            content: SeenContent::Whole(&row.content),
        }
    }

    /// A row of its own, which shares the lists and the content.
    pub(crate) fn own(self, alloc: Global) -> Result<KnownRow, AllocError>
        ensures { IfOk result (λ row. row ≡ seen_row self.entry) }
    {
        let acl = self.acl.clone()?;
        let content = self.content.own(alloc)?;
        Ok(KnownRow {
            owner: self.owner,
            group: self.group,
            acl,
            votes: *self.votes,
            content,
        })
    }
}
