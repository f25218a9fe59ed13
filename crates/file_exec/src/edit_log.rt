//! What a transaction has set so far.

ghost use Rattle.std.specs.Prelude.{◌≡◌, ◌<◌, ◌∷◌, ◌||◌, [], Bool, IfOk, OnOk, OnErr, length, drop};
ghost use Rattle.std.specs.Option.{option_map};
ghost use Rattle.file_exec.specs.Following.{changed, seen, sets_content, is_set};
ghost use Rattle.file_exec.specs.Changes.{makes, sets_acl, sets_votes, some, touches};
ghost use Rattle.file_exec.specs.code.Overlay.{seen_row, IsWholeIf};

use crate::copying::copied;
use crate::row::KnownRow;
use crate::seen::{Seen, SeenContent};
use acl_core::Lists;
use std::alloc::{AllocError, Global};
use std::marker::Model;
use suite_content::Content;
use vote_core::Votes;

/// What an operation sets of a suite: its lists, its votes, its content, or all of it, where it is made.
#[derive(Drop)]
pub enum Edit {
    /// Its lists.
    SetAcl(Lists),
    /// Its votes.
    SetVotes(Votes),
    /// Its content, whole.
    SetContent(Content),
    /// All of its row, which it gets, also in place of one of its number.
    Make(KnownRow),
}

impl Clone for Edit {
    ghost is_clone = { λ edit copy. copy ≡ edit };

    fn clone(&self) -> Result<Edit, AllocError> {
        Ok(match self {
            Edit::SetAcl(acl) => Edit::SetAcl(acl.clone()?),
            Edit::SetVotes(votes) => Edit::SetVotes(*votes),
            Edit::SetContent(content) => Edit::SetContent(content.clone()?),
            Edit::Make(row) => Edit::Make(row.clone()?),
        })
    }
}

impl Edit {
    /// A row after it.
    fn changed<'a>(&'a self, row: Option<Seen<'a>>) -> Option<Seen<'a>>
        ensures row { option_map seen_row result ≡ changed self.now (option_map seen_row row.entry) }
        ensures whole { (opened : Bool) → IsWholeIf opened row.entry → IsWholeIf (sets_content self.now || opened) result }
    {
        match self {
            Edit::SetAcl(acl) => row.map(|row| Seen { acl, ..row }),
            Edit::SetVotes(votes) => row.map(|row| Seen { votes, ..row }),
            Edit::SetContent(content) => row.map(|row| Seen {
                content: SeenContent::Whole(content),
                ..row
            }),
            Edit::Make(made) => Some(Seen::of(made)),
        }
    }

    /// Whether all is set, since the suite is made.
    pub(crate) fn makes(&self) -> bool
        ensures { result ≡ makes self.now }
    {
        matches!(self, Edit::Make(_))
    }

    /// Whether it sets the lists.
    pub(crate) fn sets_acl(&self) -> bool
        ensures { result ≡ sets_acl self.now }
    {
        matches!(self, Edit::SetAcl(_) | Edit::Make(_))
    }

    /// Whether it sets the votes.
    pub(crate) fn sets_votes(&self) -> bool
        ensures { result ≡ sets_votes self.now }
    {
        matches!(self, Edit::SetVotes(_) | Edit::Make(_))
    }

    /// Whether it sets the content.
    pub(crate) fn sets_content(&self) -> bool
        ensures { result ≡ sets_content self.now }
    {
        matches!(self, Edit::SetContent(_) | Edit::Make(_))
    }
}

/// The edits so far with their suites, the newest first: at most two an operation.
#[derive(Drop)]
pub(crate) struct EditLog {
    edits: Vec<(u64, Edit)>,
}

impl Model for EditLog {
    ghost use Rattle.file_exec.specs.Following.{Edits};

    ghost Value = { Edits };

    ghost view = { λ log. log.edits.items };
}

impl EditLog {
    /// Nothing was set.
    pub(crate) fn new(alloc: Global) -> EditLog
        ensures { result ≡ [] }
    {
        EditLog {
            edits: Vec::new(alloc),
        }
    }

    /// The same edits.
    pub(crate) fn copy(&self, alloc: Global) -> Result<EditLog, AllocError>
        ensures { IfOk result (λ copy. copy ≡ self.now) }
    {
        let edits = copied(alloc, &self.edits)?;
        Ok(EditLog { edits })
    }

    /// Something is set of a suite.
    pub(crate) fn set(&mut self, suite: u64, edit: Edit) -> Result<(), AllocError>
        ensures ok { OnOk result (self.new ≡ (suite, edit) ∷ self.old) }
        ensures err { OnErr result (self.new ≡ self.old) }
    {
        self.edits.insert(0, (suite, edit))?;
        Ok(())
    }

    /// The newest edit is taken back.
    pub(crate) fn take_back(&mut self)
        requires { 0 < length self.old }
        ensures { self.new ≡ drop 1 self.old }
    {
        self.edits.remove(0);
    }

    /// The edits with their suites, the newest first.
    pub(crate) fn as_slice(&self) -> &[(u64, Edit)]
        ensures { result.now ≡ self.now }
    {
        &self.edits
    }
}

/// The row of a suite after those of the edits that are of it.
pub(crate) fn seen<'a>(
    edits: &'a [(u64, Edit)],
    suite: u64,
    row: Option<Seen<'a>>,
) -> Option<Seen<'a>>
    ensures row { option_map seen_row result ≡ seen edits.now suite (option_map seen_row row.entry) }
    ensures whole { (opened : Bool) → IsWholeIf opened row.entry → IsWholeIf (is_set edits.now suite || opened) result }
{
    if touches(edits, suite) {
        seen_after(edits, suite, row)
    } else {
        row
    }
}

/// Whether one of the edits is of a suite.
fn touches(edits: &[(u64, Edit)], suite: u64) -> bool
    ensures { result ≡ touches edits.now suite }
{
    edits.iter().any(|(of, _)| *of == suite)
}

/// The row of a suite after edits, of which some are of it.
fn seen_after<'a>(edits: &'a [(u64, Edit)], suite: u64, row: Option<Seen<'a>>) -> Option<Seen<'a>>
    ensures row { option_map seen_row result ≡ seen edits.now suite (option_map seen_row row.entry) }
    ensures whole { (opened : Bool) → IsWholeIf opened row.entry → IsWholeIf (is_set edits.now suite || opened) result }
{
    let Some(((of, edit), before)) = edits.split_first() else {
        return row;
    };
    let row = seen_after(before, suite, row);
    if *of == suite { edit.changed(row) } else { row }
}

/// Whether the edits set the content of a suite.
pub(crate) fn sets_content(edits: &[(u64, Edit)], suite: u64) -> bool
    ensures { result ≡ is_set edits.now suite }
{
    edits
        .iter()
        .any(|(of, edit)| *of == suite && edit.sets_content())
}

/// Whether the edits make a suite.
pub(crate) fn makes(edits: &[(u64, Edit)], suite: u64) -> bool
    ensures { result ≡ some makes edits.now suite }
{
    edits.iter().any(|(of, edit)| *of == suite && edit.makes())
}

/// Whether the edits set the lists of a suite.
pub(crate) fn sets_acl(edits: &[(u64, Edit)], suite: u64) -> bool
    ensures { result ≡ some sets_acl edits.now suite }
{
    edits
        .iter()
        .any(|(of, edit)| *of == suite && edit.sets_acl())
}

/// Whether the edits set the votes of a suite.
pub(crate) fn sets_votes(edits: &[(u64, Edit)], suite: u64) -> bool
    ensures { result ≡ some sets_votes edits.now suite }
{
    edits
        .iter()
        .any(|(of, edit)| *of == suite && edit.sets_votes())
}
