//! The forms in which the bytes of a copy are written.

ghost use Rattle.std.specs.Prelude.{◌≡◌, ◌<◌, ◌↔◌, nat_lt, All, IsTrue};
ghost use Rattle.std.specs.List.{list_all};
ghost use Rattle.suite_prefix.specs.Forms as forms;

use acl_core::{Lists, MAX_ENTRIES};
use suite_content::{MAX_CONTENT, MAX_NAMES};
use vote_core::{MAX_SERVERS, Votes};

/// A form of the bytes of a copy. Both are read; the second is what is written.
#[derive(Clone, Copy, Debug, PartialEq, Eq)]
pub enum Form {
    /// It knows no default lists, and has lower limits.
    One,
    /// It holds every valid copy.
    Two,
}

/// The most servers that there were when form 1 was written.
const OLD_SERVERS: usize = 16;

/// The most entries that a list had then.
const OLD_ENTRIES: usize = 64;

/// The most names that a folder had then.
const OLD_NAMES: usize = 1024;

/// The most bytes that a file had then.
const OLD_BYTES: usize = 65_536;

impl Form {
    /// Whether a copy with these lists and votes can be held in this form.
    pub fn holds(self, acl: &Lists, votes: &Votes) -> bool
        ensures held { IsTrue result ↔ forms.Holds self acl.now votes.now }
        ensures test { result ≡ forms.holds self acl.now votes.now }
    {
        match self {
            Form::One => {
                let few = acl.access.entries().len() <= OLD_ENTRIES;
                acl.default.is_none() && few && are_below(OLD_SERVERS, votes.reps())
            }
            Form::Two => true,
        }
    }

    /// How many servers votes may be of in this form.
    pub(crate) fn most_servers(self) -> usize
        ensures { result ≡ forms.most_servers self }
    {
        match self {
            Form::One => OLD_SERVERS,
            Form::Two => MAX_SERVERS,
        }
    }

    /// How many entries a list may have in this form.
    pub(crate) fn most_entries(self) -> usize
        ensures { result ≡ forms.most_entries self }
    {
        match self {
            Form::One => OLD_ENTRIES,
            Form::Two => MAX_ENTRIES,
        }
    }

    /// How many names a folder may have in this form.
    pub(crate) fn most_names(self) -> usize
        ensures { result ≡ forms.most_names self }
    {
        match self {
            Form::One => OLD_NAMES,
            Form::Two => MAX_NAMES,
        }
    }

    /// How many bytes a file may have in this form.
    pub(crate) fn most_bytes(self) -> usize
        ensures { result ≡ forms.most_bytes self }
    {
        match self {
            Form::One => OLD_BYTES,
            Form::Two => MAX_CONTENT,
        }
    }

    /// The first byte.
    pub(crate) fn code(self) -> u8
        ensures { result ≡ forms.form_code self }
    {
        match self {
            Form::One => 1,
            Form::Two => 2,
        }
    }
}

/// Whether all servers are numbered below this.
fn are_below(servers: usize, reps: &[(u8, u8)]) -> bool
    ensures each { IsTrue result ↔ All (λ rep. rep.0 < servers) reps.now }
    ensures test { result ≡ list_all (λ rep. nat_lt rep.0 servers) reps.now }
{
    reps.iter()
        .all(|(server, _)| usize::from(*server) < servers)
}
