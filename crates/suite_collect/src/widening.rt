//! Other votes that a collector gathers too.

ghost use Rattle.std.specs.Prelude.{◌≡◌, ◌<◌, ◌∷◌};

use crate::heard::Heard;
use crate::log::Log;
use crate::told::Told;
use vote_core::{MAX_SERVERS, Votes};

/// Other votes that are gathered too.
#[derive(Drop)]
pub(crate) struct Widening {
    pub(crate) votes: Votes,
    /// All that was told.
    pub(crate) all: Heard,
    /// What was told since.
    pub(crate) since: Log<Told>,
}

impl Widening {
    /// Adds what is told last.
    pub(crate) fn add(&mut self, last: &Told)
        requires { last.now.server < MAX_SERVERS }
        ensures votes { self.new.votes ≡ self.old.votes }
        ensures all { self.new.all ≡ last.now ∷ self.old.all }
        ensures since { self.new.since.items ≡ last.now ∷ self.old.since.items }
    {
        self.all.add(last);
        self.since = self.since.and(last);
    }

    /// A copy.
    pub(crate) fn same(&self) -> Widening
        ensures votes { result.votes ≡ self.now.votes }
        ensures all { result.all ≡ self.now.all }
        ensures since { result.since.items ≡ self.now.since.items }
    {
        Widening {
            votes: self.votes,
            all: self.all.same(),
            since: self.since.same(),
        }
    }
}
