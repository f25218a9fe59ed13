//! What all files and folders of a service share.

ghost use Rattle.std.specs.Prelude.{◌≡◌};
ghost use Rattle.file_ops.specs.KnownVotes.{lists_unknown, known_votes, votes_of_new};

use crate::refusal::Why;
use vote_core::Votes;

/// How many servers there are, which are numbered from 0, and C0, the opening votes, which a file or
/// folder gets that is given no others. Both never change.
#[derive(Clone, Copy, Debug)]
pub struct Service {
    pub servers: usize,
    pub c0: Votes,
}

impl Service {
    /// These votes, where all their servers are there.
    pub fn known_votes(&self, votes: &Votes) -> Result<Votes, Why>
        ensures { result ≡ known_votes self.now votes.now }
    {
        if self.lists_unknown(votes) {
            return Err(Why::UnknownServer);
        }
        Ok(*votes)
    }

    /// The votes of a new file or folder: those that it is given, or C0.
    pub fn votes_of_new(&self, given: &Option<Votes>) -> Result<Votes, Why>
        ensures { result ≡ votes_of_new self.now given.now }
    {
        match given {
            Some(votes) => self.known_votes(votes),
            None => Ok(self.c0),
        }
    }

    /// Whether votes list a server that there is not.
    fn lists_unknown(&self, votes: &Votes) -> bool
        ensures { result ≡ lists_unknown self.now votes.now }
    {
        votes
            .reps()
            .iter()
            .any(|(server, _)| usize::from(*server) >= self.servers)
    }
}
