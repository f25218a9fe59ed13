//! Votes, and the quorums that they make.

ghost use Rattle.std.specs.Prelude.{◌≡◌, ℕ, ◌≤◌, ◌==◌, ◌↔◌, length, IfOk, IsOk, nat_lt, option_map};
ghost use Rattle.std.specs.List.{find};
ghost use Rattle.std.specs.Result.{result_err};
ghost use Rattle.std.specs.FinSet.{contains};
ghost use Rattle.vote_core.specs.Quorums.{votes_in, votes_at, is_read_quorum, is_write_quorum, ReadsMeetWrites, WritesMeet};
ghost use Rattle.vote_core.specs.Validity.{IsValid, IsAccepted, first_fault};

use crate::validity::first_fault_of;
use crate::{MAX_SERVERS, ServerSet, VotesFault};
use std::fmt;
use std::marker::Model;

/// Valid votes: the representatives of a file with their votes, and how many votes a read (`r`) and a
/// write (`w`) collect.
#[derive(Clone, Copy)]
pub struct Votes {
    reps: [(u8, u8); MAX_SERVERS],
    count: usize,
    r: u16,
    w: u16,
}

impl Model for Votes {
    ghost use Rattle.vote_core.specs.declared.TheConstants.{MAX_SERVERS};
    ghost use Rattle.vote_core.specs.Quorums.{Configuration};
    ghost use Rattle.vote_core.specs.Validity.{IsValid};
    ghost use Rattle.vote_core.specs.code.Padding.{IsPadded};

    ghost Value = { Configuration };

    ghost use Rattle.vote_core.specs.code.VotesFields.{configuration_of, fields_of, fields_back, no_votes};

    ghost view = { configuration_of };

    ghost invariant = { λ fields. IsPadded MAX_SERVERS no_votes fields.count fields.reps × IsValid (configuration_of fields) };

    ghost inverse = { fields_of };

    ghost inverse_ok = { λ fields kept. fields_back fields kept.0 };
}

impl fmt::Debug for Votes {
    fn fmt<W: fmt::Write>(&self, f: &mut fmt::Formatter<W>) -> fmt::Result {
        let (reps, r, w) = (self.reps(), self.r, self.w);
        write!(f, "Votes {{ reps: {reps:?}, r: {r}, w: {w} }}")
    }
}

impl PartialEq for Votes {
    ghost use Rattle.vote_core.specs.code.SameVotes.{same_votes, same_votes_partial_laws};

    ghost eq = { same_votes };

    ghost laws = { same_votes_partial_laws };

    fn eq(&self, other: &Votes) -> bool {
        self.reps() == other.reps() && self.r == other.r && self.w == other.w
    }
}

impl Eq for Votes {
    ghost use Rattle.vote_core.specs.code.SameVotes.{same_votes_laws};

    ghost laws = { same_votes_laws };
}

impl Votes {
    /// Votes where there are this many servers, numbered from 0. Each representative is given by its
    /// server and its votes, which may be none. The fault that is answered is the first.
    pub fn new(servers: usize, reps: &[(u8, u8)], r: u16, w: u16) -> Result<Votes, VotesFault>
        ensures fault { result_err result ≡ first_fault servers (record { reps = reps.now; r = r; w = w }) }
        ensures accepted { IsOk result ↔ IsAccepted servers (record { reps = reps.now; r = r; w = w }) }
        ensures value { IfOk result (λ votes. votes ≡ record { reps = reps.now; r = r; w = w }) }
    {
        if let Some(fault) = first_fault_of(servers, reps, r, w) {
            return Err(fault);
        }
        Ok(Votes::known(reps, r, w))
    }

    /// The votes of these parts, which are known to be valid.
    pub fn known(reps: &[(u8, u8)], r: u16, w: u16) -> Votes
        requires { IsValid (record { reps = reps.now; r = r; w = w }) }
        ensures { result ≡ record { reps = reps.now; r = r; w = w } }
    {
        let mut kept = [(0, 0); MAX_SERVERS];
        kept[..reps.len()].copy_from_slice(reps);
        Votes {
            reps: kept,
            count: reps.len(),
            r,
            w,
        }
    }

    /// The representatives, each by its server and its votes, in listed order.
    pub fn reps(&self) -> &[(u8, u8)]
        ensures value { result.now ≡ self.now.reps }
        ensures few { length self.now.reps ≤ MAX_SERVERS }
        ensures valid { IsValid self.now }
    {
        &self.reps[..self.count]
    }

    /// The votes that a read collects.
    pub fn r(&self) -> u16
        ensures { result ≡ self.now.r }
    {
        self.r
    }

    /// The votes that a write collects.
    pub fn w(&self) -> u16
        ensures { result ≡ self.now.w }
    {
        self.w
    }

    /// The votes of a set of servers.
    pub fn votes_of(&self, servers: &ServerSet) -> u32
        ensures { result ≡ votes_in self.now.reps (contains servers.now) }
    {
        let mut votes = 0;
        for (server, own) in self.reps() {
            if servers.contains(*server) {
                votes += u32::from(*own);
            }
        }
        votes
    }

    /// Whether a set of servers is a read quorum.
    pub fn is_read(&self, servers: &ServerSet) -> bool
        ensures { result ≡ is_read_quorum self.now (contains servers.now) }
    {
        self.votes_of(servers) >= u32::from(self.r)
    }

    /// Whether a set of servers is a write quorum.
    pub fn is_write(&self, servers: &ServerSet) -> bool
        ensures { result ≡ is_write_quorum self.now (contains servers.now) }
    {
        self.votes_of(servers) >= u32::from(self.w)
    }

    /// The votes of one server: none if it is not listed.
    pub fn votes_at(&self, server: u8) -> u8
        ensures { result ≡ votes_at self.now.reps server }
    {
        listed_votes(self.reps(), server).unwrap_or(0)
    }

    /// Whether a server has a vote.
    pub fn is_voting_member(&self, server: u8) -> bool
        ensures { result ≡ nat_lt 0 (votes_at self.now.reps server) }
    {
        self.votes_at(server) > 0
    }

    /// A law: a read quorum and a write quorum share a member that has a vote. It does nothing.
    pub fn reads_meet_writes(&self)
        ensures { ReadsMeetWrites self.now }
    {
        let _ = &self.reps;
    }

    /// A law: two write quorums share a member that has a vote. It does nothing.
    pub fn writes_meet(&self)
        ensures { WritesMeet self.now }
    {
        let _ = &self.reps;
    }
}

/// The votes that are listed first for a server.
fn listed_votes(reps: &[(u8, u8)], server: u8) -> Option<u8>
    ensures { result ≡ option_map (λ rep. rep.1) (find (λ rep. rep.0 == server) reps.now) }
{
    reps.iter().find(|rep| rep.0 == server).map(|rep| rep.1)
}
