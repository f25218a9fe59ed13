//! What is due of a collector.

ghost use Rattle.std.specs.Prelude.{◌≡◌};
ghost use Rattle.suite_collect.specs.code.Dues as spec;
ghost use Rattle.suite_collect.specs.code.Dues.{IsKnown, due_in};
ghost use Rattle.suite_collect.specs.Collecting.{needed_of};

use crate::heard::Heard;
use crate::members::first_left;
use suite_prefix::LockMode;
use vote_core::Votes;

/// What is due: a quorum is held, a server is to be asked, or nobody is left to ask.
#[derive(Clone, Copy)]
pub(crate) enum Due {
    Current,
    Ask { server: u8 },
    Short { got: u32, needed: u32 },
}

/// What is due where some votes count, a mode is wanted and this was heard.
pub(crate) fn due_by(votes: &Votes, heard: &Heard, wanted: LockMode) -> Due
    ensures value { due_in result ≡ spec.due_by votes.now wanted heard.now }
    ensures known { IsKnown result }
{
    let (holders, refused) = (heard.holders(wanted), heard.refused());
    let (got, needed) = (votes.votes_of(&holders), needed_of(votes, wanted));
    if got >= needed {
        return Due::Current;
    }
    match first_left(votes, &holders, &refused) {
        Some(server) => Due::Ask { server },
        None => Due::Short { got, needed },
    }
}

/// The votes that are needed.
fn needed_of(votes: &Votes, wanted: LockMode) -> u32
    ensures { result ≡ needed_of wanted votes.now }
{
    match wanted {
        LockMode::Shared => u32::from(votes.r()),
        LockMode::Exclusive => u32::from(votes.w()),
    }
}
