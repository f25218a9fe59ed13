//! How a job ended.

ghost use Rattle.std.specs.Prelude.{◌≡◌, ◌==◌, option_map};
ghost use Rattle.std.specs.List.{find};
ghost use Rattle.agent_pool.specs.Endings.{end_at, ended_at};
ghost use Rattle.agent_pool.specs.Transcripts.{number_of};

use crate::player::Player;
use run_certify::AgentEntry;
use run_core::EndedJob;
use std::ops::Deref;

/// How a job ended: its number, the agent that carried it out and the count of the agent's jobs before it, and the
/// place of its end in the agent's transcript.
#[derive(Clone, Copy)]
pub struct JobOutcome {
    pub job: u64,
    pub agent: u8,
    pub count: u64,
    pub at: usize,
}

/// The end that an outcome names, in the transcript of its agent, if it is there.
pub fn ended<'a>(players: &'a [Player], outcome: &JobOutcome) -> Option<&'a EndedJob>
    ensures { option_map (λ told. told.now) result ≡ ended_at players.now outcome.now }
{
    match agent_of(players, outcome.agent) {
        Some(player) => end_at(player.entries(), outcome.at),
        None => None,
    }
}

/// The first agent of a number.
fn agent_of(players: &[Player], number: u8) -> Option<&Player>
    ensures { option_map (λ player. player.now) result ≡ find (λ player. number_of player == number) players.now }
{
    players.iter().find(|player| player.number() == number)
}

/// The end at a place of a transcript, if one is there.
pub fn end_at(entries: &[AgentEntry], at: usize) -> Option<&EndedJob>
    ensures { option_map (λ told. told.now) result ≡ end_at entries.now at }
{
    match entries.get(at) {
        Some(AgentEntry::Ended(told)) => Some(told.deref()),
        _ => None,
    }
}
