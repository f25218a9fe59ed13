//! What a world promises.

ghost use Rattle.law_headline.specs.Premises.{AllGiveValidVotes, AreValid, EventGivesValidVotes, GivesValidVotes, JobGivesValidVotes, VotesAreValid};
ghost use Rattle.law_headline.specs.Laws.{DecidedAsBegun};
ghost use Rattle.law_headline.specs.Promises.{IsOfRun, OpensARun, PlaysOn, Promises};

use file_ops::{Action, Op};
use run_core::{Event, World};
use txn_core::Job;
use vote_core::Votes;

/// What a world promises that events made of accepted settings: at each moment of its run, each decided transaction
/// was answered as one unreplicated table answers it that takes the decided transactions one at a time; what was
/// answered stands there before all that began later; each row of that table is in effect in every read and every
/// write quorum of its votes; and the audit is the denials. It does nothing.
pub fn promise(world: &World)
    requires { IsOfRun world.now }
    ensures { Promises world.now }
{}

/// A law: what is decided was begun in one of the events, by that caller and with those operations. It does nothing.
pub fn decided_as_begun()
    ensures { DecidedAsBegun }
{}

/// A law: a world as it opens is that of no events. It does nothing.
pub fn opens_a_run()
    ensures { OpensARun }
{}

/// A law: a world that some events made, and on which later ones were played (as `World::play`, `step` and `advance`
/// do), is that of all of them, one after the other. It does nothing.
pub fn plays_on()
    ensures { PlaysOn }
{}

/// A law: the votes that events have are valid, by their type. It does nothing.
pub fn all_votes_are_valid(events: &[Event])
    ensures { VotesAreValid events.now }
{
    for event in events {
        votes_are_valid(event);
    }
}

/// A law: the votes that an event has are valid, by their type. It does nothing.
pub fn votes_are_valid(event: &Event)
    ensures { EventGivesValidVotes event.now }
{
    if let Event::Begin { job, .. } = event {
        job_is_valid(job);
    }
}

/// A law: the votes that a job has are valid, by their type. It does nothing.
pub fn job_is_valid(job: &Job)
    ensures { JobGivesValidVotes job.now }
{
    if let Job::Transaction { ops, .. } = job {
        ops_are_valid(ops.as_slice());
    }
}

fn ops_are_valid(ops: &[Op])
    ensures { AllGiveValidVotes ops.now }
{
    for op in ops {
        action_is_valid(&op.action);
    }
}

fn action_is_valid(action: &Action)
    ensures { GivesValidVotes action.now }
{
    match action {
        Action::Make(_, _, votes) => given_are_valid(votes),
        Action::SetVotes(votes) => {
            let _reps = votes.reps();
        }
        _ => {}
    }
}

fn given_are_valid(votes: &Option<Votes>)
    ensures { AreValid votes.now }
{
    if let Some(votes) = votes {
        let _reps = votes.reps();
    }
}
