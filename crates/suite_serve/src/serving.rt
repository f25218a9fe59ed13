//! The jobs of a script, carried out by agents in threads on servers under locks, and certified.

ghost use Rattle.std.specs.Prelude.{◌≡◌, ◌++◌, ◌∷◌, [], IfOk, None, OnOk, Ok};
ghost use Rattle.agent_pool.specs.Transcripts.{first_player, players_from};
ghost use Rattle.law_certified.specs.Histories.{TellsOfTime};
ghost use Rattle.server_lock.specs.Counts.{passes_by};
ghost use Rattle.server_lock.specs.Passes.{passes_of};
ghost use Rattle.run_certify.specs.Certified.{IsCertified};
ghost use Rattle.run_certify.specs.Promised.{CertifiedIsPromised};
ghost use Rattle.suite_serve.specs.Served.{IsServed};
ghost use Rattle.std.specs.List.{AllZip};
ghost use Rattle.suite_serve.specs.code.Working.{AreDone, FollowsAll, named_from, transcripts_of};

use crate::script::JobScript;
use crate::served::{ServedScript, items_in};
use agent_pool::{JobOutcome, NamedJob, Player, Pool, PoolFault, first_players, run_pool};
use law_certified::promise;
use run_certify::{CertifyFault, KeptJob, Transcripts, certify};
use server_lock::{Gate, Histories, OpenGate, Pass, Servers};
use std::alloc::{AllocError, Global};
use std::sync::Wait;
use std::thread::Threads;
use suite_prefix::Settings;
use txn_core::Job;

/// Has the jobs of a script carried out, as [`serve_through`] does, through a gate that does nothing.
pub fn serve<R: Threads + Wait + Sync>(
    rt: &R,
    alloc: Global,
    script: JobScript,
) -> Result<ServedScript, CertifyFault>
    ensures { IfOk result (λ served. IsServed script served) }
{
    serve_through(rt, alloc, &OpenGate, script)
}

/// Has the jobs of a script carried out, those above `together` by agent 0 and then the others by all agents, each as one is
/// free. Then the servers are closed, and it is certified that what they served and what agents did is one run. Where it is
/// none, or a job was not carried out, that is a mismatch, and nothing is told of the jobs. The gate is called where an
/// agent begins a job, under the lock of each server that it asks, and after that; what it does is its own affair.
pub fn serve_through<R: Threads + Wait + Sync, G: Gate + Sync>(
    rt: &R,
    alloc: Global,
    gate: &G,
    script: JobScript,
) -> Result<ServedScript, CertifyFault>
    ensures { IfOk result (λ served. IsServed script served) }
{
    let JobScript {
        settings,
        jobs,
        alone,
    } = script;
    let jobs = named(alloc, jobs)?;
    let (servers, passes) = Servers::start(alloc, &settings)?;
    let Worked {
        agents,
        passes,
        outcomes,
    } = work(
        rt,
        alloc,
        Opened {
            gate,
            servers: &servers,
            passes,
        },
        jobs,
        alone,
    )?;
    let Ok(histories) = servers.close(passes) else {
        return Err(CertifyFault::Mismatch);
    };
    let transcripts = transcripts_of(alloc, agents)?;
    judge(alloc, &settings, &histories, &transcripts)?;
    let _servers = settings.servers();
    let steps = items_in(&histories);
    Ok(ServedScript::new(transcripts, outcomes, steps))
}

/// Certifies that this is one run. What is promised of it, and what its histories tell of time, comes with that.
fn judge(
    alloc: Global,
    settings: &Settings,
    histories: &Histories,
    transcripts: &Transcripts,
) -> Result<(), CertifyFault>
    ensures certified { OnOk result (IsCertified settings.now histories.now transcripts.now) }
    ensures promised { OnOk result (CertifiedIsPromised settings.now histories.now transcripts.now) }
    ensures time { OnOk result (TellsOfTime settings.now histories.now transcripts.now) }
{
    certify(alloc, settings, histories, transcripts)?;
    promise(settings, histories, transcripts);
    Ok(())
}

/// The jobs, numbered from 0.
fn named(alloc: Global, jobs: Vec<Job>) -> Result<Vec<NamedJob>, AllocError>
    ensures { IfOk result (λ all. all.items ≡ named_from 0 jobs.items) }
{
    let mut all = Vec::with_capacity(alloc, jobs.len())?;
    for job in jobs {
        let number = all.len() as u64;
        let job = KeptJob::new(alloc, job)?;
        all.push(NamedJob { number, job })?;
    }
    Ok(all)
}

/// Servers that were opened, with all their passes, and the gate through which they are asked.
#[derive(Drop)]
struct Opened<'a, G: Gate> {
    gate: &'a G,
    servers: &'a Servers,
    passes: Vec<Pass>,
}

/// What agents did, the passes, and where the jobs ended.
#[derive(Drop)]
pub(crate) struct Worked {
    agents: Vec<Player>,
    passes: Vec<Pass>,
    outcomes: Vec<JobOutcome>,
}

/// Has the first jobs carried out by agent 0, and then the others by all agents: what agent 0 was told is known to all
/// before they begin. The jobs are let go before more is made.
fn work<R: Threads + Wait + Sync, G: Gate + Sync>(
    rt: &R,
    alloc: Global,
    opened: Opened<'_, G>,
    jobs: Vec<NamedJob>,
    alone: usize,
) -> Result<Worked, CertifyFault>
    requires { opened.passes.items ≡ passes_of opened.servers.now.agents }
    ensures done { IfOk result (λ worked. AreDone jobs.items alone worked) }
    ensures quiet { IfOk result (λ worked. passes_by None worked.passes.items ≡ passes_by None opened.entry.passes.items) }
{
    let Opened {
        gate,
        servers,
        passes,
    } = opened;
    let (first, others) = first_and_others(alloc, servers.settings())?;
    let (above, below) = jobs.as_slice().split_at(alone.min(jobs.len()));
    let Pool {
        agents,
        passes,
        outcomes: before,
    } = judged(run_pool(rt, alloc, gate, servers, above, first, passes))?;
    let others = followers(alloc, &agents, others)?;
    let agents = joined(agents, others)?;
    let Pool {
        agents,
        passes,
        outcomes: after,
    } = judged(run_pool(rt, alloc, gate, servers, below, agents, passes))?;
    drop(jobs);
    let outcomes = joined(before, after)?;
    Ok(Worked {
        agents,
        passes,
        outcomes,
    })
}

/// What a pool did; a job that has no outcome, or two, is a mismatch.
fn judged(given: Result<Pool, PoolFault>) -> Result<Pool, CertifyFault>
    ensures { IfOk result (λ pool. given ≡ Ok pool) }
{
    match given {
        Ok(pool) => Ok(pool),
        Err(PoolFault::Memory) => Err(CertifyFault::Memory),
        Err(_) => Err(CertifyFault::Mismatch),
    }
}

/// The agents of a service that opens with these settings: agent 0, and the others.
fn first_and_others(
    alloc: Global,
    settings: &Settings,
) -> Result<(Vec<Player>, Vec<Player>), AllocError>
    ensures first { IfOk result (λ both. both.0.items ≡ first_player settings.now 0 ∷ []) }
    ensures all { IfOk result (λ both. both.0.items ++ both.1.items ≡ players_from settings.now 0 settings.now.agents) }
{
    let _agents = settings.agents();
    let mut first = first_players(alloc, settings)?;
    let others = first.split_off(1)?;
    Ok((first, others))
}

/// These agents, which go on after all that the leaders did.
fn followers(
    alloc: Global,
    leaders: &[Player],
    agents: Vec<Player>,
) -> Result<Vec<Player>, AllocError>
    ensures { IfOk result (λ followers. AllZip (FollowsAll leaders.now) agents.items followers.items) }
{
    let mut followers = Vec::with_capacity(alloc, agents.len())?;
    for player in agents {
        followers.push(follower(leaders, player))?;
    }
    Ok(followers)
}

/// This agent, which goes on after all that the leaders did.
fn follower(leaders: &[Player], player: Player) -> Player
    ensures { FollowsAll leaders.now player result }
{
    let mut player = player;
    for leader in leaders {
        player.follow(leader);
    }
    player
}

/// The items of both, those of the first before those of the second.
fn joined<T: Drop>(first: Vec<T>, second: Vec<T>) -> Result<Vec<T>, AllocError>
    ensures { IfOk result (λ all. all.items ≡ first.items ++ second.items) }
{
    let mut all = first;
    for item in second {
        all.push(item)?;
    }
    Ok(all)
}

/// What the agents did.
fn transcripts_of(alloc: Global, agents: Vec<Player>) -> Result<Transcripts, AllocError>
    ensures { IfOk result (λ transcripts. transcripts ≡ transcripts_of agents.items) }
{
    let mut transcripts = Vec::with_capacity(alloc, agents.len())?;
    for player in agents {
        transcripts.push(player.into_transcript())?;
    }
    Ok(Transcripts::from_vec(transcripts))
}
