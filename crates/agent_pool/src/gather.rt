//! What agents did, put together.

ghost use Rattle.std.specs.Prelude.{◌≡◌, ◌≢◌, ℕ, ◌+◌, ◌<◌, ◌≤◌, ◌++◌, List, [], None, Some, length, slice_get, IfErr, IfOk, OnOk};
ghost use Rattle.std.specs.Vec.{vec_len, vec_capacity};
ghost use Rattle.std.specs.List.{AllZip};
ghost use Rattle.agent_pool.specs.declared.fault.PoolFault.TheVariants.{Double, Missing};
ghost use Rattle.agent_pool.specs.Gathers.{Gathers, IsDouble, first_strange, first_stuck, lacks_memory, places, places_by};
ghost use Rattle.agent_pool.specs.code.Gathering.{AreGathered, AreSeen, AreWithin, HasRoom, IsEmpty, IsGathered, IsTaken, IsWithin};
ghost use Rattle.agent_pool.specs.Pools.{AreApart, AreInOrder, AreOutcomes, IsOf};
ghost use Rattle.agent_pool.specs.code.Filled.{AreInOrderIn, AreNone, AreWorks, IsFilled, IsPut, KeepFilled, StayInOrder};
ghost use Rattle.agent_pool.specs.code.Filled.{done_in, filled_in, passes_of, players_of, sitting};
ghost use Rattle.agent_pool.specs.Seats.{AreDistinct, numbers_of};
ghost use Rattle.agent_pool.specs.code.Starts.{IsWorkOf};
ghost use Rattle.agent_pool.specs.Transcripts.{Played, begins};
ghost use Rattle.agent_pool.specs.code.Working.{AllDone, IsDone};

use crate::fault::PoolFault;
use crate::outcome::JobOutcome;
use crate::player::Player;
use crate::pool::Pool;
use crate::pool_context::NamedJob;
use crate::slots::Slots;
use crate::work::{Halt, JobDone, SeatedAgent, Worked};
use server_lock::Pass;
use std::alloc::{AllocError, Global};

/// Room for what is put together, made before an agent begins: a place for each job, and none filled.
#[derive(Drop)]
pub(crate) struct Room {
    pub(crate) slots: Slots,
    pub(crate) agents: Vec<Player>,
}

impl Room {
    /// Room for so many jobs and agents.
    pub(crate) fn new(alloc: Global, jobs: usize, agents: usize) -> Result<Room, AllocError>
        ensures { IfOk result (HasRoom jobs agents) }
    {
        let slots = Slots::new(alloc, jobs)?;
        let agents = Vec::with_capacity(alloc, agents)?;
        Ok(Room { slots, agents })
    }
}

/// One outcome for each job, the agents, and the passes: those that are left, and then those of the agents. Where there
/// is none, the first that holds of: memory was refused to an agent; one took a place at which no job was handed in; there
/// is a second outcome of a job; there is none of a job; an agent got stuck at a job of which there is one.
pub(crate) fn gather(
    jobs: &[NamedJob],
    worked: Vec<Worked>,
    passes: Vec<Pass>,
    room: Room,
) -> Result<Pool, PoolFault>
    requires worked { AreWorks jobs.now worked.items }
    requires distinct { AreDistinct (numbers_of (players_of worked.items)) }
    requires room { HasRoom (length jobs.now) (vec_len worked) room }
    requires passes { vec_len passes + vec_len worked ≤ vec_capacity passes }
    ensures gathers { Gathers jobs.now worked.items result }
    ensures pool { IfOk result (IsGathered jobs.now worked.items passes.items) }
{
    let Room { slots, agents } = room;
    match outcomes_in(jobs, worked.as_slice(), slots) {
        Ok(outcomes) => Ok(pool_of(worked, passes, agents, outcomes)),
        Err(fault) => Err(fault),
    }
}

/// The outcomes of all jobs, put into these places, or the first fault.
fn outcomes_in(
    jobs: &[NamedJob],
    worked: &[Worked],
    mut slots: Slots,
) -> Result<Vec<JobOutcome>, PoolFault>
    requires worked { AreWorks jobs.now worked.now }
    requires distinct { AreDistinct (numbers_of (players_of worked.now)) }
    requires none { AreNone slots }
    requires long { length slots ≡ length jobs.now }
    ensures gathers { Gathers jobs.now worked.now result }
    ensures outcomes { IfOk result (λ outcomes. AreGathered jobs.now worked.now outcomes.items) }
{
    if lacks_memory(worked) {
        return Err(PoolFault::Memory);
    }
    if let Some(place) = first_strange(worked) {
        return Err(PoolFault::Stranger(place as u64));
    }
    fill(jobs, worked, &mut slots)?;
    let outcomes = outcomes_of(jobs, slots)?;
    match first_stuck(worked) {
        Some(job) => Err(PoolFault::Double(job)),
        None => Ok(outcomes),
    }
}

/// Whether memory was refused to one of them.
fn lacks_memory(worked: &[Worked]) -> bool
    ensures { result ≡ lacks_memory worked.now }
{
    let mut rest = worked;
    while let Some((one, later)) = rest.split_first() {
        if let Some(Halt::Lacked) = one.halt {
            return true;
        }
        rest = later;
    }
    false
}

/// The place, beyond the jobs, that the first of them took that took such a one.
fn first_strange(worked: &[Worked]) -> Option<usize>
    ensures { result ≡ first_strange worked.now }
{
    let mut rest = worked;
    while let Some((one, later)) = rest.split_first() {
        if let Some(Halt::Strange(place)) = one.halt {
            return Some(place);
        }
        rest = later;
    }
    None
}

/// The job at which the first of them got stuck that did so.
fn first_stuck(worked: &[Worked]) -> Option<u64>
    ensures { result ≡ first_stuck worked.now }
{
    let mut rest = worked;
    while let Some((one, later)) = rest.split_first() {
        if let Some(Halt::Stuck(job)) = one.halt {
            return Some(job);
        }
        rest = later;
    }
    None
}

/// The outcomes of all jobs, at their places.
fn fill(jobs: &[NamedJob], worked: &[Worked], slots: &mut Slots) -> Result<(), PoolFault>
    requires worked { AreWorks jobs.now worked.now }
    requires distinct { AreDistinct (numbers_of (players_of worked.now)) }
    requires none { AreNone slots.old }
    requires long { length slots.old ≡ length jobs.now }
    ensures filled { OnOk result ((seats : List SeatedAgent) → AllZip (IsWorkOf jobs.now) seats worked.now
        → AllZip (IsFilled (sitting seats) (players_of worked.now)) jobs.now slots.new) }
    ensures order { OnOk result (AreInOrderIn slots.new) }
    ensures many { OnOk result (filled_in slots.new ≡ done_in worked.now) }
    ensures long { length slots.new ≡ length slots.old }
    ensures seen { OnOk result (AreSeen (places worked.now) slots.new) }
    ensures double { IfErr result (λ fault. (job : ℕ) × (fault ≡ Double job) × IsDouble jobs.now (places worked.now) job) }
{
    for one in worked {
        place_all(jobs, slots, one.player.number(), &one.done)?;
    }
    Ok(())
}

/// What an agent did is put into its places.
fn place_all(
    jobs: &[NamedJob],
    slots: &mut Slots,
    agent: u8,
    done: &[JobDone],
) -> Result<(), PoolFault>
    requires long { length slots.old ≡ length jobs.now }
    requires within { AreWithin (length jobs.now) done.now }
    ensures filled { OnOk result ((was players : List Played) (before player : Played) → IsOf was players agent before player
        → AllDone jobs.now (begins before.entries) player done.now → KeepFilled jobs.now was players slots.old slots.new) }
    ensures order { OnOk result (StayInOrder agent done.now slots.old slots.new) }
    ensures many { OnOk result (filled_in slots.new ≡ filled_in slots.old + length done.now) }
    ensures long { length slots.new ≡ length slots.old }
    ensures seen { OnOk result ((seen : List ℕ) → AreSeen seen slots.old → AreSeen (seen ++ places_by done.now) slots.new) }
    ensures double { IfErr result (λ fault. (seen : List ℕ) → AreSeen seen slots.old
        → (job : ℕ) × (fault ≡ Double job) × IsDouble jobs.now (seen ++ places_by done.now) job) }
{
    for one in done {
        place_one(jobs, slots, agent, *one)?;
    }
    Ok(())
}

/// What an agent did once is put into its place.
fn place_one(
    jobs: &[NamedJob],
    slots: &mut Slots,
    agent: u8,
    done: JobDone,
) -> Result<(), PoolFault>
    requires long { length slots.old ≡ length jobs.now }
    requires within { IsWithin (length jobs.now) done }
    ensures filled { OnOk result ((was players : List Played) (before player : Played) → IsOf was players agent before player
        → IsDone jobs.now (begins before.entries) player done → KeepFilled jobs.now was players slots.old slots.new) }
    ensures put { OnOk result ((job : ℕ) × IsPut slots.old done.place
        (record { job = job; agent = agent; count = done.ran.count; at = done.ran.at }) slots.new) }
    ensures long { length slots.new ≡ length slots.old }
    ensures double { IfErr result (λ fault. (job : ℕ) × (fault ≡ Double job) × IsTaken jobs.now slots.old done job) }
{
    let place = done.place;
    let named = &jobs[place];
    let is_taken = slots.is_filled(place);
    if is_taken {
        return Err(PoolFault::Double(named.number));
    }
    let outcome = JobOutcome {
        job: named.number,
        agent,
        count: done.ran.count,
        at: done.ran.at,
    };
    slots.put(place, outcome);
    Ok(())
}

/// The outcomes, where each job has one.
fn outcomes_of(jobs: &[NamedJob], slots: Slots) -> Result<Vec<JobOutcome>, PoolFault>
    requires long { length slots ≡ length jobs.now }
    ensures each { IfOk result (λ outcomes. (was players : List Played) → AllZip (IsFilled was players) jobs.now slots
        → AreOutcomes was players jobs.now outcomes.items) }
    ensures apart { IfOk result (λ outcomes. AreInOrderIn slots → AreApart outcomes.items) }
    ensures order { IfOk result (λ outcomes. AreInOrderIn slots → AreInOrder outcomes.items) }
    ensures all { IfOk result (λ outcomes. filled_in slots ≡ length jobs.now) }
    ensures full { IfOk result (λ outcomes. (k : ℕ) → slice_get slots k ≢ Some None) }
    ensures missing { IfErr result (λ fault. (job : ℕ) × (fault ≡ Missing job) × IsEmpty jobs.now slots job) }
{
    for place in 0..jobs.len() {
        if !slots.is_filled(place) {
            return Err(PoolFault::Missing(jobs[place].number));
        }
    }
    Ok(slots.into_outcomes())
}

/// A pool of all these, put into this room.
fn pool_of(
    worked: Vec<Worked>,
    mut passes: Vec<Pass>,
    mut agents: Vec<Player>,
    outcomes: Vec<JobOutcome>,
) -> Pool
    requires none { agents.items ≡ [] }
    requires agents { vec_len worked ≤ vec_capacity agents }
    requires passes { vec_len passes + vec_len worked ≤ vec_capacity passes }
    ensures agents { result.agents.items ≡ players_of worked.items }
    ensures passes { result.passes.items ≡ passes.items ++ passes_of worked.items }
    ensures outcomes { result.outcomes.items ≡ outcomes.items }
{
    for one in worked {
        let Worked { player, pass, .. } = one;
        agents.push_reserved(player);
        passes.push_reserved(pass);
    }
    Pool {
        agents,
        passes,
        outcomes,
    }
}
