//! What agents began.

ghost use Rattle.std.specs.Prelude.{◌≡◌, ℕ, ◌+◌, ◌<◌, length, map, option_copied, slice_set, IfOk, Some};
ghost use Rattle.txn_core.specs.Agents.{max_jobs};
ghost use Rattle.run_certify.specs.Deciding.{count_at, job_at};

use std::alloc::{AllocError, Global};
use std::marker::Model;
use txn_core::Job;

/// The job that each agent began last, and how many it began.
#[derive(Drop)]
pub(crate) struct Begun<'a> {
    jobs: Vec<Option<&'a Job>>,
    counts: Vec<u64>,
}

impl<'a> Model for Begun<'a> {
    ghost use Rattle.std.specs.Prelude.{map, option_copied};
    ghost use Rattle.run_certify.specs.code.Begins.{Begins};

    ghost Value = { Begins };

    ghost view = { λ begun. record { jobs = map option_copied begun.jobs.items; counts = begun.counts.items } };
}

impl<'a> Begun<'a> {
    /// So many agents, which began nothing yet.
    pub(crate) fn new(alloc: Global, agents: usize) -> Result<Begun<'a>, AllocError>
        ensures jobs { IfOk result (λ begun. length begun.jobs ≡ agents) }
        ensures counts { IfOk result (λ begun. length begun.counts ≡ agents) }
        ensures none { IfOk result (λ begun. (agent : ℕ) → count_at begun.counts agent ≡ 0) }
    {
        let jobs = vec![in alloc; None; agents]?;
        let counts = vec![in alloc; 0; agents]?;
        Ok(Begun { jobs, counts })
    }

    /// How many jobs an agent began.
    pub(crate) fn count(&self, agent: u8) -> u64
        ensures { result ≡ count_at self.now.counts agent }
    {
        match self.counts.get(usize::from(agent)) {
            Some(count) => *count,
            None => 0,
        }
    }

    /// The job that an agent began last.
    pub(crate) fn job(&self, agent: u8) -> Option<&'a Job>
        ensures { option_copied result ≡ job_at self.now.jobs agent }
    {
        match self.jobs.get(usize::from(agent)) {
            Some(job) => *job,
            None => None,
        }
    }

    /// An agent begins a job.
    pub(crate) fn begin(&mut self, agent: u8, job: &'a Job)
        requires { count_at self.old.counts agent < max_jobs }
        ensures jobs { self.new.jobs ≡ slice_set self.old.jobs agent (Some job.now) }
        ensures counts { self.new.counts ≡ slice_set self.old.counts agent (count_at self.old.counts agent + 1) }
    {
        let place = usize::from(agent);
        put_job(&mut self.jobs, place, job);
        count_one(&mut self.counts, place);
    }
}

/// Puts an agent's last job into its place, where there is one.
fn put_job<'a>(jobs: &mut Vec<Option<&'a Job>>, place: usize, job: &'a Job)
    ensures { map option_copied jobs.new.items ≡ slice_set (map option_copied jobs.old.items) place (Some job.now) }
{
    if place < jobs.len() {
        jobs[place] = Some(job);
    }
}

/// Counts one more in a place, where there is one.
fn count_one(counts: &mut Vec<u64>, place: usize)
    requires { count_at counts.old.items place < max_jobs }
    ensures { counts.new.items ≡ slice_set counts.old.items place (count_at counts.old.items place + 1) }
{
    if place < counts.len() {
        counts[place] += 1;
    }
}
