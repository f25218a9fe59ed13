//! Jobs that an agent may begin.

ghost use Rattle.std.specs.Prelude.{◌≡◌, IfOk};
ghost use Rattle.txn_core.specs.Agents as agents;
ghost use Rattle.txn_core.specs.Agents.{fixed_of};
ghost use Rattle.run_core.specs.declared.event.Event.TheVariants.{Begin};

use run_core::Event;
use std::alloc::AllocError;
use suite_prefix::Settings;
use txn_core::Job;
use weak_cache::MAX_SITES;

/// Whether a job has sense: there is such a site, or such a server.
pub(crate) fn has_sense(settings: &Settings, job: &Job) -> bool
    ensures { result ≡ agents.has_sense (fixed_of settings.now) job.now }
{
    match job {
        Job::Transaction { site, .. } => *site < MAX_SITES,
        Job::Sweep { server } => usize::from(*server) < settings.servers(),
    }
}

/// The event in which an agent begins a job.
pub(crate) fn begin_event(agent: u8, job: &Job) -> Result<Event, AllocError>
    ensures { IfOk result (λ event. event ≡ Begin agent job.now) }
{
    let job = job.clone()?;
    Ok(Event::Begin { agent, job })
}
