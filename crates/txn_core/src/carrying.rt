//! How a plan is carried out, which takes no memory.

ghost use Rattle.std.specs.Prelude.{◌≡◌, ◌<◌, IsSome, OnOk};
ghost use Rattle.txn_core.specs.code.Plans as spec;
ghost use Rattle.txn_core.specs.code.NextPhases.{next_phase_of};
ghost use Rattle.txn_core.specs.Suites.{suite_of};
ghost use Rattle.txn_core.specs.Transactions.{after_search};

use crate::granted::Granted;
use crate::next_phase::NextPhase;
use crate::plan::Plan;
use crate::suites::GatheredSuite;
use crate::task::Task;
use file_exec::{Need, Outcome};
use sorted_map::RoomyMap;
use std::alloc::AllocError;
use suite_collect::ReadPoint;
use suite_content::Content;
use weak_cache::WeakCache;

impl Plan {
    /// Makes room for a suite that is asked for the first time.
    pub(crate) fn make_room(
        &self,
        suites: &mut RoomyMap<u64, GatheredSuite>,
    ) -> Result<(), AllocError>
        ensures ok { OnOk result (IsSome self.now.new → 0 < suites.new.room) }
        ensures pairs { suites.new.pairs ≡ suites.old.pairs }
    {
        if self.new.is_some() {
            suites.reserve(1)?;
        }
        Ok(())
    }

    /// Carries it out. A suite that is asked for the first time has room.
    pub(crate) fn carry_out(
        self,
        task: &Task,
        suites: &mut RoomyMap<u64, GatheredSuite>,
        cache: &mut WeakCache,
    ) -> NextPhase
        requires { IsSome self.new → 0 < suites.old.room }
        ensures suites { suites.new.pairs ≡ (spec.carried_out task.now self (spec.all_in suites.old.pairs cache.old)).suites }
        ensures cache { cache.new ≡ record cache.old { entries = (spec.carried_out task.now self (spec.all_in suites.old.pairs cache.old)).cache } }
        ensures next_phase { result ≡ next_phase_of self.outcome }
    {
        let Plan {
            opened,
            outcome,
            new,
        } = self;
        open_all(task, suites, cache, opened);
        ask(suites, &outcome, new);
        next_phase_of(outcome)
    }
}

/// Gives suites their contents, one after the other.
fn open_all(
    task: &Task,
    suites: &mut RoomyMap<u64, GatheredSuite>,
    cache: &mut WeakCache,
    opened: Vec<(u64, Content)>,
)
    ensures suites { suites.new.pairs ≡ (spec.opened_all task.now opened.items (spec.all_in suites.old.pairs cache.old)).suites }
    ensures cache { cache.new ≡ record cache.old { entries = (spec.opened_all task.now opened.items (spec.all_in suites.old.pairs cache.old)).cache } }
    ensures room { suites.new.room ≡ suites.old.room }
{
    for (number, content) in opened {
        open(task, suites, cache, number, content);
    }
}

/// Gives a suite its content. Where the cache has it, it is the newest there from then on.
fn open(
    task: &Task,
    suites: &mut RoomyMap<u64, GatheredSuite>,
    cache: &mut WeakCache,
    number: u64,
    content: Content,
)
    ensures suites { suites.new.pairs ≡ (spec.opened_by task.now (spec.all_in suites.old.pairs cache.old) (number, content)).suites }
    ensures cache { cache.new ≡ record cache.old { entries = (spec.opened_by task.now (spec.all_in suites.old.pairs cache.old) (number, content)).cache } }
    ensures room { suites.new.room ≡ suites.old.room }
{
    let Some(suite) = suites.get_mut(&number) else {
        return;
    };
    let Some(first) = suite.first() else {
        return;
    };
    look_up(task, cache, number, first);
    suite.open(content);
}

/// What is looked for in the cache is its newest entry from then on.
fn look_up(task: &Task, cache: &mut WeakCache, number: u64, first: &ReadPoint)
    ensures { cache.new ≡ record cache.old { entries = after_search task.now cache.old.entries number first.now } }
{
    if first.dver != 0 {
        cache.content_at(task.site, number, first.dver);
    }
}

/// Asks for the suite that is needed: a new one is put among the suites, and another is raised.
fn ask(suites: &mut RoomyMap<u64, GatheredSuite>, outcome: &Outcome, new: Option<GatheredSuite>)
    requires { IsSome new → 0 < suites.old.room }
    ensures { suites.new.pairs ≡ spec.with_asked outcome.now new suites.old.pairs }
{
    let Outcome::Need(Need::Hold(number, _)) = outcome else {
        return;
    };
    match new {
        Some(suite) => {
            suites.insert_in_room(*number, suite);
        }
        None => raise(suites, *number),
    }
}

/// From now on an exclusive lock is wanted on a suite.
fn raise(suites: &mut RoomyMap<u64, GatheredSuite>, number: u64)
    ensures { suites.new.pairs ≡ spec.raised_at number (suite_of suites.old.pairs number) suites.old.pairs }
{
    if let Some(suite) = suites.get_mut(&number) {
        suite.raise();
    }
}

/// What follows what a transaction comes to.
fn next_phase_of(outcome: Outcome) -> NextPhase
    ensures { result ≡ next_phase_of outcome }
{
    match outcome {
        Outcome::Need(Need::Hold(number, _)) => NextPhase::Gather(number),
        Outcome::Need(Need::Know(number)) => NextPhase::Fetch(number),
        Outcome::Done(answers, changes) => NextPhase::Grant(Granted { answers, changes }),
        Outcome::Refused(refusal) => NextPhase::Refuse(refusal),
    }
}
