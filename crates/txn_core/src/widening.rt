//! The suites that get votes are widened to them.

ghost use Rattle.std.specs.Prelude.{drop};
ghost use Rattle.weak_cache.specs.Entries.{Cache};
ghost use Rattle.txn_core.specs.code.Goings.{GoesBy, WidensOn, widens};
ghost use Rattle.txn_core.specs.code.Steps.{Widens};
ghost use Rattle.txn_core.specs.Transactions as txn_run;

use crate::ending::{Cause, Flow};
use crate::granted::Granted;
use crate::phase::Phase;
use crate::servers::locked_at;
use crate::transaction_run::TransactionRun;
use suite_collect::Coming;
use vote_core::Votes;

impl TransactionRun {
    /// The suites that get votes are widened to them, those of the changes from a place on; then the
    /// servers prepare.
    pub(crate) fn widen_all(&mut self, from: usize, granted: Granted) -> Flow
        ensures { (cache : Cache) → GoesBy (widens self.old cache granted (txn_run.to_widen (drop from granted.changes))) result self.new cache }
    {
        let mut after = from;
        while let Some((number, change)) = granted.changes.as_slice().get(after) {
            let number = *number;
            after += 1;
            if !change.votes {
                continue;
            }
            match self.widen(number, change.row.votes()) {
                Coming::Current => {}
                Coming::Ask { .. } => {
                    self.phase = Phase::Widening {
                        number,
                        after,
                        granted,
                    };
                    return Flow::On;
                }
                Coming::Short { got, needed, busy } => {
                    return self.give_up(Cause::of_short(number, got, needed, busy));
                }
            }
        }
        let servers = locked_at(self.suites.as_slice());
        self.prepare(servers, Ok(granted))
    }

    /// The suites that are left are widened, once one has its quorum.
    pub(crate) fn widen_on(&mut self) -> Flow
        ensures { WidensOn self.old result self.new }
    {
        match self.leave() {
            Phase::Widening { after, granted, .. } => self.widen_all(after, granted),
            other => {
                self.phase = other;
                Flow::On
            }
        }
    }

    /// A suite is widened to these votes. Where there is no such suite, nothing has to be asked.
    fn widen(&mut self, number: u64, votes: &Votes) -> Coming
        ensures { Widens number votes.now self.old result self.new }
    {
        let Some(suite) = self.suites.get_mut(&number) else {
            return Coming::Current;
        };
        suite.widen(votes);
        suite.next()
    }
}
