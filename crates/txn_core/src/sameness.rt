//! What agents do, compared. Where it is told to be the same, it is.

ghost use Rattle.std.specs.Prelude.{◌≡◌, IsTrue};
ghost use Rattle.txn_core.specs.code.TransactionRunFields.{phase_of};

use crate::ending::Ending;
use crate::phase::Phase;
use rep_core::{Lock, Verdict};

/// Whether two transactions stand at the same. It is told only of those whose end is told to servers: then all that
/// is compared is at hand.
pub(crate) fn same_phase(own: &Phase, theirs: &Phase) -> bool
    ensures { IsTrue result → phase_of own.now ≡ phase_of theirs.now }
{
    match (own, theirs) {
        (
            Phase::Finishing {
                server,
                left,
                verdict,
                ending,
            },
            Phase::Finishing {
                server: other_server,
                left: other_left,
                verdict: other_verdict,
                ending: other_ending,
            },
        ) => {
            server == other_server
                && left.same(other_left)
                && same_verdict(verdict, other_verdict)
                && same_ending(ending, other_ending)
        }
        _ => false,
    }
}

/// Whether two verdicts are the same.
pub(crate) fn same_verdict(own: &Verdict, theirs: &Verdict) -> bool
    ensures { IsTrue result → own.now ≡ theirs.now }
{
    own == theirs
}

/// Whether two jobs ended the same way.
fn same_ending(own: &Ending, theirs: &Ending) -> bool
    ensures { IsTrue result → own.now ≡ theirs.now }
{
    own == theirs
}

/// Whether two locks are the same.
pub(crate) fn same_lock(own: &Lock, theirs: &Lock) -> bool
    ensures { IsTrue result → own.now ≡ theirs.now }
{
    own == theirs
}
