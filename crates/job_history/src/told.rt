//! What callers were told.

ghost use Rattle.std.specs.Prelude.{◌≡◌, ◌++◌, OnOk};
ghost use Rattle.job_history.specs.Told.{is_judged, is_of_table, refused_text, told_text};

use file_ops::{Refusal, Why};
use std::alloc::{AllocError, Global};
use suite_script::{push_answered, push_refused};
use txn_core::Ending;

/// Whether the plain table of a history can have told this: it can but for a sweep, for what was not decided, and for a
/// server that is not there, since it has all servers that there may be.
pub(crate) fn is_judged(ending: &Ending) -> bool
    ensures { result ≡ is_judged ending.now }
{
    match ending {
        Ending::Answered(_) => true,
        Ending::Refused(refusal) => is_of_table(refusal.why),
        Ending::Swept { .. } | Ending::Undecided(_) => false,
    }
}

fn is_of_table(why: Why) -> bool
    ensures { result ≡ is_of_table why }
{
    !matches!(why, Why::UnknownServer)
}

/// What was told of a job.
pub(crate) fn push_told(
    alloc: Global,
    text: &mut Vec<u8>,
    ending: &Ending,
) -> Result<(), AllocError>
    ensures { OnOk result (text.new.items ≡ text.old.items ++ told_text ending.now) }
{
    match ending {
        Ending::Answered(answers) => push_answered(alloc, text, answers.as_slice()),
        Ending::Refused(refusal) => push_refusal(text, *refusal),
        Ending::Swept { .. } => text.extend_from_slice(b"swept"),
        Ending::Undecided(_) => text.extend_from_slice(b"undecided"),
    }
}

/// A refusal; of a denial just that.
fn push_refusal(text: &mut Vec<u8>, refusal: Refusal) -> Result<(), AllocError>
    ensures { OnOk result (text.new.items ≡ text.old.items ++ refused_text refusal refusal.why) }
{
    match refusal.why {
        Why::Denied(_) => text.extend_from_slice(b"denied"),
        _ => push_refused(text, refusal),
    }
}
