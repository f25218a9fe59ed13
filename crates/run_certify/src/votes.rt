//! That the votes of all jobs that agents began are valid, by their type.

ghost use Rattle.run_certify.specs.code.ValidVotes.{AllBegunAreValid, EntriesGiveValidVotes, EntryGivesValidVotes};

use crate::entry::{AgentEntry, Transcript};
use law_headline::job_is_valid;

/// A law: the votes of all jobs that were begun are valid. It does nothing.
pub(crate) fn begun_are_valid(transcripts: &[Transcript])
    ensures { AllBegunAreValid transcripts.now }
{
    for transcript in transcripts {
        entries_are_valid(transcript.as_slice());
    }
}

fn entries_are_valid(entries: &[AgentEntry])
    ensures { EntriesGiveValidVotes entries.now }
{
    for entry in entries {
        entry_is_valid(entry);
    }
}

fn entry_is_valid(entry: &AgentEntry)
    ensures { EntryGivesValidVotes entry.now }
{
    if let AgentEntry::Begun(job) = entry {
        job_is_valid(job);
    }
}
