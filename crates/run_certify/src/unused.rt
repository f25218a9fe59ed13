//! The entries of transcripts, as they are used.

ghost use Rattle.std.specs.Prelude.{◌≡◌, ◌≢◌, ◌↔◌, [], ◌∷◌, length, IfOk, IfNone, IfSome, IsTrue, MatchOption, OnErr, OnOk, Err};
ghost use Rattle.run_certify.specs.Weaves.{transcript_of};
ghost use Rattle.run_certify.specs.code.Uses.{AreUsed, EndsOtherwise, HasEnded};
ghost use Rattle.run_certify.specs.declared.entry.AgentEntry.TheVariants.{Ended};
ghost use Rattle.run_certify.specs.declared.fault.CertifyFault.TheVariants.{Memory};

use crate::entry::{AgentEntry, Transcript};
use crate::fault::CertifyFault;
use run_core::EndedJob;
use std::alloc::{AllocError, Global};
use std::marker::Model;

/// What is left of the transcripts: of each agent the entries that were not yet used.
#[derive(Drop)]
pub(crate) struct Unused<'a> {
    transcripts: Vec<&'a [AgentEntry]>,
}

impl<'a> Model for Unused<'a> {
    ghost use Rattle.std.specs.Prelude.{List, map};
    ghost use Rattle.run_certify.specs.declared.entry.AgentEntry.{AgentEntry};

    ghost Value = { List (List AgentEntry) };

    ghost view = { λ unused. map (λ transcript. transcript.now) unused.transcripts.items };
}

impl<'a> Unused<'a> {
    /// All entries of the transcripts.
    pub(crate) fn new(
        alloc: Global,
        transcripts: &'a [Transcript],
    ) -> Result<Unused<'a>, AllocError>
        ensures { IfOk result (λ unused. unused ≡ transcripts.now) }
    {
        let mut unused = Vec::new(alloc);
        for transcript in transcripts {
            unused.push(transcript.as_slice())?;
        }
        Ok(Unused {
            transcripts: unused,
        })
    }

    /// How many transcripts there are.
    pub(crate) fn len(&self) -> usize
        ensures { result ≡ length self.now }
    {
        self.transcripts.len()
    }

    /// The next entry of an agent, which is used; none where none is left.
    pub(crate) fn next(&mut self, agent: usize) -> Option<&'a AgentEntry>
        ensures none { IfNone result (transcript_of self.old agent ≡ []) }
        ensures same { IfNone result (self.new ≡ self.old) }
        ensures used { IfSome result (λ entry. AreUsed self.old agent (entry.now ∷ []) self.new) }
    {
        if agent >= self.transcripts.len() {
            return None;
        }
        let (entry, later) = self.transcripts[agent].split_first()?;
        self.transcripts[agent] = later;
        Some(entry)
    }

    /// That a job ended is used, if one did: it has to come next.
    pub(crate) fn end(&mut self, agent: u8, outcome: &Option<EndedJob>) -> Result<(), CertifyFault>
        ensures ok { OnOk result (HasEnded self.old agent outcome.now self.new) }
        ensures mismatch { OnErr result (EndsOtherwise self.old agent outcome.now) }
        ensures memory { result ≢ Err Memory }
    {
        let Some(outcome) = outcome else {
            return Ok(());
        };
        let Some(entry) = self.next(usize::from(agent)) else {
            return Err(CertifyFault::Mismatch);
        };
        if is_end(entry, outcome) {
            Ok(())
        } else {
            Err(CertifyFault::Mismatch)
        }
    }
}

/// Whether an entry says that a job ended so.
fn is_end(entry: &AgentEntry, outcome: &EndedJob) -> bool
    ensures { IsTrue result ↔ (entry.now ≡ Ended outcome.now) }
{
    match entry {
        AgentEntry::Ended(told) => **told == *outcome,
        _ => false,
    }
}
