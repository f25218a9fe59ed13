//! What agents did.

ghost use Rattle.std.specs.Prelude.{◌≡◌};

use rep_core::Lack;
use run_core::EndedJob;
use std::alloc::{AllocError, Global};
use std::marker::Model;
use std::ops::Deref;
use std::sync::Arc;
use txn_core::Job;

/// A job that is kept at several places, as in a transcript. It stands on the heap, since entries are many and few of them
/// have one. A clone shares it.
#[derive(Debug, Drop)]
pub struct KeptJob {
    job: Arc<Job, Global>,
}

impl Model for KeptJob {
    ghost use Rattle.std.specs.Arc.{arc_value};
    ghost use Rattle.txn_core.specs.declared.job.Job.{Job};

    ghost Value = { Job };

    ghost view = { λ kept. arc_value kept.job };
}

impl Clone for KeptJob {
    ghost use Rattle.std.specs.Prelude.{◌≡◌};

    ghost is_clone = { λ kept copy. copy ≡ kept };

    fn clone(&self) -> Result<KeptJob, AllocError> {
        let job = self.job.clone()?;
        Ok(KeptJob { job })
    }
}

impl Deref for KeptJob {
    type Target = Job;

    ghost use Rattle.std.specs.Prelude.{◌≡◌};

    ghost deref_gives = { λ kept job. job ≡ kept };

    fn deref(&self) -> &Job
        ensures { result.now ≡ self.now }
    {
        &self.job
    }
}

impl KeptJob {
    ghost use Rattle.std.specs.Prelude.{◌≡◌, IfOk};

    /// A job, to be kept.
    pub fn new(alloc: Global, job: Job) -> Result<KeptJob, AllocError>
        ensures { IfOk result (λ kept. kept ≡ job) }
    {
        let job = Arc::new(alloc, job)?;
        Ok(KeptJob { job })
    }
}

/// How a job ended, as a transcript keeps it. It stands on the heap, as a job does.
#[derive(Debug, Drop)]
pub struct KeptEnd {
    ended: Box<EndedJob>,
}

impl Model for KeptEnd {
    ghost use Rattle.run_core.specs.declared.done.EndedJob.{EndedJob};

    ghost Value = { EndedJob };

    ghost view = { λ kept. kept.ended.value };
}

impl Deref for KeptEnd {
    type Target = EndedJob;

    ghost use Rattle.std.specs.Prelude.{◌≡◌};

    ghost deref_gives = { λ kept ended. ended ≡ kept };

    fn deref(&self) -> &EndedJob
        ensures { result.now ≡ self.now }
    {
        &self.ended
    }
}

impl KeptEnd {
    ghost use Rattle.std.specs.Prelude.{◌≡◌, IfOk};

    /// How a job ended, to be kept.
    pub fn new(alloc: Global, ended: EndedJob) -> Result<KeptEnd, AllocError>
        ensures { IfOk result (λ kept. kept ≡ ended) }
    {
        let ended = Box::new(alloc, ended)?;
        Ok(KeptEnd { ended })
    }
}

/// One thing that an agent did.
#[derive(Debug, Drop)]
pub enum AgentEntry {
    /// It began a job.
    Begun(KeptJob),
    /// It asked a server, whose reply has this stamp.
    Asked { server: u8, stamp: u64 },
    /// It asked a server, which lacked something.
    Lacked { server: u8, lack: Lack },
    /// It forgot what its cache kept for a site.
    Forgot { site: u8 },
    /// Its job ended so.
    Ended(KeptEnd),
}

/// What an agent did, in its order.
#[derive(Debug, Drop)]
pub struct Transcript {
    entries: Vec<AgentEntry>,
}

impl Model for Transcript {
    ghost use Rattle.std.specs.Prelude.{List};
    ghost use Rattle.run_certify.specs.declared.entry.AgentEntry.{AgentEntry};

    ghost Value = { List AgentEntry };

    ghost view = { λ transcript. transcript.entries.items };
}

impl Transcript {
    /// The transcript of a vector, which is not copied.
    pub fn from_vec(entries: Vec<AgentEntry>) -> Transcript
        ensures { result ≡ entries.items }
    {
        Transcript { entries }
    }

    /// The vector.
    pub fn into_vec(self) -> Vec<AgentEntry>
        ensures { result.items ≡ self }
    {
        let Transcript { entries } = self;
        entries
    }

    /// The entries.
    pub fn as_slice(&self) -> &[AgentEntry]
        ensures { result.now ≡ self.now }
    {
        &self.entries
    }
}

/// A transcript for each agent, in their order.
#[derive(Debug, Drop)]
pub struct Transcripts {
    transcripts: Vec<Transcript>,
}

impl Model for Transcripts {
    ghost use Rattle.std.specs.Prelude.{List};
    ghost use Rattle.run_certify.specs.declared.entry.AgentEntry.{AgentEntry};

    ghost Value = { List (List AgentEntry) };

    ghost view = { λ transcripts. transcripts.transcripts.items };
}

impl Transcripts {
    /// The transcripts of a vector, which is not copied.
    pub fn from_vec(transcripts: Vec<Transcript>) -> Transcripts
        ensures { result ≡ transcripts.items }
    {
        Transcripts { transcripts }
    }

    /// The vector.
    pub fn into_vec(self) -> Vec<Transcript>
        ensures { result.items ≡ self }
    {
        let Transcripts { transcripts } = self;
        transcripts
    }

    /// The transcripts.
    pub fn as_slice(&self) -> &[Transcript]
        ensures { result.now ≡ self.now }
    {
        &self.transcripts
    }
}
