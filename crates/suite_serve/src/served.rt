//! What the jobs of a script came to.

ghost use Rattle.std.specs.Prelude.{◌≡◌, ◌++◌, ◌^◌, ◌<◌, IfOk, OnOk, map, option_map, []};
ghost use Rattle.suite_script.specs.Gathering.{Prints};
ghost use Rattle.suite_serve.specs.Served.{end_in, ending_of, endings_of, items_in, job_lines, named_end, told_line};

use agent_pool::{JobOutcome, end_at};
use byte_streams::ByteOut;
use run_certify::Transcripts;
use run_core::EndedJob;
use script_text::push_number;
use server_lock::Histories;
use std::alloc::{AllocError, Global};
use std::marker::Model;
use suite_play::push_ending;
use suite_script::{PlayError, write_gathered, write_if_full};
use txn_core::Ending;

/// What the jobs of a script came to in a run that was certified: what agents did, where the jobs ended in it, in the order
/// of their numbers, and how many requests were served.
#[derive(Drop)]
pub struct ServedScript {
    transcripts: Transcripts,
    outcomes: Vec<JobOutcome>,
    steps: u64,
}

impl Model for ServedScript {
    ghost use Rattle.std.specs.Prelude.{map};
    ghost use Rattle.suite_serve.specs.Served.{Came, end_in};

    ghost Value = { Came };

    ghost view = { λ served. record { ends = map (end_in served.transcripts) served.outcomes.items; steps = served.steps } };
}

impl ServedScript {
    /// What jobs came to that ended so in these transcripts, and how many requests were served.
    pub(crate) fn new(
        transcripts: Transcripts,
        outcomes: Vec<JobOutcome>,
        steps: u64,
    ) -> ServedScript
        ensures { result ≡ record { ends = map (end_in transcripts) outcomes.items; steps = steps } }
    {
        ServedScript {
            transcripts,
            outcomes,
            steps,
        }
    }

    /// How many requests the servers served.
    pub fn steps(&self) -> u64
        ensures { result ≡ self.now.steps }
    {
        self.steps
    }

    /// How the jobs ended, in the order of their numbers.
    pub fn endings(&self, alloc: Global) -> Result<Vec<Ending>, AllocError>
        ensures { IfOk result (λ endings. endings.items ≡ endings_of self.now.ends) }
    {
        endings_in(alloc, &self.transcripts, &self.outcomes)
    }

    /// Writes a line for each job, in the order of their numbers.
    pub fn write_outcomes<O: ByteOut>(&self, alloc: Global, writer: &mut O) -> Result<(), PlayError>
        ensures { Prints result (job_lines self.now.ends) [] (O.written writer.old) (O.written writer.new)
            (O.failed_writes writer.old) (O.failed_writes writer.new) }
    {
        write_lines(alloc, &self.transcripts, &self.outcomes, writer)
    }
}

/// How these jobs ended, whose ends stand in these transcripts.
fn endings_in(
    alloc: Global,
    transcripts: &Transcripts,
    outcomes: &[JobOutcome],
) -> Result<Vec<Ending>, AllocError>
    ensures { IfOk result (λ endings. endings.items ≡ endings_of (map (end_in transcripts.now) outcomes.now)) }
{
    let mut endings = Vec::with_capacity(alloc, outcomes.len())?;
    for outcome in outcomes {
        keep_ending(&mut endings, ended(transcripts, outcome))?;
    }
    Ok(endings)
}

/// Keeps how a job ended, where that is told.
fn keep_ending(endings: &mut Vec<Ending>, told: Option<&EndedJob>) -> Result<(), AllocError>
    ensures { OnOk result (endings.new.items ≡ endings.old.items ++ ending_of (option_map (λ told. told.now) told.entry)) }
{
    let Some(outcome) = told else {
        return Ok(());
    };
    let ending = outcome.ending.clone()?;
    endings.push(ending)?;
    Ok(())
}

/// Writes a line for each of these jobs, whose ends stand in these transcripts.
fn write_lines<O: ByteOut>(
    alloc: Global,
    transcripts: &Transcripts,
    outcomes: &[JobOutcome],
    writer: &mut O,
) -> Result<(), PlayError>
    ensures { Prints result (job_lines (map (end_in transcripts.now) outcomes.now)) [] (O.written writer.old) (O.written writer.new)
        (O.failed_writes writer.old) (O.failed_writes writer.new) }
{
    let mut text = Vec::new(alloc);
    for outcome in outcomes {
        push_told(alloc, &mut text, outcome.job, ended(transcripts, outcome))?;
        write_if_full(writer, &mut text)?;
    }
    write_gathered(writer, &mut text)?;
    Ok(())
}

/// The line of a job, where it is told how it ended.
fn push_told(
    alloc: Global,
    text: &mut Vec<u8>,
    job: u64,
    told: Option<&EndedJob>,
) -> Result<(), AllocError>
    ensures { OnOk result (text.new.items ≡ text.old.items ++ told_line job (option_map (λ told. told.now) told.entry)) }
{
    let Some(outcome) = told else {
        return Ok(());
    };
    push_number(text, job)?;
    text.extend_from_slice(b" ")?;
    push_number(text, outcome.steps)?;
    text.extend_from_slice(b" ")?;
    push_ending(alloc, text, &outcome.ending)?;
    text.extend_from_slice(b"\n")
}

/// How a job ended, where that stands in its agent's transcript.
fn ended<'a>(transcripts: &'a Transcripts, outcome: &JobOutcome) -> Option<&'a EndedJob>
    ensures { option_map (λ told. told.now) result ≡ named_end transcripts.now outcome.now }
{
    let transcript = transcripts.as_slice().get(usize::from(outcome.agent))?;
    end_at(transcript.as_slice(), outcome.at)
}

/// How many items histories have.
pub(crate) fn items_in(histories: &Histories) -> u64
    requires { items_in histories.now < 2 ^ 64 }
    ensures { result ≡ items_in histories.now }
{
    let mut items = 0;
    for history in histories.as_slice() {
        items += history.as_slice().len() as u64;
    }
    items
}
