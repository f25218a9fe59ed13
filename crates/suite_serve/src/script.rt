//! A script of jobs, read whole.

ghost use Rattle.std.specs.Prelude.{◌≡◌, ◌<◌, ◌≤◌, ◌+◌, ◌^◌, ◌++◌, ◌∷◌, [], IfOk, IsTrue, OnOk, length};
ghost use Rattle.file_ops.specs.Steps.{ok_map};
ghost use Rattle.suite_script.specs.Scripts.{owns, script_of, whole};
ghost use Rattle.suite_serve.specs.Readings.{GivesScript};
ghost use Rattle.suite_serve.specs.Scripts.{at_line, begins_together, header, language, plan_in, plan_of, second_together, togethers_from};
ghost use Rattle.suite_serve.specs.code.Kept.{commands, kept_plan};
ghost use Rattle.suite_serve.specs.code.Reading.{FindsTogether, GivesJobs, first_error};

use crate::command::Command;
use crate::header::read_header;
use crate::language::JobLines;
use acl_core::Caller;
use script_text::{Lines, Words};
use std::alloc::{AllocError, Global};
use std::marker::Model;
use suite_prefix::{MAX_AGENTS, Settings};
use suite_script::{LineFault, ScriptError, ScriptFault, ScriptReader};
use txn_core::{Job, SharedCaller};

/// How many jobs are kept before the rest of a script is looked through.
const KEPT_JOBS: usize = 16_384;

/// What a script asks for: the settings of its servers, its jobs, and how many of these stand above `together`.
#[derive(Drop)]
pub struct JobScript {
    pub(crate) settings: Settings,
    pub(crate) jobs: Vec<Job>,
    pub(crate) alone: usize,
}

impl Model for JobScript {
    ghost use Rattle.suite_serve.specs.Scripts.{Plan};

    ghost Value = { Plan };

    ghost use Rattle.std.specs.Coded.{codes};
    ghost use Rattle.suite_prefix.specs.code.ServersCode.{servers_code};

    ghost coded = { Prim.hlevel (codes, servers_code) };

    ghost view = { λ script. record { settings = script.settings; jobs = script.jobs.items; alone = script.alone } };
}

impl JobScript {
    ghost use Rattle.std.specs.Prelude.{◌≡◌};

    /// The settings of the servers, and of the agents.
    pub fn settings(&self) -> &Settings
        ensures { result.now ≡ self.now.settings }
    {
        &self.settings
    }

    /// The jobs.
    pub fn jobs(&self) -> &[Job]
        ensures { result.now ≡ self.now.jobs }
    {
        &self.jobs
    }

    /// How many of the jobs are done one after the other.
    pub fn alone(&self) -> usize
        ensures { result ≡ self.now.alone }
    {
        self.alone
    }
}

/// Reads a script whole, for so many agents: what it asks for, or its first faulty line. Of a job's operations one more is
/// kept than there may be, which make the same transaction as all.
pub fn read_script(alloc: Global, text: &[u8], agents: usize) -> Result<JobScript, ScriptError>
    requires text { length text.now < 2 ^ 60 }
    requires agents { (1 ≤ agents) × (agents ≤ MAX_AGENTS) }
    ensures { GivesScript result (ok_map kept_plan (plan_in agents text.now)) }
{
    let second = second_together(text);
    let script = match read_lines(alloc, text, agents) {
        Ok(script) => script,
        Err(error) => return Err(first_of(second, error)),
    };
    match second {
        None => Ok(script),
        Some(line) => Err(twice_at(line)),
    }
}

/// The fault of a line that says `together` once more.
fn twice_at(line: u64) -> ScriptError
    ensures { result ≡ ScriptError.Faulty (at_line line) }
{
    ScriptError::Faulty(ScriptFault {
        line,
        fault: LineFault::Form,
    })
}

/// Of a script's first fault and of a line that says `together` once more the one that stands first.
fn first_of(second: Option<u64>, error: ScriptError) -> ScriptError
    ensures { result ≡ first_error second error }
{
    match (second, error) {
        (Some(line), ScriptError::Faulty(fault)) if line < fault.line => twice_at(line),
        _ => error,
    }
}

/// The line that says `together` once more, if one does.
fn second_together(text: &[u8]) -> Option<u64>
    requires { length text.now < 2 ^ 60 }
    ensures { result ≡ second_together text.now }
{
    let mut lines = Lines::new(text);
    let mut number = 1;
    next_together(&mut lines, &mut number)?;
    next_together(&mut lines, &mut number)
}

/// The number of the next line that begins with `together`, if one does; after it the number is the next line's.
fn next_together(lines: &mut Lines<'_>, number: &mut u64) -> Option<u64>
    requires { number.old + length lines.old < 2 ^ 63 }
    ensures line { FindsTogether result (togethers_from number.old lines.old) (togethers_from number.new lines.new) }
    ensures room { number.new + length lines.new ≡ number.old + length lines.old }
{
    while let Some(line) = lines.next() {
        let place = *number;
        *number += 1;
        if begins_together(&mut Words::new(line)) {
            return Some(place);
        }
    }
    None
}

/// Whether a line begins with the word `together`.
fn begins_together(words: &mut Words<'_>) -> bool
    ensures { result ≡ begins_together words.old }
{
    match words.next() {
        Some(first) => first == b"together".as_slice(),
        None => false,
    }
}

/// The same as [`read_script`], but that `together` may be said more than once.
fn read_lines(alloc: Global, text: &[u8], agents: usize) -> Result<JobScript, ScriptError>
    requires text { length text.now < 2 ^ 60 }
    requires agents { (1 ≤ agents) × (agents ≤ MAX_AGENTS) }
    ensures { GivesScript result (ok_map kept_plan (ok_map plan_of (script_of language (header agents (whole text.now))))) }
{
    let mut script = ScriptReader::new(alloc, text);
    let settings = read_header(alloc, &mut script, agents)?;
    let lines = JobLines {
        last_server: (settings.servers() - 1) as u8,
    };
    let (jobs, alone) = read_jobs(alloc, &mut script, &lines)?;
    Ok(JobScript {
        settings,
        jobs,
        alone,
    })
}

/// The jobs of the lines that are left, and how many of them stand above the first `together`. Where there are many, those
/// that are left are looked through for a fault before they are kept.
fn read_jobs(
    alloc: Global,
    script: &mut ScriptReader<'_>,
    lines: &JobLines,
) -> Result<(Vec<Job>, usize), ScriptError>
    ensures { GivesJobs result (owns (commands lines.now) script.old) }
{
    let mut jobs = Vec::new(alloc);
    let mut alone = None;
    while let Some(command) = script.next_own(alloc, lines)? {
        match command {
            Command::Job(job) => {
                if jobs.len() == KEPT_JOBS {
                    script.look_ahead(alloc, lines)?;
                }
                keep(&mut jobs, job)?;
            }
            Command::Together => alone = Some(alone.unwrap_or(jobs.len())),
        }
    }
    let alone = alone.unwrap_or(jobs.len());
    Ok((jobs, alone))
}

/// Keeps one job more. It shares its caller with the job before it, where both have the same.
fn keep(jobs: &mut Vec<Job>, job: Job) -> Result<(), AllocError>
    ensures { OnOk result (jobs.new.items ≡ jobs.old.items ++ job ∷ []) }
{
    let kept = match jobs.last() {
        Some(last) => sharing(job, last)?,
        None => job,
    };
    jobs.push(kept)?;
    Ok(())
}

/// The same job, which shares its caller with another job that has the same.
fn sharing(job: Job, other: &Job) -> Result<Job, AllocError>
    ensures { IfOk result (λ shared. shared ≡ job) }
{
    match (job, other) {
        (Job::Transaction { caller, site, ops }, Job::Transaction { caller: theirs, .. }) => {
            let caller = shared(caller, theirs)?;
            Ok(Job::Transaction { caller, site, ops })
        }
        (job, _) => Ok(job),
    }
}

/// The same caller: the other one, where that is the same.
fn shared(caller: SharedCaller, other: &SharedCaller) -> Result<SharedCaller, AllocError>
    ensures { IfOk result (λ kept. kept ≡ caller) }
{
    if are_same(&caller, other) {
        return other.clone();
    }
    Ok(caller)
}

fn are_same(caller: &Caller, other: &Caller) -> bool
    ensures { IsTrue result → caller.now ≡ other.now }
{
    caller.uid() == other.uid() && caller.gid() == other.gid() && caller.groups() == other.groups()
}
