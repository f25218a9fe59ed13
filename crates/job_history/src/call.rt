//! What jobs ask for.

ghost use Rattle.std.specs.Prelude.{◌≡◌, ◌++◌, IfOk, OnOk, map};
ghost use Rattle.job_history.specs.Calls.{caller_text, calls_of, groups_text, job_text, opening_text, root_line, root_text, votes_line};

use crate::operation::push_ops;
use acl_core::Caller;
use acl_text::append_short;
use script_text::push_number;
use std::alloc::{AllocError, Global};
use std::marker::Model;
use suite_prefix::Settings;
use suite_script::push_votes;
use txn_core::Job;
use vote_core::Votes;

/// What a job asks for, as text.
#[derive(Drop)]
pub(crate) struct CallText {
    text: Vec<u8>,
}

impl Model for CallText {
    ghost use Rattle.std.specs.Prelude.{ℕ, List};

    ghost Value = { List ℕ };

    ghost view = { λ call. call.text.items };
}

/// The lines above a history's calls, and what each job asks for.
#[derive(Drop)]
pub struct Calls {
    opening: Vec<u8>,
    texts: Vec<CallText>,
}

impl Model for Calls {
    ghost use Rattle.job_history.specs.Calls.{Asked};

    ghost Value = { Asked };

    ghost view = { λ calls. record { opening = calls.opening.items; texts = calls.texts.items } };
}

impl CallText {
    fn new(text: Vec<u8>) -> CallText
        ensures { result ≡ text.items }
    {
        CallText { text }
    }

    /// Its bytes.
    pub(crate) fn as_bytes(&self) -> &[u8]
        ensures { result.now ≡ self.now }
    {
        &self.text
    }
}

impl Calls {
    /// What these jobs ask for, in a service that opens with these settings.
    pub fn of(alloc: Global, settings: &Settings, jobs: &[Job]) -> Result<Calls, AllocError>
        ensures { IfOk result (λ calls. calls ≡ calls_of settings.now jobs.now) }
    {
        let mut opening = Vec::new(alloc);
        push_opening(&mut opening, settings)?;
        let texts = texts_of(alloc, settings.c0(), jobs)?;
        Ok(Calls { opening, texts })
    }

    /// The lines above the calls.
    pub(crate) fn opening(&self) -> &[u8]
        ensures { result.now ≡ self.now.opening }
    {
        &self.opening
    }

    /// What each job asks for.
    pub(crate) fn texts(&self) -> &[CallText]
        ensures { result.now ≡ self.now.texts }
    {
        &self.texts
    }
}

/// What each of these jobs asks for.
fn texts_of(alloc: Global, c0: &Votes, jobs: &[Job]) -> Result<Vec<CallText>, AllocError>
    ensures { IfOk result (λ texts. texts.items ≡ map (job_text c0.now) jobs.now) }
{
    let mut texts = Vec::with_capacity(alloc, jobs.len())?;
    for job in jobs {
        texts.push(text_of(alloc, c0, job)?)?;
    }
    Ok(texts)
}

/// What a job asks for.
fn text_of(alloc: Global, c0: &Votes, job: &Job) -> Result<CallText, AllocError>
    ensures { IfOk result (λ text. text ≡ job_text c0.now job.now) }
{
    let mut text = Vec::new(alloc);
    push_job(alloc, &mut text, c0, job)?;
    Ok(CallText::new(text))
}

fn push_job(alloc: Global, text: &mut Vec<u8>, c0: &Votes, job: &Job) -> Result<(), AllocError>
    ensures { OnOk result (text.new.items ≡ text.old.items ++ job_text c0.now job.now) }
{
    match job {
        Job::Transaction { caller, ops, .. } => {
            push_caller(text, caller)?;
            push_ops(alloc, text, c0, ops.as_slice())
        }
        Job::Sweep { server } => {
            text.extend_from_slice(b"sweep ")?;
            push_number(text, u64::from(*server))
        }
    }
}

/// A caller: its user, its own group, and its other groups.
fn push_caller(text: &mut Vec<u8>, caller: &Caller) -> Result<(), AllocError>
    ensures { OnOk result (text.new.items ≡ text.old.items ++ caller_text caller.now) }
{
    push_number(text, u64::from(caller.uid()))?;
    text.extend_from_slice(b" ")?;
    push_number(text, u64::from(caller.gid()))?;
    push_groups(text, caller.groups())?;
    text.extend_from_slice(b" ")
}

/// Groups, with a comma before each.
fn push_groups(text: &mut Vec<u8>, groups: &[u32]) -> Result<(), AllocError>
    ensures { OnOk result (text.new.items ≡ text.old.items ++ groups_text groups.now) }
{
    for group in groups {
        text.extend_from_slice(b",")?;
        push_number(text, u64::from(*group))?;
    }
    Ok(())
}

/// The lines above the calls: the root folder, and its votes.
fn push_opening(text: &mut Vec<u8>, settings: &Settings) -> Result<(), AllocError>
    ensures { OnOk result (text.new.items ≡ text.old.items ++ opening_text settings.now) }
{
    push_root_line(text, settings)?;
    push_votes_line(text, settings)
}

fn push_root_line(text: &mut Vec<u8>, settings: &Settings) -> Result<(), AllocError>
    ensures { OnOk result (text.new.items ≡ text.old.items ++ root_line settings.now) }
{
    text.extend_from_slice(b"root ")?;
    push_root(text, settings)?;
    append_short(text, settings.root_acl())?;
    text.extend_from_slice(b"\n")
}

fn push_votes_line(text: &mut Vec<u8>, settings: &Settings) -> Result<(), AllocError>
    ensures { OnOk result (text.new.items ≡ text.old.items ++ votes_line settings.now) }
{
    text.extend_from_slice(b"do ")?;
    push_root(text, settings)?;
    text.extend_from_slice(b"setvotes / ")?;
    push_votes(text, settings.c0())?;
    text.extend_from_slice(b"\n")
}

/// The root folder's owner and group.
fn push_root(text: &mut Vec<u8>, settings: &Settings) -> Result<(), AllocError>
    ensures { OnOk result (text.new.items ≡ text.old.items ++ root_text settings.now) }
{
    push_number(text, u64::from(settings.root_owner()))?;
    text.extend_from_slice(b" ")?;
    push_number(text, u64::from(settings.root_group()))?;
    text.extend_from_slice(b" ")
}
