//! What is certified of histories and transcripts.
//!
//! What memory was refused to is called again, so that each allocation can be refused in turn.

ghost use Rattle.std.specs.Prelude.{IfOk};
ghost use Rattle.law_certified.specs.Histories.{ChangesAreMetInHistoryAt, FinishedBeforeInHistoryAt};

use crate::fixtures::push;
use file_ops::{Answers, Refusal};
use law_certified::promise;
use run_certify::{
    AgentEntry, CertifyFault, Decided, DecidedTransaction, Transcript, Transcripts, certify,
};
use server_lock::{Histories, History, Item};
use std::alloc::{AllocError, Global};
use std::process::Abort;
use suite_prefix::Settings;

/// The histories of servers that served these items.
pub(crate) fn histories(rt: &(impl Abort + AllocGlobal), items: Vec<Vec<Item>>) -> Histories {
    let mut histories = Vec::new(rt.alloc());
    for list in items {
        push(rt, &mut histories, History::from_vec(list));
    }
    Histories::from_vec(histories)
}

/// The transcripts of agents that put down these entries.
pub(crate) fn transcripts(
    rt: &(impl Abort + AllocGlobal),
    entries: Vec<Vec<AgentEntry>>,
) -> Transcripts {
    let mut transcripts = Vec::new(rt.alloc());
    for list in entries {
        push(rt, &mut transcripts, Transcript::from_vec(list));
    }
    Transcripts::from_vec(transcripts)
}

/// What is certified. Whose decision came first is told by each history, and changes are met.
fn told_in_time(
    alloc: Global,
    settings: &Settings,
    histories: &Histories,
    transcripts: &Transcripts,
) -> Result<Decided, CertifyFault>
    ensures finished { IfOk result (λ decided. FinishedBeforeInHistoryAt histories.now decided) }
    ensures changes { IfOk result (λ decided. ChangesAreMetInHistoryAt settings.now histories.now decided) }
{
    let decided = certify(alloc, settings, histories, transcripts)?;
    promise(settings, histories, transcripts);
    Ok(decided)
}

/// The same for tests, which look at no contract of it.
fn judge(
    rt: &impl AllocGlobal,
    settings: &Settings,
    histories: &Histories,
    transcripts: &Transcripts,
) -> Result<Decided, CertifyFault> {
    told_in_time(rt.alloc(), settings, histories, transcripts)
}

/// What is certified, or that nothing is. A test that memory is refused to twice stops for that.
fn judged(
    rt: &(impl Abort + AllocGlobal),
    settings: &Settings,
    histories: &Histories,
    transcripts: &Transcripts,
) -> Option<Decided> {
    let judged = match judge(rt, settings, histories, transcripts) {
        Err(CertifyFault::Memory) => judge(rt, settings, histories, transcripts),
        came => came,
    };
    match judged {
        Err(CertifyFault::Mismatch) => None,
        came => Some(came.ok().expect(rt, "memory")),
    }
}

/// How many decisions are certified, where this is a run.
pub(crate) fn certified(
    rt: &(impl Abort + AllocGlobal),
    settings: &Settings,
    histories: &Histories,
    transcripts: &Transcripts,
) -> Option<usize> {
    let decided = judged(rt, settings, histories, transcripts)?;
    Some(decided.as_slice().len())
}

/// What is certified, in words: `Mismatch`, or the decisions in their order.
pub(crate) fn verdict(
    rt: &(impl Abort + AllocGlobal),
    settings: &Settings,
    histories: &Histories,
    transcripts: &Transcripts,
) -> String {
    match judged(rt, settings, histories, transcripts) {
        Some(decided) => words(rt, decided.as_slice()),
        None => text(rt, "Mismatch"),
    }
}

fn text(rt: &(impl Abort + AllocGlobal), text: &str) -> String {
    again!(rt, String::from_str(rt.alloc(), text))
}

fn words(rt: &(impl Abort + AllocGlobal), decisions: &[DecidedTransaction]) -> String {
    let mut text = String::new(rt.alloc());
    for decision in decisions {
        let one = again!(rt, decision_words(rt, decision));
        append(rt, &mut text, &one);
    }
    text
}

/// Appends to a text.
fn append(rt: &impl Abort, text: &mut String, piece: &str) {
    again!(rt, text.reserve(piece.len()));
    assert!(rt; text.push_str(piece).is_ok());
}

/// How many operations were answered, or which one was refused, and how it ended.
fn answer_words(answer: &Result<Answers, Refusal>) -> (usize, &'static str) {
    match answer {
        Ok(answers) => (answers.as_slice().len(), "answered"),
        Err(refusal) => (usize::from(refusal.op), "refused"),
    }
}

fn decision_words(
    rt: &impl AllocGlobal,
    decision: &DecidedTransaction,
) -> Result<String, AllocError> {
    let (t, uid) = (decision.t, decision.caller.uid());
    let asked = decision.ops.as_slice().len();
    let (count, how) = answer_words(&decision.answer);
    format!(in rt.alloc(); "{t} by {uid}: {count} of {asked} {how}. ")
}
