//! The history of jobs.

ghost use Rattle.std.specs.Prelude.{◌≡◌, ◌++◌, IfOk, OnOk, true};
ghost use Rattle.job_history.specs.Events.{are_right};
ghost use Rattle.job_history.specs.Histories.{IsHistory, event_line, line_of, lines_of, said_text};

use crate::call::{CallText, Calls};
use crate::event::{HistoryEvent, Span, ordered_events};
use crate::told::{is_judged, push_told};
use script_text::push_number;
use std::alloc::{AllocError, Global};
use txn_core::Ending;

/// The history of jobs that asked for this, were called and told in these spans, and ended so, each at its place.
pub fn history_of(
    alloc: Global,
    calls: &Calls,
    endings: &[Ending],
    spans: &[Span],
) -> Result<Vec<u8>, AllocError>
    requires { are_right spans.now ≡ true }
    ensures { IfOk result (λ text. IsHistory calls.now endings.now spans.now text.items) }
{
    let events = ordered_events(alloc, spans)?;
    let mut text = Vec::from_slice(alloc, calls.opening())?;
    push_lines(alloc, &mut text, calls.texts(), endings, &events)?;
    Ok(text)
}

/// The lines of these events.
fn push_lines(
    alloc: Global,
    text: &mut Vec<u8>,
    calls: &[CallText],
    endings: &[Ending],
    events: &[HistoryEvent],
) -> Result<(), AllocError>
    ensures { OnOk result (text.new.items ≡ text.old.items ++ lines_of calls.now endings.now events.now) }
{
    for event in events {
        push_line(alloc, text, calls, endings, *event)?;
    }
    Ok(())
}

/// The line of an event, where its job is one of these.
fn push_line(
    alloc: Global,
    text: &mut Vec<u8>,
    calls: &[CallText],
    endings: &[Ending],
    event: HistoryEvent,
) -> Result<(), AllocError>
    ensures { OnOk result (text.new.items ≡ text.old.items ++ line_of calls.now endings.now event) }
{
    match (calls.get(event.job), endings.get(event.job)) {
        (Some(call), Some(ending)) => push_event(alloc, text, call, ending, event),
        _ => Ok(()),
    }
}

/// The line of an event of a job that asked for this, and ended so: a comment where a history's table cannot have told it.
fn push_event(
    alloc: Global,
    text: &mut Vec<u8>,
    call: &CallText,
    ending: &Ending,
    event: HistoryEvent,
) -> Result<(), AllocError>
    ensures { OnOk result (text.new.items ≡ text.old.items ++ event_line event call.now ending.now) }
{
    if !is_judged(ending) {
        text.extend_from_slice(b"# ")?;
    }
    push_said(alloc, text, call, ending, event)?;
    text.extend_from_slice(b"\n")
}

/// What is said of a job.
fn push_said(
    alloc: Global,
    text: &mut Vec<u8>,
    call: &CallText,
    ending: &Ending,
    event: HistoryEvent,
) -> Result<(), AllocError>
    ensures { OnOk result (text.new.items ≡ text.old.items ++ said_text event call.now ending.now) }
{
    if event.is_end {
        text.extend_from_slice(b"ret ")?;
        push_number(text, event.job as u64)?;
        text.extend_from_slice(b" ")?;
        return push_told(alloc, text, ending);
    }
    text.extend_from_slice(b"call ")?;
    push_number(text, event.job as u64)?;
    text.extend_from_slice(b" ")?;
    text.extend_from_slice(call.as_bytes())
}
