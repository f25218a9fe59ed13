//! What is printed of a history, and the exit status.

ghost use Rattle.std.specs.Prelude.{◌≡◌, ◌++◌, ◌<◌, ◌^◌, IfOk, OnOk, length, slice_get, true};
ghost use Rattle.std.specs.Option.{option_copied};
ghost use Rattle.suite_history.specs.Shown.{IsJudged, Shows, call_text, no_text, order_text, settings_of, shown_in, shown_of, yes_text};

use crate::history::read_history;
use byte_streams::DONE;
use file_ops::Table;
use history_judge::{Call, Judgement, judge};
use script_text::push_number;
use std::alloc::{AllocError, Global};
use suite_prefix::Settings;
use suite_script::{Root, ScriptError};
use vote_core::{MAX_SERVERS, ServerSet, Votes};

/// The exit status where there is no order.
pub const NO_ORDER: u8 = 1;

/// What is printed, and the exit status.
#[derive(Drop)]
pub struct Printed {
    pub text: Vec<u8>,
    pub status: u8,
}

/// Judges a history: shows whether one plain table has it, with the lines of its calls in an order where these are asked
/// for; or the first faulty line.
pub fn judge_text(alloc: Global, text: &[u8], tells_order: bool) -> Result<Printed, ScriptError>
    requires { length text.now < 2 ^ 60 }
    ensures { Shows text.now tells_order result }
{
    let history = read_history(alloc, text)?;
    let opening = Table::opening(alloc, &settings_of(history.root))?;
    let answer = judge_calls(alloc, tells_order, &opening, &history.calls)?;
    Ok(answer)
}

/// Judges the calls of a history.
fn judge_calls(
    alloc: Global,
    tells_order: bool,
    opening: &Table,
    calls: &[Call],
) -> Result<Printed, AllocError>
    requires { length calls.now < 2 ^ 60 }
    ensures { IfOk result (λ answer. IsJudged tells_order opening.now calls.now (shown_in answer)) }
{
    let verdict = judge(alloc, opening, calls)?;
    let answer = show(alloc, tells_order, calls, &verdict)?;
    Ok(answer)
}

/// What a history's table opens with.
fn settings_of(root: Root) -> Settings
    ensures { result ≡ settings_of root }
{
    let c0 = Votes::new(MAX_SERVERS, &[(0, 1)], 1, 1).unwrap();
    Settings::new(
        MAX_SERVERS,
        1,
        c0,
        root.owner,
        root.group,
        root.acl,
        0,
        0,
        0,
        ServerSet::empty(),
    )
    .unwrap()
}

/// Shows a verdict.
fn show(
    alloc: Global,
    tells_order: bool,
    calls: &[Call],
    verdict: &Judgement,
) -> Result<Printed, AllocError>
    ensures { IfOk result (λ answer. shown_in answer ≡ shown_of tells_order calls.now verdict.now) }
{
    let mut text = Vec::new(alloc);
    match verdict {
        Judgement::Order(order) => {
            push_yes(&mut text, calls.len())?;
            push_order_if(&mut text, tells_order, calls, order.as_slice())?;
            Ok(Printed { text, status: DONE })
        }
        Judgement::NoOrder(line) => {
            push_no(&mut text, *line)?;
            Ok(Printed {
                text,
                status: NO_ORDER,
            })
        }
    }
}

fn push_yes(text: &mut Vec<u8>, calls: usize) -> Result<(), AllocError>
    ensures { OnOk result (text.new.items ≡ text.old.items ++ yes_text calls) }
{
    text.extend_from_slice(b"one table: ")?;
    push_number(text, calls as u64)?;
    text.extend_from_slice(b" calls\n")
}

fn push_no(text: &mut Vec<u8>, line: u64) -> Result<(), AllocError>
    ensures { OnOk result (text.new.items ≡ text.old.items ++ no_text line) }
{
    text.extend_from_slice(b"no: line ")?;
    push_number(text, line)?;
    text.extend_from_slice(b" fits no")?;
    text.extend_from_slice(b" order")?;
    text.extend_from_slice(b"\n")
}

/// The lines of the calls in an order, where they are asked for.
fn push_order_if(
    text: &mut Vec<u8>,
    tells_order: bool,
    calls: &[Call],
    order: &[usize],
) -> Result<(), AllocError>
    ensures { OnOk result (text.new.items ≡ text.old.items ++ order_text tells_order calls.now order.now) }
{
    if tells_order {
        push_order(text, calls, order)
    } else {
        Ok(())
    }
}

fn push_order(text: &mut Vec<u8>, calls: &[Call], order: &[usize]) -> Result<(), AllocError>
    ensures { OnOk result (text.new.items ≡ text.old.items ++ order_text true calls.now order.now) }
{
    for number in order {
        push_numbered(text, calls, *number)?;
    }
    Ok(())
}

/// The call of a number as the line on which it was made.
fn push_numbered(text: &mut Vec<u8>, calls: &[Call], number: usize) -> Result<(), AllocError>
    ensures { OnOk result (text.new.items ≡ text.old.items ++ call_text (slice_get calls.now number)) }
{
    push_call(text, calls.get(number))
}

/// A call as the number of the line on which it was made.
fn push_call(text: &mut Vec<u8>, call: Option<&Call>) -> Result<(), AllocError>
    ensures { OnOk result (text.new.items ≡ text.old.items ++ call_text (option_copied call.entry)) }
{
    match call {
        Some(call) => {
            push_number(text, call.called)?;
            text.extend_from_slice(b"\n")
        }
        None => Ok(()),
    }
}
