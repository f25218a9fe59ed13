//! Histories as text.

ghost use Rattle.std.specs.Prelude.{◌≡◌, ◌+◌, ◌<◌, ◌≤◌, ◌^◌, ◌++◌, ◌∷◌, [], IfOk, OnOk, is_some, length, slice_get};
ghost use Rattle.std.specs.Ordering.{nat_cmp};
ghost use Rattle.sorted_map.specs.SortedMap.{get};
ghost use Rattle.suite_history.specs.Histories.{called, heard_from, history_in, line_on, made_on, nothing, said_on, told, told_at};
ghost use Rattle.suite_history.specs.code.Readings.{GivesHeard, GivesHistory, Hears, heard_in};
ghost use Rattle.suite_script.specs.Scripts.{is_skipped};

use crate::line::{HistoryLines, Said, read_line};
use acl_core::Caller;
use history_judge::{Call, CallReply, CallRequest, Seen};
use script_text::Lines;
use sorted_map::SortedMap;
use std::alloc::{AllocError, Global};
use suite_script::{LineError, LineFault, Root, ScriptError, ScriptReader, read_root};

/// A history: what its root folder is, and its calls, in the order in which they were made.
#[derive(Drop)]
pub struct CallHistory {
    pub root: Root,
    pub calls: Vec<Call>,
}

/// What some lines say: whether `root` stood among them, the calls, and which of them were told nothing yet, by their
/// clients' names.
#[derive(Drop)]
pub(crate) struct Hearing {
    is_rooted: bool,
    calls: Vec<Call>,
    waiting: SortedMap<u64, usize>,
}

/// Reads a history whole: what it says, or its first faulty line.
pub fn read_history(alloc: Global, text: &[u8]) -> Result<CallHistory, ScriptError>
    requires { length text.now < 2 ^ 60 }
    ensures history { GivesHistory result (history_in text.now) }
    ensures few { IfOk result (λ history. length history.calls.items ≤ length text.now) }
{
    let mut script = ScriptReader::new(alloc, text);
    let root = read_root::<HistoryLines>(alloc, &mut script)?;
    let hearing = hear_all(alloc, Lines::new(text))?;
    Ok(CallHistory {
        root,
        calls: hearing.calls,
    })
}

/// What all lines say.
fn hear_all(alloc: Global, mut lines: Lines<'_>) -> Result<Hearing, ScriptError>
    requires { length lines < 2 ^ 60 }
    ensures heard { GivesHeard result (heard_from nothing 1 lines.entry) }
    ensures few { IfOk result (λ hearing. length hearing.calls.items ≤ length lines.entry) }
{
    let mut hearing = Hearing::new(alloc);
    let mut number = 1u64;
    while let Some(line) = lines.next() {
        hearing
            .hear_line(alloc, number, line)
            .map_err(|error| error.at(number))?;
        number += 1;
    }
    Ok(hearing)
}

/// Whether a line says nothing: an empty one, or a comment.
fn is_skipped(line: &[u8]) -> bool
    ensures { result ≡ is_skipped line.now }
{
    matches!(line, [] | [b'#', ..])
}

impl Hearing {
    /// No lines.
    fn new(alloc: Global) -> Hearing
        ensures { heard_in result ≡ nothing }
    {
        Hearing {
            is_rooted: false,
            calls: Vec::new(alloc),
            waiting: SortedMap::new(alloc),
        }
    }

    /// One line more, which has this number.
    fn hear_line(&mut self, alloc: Global, number: u64, line: &[u8]) -> Result<(), LineError>
        ensures heard { Hears result self.new (line_on (heard_in self.old) number line.now) }
        ensures few { OnOk result (length self.new.calls.items ≤ length self.old.calls.items + 1) }
    {
        if is_skipped(line) {
            return Ok(());
        }
        let said = read_line(alloc, line)?;
        self.hear(number, said)
    }

    /// What a line says.
    fn hear(&mut self, number: u64, said: Said) -> Result<(), LineError>
        ensures heard { Hears result self.new (said_on (heard_in self.old) number said) }
        ensures few { OnOk result (length self.new.calls.items ≤ length self.old.calls.items + 1) }
    {
        match said {
            Said::Root if self.is_rooted => Err(LineError::Faulty(LineFault::Order)),
            Said::Root => {
                self.is_rooted = true;
                Ok(())
            }
            Said::Do(caller, asked) => {
                let seen = Seen::SomeAnswers;
                let told = Some(CallReply { at: number, seen });
                Ok(self.push(number, caller, asked, told)?)
            }
            Said::Call(name, caller, asked) => self.call(number, name, caller, asked),
            Said::Ret(name, seen) => self.ret(number, name, seen),
        }
    }

    /// One call more.
    fn push(
        &mut self,
        number: u64,
        caller: Caller,
        asked: CallRequest,
        told: Option<CallReply>,
    ) -> Result<(), AllocError>
        ensures calls { OnOk result (self.new.calls.items ≡ self.old.calls.items ++ made_on number caller asked told ∷ []) }
        ensures rooted { self.new.is_rooted ≡ self.old.is_rooted }
        ensures waiting { self.new.waiting ≡ self.old.waiting }
    {
        self.calls.push(Call {
            caller,
            asked,
            called: number,
            told,
        })?;
        Ok(())
    }

    /// A call, whose name is that of no call that was told nothing yet.
    fn call(
        &mut self,
        number: u64,
        name: u64,
        caller: Caller,
        asked: CallRequest,
    ) -> Result<(), LineError>
        ensures heard { Hears result self.new (called (heard_in self.old) number name caller asked (is_some (get nat_cmp self.old.waiting name))) }
        ensures few { OnOk result (length self.new.calls.items ≤ length self.old.calls.items + 1) }
    {
        if self.waiting.contains_key(&name) {
            return Err(LineError::Faulty(LineFault::Order));
        }
        self.waiting.insert(name, self.calls.len())?;
        Ok(self.push(number, caller, asked, None)?)
    }

    /// What the call of a name was told.
    fn ret(&mut self, number: u64, name: u64, seen: Seen) -> Result<(), LineError>
        ensures heard { Hears result self.new (told (heard_in self.old) number name seen (get nat_cmp self.old.waiting name)) }
        ensures few { OnOk result (length self.new.calls.items ≤ length self.old.calls.items + 1) }
    {
        match self.waiting.remove(&name) {
            None => Err(LineError::Faulty(LineFault::Order)),
            Some(place) => {
                tell(&mut self.calls, place, CallReply { at: number, seen });
                Ok(())
            }
        }
    }
}

/// The call at a place was told this.
fn tell(calls: &mut Vec<Call>, place: usize, told: CallReply)
    ensures { calls.new.items ≡ told_at calls.old.items place told (slice_get calls.old.items place) }
{
    if let Some(call) = calls.get_mut(place) {
        call.told = Some(told);
    }
}
