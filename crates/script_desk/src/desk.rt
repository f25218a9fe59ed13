//! The desk of a session whose lines are those of a script.

ghost use Rattle.std.specs.Prelude.{◌≡◌, ◌++◌, IfOk, OnErr, OnOk};
ghost use Rattle.line_session.specs.declared.line_kind.LineKind.TheVariants.{Faulty};
ghost use Rattle.script_desk.specs.Doing.{kind_in, leaves_of, said, ways_of};
ghost use Rattle.script_desk.specs.Outcomes.{CarriesOut, Judges};
ghost use Rattle.suite_script.specs.Faults.{fault_line};
ghost use Rattle.suite_script.specs.Scripts.{is_skipped};

use crate::service::ScriptService;
use acl_text::Names;
use line_session::{Desk, LineKind};
use script_text::Words;
use std::alloc::{AllocError, Global};
use suite_script::{LineError, LineFault, ScriptFault, fault_text, judge_name, read_name};

/// The names that are known, and what the lines are carried out on.
#[derive(Drop)]
pub struct ScriptDesk<S> {
    pub names: Names,
    pub service: S,
}

/// Whether a line says nothing: an empty one, or a comment.
fn is_skipped(line: &[u8]) -> bool
    ensures { result ≡ is_skipped line.now }
{
    matches!(line, [] | [b'#', ..])
}

/// Tells a faulty line, and that it is one.
fn tell_fault(
    alloc: Global,
    line: u64,
    fault: LineFault,
    told: &mut Vec<u8>,
) -> Result<LineKind, AllocError>
    ensures kind { IfOk result (λ kind. kind ≡ Faulty) }
    ensures told { OnOk result (told.new.items ≡ told.old.items ++ fault_line (record { line = line; fault = fault })) }
{
    let text = fault_text(alloc, ScriptFault { line, fault })?;
    told.extend_from_slice(&text)?;
    Ok(LineKind::Faulty)
}

impl<S: ScriptService> ScriptDesk<S> {
    /// Carries out a line that says something, and says what it was.
    fn carry_out(
        &mut self,
        alloc: Global,
        mut words: Words<'_>,
        text: &mut Vec<u8>,
    ) -> Result<LineKind, LineError>
        ensures { let ways = ways_of S.is_known S.begins S.own S.heads S.head S.asks S.told S.line S.after S.settled in
            CarriesOut (leaves_of ways S.Stops self.old words.entry) result self.old self.new text.old.items text.new.items (said ways self.old words.entry) }
    {
        let Some(first) = words.next() else {
            return Err(LineError::Faulty(LineFault::Form));
        };
        if self.service.heads(first) {
            self.service.head(alloc, first, words)?;
            return Ok(LineKind::Kept);
        }
        if S::asks(first) {
            self.service.tell(alloc, first, words, text)?;
            return Ok(LineKind::Passing);
        }
        if S::begins(first) {
            let own = self.service.read(alloc, &self.names, first, words)?;
            self.service.play(alloc, &own, text)?;
            return Ok(LineKind::Kept);
        }
        read_name::<S>(false, &mut self.names, first, &mut words)?;
        self.service.settle();
        Ok(LineKind::Kept)
    }

    /// Says what a line is that says something.
    fn kind_of(&self, alloc: Global, mut words: Words<'_>) -> Result<LineKind, LineError>
        ensures { let ways = ways_of S.is_known S.begins S.own S.heads S.head S.asks S.told S.line S.after S.settled in
            Judges result (said ways self.now words.entry) }
    {
        let Some(first) = words.next() else {
            return Err(LineError::Faulty(LineFault::Form));
        };
        if self.service.heads(first) {
            self.service.judge_head(alloc, first, words)?;
            return Ok(LineKind::Kept);
        }
        if S::asks(first) {
            self.service
                .tell(alloc, first, words, &mut Vec::new(alloc))?;
            return Ok(LineKind::Passing);
        }
        if S::begins(first) {
            let _own = self.service.read(alloc, &self.names, first, words)?;
            return Ok(LineKind::Kept);
        }
        judge_name::<S>(&self.names, first, &mut words)?;
        Ok(LineKind::Kept)
    }
}

impl<S: ScriptService> Desk for ScriptDesk<S> {
    ghost use Rattle.script_desk.specs.Doing.{after_line, kind_of_line, leaves_in, quiet_line, text_of, ways_of};

    ghost kind = { kind_of_line (ways_of S.is_known S.begins S.own S.heads S.head S.asks S.told S.line S.after S.settled) };

    ghost text = { text_of (ways_of S.is_known S.begins S.own S.heads S.head S.asks S.told S.line S.after S.settled) };

    ghost next = { after_line (ways_of S.is_known S.begins S.own S.heads S.head S.asks S.told S.line S.after S.settled) };

    ghost Leaves = { leaves_in (ways_of S.is_known S.begins S.own S.heads S.head S.asks S.told S.line S.after S.settled) S.Stops };

    ghost quiet = { quiet_line (ways_of S.is_known S.begins S.own S.heads S.head S.asks S.told S.line S.after S.settled) };

    fn judge(&self, alloc: Global, line: &[u8]) -> Result<LineKind, AllocError> {
        if is_skipped(line) {
            return Ok(LineKind::Passing);
        }
        match self.kind_of(alloc, Words::new(line)) {
            Ok(kind) => Ok(kind),
            Err(LineError::Faulty(_fault)) => Ok(LineKind::Faulty),
            Err(LineError::Memory) => Err(AllocError),
        }
    }

    fn answer(
        &mut self,
        alloc: Global,
        number: u64,
        line: &[u8],
        told: &mut Vec<u8>,
    ) -> Result<LineKind, AllocError> {
        if is_skipped(line) {
            return Ok(LineKind::Passing);
        }
        match self.carry_out(alloc, Words::new(line), told) {
            Ok(kind) => Ok(kind),
            Err(LineError::Faulty(fault)) => tell_fault(alloc, number, fault, told),
            Err(LineError::Memory) => Err(AllocError),
        }
    }
}
