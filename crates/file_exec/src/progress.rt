//! How far a transaction came on what was known.

ghost use Rattle.std.specs.Prelude.{◌≡◌, IfOk};
ghost use Rattle.file_ops.specs.Operations.{last_name};
ghost use Rattle.file_exec.specs.Reaching.{unbegun, folders_in, walked};
ghost use Rattle.file_exec.specs.code.Ways.{reached_of, only_reads, point_after};

use crate::copying::copied_items;
use crate::edit_log::EditLog;
use file_ops::{Action, Answer, Op, ROOT, last_name};
use std::alloc::{AllocError, Global};
use std::marker::Model;
use std::mem;
use suite_content::Name;

/// How far the walk of an operation came: to this suite, by so many names.
#[derive(Clone, Copy)]
pub(crate) struct WalkPoint {
    pub(crate) suite: u64,
    pub(crate) depth: usize,
}

impl WalkPoint {
    /// Nothing was walked yet.
    pub(crate) fn new() -> WalkPoint
        ensures suite { result.suite ≡ 0 }
        ensures depth { result.depth ≡ 0 }
    {
        WalkPoint {
            suite: ROOT,
            depth: 0,
        }
    }

    /// Where the walk of the next operation begins, after an operation whose walk came so far. One that sets
    /// nothing leaves its walk to the next one, if that walks along the same names.
    pub(crate) fn after(self, op: &Op, later: &[Op]) -> WalkPoint
        ensures { result ≡ point_after self op.now later.now }
    {
        match later.first() {
            Some(next) if only_reads(&op.action) && walked(op) == walked(next) => self,
            _ => WalkPoint::new(),
        }
    }
}

/// Whether it sets nothing.
fn only_reads(action: &Action) -> bool
    ensures { result ≡ only_reads action.now }
{
    matches!(
        action,
        Action::Read | Action::List | Action::GetAcl | Action::GetVotes
    )
}

/// The names that an operation walks along: where a name is made or dropped, those of the folder.
fn walked(op: &Op) -> &[Name]
    ensures { result.now ≡ walked op.now }
{
    let Some(names) = op.path.names() else {
        return &[];
    };
    match op.action {
        Action::Make(_, _, _) | Action::Drop => folders_in(names),
        _ => names,
    }
}

/// The names before the last one; `/` has none.
fn folders_in(names: &[Name]) -> &[Name]
    ensures { result.now ≡ folders_in (last_name names.now) }
{
    match last_name(names) {
        Ok((_, folders)) => folders,
        Err(_) => &[],
    }
}

/// The operations before a place were done, with these answers and these edits; and how far the walk of the
/// next one came.
#[derive(Drop)]
pub(crate) struct Stage {
    pub(crate) at: u8,
    pub(crate) answers: Vec<Answer>,
    pub(crate) log: EditLog,
    pub(crate) point: WalkPoint,
}

impl Stage {
    /// Nothing was done yet.
    pub(crate) fn new(alloc: Global) -> Stage
        ensures { reached_of result ≡ unbegun }
    {
        Stage {
            at: 0,
            answers: Vec::new(alloc),
            log: EditLog::new(alloc),
            point: WalkPoint::new(),
        }
    }

    /// The same.
    fn copy(&self) -> Result<Stage, AllocError>
        ensures { IfOk result (λ copy. reached_of copy ≡ reached_of self.now) }
    {
        let alloc = self.alloc();
        let answers = copied_items(alloc, &self.answers)?;
        let log = self.log.copy(alloc)?;
        Ok(Stage {
            at: self.at,
            answers,
            log,
            point: self.point,
        })
    }

    /// Where its memory is from.
    pub(crate) fn alloc(&self) -> Global {
        *self.answers.allocator()
    }
}

/// How far a transaction came on what was known. It can go on from there once more is known: see
/// [`exec`](crate::exec).
#[derive(Drop)]
pub struct Progress {
    pub(crate) stage: Stage,
}

impl Model for Progress {
    ghost use Rattle.file_exec.specs.Reaching.{Reached};
    ghost use Rattle.file_exec.specs.code.Ways.{reached_of};

    ghost Value = { Reached };

    ghost view = { λ progress. reached_of progress.stage };
}

impl Progress {
    /// Nothing was done yet.
    pub fn new(alloc: Global) -> Progress
        ensures { result ≡ unbegun }
    {
        Progress {
            stage: Stage::new(alloc),
        }
    }

    /// As far as it came.
    pub fn copy(&self) -> Result<Progress, AllocError>
        ensures { IfOk result (λ copy. copy ≡ self.now) }
    {
        let stage = self.stage.copy()?;
        Ok(Progress { stage })
    }

    /// How far it came. Nothing is kept.
    pub(crate) fn take(&mut self) -> Stage
        ensures taken { reached_of result ≡ self.old }
        ensures left { self.new ≡ unbegun }
    {
        let alloc = self.stage.alloc();
        mem::replace(&mut self.stage, Stage::new(alloc))
    }
}
