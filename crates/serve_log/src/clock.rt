//! Numbers, drawn one above the other: when jobs are called, and when all is done of which they are told.

ghost use Rattle.std.specs.Prelude.{◌≡◌, IfOk};
ghost use Rattle.std.specs.Vec.{vec_len};

use job_history::Span;
use server_lock::Gate;
use std::alloc::{AllocError, Global};
use std::sync::atomic::{AtomicU64, Ordering};

/// One counter, of which all threads draw, and the numbers that were drawn for each job: the one when its agent began it, and
/// the last that its agent drew once a server had served it.
#[derive(Drop)]
pub(crate) struct Clock {
    next: AtomicU64,
    /// At each agent's number, which job it does.
    doing: Vec<AtomicU64>,
    called: Vec<AtomicU64>,
    told: Vec<AtomicU64>,
}

impl Clock {
    /// A clock for so many agents and jobs.
    pub(crate) fn new(alloc: Global, agents: usize, jobs: usize) -> Result<Clock, AllocError>
        ensures { IfOk result (λ clock. vec_len clock.called ≡ jobs) }
    {
        Ok(Clock {
            next: AtomicU64::new(0),
            doing: cells(alloc, agents)?,
            called: cells(alloc, jobs)?,
            told: cells(alloc, jobs)?,
        })
    }

    /// What was drawn for each job.
    pub(crate) fn spans(&self, alloc: Global) -> Result<Vec<Span>, AllocError>
        ensures { IfOk result (λ spans. vec_len spans ≡ vec_len self.now.called) }
    {
        let mut spans = Vec::new(alloc);
        for job in 0..self.called.len() {
            spans.push(Span {
                called: kept(&self.called, job),
                told: kept(&self.told, job),
            })?;
        }
        Ok(spans)
    }

    /// The next number.
    fn draw(&self) -> u64 {
        self.next.fetch_add(1, Ordering::SeqCst)
    }
}

impl Gate for Clock {
    fn begun(&self, agent: u8, job: u64) {
        keep(&self.doing, usize::from(agent), job);
        keep(&self.called, job as usize, self.draw());
    }

    fn inside(&self, _server: u8, _agent: Option<u8>) {}

    fn after(&self, _server: u8, agent: Option<u8>) {
        if let Some(agent) = agent {
            let job = kept(&self.doing, usize::from(agent));
            keep(&self.told, job as usize, self.draw());
        }
    }
}

/// So many cells, each with 0.
fn cells(alloc: Global, count: usize) -> Result<Vec<AtomicU64>, AllocError>
    ensures { IfOk result (λ cells. vec_len cells ≡ count) }
{
    let mut cells = Vec::new(alloc);
    for _cell in 0..count {
        cells.push(AtomicU64::new(0))?;
    }
    Ok(cells)
}

/// What a cell has, where there is such a cell.
fn kept(cells: &[AtomicU64], place: usize) -> u64 {
    match cells.get(place) {
        Some(cell) => cell.load(Ordering::SeqCst),
        None => 0,
    }
}

/// Puts a number into a cell, where there is such a cell.
fn keep(cells: &[AtomicU64], place: usize, number: u64) {
    if let Some(cell) = cells.get(place) {
        cell.store(number, Ordering::SeqCst);
    }
}
