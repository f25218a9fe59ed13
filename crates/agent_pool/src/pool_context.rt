//! What agents work with.

use crate::line::Receiver;
use run_certify::KeptJob;
use server_lock::{Gate, Servers};
use std::alloc::Global;

/// A job, with its number.
#[derive(Drop)]
pub struct NamedJob {
    pub number: u64,
    pub job: KeptJob,
}

/// What all threads of a pool work with: memory, the gate, the servers, the jobs that were handed in, and the channel
/// through which these go.
#[derive(Drop)]
pub(crate) struct PoolContext<'a, G: Gate> {
    pub(crate) alloc: Global,
    pub(crate) gate: &'a G,
    pub(crate) servers: &'a Servers,
    pub(crate) jobs: &'a [NamedJob],
    pub(crate) receiver: &'a Receiver,
}
