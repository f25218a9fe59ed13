//! What a line of a script asks for.

use txn_core::Job;

/// What a line of a script asks for.
#[derive(Drop)]
pub(crate) enum Command {
    /// A job.
    Job(Job),
    /// That all jobs below it are done by all agents at once.
    Together,
}
