//! What a line of a script asks for.

use run_core::Event;

/// What a line of a script asks for.
#[derive(Drop)]
pub enum Command {
    /// That something happens.
    Event(Event),
    /// So many steps of an agent.
    Steps { agent: u8, count: u64 },
    /// Steps of an agent until it has no job.
    Run { agent: u8 },
    /// The denials that a server keeps.
    Audit { server: u8 },
}
