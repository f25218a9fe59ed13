//! What comes of a reply.

use crate::told::Told;

/// What comes of a reply to what a collector asked.
#[derive(Drop)]
pub enum Hearing {
    /// It does not answer what was asked: a lock is lost, or the server of a lock is down.
    Lost,
    /// It was told, and another server is to be asked.
    Asks,
    /// It was told, and nobody is left to ask.
    Short,
    /// With this there is a quorum. It is not told yet.
    Quorum(Told),
}
