//! What the moves of a transaction come to.

ghost use Rattle.law_protocol.specs.Protocol.{MovesAreTheProtocol};

/// A law: moves lead from where a transaction stands, and with a word that it is told, to the step that the agent
/// function takes, and to no other. It does nothing.
pub fn moves_are_the_protocol()
    ensures { MovesAreTheProtocol }
{}
