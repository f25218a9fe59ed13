//! On which quorums transactions know and decide. There is no code but laws, of runs in which agents keep to their
//! side.
//!
//! **Promises.** A collector holds what the machine of its suite told, server by server (`collectors_agree`). So
//! what is known is from a quorum (`knows_from_a_quorum`), and what is written goes to write quorums of the votes
//! before and after (`writes_to_quorums`). That is what `law_run_machine` leaves owed. The premises are shown in
//! `law_headline`.
//!
//! **Definitions** (`specs/`): `Telling`, `Firsts`, `Fairness`, `Laws`.
#![tactic(auto)]

ghost use Rattle.law_run_quorums.specs.Laws.{KnowsFromAQuorum, WritesToQuorums, CollectorsAgree};

/// A law: where a collector holds what the machine of its suite told, what is known by its first Current is known from a
/// quorum, and some server told of the version. It does nothing.
pub fn knows_from_a_quorum()
    ensures { KnowsFromAQuorum }
{}

/// A law: and what is written to the suite is written to quorums, at each server that is held exclusively. It does nothing.
pub fn writes_to_quorums()
    ensures { WritesToQuorums }
{}

/// A law: in every run in which agents give what they owe, each collector holds what the machine of its suite told: at
/// which server, in which mode, which prefix and which version. It does nothing.
pub fn collectors_agree()
    ensures { CollectorsAgree }
{}
