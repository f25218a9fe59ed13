//! The machine of each suite in a run of servers and agents. There is no code but laws.
//!
//! **Promises.** `machines_follow`: in every run in which agents keep to their side, all that happens may happen on
//! the machine of each suite, and the machine shows the servers. So the laws of `law_suite_machine` hold there.
//! `sides_are_kept`: in every run agents do so, but for what `specs/Owed.antt` names. At a decision, what is known
//! has to be from a quorum, and what is written has to go to enough servers; `law_run_quorums` shows that.
//! `servers_are_consistent`, `agents_are_of_jobs`.
//!
//! **Definitions** (`specs/`): `Deciding`, `Machines`, `Telling`, `Sides`, `Owed`, `Laws`.
#![tactic(auto)]

ghost use Rattle.law_run_machine.specs.Laws.{MachinesFollow, ServersAreConsistent, SidesAreKept, AgentsAreOfJobs};

/// A law: in every run in which agents keep to their side, all that happens to a suite may happen to its machine, and
/// the machine shows the servers. It does nothing.
pub fn machines_follow()
    ensures { MachinesFollow }
{}

/// A law: every server of a run is consistent. It does nothing.
pub fn servers_are_consistent()
    ensures { ServersAreConsistent }
{}

/// A law: in every run agents keep to their side, but for what is in `specs/Owed`. It does nothing.
pub fn sides_are_kept()
    ensures { SidesAreKept }
{}

/// A law: every agent of a run that is not idle is one that began a job when it was idle and was told something since,
/// so that the laws of agents hold of it. It does nothing.
pub fn agents_are_of_jobs()
    ensures { AgentsAreOfJobs }
{}
