//! Every run is that of one table. There is no code but laws, of runs in which agents keep to their side;
//! `law_headline` shows that all do.
//!
//! **Promises.** Each row of the table of the run so far is what its suite's register holds
//! (`rows_are_the_registers`). Only a step that decides changes either side. What the agent then knows agrees with
//! the table (`agents_know_the_table`), so its answer is the table's (`answers_are_one_tables`). Rows have
//! versions, at which they are in effect in each quorum of their votes (`rows_have_versions`). The law says that
//! there are such versions, and not how they are counted. `audit_is_one_tables`, `owed_is_enough`.
//!
//! **Definitions** (`specs/`): `Tables`, `Effects`, `Versions`.
#![tactic(auto)]

ghost use Rattle.law_one_table.specs.Tables.{RowsAreTheRegisters, AgentsKnowTheTable, AnswersAreOneTables, AuditIsOneTables, OwedIsEnough};
ghost use Rattle.law_one_table.specs.Versions.{RowsHaveVersions};

/// A law: where agents keep to their side, each row of the table of a run is what the register of its suite holds. It
/// does nothing.
pub fn rows_are_the_registers()
    ensures { RowsAreTheRegisters }
{}

/// A law: where agents keep to their side, what an agent knows when its transaction is decided is so in the table of the
/// run so far. It does nothing.
pub fn agents_know_the_table()
    ensures { AgentsKnowTheTable }
{}

/// A law: where agents keep to their side, every run is answered as one table answers it that takes the decided
/// transactions one at a time, in the order of their decisions. It does nothing.
pub fn answers_are_one_tables()
    ensures { AnswersAreOneTables }
{}

/// A law: where agents keep to their side, the rows of a run's table have versions that rise as they change, at which
/// they are in effect in every read and every write quorum of their votes; every quorum of replaced votes has a newer
/// prefix in effect; and every copy in effect and every entry of a cache was the table's. It does nothing.
pub fn rows_have_versions()
    ensures { RowsHaveVersions }
{}

/// A law: where agents keep to their side, the audit of the one table is the denials of all decisions, in their order. It
/// does nothing.
pub fn audit_is_one_tables()
    ensures { AuditIsOneTables }
{}

/// A law: what is owed of agents is enough for them to keep to their side. It does nothing.
pub fn owed_is_enough()
    ensures { OwedIsEnough }
{}
