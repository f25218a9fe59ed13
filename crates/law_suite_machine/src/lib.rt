//! One suite at servers whose votes may change: why it is one plain register. There are no agents and no messages
//! here, and no code but laws.
//!
//! **What it stands on**, in reading order (`specs/`). `Registers` is what is promised: a row (prefix and content
//! with their versions), and a log of decided transactions, which read and write it one at a time. `Machine` is
//! what there is: at each server a stored copy, locks, at most one intention; and of each transaction what it was
//! told, prepared and recorded. The copy in effect at a server is the stored one, or the intention there once its
//! transaction is recorded as answered. `Events` are what happens, and `Conditions` say when it may; `Laws` has the
//! laws, and `Licences` those of what comes late.
//!
//! **Promises**, of every list of events that keeps the conditions: `is_one_register`, `every_copy_was`,
//! `replaced_is_superseded`, `quorums_show_the_row`, `decided_once`, `locks_hold_copies`, `locks_stand`,
//! `what_was_stays`; of what comes late `decisions_wait`, `licences_stay`. In `some_run_obeys` all say something.
//! Servers and agents are shown to keep the conditions (`law_server_moves`, `law_run_machine`), so nobody has to
//! believe this crate for itself.
//!
//! Four facts carry it.
//! 1. Quorums meet in a vote: a read and a write quorum of the same votes, and two write quorums.
//! 2. A lock that is gone never comes back, since a transaction asks a server once for a lock on a suite. So where
//! its lock stands at Prepare, the copy that it was told is still the stored one.
//! 3. A verdict takes effect at once everywhere. The copy in effect changes at the record alone.
//! 4. A replaced prefix is superseded in each of its quorums, since a change of votes is decided by write quorums
//! of the old votes and of the new.
//!
//! So the newest prefix that a transaction was told is the current one. Were it replaced, its quorum would hold a
//! server that shows a newer one (4), which it was told (2). Then its quorum shows the current content (1).
#![tactic(auto)]

ghost use Rattle.law_suite_machine.specs.Laws.{OneRegister, EveryCopyWas, AlwaysSuperseded, AlwaysCurrent, AlwaysOnce, LocksAlwaysHold, LocksAlwaysStand, WhatWasStays, SomeRunObeys};
ghost use Rattle.law_suite_machine.specs.Licences.{DecisionsWait, LicencesStay};

/// A law: the decided transactions are those of one plain register. What each knew is what the register held, and
/// each write made its next row. It does nothing.
pub fn is_one_register()
    ensures { OneRegister }
{}

/// A law: of every copy that is stored, in effect, or was told, the register had the prefix and the content, each at
/// its version. It does nothing.
pub fn every_copy_was()
    ensures { EveryCopyWas }
{}

/// A law: each read and each write quorum under a replaced prefix shows a newer one. It does nothing.
pub fn replaced_is_superseded()
    ensures { AlwaysSuperseded }
{}

/// A law: each read and each write quorum of the current votes shows the current prefix, and the current content at
/// its version. It does nothing.
pub fn quorums_show_the_row()
    ensures { AlwaysCurrent }
{}

/// A law: no transaction is decided twice, or once it gave up. It does nothing.
pub fn decided_once()
    ensures { AlwaysOnce }
{}

/// A law: while a transaction's lock stands, the copy there is the one that it was told. It does nothing.
pub fn locks_hold_copies()
    ensures { LocksAlwaysHold }
{}

/// A law: exclusive stands alone; and at a decision every lock that the transaction was told of has stood unbroken
/// since then, prepared, on the copy that it was told. It does nothing.
pub fn locks_stand()
    ensures { LocksAlwaysStand }
{}

/// A law: what was the register's, what was recorded, and who gave up, stays so whatever happens later. It does
/// nothing.
pub fn what_was_stays()
    ensures { WhatWasStays }
{}

/// A law: a verdict that may be recorded may be recorded later, whatever others do meanwhile, where nothing is recorded
/// of its transaction and this does nothing of its own. It does nothing.
pub fn decisions_wait()
    ensures { DecisionsWait }
{}

/// A law: a Finish may come late, what a transaction fixed stays fixed, and of a lock it was told of one copy. It does
/// nothing.
pub fn licences_stay()
    ensures { LicencesStay }
{}

/// A law: there is a run in which votes change, a lock is lost in a crash, a transaction is overruled and a copy is
/// stale, so that the laws above say something. It does nothing.
pub fn some_run_obeys()
    ensures { SomeRunObeys }
{}
