//! What holds of every run.

ghost use Rattle.law_runs.specs.Claims.{DecidedOnce, DecisionsAreTheRecords, AuditIsTheDenials, AnsweredBefore, ChangesAreMet};
ghost use Rattle.law_runs.specs.Numbers.{EachIsBegunOnce, AgentsAskForThemselves};
ghost use Rattle.law_runs.specs.Answers.{AnswersFollowKnowledge, KnownAnswersAreTheTables, TablesAuditIsTheDenials};
ghost use Rattle.law_runs.specs.Finishes.{FinishIsAfter, FinishedBefore, FinishedChangesAreMet, SomeRunsFinish};
ghost use Rattle.law_runs.specs.Worked.{SomeRunsDecide};

/// A law: each transaction stands among the decisions of a run once at most. A job that ended answered or
/// refused stands there with that answer, and one that ended undecided stands there never, however the run
/// goes on. It does nothing.
pub fn decided_once()
    ensures { DecidedOnce }
{}

/// A law: each decision stands in its home's record, with its answer; and what a server has recorded as answered or
/// refused is a decision, with that answer. It does nothing.
pub fn decisions_are_the_records()
    ensures { DecisionsAreTheRecords }
{}

/// A law: the audit of each server is exactly the denials of the decisions whose home it is, in their
/// order. It does nothing.
pub fn audit_is_the_denials()
    ensures { AuditIsTheDenials }
{}

/// A law: of two decisions the one whose job ended before the other's began stands first. It does nothing.
pub fn answered_before_decided_before()
    ensures { AnsweredBefore }
{}

/// A law: a change that was answered, as one that takes a permission away, is met by every request that
/// begins later: its decision stands there, and before that of the request. It does nothing.
pub fn changes_are_met()
    ensures { ChangesAreMet }
{}

/// A law: a Finish says how its transaction ended. Whoever asks it, its agent or a sweep, and whatever it is told:
/// the transaction stands among the decisions by then, with that answer; or it says Aborted, and the transaction
/// never will stand there, however the run goes on. It does nothing.
pub fn finish_is_after()
    ensures { FinishIsAfter }
{}

/// A law: where a Finish of a transaction was served before a request of another that ends nothing, as its Decide, and
/// both are decided, the first stands before the second. It does nothing.
pub fn finished_before()
    ensures { FinishedBefore }
{}

/// A law: so a change whose Finish was served, which says that it was answered, is met by each request that asks
/// something of its own afterwards. It does nothing.
pub fn finished_changes_are_met()
    ensures { FinishedChangesAreMet }
{}

/// A law: each number of a transaction is begun once, and by the agent that is its rest by 64. It does
/// nothing.
pub fn each_is_begun_once()
    ensures { EachIsBegunOnce }
{}

/// A law: what is asked in a transaction's name is asked by its agent while it carries that transaction
/// out, and a decision at its home; but a sweep asks for locks, how a transaction ended, and to end it. It
/// does nothing.
pub fn agents_ask_for_themselves()
    ensures { AgentsAskForThemselves }
{}

/// A law: a transaction is decided in a step of its own agent, which asks for it; and its answer is the
/// plain transaction's on all rows with which what its agent then knows agrees. It does nothing.
pub fn answers_follow_knowledge()
    ensures { AnswersFollowKnowledge }
{}

/// A law: where agents, whenever their transactions are decided, know of the table of the run so far what
/// they know, every run is answered as one plain table answers it. It does nothing.
pub fn known_answers_are_the_tables()
    ensures { KnownAnswersAreTheTables }
{}

/// A law: where a run is answered as the plain table answers it, the audit of that table is the denials of
/// all decisions. It does nothing.
pub fn tables_audit_is_the_denials()
    ensures { TablesAuditIsTheDenials }
{}

/// A law: a run in which a transaction is answered, one is overruled, one takes a permission away, and one
/// that begins later is denied, so that the laws above say something. It does nothing.
pub fn some_runs_decide()
    ensures { SomeRunsDecide }
{}

/// A law: a run in which a transaction is finished that was answered, before another that begins later asks
/// anything, and one that was overruled, by a sweep and by its own agent, so that the laws of a Finish say something.
/// It does nothing.
pub fn some_runs_finish()
    ensures { SomeRunsFinish }
{}
