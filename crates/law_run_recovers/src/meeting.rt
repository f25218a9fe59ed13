//! Transactions that meet.

ghost use Rattle.law_run_recovers.specs.MeetsBesideWorked.{SomeRunsMeetBeside, SomeRunsMeetReadersBeside};
ghost use Rattle.law_run_recovers.specs.MeetsWorked.{SomeRunsMeet, SomeRunsMeetByRows};
ghost use Rattle.law_run_recovers.specs.ReadersWorked.{SomeRunsMeetReaders};
ghost use Rattle.law_run_recovers.specs.Ends.{Always};
ghost use Rattle.law_run_recovers.specs.MeetsBeside.{OneThatMeetsBesideIsDecidedAt, WriterOrReaderBesideIsDecidedAt};
ghost use Rattle.law_run_recovers.specs.MeetsByRows.{OneThatMeetsByRowsIsDecidedAt};
ghost use Rattle.law_run_recovers.specs.Meets.{OneThatMeetsIsDecidedAt};
ghost use Rattle.law_run_recovers.specs.Readers.{WriterOrReadersAreDecidedAt};

/// A law: two transactions begin, and no other job, where every agent is idle, every server is up and no lock is left,
/// and nothing spoils what follows. They meet first at one suite, in modes that clash: not both read it and then write
/// it. Its votes are tight for both, and nobody moved votes of what they ask for, nor do they. Once both have ended one
/// was decided. It does nothing.
pub fn one_that_meets_is_decided()
    ensures { Always OneThatMeetsIsDecidedAt }
{}

/// A law: of two that meet so one is decided too where votes were set before, or files were made with votes of their own:
/// the votes of the suite at which they meet are those that are in effect as they begin, which are tight for both, and
/// neither sets other votes of what the other asks for. It does nothing.
pub fn one_that_meets_by_rows_is_decided()
    ensures { Always OneThatMeetsByRowsIsDecidedAt }
{}

/// A law: so it is where others are beside, who may be at work already and begin again and again, whatever they do and however
/// they end, as long as no lock of theirs is ever in the way of what the two ask for; every server is up and stays so, nobody
/// sweeps, and each step of the two is served. It does nothing.
pub fn one_that_meets_beside_is_decided()
    ensures { Always OneThatMeetsBesideIsDecidedAt }
{}

/// A law: a run in which two users meet, who write one file at once, step by step in turn; one is answered. It does
/// nothing.
pub fn some_runs_meet()
    ensures { SomeRunsMeet }
{}

/// A law: a run in which two users write one file at once whose votes were set before, and one of them looks for it by the
/// old ones; the other is answered. It does nothing.
pub fn some_runs_meet_by_rows()
    ensures { SomeRunsMeetByRows }
{}

/// A law: transactions begin where every agent is idle, every server is up and no lock is left, and nothing spoils what
/// follows. All but one only read, and that one clashes with them at one suite alone, whose votes were never moved, nor does
/// it move them; r + w is one more than the votes. Once it has ended and a reader has, one of both was decided: so it was, or
/// each reader that ended. It does nothing.
pub fn writer_or_readers_are_decided()
    ensures { Always WriterOrReadersAreDecidedAt }
{}

/// A law: so it is of one that writes and one that reads, where others are beside, who may also read the one suite. It does
/// nothing.
pub fn writer_or_reader_beside_is_decided()
    ensures { Always WriterOrReaderBesideIsDecidedAt }
{}

/// A law: a run in which one sets the list of a file while two read it, step by step in turn; it is refused, and each of
/// them is answered. It does nothing.
pub fn some_runs_meet_readers()
    ensures { SomeRunsMeetReaders }
{}

/// A law: a run in which two write one file while a third is in the midst of a write of another, and begins one more, for which
/// memory runs out; one of the two is answered, as the law says. It does nothing.
pub fn some_runs_meet_beside()
    ensures { SomeRunsMeetBeside }
{}

/// A law: a run in which one sets the list of a file while two read it, and a fourth writes another file twice; the law says of
/// it and of one reader that one of both is decided, and that reader is answered. It does nothing.
pub fn some_runs_meet_readers_beside()
    ensures { SomeRunsMeetReadersBeside }
{}
