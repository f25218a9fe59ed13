//! What holds of the definitions of a session.

ghost use Rattle.suite_session.specs.Played.{LinesBelowArePlayed, SessionIsPlay};
ghost use Rattle.suite_session.specs.Promised.{SessionIsPromised};
ghost use Rattle.suite_session.specs.TableRows.{RowsAreTheTables};

/// A law: at each moment the world of a session is that of its events so far, so all is promised of it that is promised
/// of a run. It does nothing.
pub fn session_is_promised()
    ensures { SessionIsPromised }
{}

/// A law: the lines of a session below its header, where none has a fault as `play` reads them, are told together what
/// `play` prints for them. It does nothing.
pub fn lines_below_are_played()
    ensures { LinesBelowArePlayed }
{}

/// A law: a session that heard a text which `play` reads without a fault, header, names and lines, has told what `play`
/// prints for it, where its status is 0; which it is where each line was carried out, and none is above 16 MiB. It does
/// nothing.
pub fn session_is_play()
    ensures { SessionIsPlay }
{}

/// A law: what `row` tells of a path is the row of the run's one table, with its versions, for every run and path. It
/// does nothing.
pub fn rows_are_the_tables()
    ensures { RowsAreTheTables }
{}
