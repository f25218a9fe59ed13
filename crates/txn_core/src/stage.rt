//! How far the job of an agent is, in a word.

/// What an agent does.
#[derive(Clone, Copy)]
pub enum Stage {
    /// No job.
    Idle,
    /// It gathers locks of a suite.
    Gathering,
    /// It fetches the content of a suite.
    Fetching,
    /// It gathers the servers that get votes of a suite.
    Widening,
    /// It has servers prepare.
    Preparing,
    /// It has the home decide.
    Deciding,
    /// It tells servers the end.
    Finishing,
    /// A sweep asks which locks there are.
    Listing,
    /// A sweep asks how a transaction ended.
    Resolving,
    /// A sweep tells how a transaction ended.
    Telling,
    /// A sweep breaks a lock.
    Breaking,
}
