//! What follows once a transaction was executed.

use crate::granted::Granted;
use file_ops::Refusal;

/// What follows once a transaction was executed on what it gathered.
#[derive(Drop)]
pub(crate) enum NextPhase {
    /// A suite is asked for, which stands among the suites.
    Gather(u64),
    /// The content of a suite is fetched.
    Fetch(u64),
    /// All is answered; what is set is carried out.
    Grant(Granted),
    /// It is refused.
    Refuse(Refusal),
}
