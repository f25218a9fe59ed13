//! The commands that play a script.

/// A command that plays a script.
#[derive(Clone, Copy, PartialEq, Eq, Debug)]
pub enum Script {
    /// `suites table`: transactions on one plain table.
    Table,
    /// `suites play`: events of servers and agents.
    Play,
}
