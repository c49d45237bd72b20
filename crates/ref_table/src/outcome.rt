// What a transaction begins with, and what its commit comes to.
use repl_values::Fault;

/// Where an attempt reads: the count of commits when it began.
#[derive(Clone, Copy, Debug, PartialEq, Eq)]
pub struct Point {
    pub stamp: u128,
}

/// What a commit comes to.
#[derive(Debug, Drop)]
pub enum CommitOutcome {
    /// All that was set is set, and what was commuted is made again.
    Committed,
    /// A ref that was set or ensured has a version from after the point. Nothing has changed.
    Conflict,
    /// What was commuted ends in this fault when it is made again. Nothing has changed.
    Faulted(Fault),
    /// A ref is not there or changes twice, a shared one would be set to what is not plain, or a
    /// commute has a number of arguments that its function does not take. Nothing has changed.
    Refused,
}
