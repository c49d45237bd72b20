// Who evaluates.

/// Who evaluates for a tenant: one form after another, each beside those of other actors.
#[derive(Clone, Copy, Debug, PartialEq, Eq, PartialOrd, Ord)]
pub enum Actor {
    /// The actions that were sent to agents.
    Agents,
    /// The requests without a session.
    Bare,
    /// Those of the session with this number.
    Session(u64),
}
