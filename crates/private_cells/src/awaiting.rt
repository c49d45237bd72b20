// What comes of an await.

/// What comes of an await.
#[derive(Clone, Copy, Debug, PartialEq, Eq)]
pub enum Await {
    /// One of the agents is failed.
    Failed,
    /// None of the agents has an action of the session any more.
    Met,
    /// One of them has one, which waits or runs.
    Waits,
}
