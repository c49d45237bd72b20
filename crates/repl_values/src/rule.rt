// The rules that a form may break.

/// A rule of references, transactions, agents or the shared namespace. A form that breaks it ends
/// in the fault that `broken_rule` makes.
#[derive(Clone, Copy, Debug, PartialEq, Eq)]
pub enum Rule {
    /// What sets, commutes or ensures a ref stands inside a transaction.
    ATransactionRuns,
    /// A ref that was commuted is not set any more in that attempt.
    NoSetAfterCommute,
    /// `io!` stands outside of transactions.
    NoIoInTransaction,
    /// `await` stands outside of transactions.
    NoAwaitInTransaction,
    /// `await` stands outside of actions.
    NoAwaitInAction,
    /// The bounds of a shared ref's history are the same for ever.
    SharedBoundsStay,
    /// A shared ref's history is not read inside a transaction.
    SharedHistoryIsHidden,
    /// The text of the shared namespace makes definitions and refs, and does nothing else.
    SharedTextDefinesAlone,
    /// A shared ref holds plain data, without references.
    SharedRefsArePlain,
    /// What is commuted is a function of the language.
    CommutesAreOfCore,
    /// A transaction has so many attempts.
    AttemptsAreLimited,
    /// An agent that takes actions has not failed.
    AgentHasNotFailed,
    /// An agent that is restarted has failed.
    AgentHasFailed,
}
