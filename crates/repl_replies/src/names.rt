// The operations that are served, and their names.
ghost use Rattle.std.specs.Prelude.{◌≡◌, find, bytes_eq};
ghost use Rattle.repl_replies.specs.OperationNames as meant;

/// An operation that is served.
#[derive(Clone, Copy, Debug, PartialEq, Eq)]
pub(crate) enum OperationName {
    Clone,
    Close,
    Describe,
    Eval,
    LoadFile,
    ListSessions,
}

impl OperationName {
    /// All of them, in the order of their names as bytes.
    pub(crate) fn all() -> [OperationName; 6]
        ensures { result ≡ meant.operations }
    {
        [
            OperationName::Clone,
            OperationName::Close,
            OperationName::Describe,
            OperationName::Eval,
            OperationName::LoadFile,
            OperationName::ListSessions,
        ]
    }

    /// The operation of this name. It takes no memory.
    pub(crate) fn named(name: &[u8]) -> Option<OperationName>
        ensures { result ≡ meant.operation_named name.now }
    {
        first_named(&OperationName::all(), name)
    }

    /// Its name in messages.
    pub(crate) fn name(self) -> &'static str
        ensures { result.now ≡ meant.operation_name self }
    {
        match self {
            OperationName::Clone => "clone",
            OperationName::Close => "close",
            OperationName::Describe => "describe",
            OperationName::Eval => "eval",
            OperationName::LoadFile => "load-file",
            OperationName::ListSessions => "ls-sessions",
        }
    }
}

fn first_named(operations: &[OperationName], name: &[u8]) -> Option<OperationName>
    ensures { result
        ≡ find (λ operation. bytes_eq (meant.operation_name operation) name.now) operations.now }
{
    operations
        .iter()
        .copied()
        .find(|operation| operation.name().as_bytes() == name)
}
