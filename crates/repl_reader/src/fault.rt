// What a text can be refused for.
ghost use Rattle.std.specs.Prelude.{◌≡◌, IfOk};
ghost use Rattle.repl_reader.specs.Fault.{class_of, fault_message, break_of};
ghost use Rattle.repl_reader.specs.Inside.View.{break_view};

use std::alloc::{AllocError, Global};

/// Which rule of the reader a text breaks.
#[derive(Clone, Copy, Debug, PartialEq, Eq)]
pub enum FaultKind {
    Eof,
    Unmatched,
    BadNumber,
    BadToken,
    BadEscape,
    BadDispatch,
    BadChar,
    OddMap,
    SameKey,
    TooDeep,
}

impl FaultKind {
    /// The class under which the fault is reported.
    pub fn class(self) -> &'static str
        ensures { result.now ≡ class_of self }
    {
        match self {
            FaultKind::BadNumber => "java.lang.NumberFormatException",
            FaultKind::SameKey => "java.lang.IllegalArgumentException",
            FaultKind::Eof
            | FaultKind::Unmatched
            | FaultKind::BadToken
            | FaultKind::BadEscape
            | FaultKind::BadDispatch
            | FaultKind::BadChar
            | FaultKind::OddMap
            | FaultKind::TooDeep => "java.lang.RuntimeException",
        }
    }
}

/// `at` is a byte offset; `text` is the message.
#[derive(Debug, Drop)]
pub struct ReaderFault {
    pub kind: FaultKind,
    pub at: usize,
    pub text: String,
}

/// A fault whose place is told by how many bytes of the text are left from there.
#[derive(Debug, Drop)]
pub(crate) struct Break {
    pub kind: FaultKind,
    pub left: usize,
    pub text: String,
}

/// The fault of a kind with `left` bytes left, whose message ends in what was found.
#[tactic(auto, unfolding(crate::specs::Fault::break_of))]
pub(crate) fn break_with(
    alloc: Global,
    kind: FaultKind,
    left: usize,
    found: &str,
) -> Result<Break, AllocError>
    ensures { IfOk result (λ b. break_view b ≡ break_of kind left found.now) }
{
    let mut text = String::from_str(alloc, fault_message(kind))?;
    text.push_str(found)?;
    Ok(Break { kind, left, text })
}

// What the message of a kind begins with.
fn fault_message(kind: FaultKind) -> &'static str
    ensures { result.now ≡ fault_message kind }
{
    match kind {
        FaultKind::Eof => "EOF while reading",
        FaultKind::Unmatched => "Unmatched delimiter: ",
        FaultKind::BadNumber => "Invalid number: ",
        FaultKind::BadToken => "Invalid token: ",
        FaultKind::BadEscape => "Unsupported escape character: \\",
        FaultKind::BadDispatch => "No dispatch macro for: ",
        FaultKind::BadChar => "Unsupported reader character: ",
        FaultKind::OddMap => "Map literal must contain an even number of forms",
        FaultKind::SameKey => "Duplicate key: ",
        FaultKind::TooDeep => "Nested too deep",
    }
}
