// How the serving of a stream ends.
use bencode_wire::WireFault;
use repl_values::Fault;
use std::alloc::AllocError;
use thiserror::Error;

/// How a stream that was served to its end ended.
#[derive(Clone, Copy, Debug, PartialEq, Eq)]
pub enum PipeEnd {
    /// The input was whole messages.
    Whole,
    /// The input ended inside a message.
    Truncated,
    /// The stream has this fault; nothing behind it was taken.
    Broken(WireFault),
    /// All steps were used up. What was not done by then is not done.
    Worn,
}

/// Why a stream was not served to its end. What was written is a part of the whole from its front.
///
/// A failed read or write is told, and nothing else is told as one. A write that takes nothing has
/// failed; a flush is no write.
#[derive(Debug, Drop, Error)]
pub enum PipeError {
    #[error("out of memory")]
    NoMemory,
    #[error("read failed")]
    ReadFailed,
    #[error("write failed")]
    WriteFailed,
    /// The text that all tenants share has this fault, so that nobody was served.
    #[error("the shared text has a fault")]
    SharedText(Fault),
}

impl From<AllocError> for PipeError {
    ghost use Rattle.std.specs.Prelude.{◌≡◌};
    ghost use Rattle.nrepl_pipe.specs.declared.ends.PipeError.TheVariants.{NoMemory};

    ghost from_gives = { λ _ e. e ≡ NoMemory };

    fn from(_e: AllocError) -> PipeError {
        PipeError::NoMemory
    }
}
