// Why a ref is not set.
use std::alloc::AllocError;
use thiserror::Error;

/// Why a ref is not set.
#[derive(Clone, Copy, Debug, PartialEq, Eq, Error)]
pub enum SetError {
    #[error("out of memory")]
    NoMemory,
    /// It was commuted in this attempt.
    #[error("set after commute")]
    Commuted,
}

impl From<AllocError> for SetError {
    ghost use Rattle.std.specs.Prelude.{◌≡◌};
    ghost use Rattle.tx_attempt.specs.declared.error.SetError.TheVariants.{NoMemory};

    ghost from_gives = { λ _ e. e ≡ NoMemory };

    fn from(_e: AllocError) -> SetError {
        SetError::NoMemory
    }
}
