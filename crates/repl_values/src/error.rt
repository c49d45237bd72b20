// A fault of the program that is evaluated, or want of memory.
use crate::fault::Fault;
use std::alloc::{AllocError, AllocFailed};
use thiserror::Error;

/// Why there is no value. The program's own fault is `Fault`.
#[derive(Debug, Drop, Error)]
pub enum ApplyError {
    #[error("out of memory")]
    NoMemory,
    #[error("{0:?}")]
    Fault(Fault),
}

impl From<AllocError> for ApplyError {
    ghost use Rattle.std.specs.Prelude.{◌≡◌};
    ghost use Rattle.repl_values.specs.declared.error.ApplyError.TheVariants.{NoMemory};

    ghost from_gives = { λ _ e. e ≡ NoMemory };

    fn from(_e: AllocError) -> ApplyError {
        ApplyError::NoMemory
    }
}

impl<T: Drop> From<AllocFailed<T>> for ApplyError {
    ghost use Rattle.std.specs.Prelude.{◌≡◌};
    ghost use Rattle.repl_values.specs.declared.error.ApplyError.TheVariants.{NoMemory};

    ghost from_gives = { λ _ e. e ≡ NoMemory };

    fn from(_e: AllocFailed<T>) -> ApplyError {
        ApplyError::NoMemory
    }
}
