// Why a server does not end as it should.
use repl_core::LoadError;
use repl_values::Fault;
use std::alloc::AllocError;
use thiserror::Error;

/// Why a server ended before it served all its connections, or could not make its report.
#[derive(Debug, Drop, Error)]
pub enum ServeError {
    #[error("out of memory")]
    NoMemory,
    /// No connection could be accepted any more.
    #[error("read failed")]
    AcceptFailed,
    /// The text that all tenants share has this fault, so that nobody was served.
    #[error("the shared text has a fault")]
    SharedText(Fault),
}

impl From<LoadError> for ServeError {
    fn from(error: LoadError) -> ServeError {
        match error {
            LoadError::NoMemory => ServeError::NoMemory,
            LoadError::Fault(fault) => ServeError::SharedText(fault),
        }
    }
}

impl From<AllocError> for ServeError {
    fn from(_e: AllocError) -> ServeError {
        ServeError::NoMemory
    }
}
