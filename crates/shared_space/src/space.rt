// What comes of the text of the shared namespace.
use name_spaces::SharedNames;
use ref_history::RingHistory;
use ref_table::RefTable;
use repl_values::Fault;
use std::alloc::AllocError;
use thiserror::Error;

/// What all tenants share from the start: names with what they are bound to, and a table of refs
/// that has the shared ones and no others.
#[derive(Drop)]
pub struct SharedSpace {
    pub names: SharedNames,
    pub refs: RefTable<RingHistory>,
}

/// Why there is no shared namespace. `Fault` is the first fault of the text or of its evaluation.
#[derive(Debug, Drop, Error)]
pub enum LoadError {
    #[error("out of memory")]
    NoMemory,
    #[error("{0:?}")]
    Fault(Fault),
}

impl From<AllocError> for LoadError {
    ghost use Rattle.std.specs.Prelude.{◌≡◌};
    ghost use Rattle.shared_space.specs.declared.space.LoadError.TheVariants.{NoMemory};

    ghost from_gives = { λ _ e. e ≡ NoMemory };

    fn from(_error: AllocError) -> LoadError {
        LoadError::NoMemory
    }
}
