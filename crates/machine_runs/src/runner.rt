// The first tenant of a server, with the evaluations of its forms.
use repl_core::{Machine, Walks};

// The number of the tenant.
pub(crate) const NUMBER: u64 = 0;

/// A server whose first tenant is open, and how far the evaluation of each of its forms that runs
/// came. It makes the turns of a tenant that is served alone.
///
/// An evaluation that is lost for want of memory is made again, over the answers that are recorded,
/// when its actor goes on.
#[derive(Drop)]
pub struct Runner {
    pub(crate) machine: Machine,
    pub(crate) walks: Walks,
}
