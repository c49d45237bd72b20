// What a symbol names for a tenant.
use crate::latest::Latest;
use repl_asks::Resolution;

/// What a symbol names.
#[derive(Debug, Drop)]
pub enum Found {
    /// What it names, or why nothing.
    Resolution(Resolution),
    /// One of the session's latest results, which are not kept here.
    Latest(Latest),
}
