//! The namespaces of a tenant and the shared one: what their names are bound to, and how symbols are
//! resolved in them.
#![tactic(auto)]

mod found;
mod latest;
mod resolving;
mod shared;
mod spaces;
mod vars;

pub use found::Found;
pub use latest::Latest;
pub use shared::{SharedDefinitions, SharedNames};
pub use spaces::{Spaces, USER};
