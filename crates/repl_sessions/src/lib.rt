//! The sessions of a tenant: their ids, what each remembers, and how they are opened, found and
//! closed. `laws` says what holds of them all.
#![tactic(auto)]

mod changes;
mod ids;
pub mod laws;
mod leaving;
mod lookup;
mod opening;
mod retraction;
mod sessions;
mod state;

pub use ids::{IdStream, IdText};
pub use sessions::Sessions;
pub use state::{SessionState, USER};
