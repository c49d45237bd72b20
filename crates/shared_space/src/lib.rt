//! The shared namespace: its text is read and evaluated once, when a server is made. What it
//! defines is then fixed, and all tenants see it.
#![tactic(auto)]

mod loading;
mod space;
mod teller;
mod telling;

pub use loading::load;
pub use space::{LoadError, SharedSpace};
