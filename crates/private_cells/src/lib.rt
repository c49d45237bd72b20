//! The atoms and the agents of one tenant. `laws` says what holds of them all.
#![tactic(auto)]

mod action;
mod agents;
mod atoms;
mod awaiting;
mod cells;
mod counts;
pub mod laws;
mod listed;
mod met;
mod running;
mod sending;
mod spare;
mod turns;

pub use action::{Action, Sent};
pub use agents::Agents;
pub use atoms::Atoms;
pub use awaiting::Await;
