//! The server as plain data: what each step makes of it, and what a run of turns serves each
//! tenant.
//!
//! There is no code here but the names of actors and refusals, two limits, the trait of whatever
//! makes the turns of a tenant that is served alone, and the laws. Each crate that holds a part of
//! the server says in its contracts that it does what these definitions say.
#![tactic(auto)]

mod actor;
pub mod examples;
pub mod laws;
mod limits;
mod refusal;
mod turns;

pub use actor::Actor;
pub use limits::{MESSAGE_LIMIT, MOST_REPLIES};
pub use refusal::Refusal;
pub use turns::{Core, Wire};
