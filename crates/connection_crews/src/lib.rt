//! A server of many connections: crews of threads that make each tenant's steps through one book.
#![tactic(auto)]

mod crew;
mod errors;
mod gate;
mod moves;
mod reading;
mod serving;
mod working;
mod writing;

pub use crew::Crew;
pub use errors::ServeError;
pub use gate::{Gate, OpenGate};
pub use serving::{Options, serve};
