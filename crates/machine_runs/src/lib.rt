//! Runs of the server. `pipe` serves one stream by a server that was just made: `Runner` serves its
//! first tenant alone, and `serve_stream` of `nrepl_pipe` reads and writes. `drive` makes a list of
//! turns: every interleaving of the tenants' steps is one.
#![tactic(auto)]

mod all_walks;
mod driver;
pub mod laws;
mod lists;
mod outputs;
mod runner;
mod runner_core;
mod serving;
mod turn;

pub use lists::drive;
pub use outputs::{Outputs, RefusedTurn};
pub use runner::Runner;
pub use serving::{pipe, pipe_command};
pub use turn::Turn;
