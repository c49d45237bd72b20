//! Evaluation: what a form asks next, or how it ends, after the answers so far.
//!
//! The walker has no store and no stack of its own calls. A `Walk` is an evaluation that waits for
//! an answer; `resume` goes on to its next ask or to its end, so that many evaluations can be under
//! way at once. `walk` runs one to its end over a `Refs` that answers. `begin` and
//! `WaitingEvaluation::go_on` are the driver of the steps, which keeps neither job nor trace.
#![tactic(auto)]

mod ending;
mod give;
pub mod laws;
mod position;
mod resume;
mod run;
mod steps;
mod thrown;
mod waiting;
mod work;

pub use ending::Ending;
pub use repl_asks::{End, Finished, Job, Work};
pub use resume::start;
pub use run::{WalkError, walk};
pub use steps::{Reached, WaitingEvaluation, begin};
pub use waiting::{Progress, Walk};
pub use walker_machine::names_function;
