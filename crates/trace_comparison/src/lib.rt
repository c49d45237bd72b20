//! Whether two values, jobs or traces are exactly the same: of one kind at each place, with one
//! content, and maps in one order.
//!
//! Equality of the language does not tell: there a list equals a vector, and maps forget their
//! order. Here two things are the same where the data that they stand for is equal. Whoever hands
//! an evaluation to another and gets an ending back so compares its job and its trace with those
//! that were recorded. Nothing here takes memory, and every call returns.
#![tactic(auto)]

mod answers;
mod asks;
mod functions;
mod intents;
mod jobs;
pub mod laws;
mod sends;
mod traces;
mod values;

pub use answers::{
    same_answer, same_named_function, same_permission, same_reading, same_resolution, same_verdict,
};
pub use asks::{same_ask, same_binding, same_exchange};
pub use functions::{same_fault, same_function};
pub use intents::same_intent;
pub use jobs::{same_job, same_work};
pub use sends::{same_sending, same_task};
pub use traces::first_difference;
pub use values::same_value;
