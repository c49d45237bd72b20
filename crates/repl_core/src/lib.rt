//! The server of many tenants: each step is that of the rules, or is refused as they say.
#![tactic(auto)]

mod deeds;
mod finding;
mod going;
pub mod laws;
mod machine;
mod opening;
mod step;
mod stepping;
mod tenants;
mod walking;
mod walks;

pub use machine::{Config, Machine, PLACES, RETRIES, STEPS, SharedText};
pub use shared_space::LoadError;
pub use step::{Refused, Step, StepAnswer, StepAnswers};
pub use stepping::{of_ask, of_end, of_start};
pub use walks::Walks;
