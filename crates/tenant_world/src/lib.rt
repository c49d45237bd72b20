//! One tenant: what it hears, what its actors begin, ask and end, and the replies that wait.
#![tactic(auto)]

mod actions;
mod answers;
mod ending;
mod hearing;
mod lending;
mod showing;
mod starting;
mod steps;
mod tenant;

pub use answers::{EndAnswer, EndedEvaluation, Replies, StartAnswer, StartAnswers};
pub use tenant::Tenant;
pub use tenant_asks::{AskAnswer, AskAnswers};
