//! What becomes of a request where it begins, and where a form of it begins or ends: its replies,
//! what its session then remembers and what is still to do. All is made before anything changes.
#![tactic(auto)]

mod changes;
mod draft;
mod effects;
mod ending;
mod handling;
mod hearing;
mod operations;
mod request;
mod starting;
mod staying;
mod telling;

pub use effects::RequestEffects;
pub use ending::{After, form_end, go_on};
pub use hearing::hear;
pub use request::{OpenedRequest, open_request};
pub use starting::{BegunForm, BegunRequest, NextForm, begin, begin_request, next_form};
