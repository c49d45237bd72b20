//! What an evaluation asks of the store, and what it is answered.
//!
//! Evaluation itself has no store. Where a form needs one, the walker asks a `Refs` and goes on
//! with its answer; so what a form comes to is a function of the form and of the answers alone. The
//! exchanges in a row are its trace.
#![tactic(auto)]

mod answer;
mod ask;
mod exchange;
mod intent;
mod job;
mod namespaces;
mod refs;
mod replay;
mod sends;

pub use answer::{Answer, NamedFunction, Permission, Reading, Resolution, Verdict};
pub use ask::{AnswerKind, Ask, Binding};
pub use exchange::{Exchange, Trace, copy_trace};
pub use intent::{Change, Commute, Commuted, Intent};
pub use job::{End, Finished, Job, Work};
pub use namespaces::is_fixed;
pub use refs::{Refs, Stop, StopReason};
pub use replay::Replay;
pub use sends::{Sending, Task};
