//! The parts of a tenant: its actors, for each the requests that wait, and the one in hand; the
//! replies that wait; what it asks of the table of refs, and the attempts of its transactions.
#![tactic(auto)]

mod actor;
mod actors;
mod aside;
mod attempts;
mod batch;
mod calling;
mod copies;
mod outbox;
mod queues;
mod request;
mod spelled;

pub use actor::ActorState;
pub use actors::Actors;
pub use aside::{Aside, Left};
pub use attempts::Attempts;
pub use batch::Batch;
pub use calling::call;
pub use copies::AnswerCopies;
pub use outbox::Outbox;
pub use request::{Manner, ProgramText, Run, Waiting, WorkInHand};
pub use spelled::{Addressee, EndReplies, SpelledEnd, ToldResult};
