//! What answers the asks of a tenant's forms: the names, atoms and agents that it keeps, the
//! replies that wait, and the trace of the form that runs. Asks of refs go to a table that is lent.
#![tactic(auto)]

mod acting;
mod agents;
mod answers;
mod asking;
mod atoms;
mod cells;
mod keeping;
mod memory;
mod naming;
mod sends;
mod telling;

pub use acting::interrupt;
pub use answers::{AskAnswer, AskAnswers};
pub use asking::ask;
pub use cells::Cells;
pub use memory::Remembered;
pub use sends::{Outgoing, Sender, send_all, sends_in};
