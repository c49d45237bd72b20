//! Where the threads of `serve` wait: at the queue of accepted connections, whose numbers rise from
//! front to back, so that what a crew takes is above all that it took before; and at the desk, where
//! the threads of a crew tell one another what came.
#![tactic(auto)]

mod desk;
mod feeding;

pub use desk::{Desk, Duty, Event, SeenCounts, Woken};
pub use feeding::{
    Accepted, Feed, Hand, Rising, Takings, Ticket, another_ticket, queue, send, take,
};
