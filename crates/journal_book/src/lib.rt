//! The book of a server: its machine, and the journal of all steps that it accepted.
#![tactic(auto)]

mod beside;
mod book;
mod entry;
pub mod laws;
mod noting;
mod report;
mod seat;
mod writing;

pub use beside::Beside;
pub use book::{Book, PARTS, Places, Receipt, SEATS, TENANTS, Unclosed};
pub use entry::{AcceptedStep, AnsweredAsk, HeardPiece, JournalEntry, ResolvedSymbol};
pub use report::{Report, Row};
pub use seat::Seat;
