//! The reader: the text of a program as forms.
//!
//! `read_all` gives the forms before the first fault, and that fault. What a text reads as stands
//! in `specs/Grammar.antt`.
#![tactic(auto)]

mod blank;
mod brackets;
mod entries;
mod fault;
mod forms;
pub mod laws;
mod maps;
mod nest;
mod next;
mod read_text;
mod reading;
mod strings;
mod text;
mod tokens;

pub use fault::{FaultKind, ReaderFault};
pub use forms::{ProgramForms, read_all};
pub use read_text::{ReadText, take_if_of};
