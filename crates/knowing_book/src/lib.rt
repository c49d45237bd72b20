//! The book, with what whoever holds it knows of its journal for good.
#![tactic(auto)]

mod book;
mod forms;
mod keys;
mod known;
mod lasts;

pub use book::{KnowingBook, Unasked, Unended};
pub use forms::{Answered, Begun, Finish, Question, Stage};
pub use known::{Naming, Opened};
