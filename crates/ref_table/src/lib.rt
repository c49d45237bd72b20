//! The refs of all tenants and those that all share: how they are made, read at a point, and
//! changed by commits.
#![tactic(auto)]

mod commit;
mod departed;
mod directory;
mod fitting;
mod folding;
pub mod laws;
mod outcome;
mod placing;
mod reading;
mod table;

pub use outcome::{CommitOutcome, Point};
pub use table::RefTable;
