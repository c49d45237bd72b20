//! Lists that grow by pages, so that putting in one item never moves all others.
#![tactic(auto)]

mod growing;
mod paged_row;
mod pages;

pub use paged_row::PagedRow;
pub use pages::{PAGE, Pages};
