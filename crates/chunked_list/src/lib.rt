//! A list of numbers in a balanced tree of shared nodes.
//!
//! A `ChunkedList` is nothing, or a handle to a node that many lists may share. A node is a leaf of
//! up to 64 numbers, or a fork of two trees, and keeps the length of what stands below it and the last
//! number. A change goes down one path: a node that nobody else holds is changed in its place, and any
//! other is copied first. Contracts see the list of the numbers.
#![tactic(auto)]

mod changes;
mod copies;
mod forks;
mod list;
mod places;
mod reads;
mod tree;

pub use list::ChunkedList;
pub use places::{RankedPlaces, first_places};
