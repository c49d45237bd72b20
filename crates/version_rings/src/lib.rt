//! The versions of many values, each value's in a ring of its own. All rings stand in one list of
//! nodes, and what one ring gives back another takes.
#![tactic(auto)]

mod halves;
mod node;
mod node_list;
mod nodes;
mod ring_table;
mod rings;

pub use node::RingId;
pub use rings::Rings;
