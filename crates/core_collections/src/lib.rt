//! The functions of the language on collections: on items in order, of lists, vectors and, pair by
//! pair, maps; and on maps by key, and vectors by index.
//!
//! The items of nil are none; those of a map are its pairs, each as a vector of two. Keys are
//! compared as values are: a list is the same key as a vector with its items.
#![tactic(auto)]

mod arguments;
mod changes;
mod ends;
mod joins;
mod lookups;
mod making;
mod map_function;
mod maps;
mod places;
mod sequence_function;
mod sequences;

pub use map_function::MapFunction;
pub use maps::apply_maps;
pub use sequence_function::SequenceFunction;
pub use sequences::apply_sequences;
