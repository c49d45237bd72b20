//! What a value is, as data and as shared nodes: made, copied, compared, hashed and measured.
//!
//! The texts, items and pairs of a `Value` are shared nodes that keep what was measured of them,
//! so that a copy, a weight and a hash of a collection take one step. Contracts see a value as
//! plain data, `specs/Datum.antt`, by `view` of `specs/Inside/View.antt`: two values with one view
//! are the same value to every caller. `specs/Inside/Code.antt` has the codes by which a model
//! holds values. `repl_values` hands all of this on, with printing, faults and laws.
#![tactic(auto)]

mod building;
mod changes;
mod copies;
mod edits;
mod entries;
mod equality;
mod forks;
mod hashing;
mod measure;
mod node_measures;
mod order;
mod owning;
mod places;
mod reads;
mod removal;
mod sequence;
mod table;
mod tree;
mod value;

pub use building::Built;
pub use copies::{copy, copy_items, copy_text};
pub use equality::same;
pub use hashing::hash_of;
pub use measure::{is_plain, nesting, weight};
pub use removal::pair_as_vector;
pub use value::{Owner, RefName, Sequence, Table, Value};
