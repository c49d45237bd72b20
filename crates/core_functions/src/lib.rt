//! The functions of the language: which there are, by their names in `clojure.core`, how many
//! arguments each takes, and what those give that need no store.
//!
//! A name is looked up once: into a `CoreFunction`, which needs no store and which `apply` goes by,
//! or into a `StoreFunction`, which is evaluated by asks. `core_scalars` and `core_collections`
//! have the groups of the former.
#![tactic(auto)]

mod application;
mod function;
mod store;

pub use application::{Applied, apply};
pub use function::{CoreFunction, arity_fits, knows};
pub use store::StoreFunction;
