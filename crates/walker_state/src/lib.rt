//! The state of an evaluation: what it has still to do, from the inside out, and the transaction
//! that runs; and its small steps: bodies, namespaces, definitions, functions of the language, refs,
//! atoms, sends, attempts and commits.
#![tactic(auto)]

mod applying;
mod attempts;
mod commits;
mod definitions;
mod frames;
mod namespaces;
mod refs;
mod refused;
mod rows;
mod sends;
mod store;
mod swaps;

pub use applying::call_core;
pub use attempts::{begin_again, begin_attempt, begin_transaction, retry};
pub use commits::{EndOrCommit, leave, settle};
pub use definitions::{is_definition, refuse_definition};
pub use frames::{
    Callee, Collection, Control, Frame, Place, Setting, State, StoreFrame, Swap, SymbolUse,
    Transaction, Wanted,
};
pub use namespaces::{enter_named, enter_namespace, go_on_in};
pub use refs::read;
pub use refused::{refuse_program, refuse_store};
pub use rows::{bind, next_in_body};
pub use sends::{call_send, settle_send};
pub use store::{call_store, commute, ensure_or_retry, hold, note_or_retry, permit};
pub use swaps::{call_swap, settle_swap, try_swap};
