//! One attempt at a transaction: what it has of refs, and what of it is to be committed.
//!
//! A ref is read, set, commuted or ensured. It has one value in an attempt, whatever others commit
//! meanwhile: that of the last access that named it. A commute applies a function of the
//! language to that value, and the store applies it once more at the commit, to the value that the
//! ref has then; so a ref that was commuted is set no more. A ref that was ensured is changed by
//! nobody else until the commit. What is sent to agents is held until then. What the store is asked
//! to commit is an `Intent`.
//!
//! Of each ref its last value is kept, what was done to it, and its commutes; no access is.
#![tactic(auto)]

mod attempt;
mod error;
mod intent;
mod key;
mod state;
mod states;
mod taking;

pub use attempt::Attempt;
pub use error::SetError;
pub use intent::Unmade;
