//! The versions of refs. A ref is described with all the versions that it ever had; what is stored
//! keeps the newest of them, as many as its bounds and the failed reads ask for.
#![tactic(auto)]

mod history;
mod kept_ref;
mod list_history;
mod ref_id;
mod ring_history;
mod ring_ref;

pub use history::History;
pub use list_history::ListHistory;
pub use ref_id::{Bounds, RefId};
pub use ring_history::RingHistory;
