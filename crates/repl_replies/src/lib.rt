//! What an nREPL message asks for, and the replies to it with their bytes.
#![tactic(auto)]

mod fields;
mod names;
mod open_sessions;
mod operation;
mod reply;
mod request;
mod spelling;

pub use open_sessions::OpenSessions;
pub use operation::{Asked, Operation, operation_of};
pub use reply::{Body, Origin, Reply, describe_reply};
pub use request::{Request, RequestOrReply, request_of};
pub use spelling::reply_bytes;
