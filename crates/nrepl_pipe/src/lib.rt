//! One stream served to its end: pieces of bytes in, replies out.
//!
//! `serve_stream` serves a tenant over any reader and writer; `exit_status` turns how that ended
//! into an exit status and a line on standard error.
#![tactic(auto)]

mod actors;
mod command;
mod ends;
mod ports;
mod replies;
mod rounds;
mod stream;

pub use command::{bad_options, exit_status, faulty_text, out_of_memory, unreadable_file};
pub use ends::{PipeEnd, PipeError};
pub use ports::{Sink, Source};
pub use stream::serve_stream;
