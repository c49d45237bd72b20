// A sum as a stream, and the server that serves it.
use repl_core::{Config, RETRIES, STEPS, SharedText};

pub(crate) const SUM: &[u8] = b"d4:code7:(+ 1 2)2:id1:72:op4:evale";

pub(crate) const SUM_REPLIES: &[u8] = b"d2:id1:72:ns4:user5:value1:3ed2:id1:76:statusl4:doneee";

// A server with the ids of the seed that is all zeros.
pub(crate) fn server() -> Config {
    server_of_steps(STEPS)
}

// The same, whose tenants take so many steps.
pub(crate) fn server_of_steps(steps: u32) -> Config {
    Config {
        seed: [0; 32],
        retries: RETRIES,
        steps,
        shared: SharedText::Empty,
    }
}
