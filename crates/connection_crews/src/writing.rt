// The writer of a crew, and how replies are written.
use crate::gate::Gate;
use crate::moves::Connection;
use journal_book::Seat;
use knowing_book::Naming;
use std::alloc::{AllocError, Global};
use std::io::Write;
use std::sync::Wait;
use std::sync::ledger::Ledger;

/// Writes the replies that came while others wrote, and finds out when all is done.
pub(crate) fn write_what_waits<L: Ledger, N: Naming, R: Wait, G: Gate>(
    rt: &R,
    connection: &Connection<'_, L, N, G>,
    mut seat: Seat<L>,
) -> Seat<L> {
    for _ in rt.forever() {
        connection.desk.wait_until_due(rt);
        if connection.desk.is_over(rt) {
            break;
        }
        let (replies, is_done) = connection.look(rt, &mut seat);
        connection.write(rt, replies);
        if is_done {
            connection.desk.end(rt);
        }
    }
    seat
}

impl<'a, L: Ledger, N: Naming, G: Gate> Connection<'a, L, N, G> {
    /// Writes replies that were taken out with the pen, all at once, and lays the pen down.
    pub(crate) fn write<R: Wait>(&self, rt: &R, replies: Vec<Vec<u8>>) {
        if replies.is_empty() {
            return;
        }
        let is_written = match joined(self.alloc, replies) {
            Ok(bytes) => (&mut &*self.stream).write_all(bytes.as_slice()).is_ok(),
            Err(_) => false,
        };
        self.desk.lay_pen_down(rt);
        if !is_written {
            self.cut(rt);
        }
    }
}

// So that they leave in one piece.
fn joined(alloc: Global, replies: Vec<Vec<u8>>) -> Result<Vec<u8>, AllocError> {
    let mut all = Vec::new(alloc);
    for reply in replies {
        all.extend_from_slice(reply.as_slice())?;
    }
    Ok(all)
}
