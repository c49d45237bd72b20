// What the peer sends is read and heard.
use crate::gate::Gate;
use crate::moves::{Connection, NextWork, PieceHeard};
use bytes::Bytes;
use connection_waits::Event;
use journal_book::Seat;
use knowing_book::Naming;
use std::io;
use std::io::Read;
use std::net::{Shutdown, TcpStream};
use std::sync::Wait;
use std::sync::ledger::Ledger;
use std::time::Duration;

// The greatest length of a piece. All its messages are taken within one act.
const PIECE: usize = 2_048;

// How many milliseconds a read waits for more of a stream that has a fault, and how many such reads
// are made.
const PATIENCE: u64 = 100;

const MOST_READS: usize = 256;

// How many bytes such a read takes.
const READ_AWAY: usize = 16_384;

/// What came of a read.
#[derive(Drop)]
pub(crate) enum ReadOutcome<N: Naming> {
    /// Messages, if any, which are left to others.
    Nothing,
    /// A message, and what who read it is to do.
    Message(NextWork<N>),
    /// Nothing more is to be read.
    End,
}

/// Room for a piece.
pub(crate) type Piece = [u8; PIECE];

/// A piece of zeros.
pub(crate) const EMPTY_PIECE: Piece = [0u8; PIECE];

/// Reads what the peer sends next, and has it heard.
pub(crate) fn read_piece<L: Ledger, N: Naming, R: Wait, G: Gate>(
    rt: &R,
    connection: &Connection<'_, L, N, G>,
    seat: &mut Seat<L>,
    buffer: &mut Piece,
) -> ReadOutcome<N> {
    match (&mut &*connection.stream).read(buffer) {
        Ok(0) => ReadOutcome::End,
        Ok(count) => match Bytes::copy_from_slice(connection.alloc, &buffer[..count]) {
            Ok(piece) => hear(rt, connection, seat, piece),
            Err(_) => cut(rt, connection),
        },
        Err(error) => match error.kind() {
            io::ErrorKind::Interrupted => ReadOutcome::Nothing,
            _ => cut(rt, connection),
        },
    }
}

fn cut<L: Ledger, N: Naming, R: Wait, G: Gate>(
    rt: &R,
    connection: &Connection<'_, L, N, G>,
) -> ReadOutcome<N> {
    connection.cut(rt);
    ReadOutcome::End
}

/// Reads on for a while from a peer whose stream has a fault, and looks at nothing: a socket that
/// is closed while bytes wait in it loses what was just written to it.
pub(crate) fn read_away(stream: &TcpStream) {
    let _ = stream.shutdown(Shutdown::Write);
    if stream
        .set_read_timeout(Some(Duration::from_millis(PATIENCE)))
        .is_err()
    {
        return;
    }
    let mut buffer = [0u8; READ_AWAY];
    for _ in 0..MOST_READS {
        match (&mut &*stream).read(&mut buffer) {
            Ok(0) | Err(_) => return,
            Ok(_) => {}
        }
    }
}

// Has a piece heard, as soon as there is room for what it may be answered.
fn hear<L: Ledger, N: Naming, R: Wait, G: Gate>(
    rt: &R,
    connection: &Connection<'_, L, N, G>,
    seat: &mut Seat<L>,
    mut piece: Bytes,
) -> ReadOutcome<N> {
    for _ in rt.forever() {
        match connection.hear(rt, seat, piece) {
            PieceHeard::Taken {
                goes_on,
                replies,
                found,
            } => {
                connection.write(rt, replies);
                if !goes_on {
                    connection.desk.note_fault(rt);
                }
                return came_with(goes_on, found);
            }
            PieceHeard::Held(back, seen) => {
                connection.desk.wait(rt, Event::Room, seen);
                if connection.desk.is_over(rt) {
                    return ReadOutcome::End;
                }
                piece = back;
            }
            PieceHeard::Refused => return cut(rt, connection),
        }
    }
    unreachable!()
}

fn came_with<N: Naming>(goes_on: bool, found: Option<NextWork<N>>) -> ReadOutcome<N> {
    match found {
        Some(found) => ReadOutcome::Message(found),
        None if goes_on => ReadOutcome::Nothing,
        None => ReadOutcome::End,
    }
}
