// Counts the messages of a bencode stream, so that the decoder can be timed alone. Messages before
// a fault are counted; what follows one is not read.

ghost use Rattle.std.specs.Prelude.{◌≡◌, ◌+◌, ◌<◌, ◌≤◌, length};
ghost use Rattle.bencode_wire.specs.Inside.Decoder.{ready_of};

use bencode_wire::Decoder;
use bytes::Bytes;
use std::alloc::Global;
use std::io::{self, Read};

// The greatest length of a message, and of a string in one.
const LIMIT: usize = 1_048_576;

// The greatest length of a piece.
const PIECE: usize = 4_096;

// The length of pieces that a line asks for; where it asks for none, the greatest.
pub(crate) fn piece_of(length: u64) -> usize
    ensures some { 0 < result }
    ensures within { result ≤ PIECE }
{
    match usize::try_from(length) {
        Ok(length) if 0 < length => length.min(PIECE),
        _ => PIECE,
    }
}

// A piece ends no more messages than it has bytes.
const MOST_MESSAGES: u64 = 4_096;

// Takes the messages that a piece made whole.
fn take_ready(decoder: &mut Decoder) -> u64
    ensures { result + length (ready_of decoder.new) ≡ length (ready_of decoder.old) }
{
    for taken in 0..MOST_MESSAGES {
        if decoder.next().is_none() {
            return taken;
        }
    }
    MOST_MESSAGES
}

// Reads the stream in pieces of at most so many bytes.
pub(crate) fn count_messages<R: Read>(alloc: Global, reader: &mut R, most: usize) -> io::Result<u64>
    requires { most ≤ PIECE }
{
    let mut decoder = Decoder::new(alloc, LIMIT);
    let mut buffer = [0u8; PIECE];
    let mut messages: u64 = 0;
    for _ in 0..u64::MAX {
        let n = reader.read(&mut buffer[..most])?;
        if n == 0 {
            return Ok(messages);
        }
        let piece = Bytes::copy_from_slice(alloc, &buffer[..n])?;
        let fed = decoder.feed(&piece);
        messages = messages.saturating_add(take_ready(&mut decoder));
        decoder.settle();
        if fed.is_err() {
            return Ok(messages);
        }
    }
    Ok(messages)
}
