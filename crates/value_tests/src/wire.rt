// Streams that are whole, broken off or hostile, and what is written again. What a call is
// refused for want of memory it is asked once more: any one refusal changes no answer.
use Stream::{Limited, Refused, Rest, Sorted, Whole};
use WireFault::{Malformed, TooDeep, TooLong};
use bencode_wire::{Ben, Decoder, WireFault, write_into};
use bytes::Bytes;
use std::alloc::{AllocError, Global};

const LIMIT: usize = 1_048_576;

// A stream, and what comes of it.
#[derive(Clone, Copy)]
enum Stream {
    // messages that are written as they were spelled
    Whole(&'static [u8]),
    // messages that are written otherwise
    Sorted(&'static [u8], &'static [u8]),
    // the beginning of a message
    Rest(&'static [u8]),
    // messages as they are written, and then a fault
    Refused(&'static [u8], &'static [u8], WireFault),
    // the same, where the decoder has this limit
    Limited(usize, &'static [u8], &'static [u8], WireFault),
}

const STREAMS: &[Stream] = &[
    Whole(b""),
    Whole(b"d1:vi-3e1:wi0ee"),
    Whole(b"d3:cow3:moo4:spaml1:a1:bd0:0:eee"),
    Whole(b"d4:code7:(+ 1 2)2:id1:72:op4:evale"),
    Rest(b"d4:code7:(+ 1"),
    Sorted(
        b"d2:op4:eval4:code7:(+ 1 2)2:id1:7e",
        b"d4:code7:(+ 1 2)2:id1:72:op4:evale",
    ),
    Refused(
        b"d4:code7:(+ 1 2)2:id1:72:op4:evalex",
        b"d4:code7:(+ 1 2)2:id1:72:op4:evale",
        Malformed(34),
    ),
    Refused(b"d2:id1:12:id1:2e", b"", Malformed(11)),
    Refused(b"d1:vi-0ee", b"", Malformed(6)),
    Whole(b"d1:ai-9223372036854775808ee"),
    Refused(b"d1:ai9223372036854775808ee", b"", Malformed(23)),
    Refused(b"de3:abc", b"de", Malformed(2)),
    Refused(b"d1:a00:e", b"", Malformed(5)),
    Refused(b"d1:ai3x", b"", Malformed(6)),
    // Nesting of 64, and of 65.
    Rest(b"d1:alllllllllllllllllllllllllllllllllllllllllllllllllllllllllllllll"),
    Refused(
        b"d1:allllllllllllllllllllllllllllllllllllllllllllllllllllllllllllllll",
        b"",
        TooDeep(67),
    ),
    // A string and a message that are too long; the length of a message is tried first.
    Refused(b"d2:id1048577:", b"", TooLong(11)),
    Rest(b"d2:id1048576:"),
    Limited(9, b"d1:a10:0123456789e", b"", TooLong(5)),
    // A length that passes 64 bits is above each limit, be it a key's or a value's.
    Limited(usize::MAX, b"d18446744073709551616", b"", TooLong(20)),
    Limited(usize::MAX, b"d1:a99999999999999999999", b"", TooLong(23)),
    Limited(
        10_000_000_000_000_000_000,
        b"d99999999999999999999",
        b"",
        TooLong(20),
    ),
    Limited(17, b"d1:a10:0123456789e", b"", TooLong(17)),
    Limited(2, b"deded1:a", b"dede", TooLong(6)),
    Limited(4, b"d1:ax", b"", TooLong(4)),
    Limited(5, b"d1:ax", b"", Malformed(4)),
];

// A stream, the decoder's limit, and what comes of it: its messages as they are written, whether
// the rest is empty, and the fault.
#[derive(Clone, Copy)]
struct StreamCase {
    stream: &'static [u8],
    limit: usize,
    written: &'static [u8],
    rest_is_empty: bool,
    fault: Option<WireFault>,
}

fn row_of(stream: Stream) -> StreamCase {
    match stream {
        Whole(stream) => make_row(LIMIT, stream, stream, true, None),
        Sorted(stream, written) => make_row(LIMIT, stream, written, true, None),
        Rest(stream) => make_row(LIMIT, stream, b"", false, None),
        Refused(stream, written, fault) => make_row(LIMIT, stream, written, false, Some(fault)),
        Limited(limit, stream, written, fault) => {
            make_row(limit, stream, written, false, Some(fault))
        }
    }
}

fn make_row(
    limit: usize,
    stream: &'static [u8],
    written: &'static [u8],
    rest_is_empty: bool,
    fault: Option<WireFault>,
) -> StreamCase {
    StreamCase {
        stream,
        limit,
        written,
        rest_is_empty,
        fault,
    }
}

fn piece(alloc: Global, bytes: &[u8]) -> Result<Bytes, AllocError> {
    match Bytes::copy_from_slice(alloc, bytes) {
        Ok(piece) => Ok(piece),
        Err(_refused) => Bytes::copy_from_slice(alloc, bytes),
    }
}

// Feeds a piece, and notes the fault.
fn feed(
    alloc: Global,
    decoder: &mut Decoder,
    bytes: &[u8],
) -> Result<Option<WireFault>, AllocError> {
    let piece = piece(alloc, bytes)?;
    let answer = match decoder.feed(&piece) {
        Err(WireFault::NoMemory) => decoder.feed(&piece),
        answer => answer,
    };
    Ok(answer.err())
}

// Writes a copy of the value.
fn write(value: &Ben, out: &mut Vec<u8>) -> Result<(), AllocError> {
    let alloc = *out.allocator();
    let copied = match value.copy(alloc) {
        Ok(copied) => copied,
        Err(_refused) => value.copy(alloc)?,
    };
    match write_into(&copied, out) {
        Ok(()) => Ok(()),
        Err(_refused) => write_into(&copied, out),
    }
}

fn copied(decoder: &Decoder) -> Result<Decoder, AllocError> {
    match decoder.copy() {
        Ok(copied) => Ok(copied),
        Err(_refused) => decoder.copy(),
    }
}

// Writes the messages that are ready.
fn write_ready(decoder: &mut Decoder, out: &mut Vec<u8>) -> Result<(), AllocError> {
    for _ in 0..100 {
        if let Some(message) = decoder.next() {
            write(&message, out)?;
        }
    }
    Ok(())
}

// Whether what was written, what is left and the fault are the row's.
fn is_as_wanted(
    row: StreamCase,
    decoder: &Decoder,
    written: &[u8],
    fault: Option<WireFault>,
) -> bool {
    written == row.written && decoder.rest_is_empty() == row.rest_is_empty && fault == row.fault
}

// Feeds the piece, and writes the messages that it completes.
fn feed_and_write(
    alloc: Global,
    decoder: &mut Decoder,
    piece: &[u8],
    written: &mut Vec<u8>,
) -> Result<Option<WireFault>, AllocError> {
    let fault = feed(alloc, decoder, piece)?;
    let taken = decoder.take_ready();
    for at in 0..taken.len() {
        write(&taken[at], written)?;
    }
    Ok(fault)
}

// Whether the row is read so where its second piece comes, is taken back and comes again. What it
// completed before it was taken back is forgotten.
fn reads_again(
    alloc: Global,
    row: StreamCase,
    first: &[u8],
    second: &[u8],
) -> Result<bool, AllocError> {
    let mut decoder = Decoder::new(alloc, row.limit);
    let mut written = Vec::new(alloc);
    let mut fault = feed_and_write(alloc, &mut decoder, first, &mut written)?;
    if fault.is_none() {
        let mut forgotten = Vec::new(alloc);
        feed_and_write(alloc, &mut decoder, second, &mut forgotten)?;
        decoder.take_back();
        fault = feed_and_write(alloc, &mut decoder, second, &mut written)?;
    }
    Ok(is_as_wanted(row, &decoder, written.as_slice(), fault))
}

#[test]
fn reads_and_takes_back_at_every_cut(rt: HostRuntime) -> Result<(), AllocError> {
    for stream in STREAMS {
        let row = row_of(*stream);
        for cut in 0..row.stream.len() + 1 {
            let (first, second) = (&row.stream[..cut], &row.stream[cut..]);
            assert!(rt; reads_again(rt.alloc(), row, first, second)?);
        }
    }
    Ok(())
}

#[test]
fn a_settled_piece_stays(rt: HostRuntime) -> Result<(), AllocError> {
    let alloc = rt.alloc();
    let mut decoder = Decoder::new(alloc, LIMIT);
    let mut written = Vec::new(alloc);
    feed_and_write(alloc, &mut decoder, b"ded1:a", &mut written)?;
    decoder.settle();
    decoder.take_back();
    feed_and_write(alloc, &mut decoder, b"i1ee", &mut written)?;
    assert!(rt; written.as_slice() == b"ded1:ai1ee".as_slice());
    assert!(rt; decoder.rest_is_empty());
    Ok(())
}

// How many bytes of a token have come behind each of these.
const HELD: &[(&[u8], usize)] = &[
    (b"", 0),
    (b"d", 0),
    (b"d2", 1),
    (b"d2:", 2),
    (b"d2:i", 3),
    (b"d2:id", 0),
    (b"d2:id1", 1),
    (b"d2:idi-", 2),
    (b"d2:idi-12", 4),
    (b"d2:idi-12e", 0),
    (b"d2:idl12:hello", 8),
    (b"d4:code7:(+ 1 2)2:id", 0),
    (b"d4:code7:(+ 1 2)2:id1", 1),
    (b"d4:code7:(+ 1 2)2:id1:7e", 0),
];

#[test]
fn holds_what_has_come_of_a_token(rt: HostRuntime) -> Result<(), AllocError> {
    for (bytes, held) in HELD {
        let mut decoder = Decoder::new(rt.alloc(), LIMIT);
        feed(rt.alloc(), &mut decoder, *bytes)?;
        assert!(rt; decoder.held() == *held);
    }
    Ok(())
}

// Feeds the bytes one by one, to a copy of the decoder each, and notes the last fault.
fn feed_bytes(
    alloc: Global,
    decoder: &mut Decoder,
    stream: &[u8],
    written: &mut Vec<u8>,
) -> Result<Option<WireFault>, AllocError> {
    let mut fault = None;
    for at in 0..stream.len() {
        fault = feed(alloc, decoder, &stream[at..at + 1])?;
        *decoder = copied(decoder)?;
        write_ready(decoder, written)?;
    }
    Ok(fault)
}

fn is_read_byte_by_byte(alloc: Global, row: StreamCase) -> Result<bool, AllocError> {
    let mut decoder = Decoder::new(alloc, row.limit);
    let mut written = Vec::new(alloc);
    let fault = feed_bytes(alloc, &mut decoder, row.stream, &mut written)?;
    Ok(is_as_wanted(row, &decoder, written.as_slice(), fault))
}

#[test]
fn reads_byte_by_byte(rt: HostRuntime) -> Result<(), AllocError> {
    for stream in STREAMS {
        assert!(rt; is_read_byte_by_byte(rt.alloc(), row_of(*stream))?);
    }
    Ok(())
}
