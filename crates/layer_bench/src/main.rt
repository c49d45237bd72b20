//! Times layers of the server alone: the decoder of messages, the walker, the table of refs, atoms
//! and agents, and the acts of a book.
//! Each line of standard input names a layer and gives numbers; what stands behind the line `wire`
//! or `acts` is a bencode stream.
#![tactic(auto)]

ghost use Rattle.std.specs.Prelude.{◌≡◌};
ghost use Rattle.ref_history.specs.Changes.{IsAbsent};
ghost use Rattle.ref_history.specs.declared.ref_id.RefId.{RefId};

mod acts;
mod cells;
mod refs;
mod walker;
mod wire;

use journal_book::PARTS;
use ref_history::{History, ListHistory, RingHistory};
use std::io::{self, Read};
use std::marker::Brand;
use std::str::SplitWhitespace;
use std::sync::ledger::Blank;

// What a long message has, in bytes.
const LONG_MESSAGE: usize = 1_000_000;

// What is no number counts as 0.
fn number_of(word: Option<&str>) -> u64 {
    match word {
        Some(word) => word.parse::<u64>().unwrap_or(0),
        None => 0,
    }
}

fn time_refs<H: History>(
    rt: &HostRuntime,
    history: H,
    words: &mut SplitWhitespace<'_>,
) -> io::Result<()>
    requires { (id : RefId) → IsAbsent (H.stands history) id }
{
    let counts = refs::run(rt.alloc(), history, refs::size_of(words))?;
    let refs::RefCounts {
        committed,
        found,
        to_retry,
    } = counts;
    println!(rt; "{committed} committed, {found} found, {to_retry} to retry")
}

fn time_cells(rt: &HostRuntime, words: &mut SplitWhitespace<'_>) -> io::Result<()> {
    let counts = cells::run(rt.alloc(), cells::size_of(words))?;
    let cells::CellCounts { ran, kept } = counts;
    println!(rt; "{ran} ran, {kept} kept")
}

fn time_walker(rt: &HostRuntime, words: &mut SplitWhitespace<'_>) -> io::Result<()> {
    let counts = walker::run(rt.alloc(), walker::size_of(words))?;
    let walker::WalkCounts {
        asked,
        conflicts,
        values,
    } = counts;
    println!(rt; "{asked} asked, {conflicts} conflicts, {values} values")
}

fn time_wire(rt: &HostRuntime, words: &mut SplitWhitespace<'_>) -> io::Result<()> {
    let piece = wire::piece_of(number_of(words.next()));
    let messages = wire::count_messages(rt.alloc(), &mut rt.reader(), piece)?;
    println!(rt; "{messages} messages")
}

// How many microseconds the longest act of each kind takes.
fn time_acts(rt: &HostRuntime) -> io::Result<()> {
    let mut stream = Vec::new(rt.alloc());
    rt.reader().read_to_end(&mut stream)?;
    let copied = &stream[..stream.len().min(LONG_MESSAGE)];
    let copy = acts::time_of_copy(rt, rt.alloc(), copied)?;
    let longest = longest_acts(rt, Blank::new(PARTS), stream.as_slice())?;
    let acts::Longest {
        hear,
        start,
        ask,
        end,
        drain,
        leave,
        refs,
    } = longest;
    println!(rt;
        "microseconds: hear {}, start {}",
        hear / 1_000,
        start / 1_000
    )?;
    println!(rt; "ask {}, end {}", ask / 1_000, end / 1_000)?;
    println!(rt; "drain {}, leave {}", drain / 1_000, leave / 1_000)?;
    println!(rt; "refs {}", refs / 1_000)?;
    println!(rt; "a copy of {} bytes {}", copied.len(), copy / 1_000)
}

fn longest_acts(rt: &HostRuntime, blank: Blank, stream: &[u8]) -> io::Result<acts::Longest>
    requires { blank.parts ≡ 5000001 }
{
    acts::run::<Brand, HostRuntime>(rt, rt.alloc(), blank, stream)
}

// Times the layer that the line names, and answers whether a line may follow it.
fn time_layer(rt: &HostRuntime, line: &str) -> io::Result<bool> {
    let mut words = line.split_whitespace();
    match words.next() {
        Some("refs") => time_refs(rt, ListHistory::new(rt.alloc()), &mut words)?,
        Some("rings") => time_refs(rt, RingHistory::new(rt.alloc()), &mut words)?,
        Some("cells") => time_cells(rt, &mut words)?,
        Some("walker") => time_walker(rt, &mut words)?,
        Some("wire") => {
            time_wire(rt, &mut words)?;
            return Ok(false);
        }
        Some("acts") => {
            time_acts(rt)?;
            return Ok(false);
        }
        _ => println!(rt; "no such layer: {line}")?,
    }
    Ok(true)
}

fn main(rt: HostRuntime) -> io::Result<()> {
    for _ in 0..u64::MAX {
        let mut line = String::new(rt.alloc());
        if rt.read_line(&mut line)? == 0 || !time_layer(&rt, line.trim())? {
            return Ok(());
        }
    }
    Ok(())
}
