// Reading a piece, run by run.
ghost use Rattle.std.specs.Prelude.{◌≡◌, ◌<◌, ◌≤◌, ◌+◌, ◌-◌, ◌^◌, min, List, length, IfOk};
ghost use Rattle.bencode_wire.specs.Inside.Fronts.{BeginsWith};
ghost use Rattle.bencode_wire.specs.Inside.Reader.{BeginsShort};
ghost use Rattle.bencode_wire.specs.Inside.Course.{ReadsAll, ReadsTo};
ghost use Rattle.bencode_wire.specs.Inside.GoingBack.{GoesBack};

use crate::ben::Ben;
use crate::cut::Unfinished;
use crate::fault::WireFault;
use std::alloc::Global;
use std::collections::VecDeque;

// A piece, of which the first byte is at `start` in the stream.
#[derive(Clone, Copy)]
pub(crate) struct Piece<'a> {
    pub(crate) limit: usize,
    pub(crate) start: u64,
    pub(crate) bytes: &'a [u8],
}

impl Piece<'_> {
    // Reads it to its end.
    pub(crate) fn read(
        self,
        alloc: Global,
        message: &mut Unfinished,
        ready: &mut VecDeque<Ben>,
    ) -> Result<(), WireFault>
        ensures front { BeginsWith ready.new.items ready.old.items }
        ensures reads { ReadsAll self.entry.limit self.entry.start self.entry.bytes.now message.old
            message.new ready.old.items ready.new.items result }
        ensures back { GoesBack message.old.reader message.new.reader }
    {
        let mut at = 0;
        while at < self.bytes.len() {
            at = self.advance(alloc, at, message, ready)?;
        }
        Ok(())
    }

    // Reads a short string that is there whole, or one run more. Answers where it ends.
    fn advance(
        self,
        alloc: Global,
        at: usize,
        message: &mut Unfinished,
        ready: &mut VecDeque<Ben>,
    ) -> Result<usize, WireFault>
        requires within { at < length self.bytes.now }
        ensures front { BeginsWith ready.new.items ready.old.items }
        ensures reads { ReadsTo self.entry.limit self.entry.start self.entry.bytes.now message.old
            at message.new ready.old.items ready.new.items result }
        ensures within { IfOk result (λ end. end ≤ length self.entry.bytes.now) }
        ensures more { IfOk result (λ end. at < end) }
        ensures back { GoesBack message.old.reader message.new.reader }
    {
        let come = message.come;
        if self.limit <= come {
            return Err(WireFault::TooLong(self.start.saturating_add(at as u64)));
        }
        let available = (self.bytes.len() - at).min(self.limit - come);
        match message.reader.short_len(self.bytes, at, available) {
            Some(len) => self.advance_short(alloc, at, message, len),
            None => self.advance_run(alloc, at, message, ready, available),
        }
    }

    // Reads one run more.
    fn advance_run(
        self,
        alloc: Global,
        at: usize,
        message: &mut Unfinished,
        ready: &mut VecDeque<Ben>,
        available: usize,
    ) -> Result<usize, WireFault>
        requires some { 0 < available }
        requires within { at + available ≤ length self.bytes.now }
        requires room { message.old.come + available ≤ self.limit }
        ensures front { BeginsWith ready.new.items ready.old.items }
        ensures reads { ReadsTo self.entry.limit self.entry.start self.entry.bytes.now message.old
            at message.new ready.old.items ready.new.items result }
        ensures within { IfOk result (λ end. end ≤ length self.entry.bytes.now) }
        ensures more { IfOk result (λ end. at < end) }
        ensures back { GoesBack message.old.reader message.new.reader }
    {
        let run = message.reader.run_len(available);
        let end = at + run;
        match message.reader.step(alloc, self.limit, &self.bytes[at..end]) {
            Ok(None) => {
                message.come += run;
                Ok(end)
            }
            Ok(Some(whole)) => {
                if ready.push_back(whole).is_err() {
                    return Err(WireFault::NoMemory);
                }
                message.come = 0;
                Ok(end)
            }
            Err(refusal) => Err(refusal.at(place_before(self.start, end))),
        }
    }

    // Reads a string of fewer than ten bytes with the length that stands before it.
    fn advance_short(
        self,
        alloc: Global,
        at: usize,
        message: &mut Unfinished,
        len: usize,
    ) -> Result<usize, WireFault>
        requires begins { BeginsShort message.old.reader self.bytes.now at len }
        requires within { at + 2 + len ≤ length self.bytes.now }
        requires room { message.old.come + 2 + len ≤ self.limit }
        ensures reads { (ready : List Ben) → ReadsTo self.entry.limit self.entry.start
            self.entry.bytes.now message.old at message.new ready ready result }
        ensures at { IfOk result (λ end. end ≡ at + 2 + len) }
        ensures back { GoesBack message.old.reader message.new.reader }
    {
        let from = at + 2;
        let end = from + len;
        match message.reader.read_short(alloc, &self.bytes[from..end]) {
            Ok(()) => {
                message.come += 2 + len;
                Ok(end)
            }
            Err(refusal) => Err(refusal.at(place_before(self.start, end))),
        }
    }
}

// The place in the stream of the byte before `end`.
fn place_before(start: u64, end: usize) -> u64
    requires { 0 < end }
    ensures { result ≡ min (start + (end - 1)) (2 ^ 64 - 1) }
{
    start.saturating_add(end as u64 - 1)
}
