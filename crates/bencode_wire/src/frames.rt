// The lists and dictionaries that are open, of which those that were open before the last piece can
// be taken back to what they were. What is refused changes nothing.
ghost use Rattle.std.specs.Prelude.{◌≡◌, ◌<◌, List, [], ◌∷◌, length, nat_lt, true, false};
ghost use Rattle.std.specs.Prelude.{MatchOption, OnOk, OnErr};
ghost use Rattle.bencode_wire.specs.Inside.Cut as cuts;
ghost use Rattle.bencode_wire.specs.Inside.Beginnings as beginnings;
ghost use Rattle.bencode_wire.specs.Inside.ByteSteps.{judged};
ghost use Rattle.bencode_wire.specs.Spelling.{put_sorted};
ghost use Rattle.bencode_wire.specs.Inside.View.{tree_view};
ghost use Rattle.bencode_wire.specs.Inside.Reader.{frame_view, open_view, live_frames_view};
ghost use Rattle.bencode_wire.specs.Inside.Gives.{Puts, Yields, YieldsPut};
ghost use Rattle.bencode_wire.specs.Inside.Places.{GivesValueBack};
ghost use Rattle.bencode_wire.specs.Inside.Undoing.{IsSame, PutBy, Undoable, LogsPut};

use crate::ben::Ben;
use crate::containers::{ended, ended_copy, expected_in, next_place, put_into, reopened};
use crate::cut::{Change, Expected, Frames, OpenContainer, Refused, Token, TokenProgress};
use crate::fault::WireFaultKind;
use std::alloc::Global;
use std::mem;

// How deep lists and dictionaries may nest, the message itself included.
const MAX_NESTING: usize = 64;

impl Frames {
    pub(crate) fn new(alloc: Global) -> Frames
        ensures { open_view result ≡ [] }
    {
        Frames {
            settled: Vec::new(alloc),
            live: 0,
            ended: None,
            changes: Vec::new(alloc),
            fresh: Vec::new(alloc),
        }
    }

    fn has_room(&self) -> bool
        ensures { result ≡ nat_lt (length (open_view self.now)) MAX_NESTING }
    {
        self.live.saturating_add(self.fresh.len()) < MAX_NESTING
    }

    // Whether nothing is open.
    pub(crate) fn is_empty(&self) -> bool
        ensures empty { result ≡ true → open_view self.now ≡ [] }
        ensures some { result ≡ false → 0 < length (open_view self.now) }
    {
        self.live == 0 && self.fresh.is_empty()
    }

    fn innermost(&self) -> Option<&OpenContainer>
        ensures { MatchOption result (open_view self.now ≡ []) (λ innermost.
            (outer : List cuts.OpenContainer)
            × (open_view self.now ≡ frame_view innermost.now ∷ outer)) }
    {
        match self.fresh.last() {
            Some(innermost) => Some(innermost),
            None => self.settled[..self.live].last(),
        }
    }

    // What may come between two tokens.
    pub(crate) fn expected(&self) -> Expected
        ensures { result ≡ beginnings.expected_in (open_view self.now) }
    {
        match self.innermost() {
            None => Expected::Message,
            Some(innermost) => expected_in(innermost),
        }
    }

    pub(crate) fn open(&mut self, frame: OpenContainer) -> Result<TokenProgress, WireFaultKind>
        ensures yields { Yields
            (judged (beginnings.opens (frame_view frame) (open_view self.old)))
            (open_view self.new) result }
        ensures undoable { Undoable self.old self.new }
    {
        if self.has_room() {
            self.fresh.push(frame)?;
            Ok(TokenProgress::Partial(Token::Between))
        } else {
            Err(WireFaultKind::TooDeep)
        }
    }

    // A value that is whole goes into the innermost list or dictionary, or is the message.
    pub(crate) fn put(&mut self, alloc: Global, value: Ben) -> Result<TokenProgress, Refused>
        ensures yields { YieldsPut
            (judged (beginnings.put put_sorted (open_view self.old) (tree_view value)))
            (open_view self.new) result }
        ensures refused { GivesValueBack value result }
        ensures same { OnErr result (IsSame self.old self.new) }
        ensures put { OnOk result (PutBy (tree_view value) self.old self.new) }
    {
        if let Some(innermost) = self.fresh.last_mut() {
            put_into(innermost, value)?;
            return Ok(TokenProgress::Partial(Token::Between));
        }
        if self.live == 0 {
            return Ok(TokenProgress::Whole(value));
        }
        self.put_settled(alloc, value, false)?;
        Ok(TokenProgress::Partial(Token::Between))
    }

    // The same, where a value that is refused is dropped.
    pub(crate) fn put_whole(
        &mut self,
        alloc: Global,
        value: Ben,
    ) -> Result<TokenProgress, WireFaultKind>
        ensures yields { Yields
            (judged (beginnings.put put_sorted (open_view self.old) (tree_view value)))
            (open_view self.new) result }
        ensures undoable { Undoable self.old self.new }
    {
        match self.put(alloc, value) {
            Ok(progress) => Ok(progress),
            Err(refused) => Err(refused.kind),
        }
    }

    // Puts a value into the innermost of those that were open before, where none is open since. It
    // may be what ended in it.
    fn put_settled(&mut self, alloc: Global, value: Ben, is_ended: bool) -> Result<(), Refused>
        requires { 0 < self.old.live }
        ensures puts { Puts
            (judged (beginnings.put put_sorted (live_frames_view self.old) (tree_view value)))
            (live_frames_view self.new) result }
        ensures refused { GivesValueBack value result }
        ensures changes { OnErr result (self.new.changes.items ≡ self.old.changes.items) }
        ensures same { OnErr result (live_frames_view self.new ≡ live_frames_view self.old) }
        ensures logs { OnOk result (LogsPut is_ended (tree_view value) self.old self.new) }
        ensures live { self.new.live ≡ self.old.live }
        ensures long { length self.new.settled.items ≡ length self.old.settled.items }
        ensures ended { self.new.ended ≡ self.old.ended }
        ensures fresh { self.new.fresh ≡ self.old.fresh }
    {
        let at = self.live - 1;
        let Ok(place) = next_place(alloc, &self.settled[at]) else {
            return Err(Refused::for_memory(value));
        };
        let change = if is_ended {
            Change::Ended(place)
        } else {
            Change::Put(place)
        };
        if self.changes.push(change).is_err() {
            return Err(Refused::for_memory(value));
        }
        match put_into(&mut self.settled[at], value) {
            Ok(()) => Ok(()),
            Err(refused) => {
                drop(self.changes.pop());
                Err(refused)
            }
        }
    }

    // The end of the innermost list or dictionary.
    pub(crate) fn close(&mut self, alloc: Global) -> Result<TokenProgress, WireFaultKind>
        ensures yields { Yields (judged (beginnings.close put_sorted (open_view self.old)))
            (open_view self.new) result }
        ensures undoable { Undoable self.old self.new }
    {
        match self.expected() {
            Expected::Message | Expected::Value => return Err(WireFaultKind::Malformed),
            Expected::ItemOrEnd | Expected::KeyOrEnd => {}
        }
        match self.fresh.pop() {
            Some(frame) => self.put_whole(alloc, ended(frame)),
            None => self.end_settled(alloc),
        }
    }

    fn end_settled(&mut self, alloc: Global) -> Result<TokenProgress, WireFaultKind>
        requires some { 0 < self.old.live }
        requires fresh { self.old.fresh.items ≡ [] }
        requires ends { cuts.InnermostCanEnd (live_frames_view self.old) }
        ensures yields { Yields (judged (beginnings.close put_sorted (live_frames_view self.old)))
            (live_frames_view self.new) result }
        ensures undoable { Undoable self.old self.new }
        ensures fresh { self.new.fresh.items ≡ [] }
    {
        if self.live == 1 {
            return self.end_message(alloc);
        }
        let at = self.live - 1;
        let frame = mem::replace(&mut self.settled[at], shell(alloc));
        self.live = at;
        match self.put_settled(alloc, ended(frame), true) {
            Ok(()) => Ok(TokenProgress::Partial(Token::Between)),
            Err(Refused { kind, value }) => {
                self.settled[at] = reopened(value);
                self.live = at + 1;
                Err(kind)
            }
        }
    }

    // The message is copied, so that the outermost can be taken back.
    fn end_message(&mut self, alloc: Global) -> Result<TokenProgress, WireFaultKind>
        requires one { self.old.live ≡ 1 }
        requires fresh { self.old.fresh.items ≡ [] }
        requires ends { cuts.InnermostCanEnd (live_frames_view self.old) }
        ensures yields { Yields (judged (beginnings.close put_sorted (live_frames_view self.old)))
            (live_frames_view self.new) result }
        ensures undoable { Undoable self.old self.new }
        ensures fresh { self.new.fresh.items ≡ [] }
    {
        let message = ended_copy(alloc, &self.settled[0])?;
        let outermost = mem::replace(&mut self.settled[0], shell(alloc));
        self.live = 0;
        self.ended = Some(outermost);
        Ok(TokenProgress::Whole(message))
    }
}

// What stands for one that ended. It takes no memory.
fn shell(alloc: Global) -> OpenContainer {
    OpenContainer::List(Vec::new(alloc))
}
