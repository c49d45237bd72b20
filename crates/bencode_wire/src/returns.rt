// A decoder goes back over its last piece, or lets go of what it would need for that.
ghost use Rattle.std.specs.Prelude.{◌≡◌, ℕ, List, [], ◌++◌, None};
ghost use Rattle.bencode_wire.specs.Tree.{Tree};
ghost use Rattle.bencode_wire.specs.Inside.Course.{ready_view};
ghost use Rattle.bencode_wire.specs.Inside.Decoder.{ready_of, fault_of, IsUnchanged, DecoderStands};
ghost use Rattle.bencode_wire.specs.Inside.Return.{earlier_of, CanReturn};

use crate::ben::Ben;
use crate::decoder::{Before, Decoder};
use std::collections::VecDeque;
use std::mem;

impl Decoder {
    /// Hands out all messages that are whole, oldest first. It takes no memory.
    pub fn take_ready(&mut self) -> VecDeque<Ben>
        ensures value { ready_view result.items ≡ ready_of self.old }
        ensures taken { self.new ≡ record self.old { ready = [] } }
        ensures stands { (limit : ℕ) (all : List ℕ) (taken : List Tree)
            → DecoderStands limit self.old all taken
            → DecoderStands limit self.new all (taken ++ ready_view result.items) }
        ensures returns { (limit : ℕ) (all : List ℕ) (taken : List Tree)
            → CanReturn limit self.old all taken
            → CanReturn limit self.new all taken }
    {
        mem::replace(&mut self.ready, VecDeque::new(self.alloc))
    }

    /// Takes the last piece back, as if it had not come: its bytes, its messages, also those that
    /// were handed out, and its fault. Where a message was ready before that piece, or it was taken
    /// back or settled, nothing changes. It takes no memory.
    pub fn take_back(&mut self)
        ensures none { earlier_of self.old ≡ None → self.new ≡ self.old }
        ensures spent { earlier_of self.new ≡ None }
        ensures nothing { ready_of self.old ≡ [] → ready_of self.new ≡ [] }
        ensures stands { (limit : ℕ) (all : List ℕ) (taken : List Tree)
            → CanReturn limit self.old all taken
            → DecoderStands limit self.new all taken }
        ensures ready { (limit : ℕ) (all : List ℕ) (taken : List Tree)
            → CanReturn limit self.old all taken
            → ready_of self.new ≡ [] }
        ensures fault { (limit : ℕ) (all : List ℕ) (taken : List Tree)
            → CanReturn limit self.old all taken
            → fault_of self.new ≡ None }
    {
        let Some(Before { come, read }) = self.before.take() else {
            return;
        };
        self.message.reader.take_back();
        self.message.come = come;
        self.read = read;
        self.ready.clear();
        self.fault = None;
    }

    /// Lets go of what is kept for taking the last piece back, as the next piece does by itself. It
    /// takes no memory.
    pub fn settle(&mut self)
        ensures unchanged { IsUnchanged self.old self.new }
        ensures earlier { earlier_of self.new ≡ None }
        ensures stands { (limit : ℕ) (all : List ℕ) (taken : List Tree)
            → DecoderStands limit self.old all taken
            → DecoderStands limit self.new all taken }
    {
        self.message.reader.forget();
        self.before = None;
    }
}
