// A stream of messages, fed in pieces of any size.
ghost use Rattle.std.specs.Prelude.{◌≡◌, ◌≢◌, ◌↔◌, ◌++◌, ℕ, List, [], IsTrue, None, Some, Err};
ghost use Rattle.std.specs.Prelude.{OnOk, IfOk, IfErr, option_map, option_to_list};
ghost use Rattle.bencode_wire.specs.Tree.{Tree};

use crate::ben::Ben;
use crate::copy::copy_queue;
use crate::cut::{Reader, Unfinished};
use crate::fault::WireFault;
use crate::piece::Piece;
use bytes::Bytes;
use std::alloc::{AllocError, Global};
use std::collections::VecDeque;
use std::marker::Model;

/// Reads a stream of messages.
///
/// Of an unfinished message its lists, dictionaries and values are kept, and what has come of a
/// string lies where its value will be: no byte of it is kept beside. A piece costs the reading of
/// its own bytes, however the stream is cut. A message that came in several pieces is copied when
/// it is whole, so that the last piece can be taken back. Contracts see what it shows, a
/// `DecoderState`.
#[derive(Drop)]
pub struct Decoder {
    pub(crate) alloc: Global,
    limit: usize,
    // How many bytes of the stream were read, up to the greatest number.
    pub(crate) read: u64,
    pub(crate) message: Unfinished,
    // The messages that are whole and were not handed out, oldest first.
    pub(crate) ready: VecDeque<Ben>,
    pub(crate) fault: Option<WireFault>,
    // How far it was before the last piece, where no message was ready then.
    pub(crate) before: Option<Before>,
}

#[derive(Clone, Copy)]
pub(crate) struct Before {
    pub(crate) come: usize,
    pub(crate) read: u64,
}

impl Model for Decoder {
    ghost use Rattle.bencode_wire.specs.Inside.State.{DecoderState};
    ghost use Rattle.bencode_wire.specs.contracts.ben.Ben as messages;
    ghost use Rattle.bencode_wire.specs.contracts.cut.Reader as readers;
    ghost use Rattle.std.specs.Coded.{codes};

    ghost Value = { DecoderState };

    ghost coded = { Prim.hlevel (codes, messages.the_row.coded, readers.the_row.coded) };

    ghost use Rattle.bencode_wire.specs.Inside.Decoding.{shown_state, IsInStep};

    ghost view = { shown_state };

    ghost invariant = { IsInStep };
}

impl Decoder {
    ghost use Rattle.bencode_wire.specs.Inside.View.{tree_view};
    ghost use Rattle.bencode_wire.specs.Inside.Decoder.{ready_of, rest_size, fault_of, IsUnchanged};
    ghost use Rattle.bencode_wire.specs.Inside.Decoder.{DecoderStands};
    ghost use Rattle.bencode_wire.specs.Inside.Return.{earlier_of, CanReturn};

    /// A decoder at the start of a stream. `limit` is the greatest length in bytes of a message,
    /// and of a string in one, whose room is made as soon as its length has come.
    pub fn new(alloc: Global, limit: usize) -> Decoder
        ensures stands { DecoderStands limit result [] [] }
        ensures ready { ready_of result ≡ [] }
        ensures fault { fault_of result ≡ None }
    {
        Decoder {
            alloc,
            limit,
            read: 0,
            message: Unfinished {
                reader: Reader::new(alloc),
                come: 0,
            },
            ready: VecDeque::new(alloc),
            fault: None,
            before: None,
        }
    }

    /// Takes the next piece of the stream, which may be empty. Messages before a fault are ready,
    /// and the fault is answered to each later piece. After `NoMemory` nothing has changed, but the
    /// decoder can go back no more. The last piece of a message that came in several costs a copy
    /// of it.
    pub fn feed(&mut self, piece: &Bytes) -> Result<(), WireFault>
        // Whatever came before, in whatever pieces, the decoder then stands for all of it.
        ensures stands { (limit : ℕ) (all : List ℕ) (taken : List Tree)
            → DecoderStands limit self.old all taken
            → result ≢ Err WireFault.NoMemory
            → DecoderStands limit self.new (all ++ piece.now) taken }
        // Where no message was ready, it can go back over the piece, and also over a fault in it.
        ensures returns { (limit : ℕ) (all : List ℕ) (taken : List Tree)
            → DecoderStands limit self.old all taken
            → ready_of self.old ≡ [] → fault_of self.old ≡ None → result ≢ Err WireFault.NoMemory
            → CanReturn limit self.new all taken }
        ensures keeps { (limit : ℕ) (all : List ℕ) (taken : List Tree)
            → DecoderStands limit self.old all taken
            → result ≡ Err WireFault.NoMemory → DecoderStands limit self.new all taken }
        // Where a message was ready, it cannot go back.
        ensures late { ready_of self.old ≢ [] → fault_of self.old ≡ None
            → earlier_of self.new ≡ None }
        ensures ok { OnOk result (fault_of self.new ≡ None) }
        ensures fault { IfErr result (λ f. f ≢ WireFault.NoMemory → fault_of self.new ≡ Some f) }
        ensures memory { result ≡ Err WireFault.NoMemory → IsUnchanged self.old self.new }
        // A decoder that met a fault answers it to each later piece, and takes nothing more.
        ensures again { fault_of self.old ≢ None → IfErr result (λ f. fault_of self.old ≡ Some f) }
        ensures stays { fault_of self.old ≢ None → IsUnchanged self.old self.new }
    {
        match self.fault {
            Some(fault) => Err(fault),
            None => self.feed_bytes(piece.as_slice()),
        }
    }

    /// Hands out the oldest message that is whole, a dictionary. It takes no memory.
    pub fn next(&mut self) -> Option<Ben>
        ensures value { ready_of self.old
            ≡ option_to_list (option_map tree_view result) ++ ready_of self.new }
        ensures none { result ≡ None → ready_of self.old ≡ [] }
        ensures stands { (limit : ℕ) (all : List ℕ) (taken : List Tree)
            → DecoderStands limit self.old all taken
            → DecoderStands limit self.new all
            (taken ++ option_to_list (option_map tree_view result)) }
        ensures rest { rest_size self.new ≡ rest_size self.old }
        ensures fault { fault_of self.new ≡ fault_of self.old }
        ensures returns { (limit : ℕ) (all : List ℕ) (taken : List Tree)
            → CanReturn limit self.old all taken
            → CanReturn limit self.new all taken }
    {
        self.ready.pop_front()
    }

    /// Whether nothing of a next message has come, and there is no fault. It takes no memory.
    pub fn rest_is_empty(&self) -> bool
        ensures { IsTrue result ↔ ((fault_of self.now ≡ None) × (rest_size self.now ≡ 0)) }
    {
        self.fault.is_none() && self.message.come == 0
    }

    /// The fault of the stream, if it met one. It takes no memory.
    pub fn fault(&self) -> Option<WireFault>
        ensures { result ≡ fault_of self.now }
    {
        self.fault
    }

    /// An equal decoder, which cannot go back. It fails only for want of memory.
    pub fn copy(&self) -> Result<Decoder, AllocError>
        ensures same { IfOk result (IsUnchanged self.now) }
        ensures late { IfOk result (λ d. earlier_of d ≡ None) }
        ensures stands { (limit : ℕ) (all : List ℕ) (taken : List Tree)
            → DecoderStands limit self.now all taken
            → IfOk result (λ d. DecoderStands limit d all taken) }
    {
        Ok(Decoder {
            alloc: self.alloc,
            limit: self.limit,
            read: self.read,
            message: Unfinished {
                reader: self.message.reader.copy(self.alloc)?,
                come: self.message.come,
            },
            ready: copy_queue(self.alloc, &self.ready)?,
            fault: self.fault,
            before: None,
        })
    }

    // Reads a piece behind what has come.
    fn feed_bytes(&mut self, piece: &[u8]) -> Result<(), WireFault>
        requires { fault_of self.old ≡ None }
        ensures stands { (limit : ℕ) (all : List ℕ) (taken : List Tree)
            → DecoderStands limit self.old all taken
            → result ≢ Err WireFault.NoMemory
            → DecoderStands limit self.new (all ++ piece.now) taken }
        ensures returns { (limit : ℕ) (all : List ℕ) (taken : List Tree)
            → DecoderStands limit self.old all taken
            → ready_of self.old ≡ [] → result ≢ Err WireFault.NoMemory
            → CanReturn limit self.new all taken }
        ensures keeps { (limit : ℕ) (all : List ℕ) (taken : List Tree)
            → DecoderStands limit self.old all taken
            → result ≡ Err WireFault.NoMemory → DecoderStands limit self.new all taken }
        ensures ok { OnOk result (fault_of self.new ≡ None) }
        ensures fault { IfErr result (λ f. f ≢ WireFault.NoMemory → fault_of self.new ≡ Some f) }
        ensures memory { result ≡ Err WireFault.NoMemory → IsUnchanged self.old self.new }
        ensures late { ready_of self.old ≢ [] → earlier_of self.new ≡ None }
    {
        self.before = None;
        if self.message.reader.begin_piece().is_err() {
            return Err(WireFault::NoMemory);
        }
        let before = Before {
            come: self.message.come,
            read: self.read,
        };
        let ready = self.ready.len();
        let piece = Piece {
            limit: self.limit,
            start: self.read,
            bytes: piece,
        };
        match piece.read(self.alloc, &mut self.message, &mut self.ready) {
            Ok(()) => {
                self.read = self.read.saturating_add(piece.bytes.len() as u64);
                self.before = (ready == 0).then_some(before);
                Ok(())
            }
            Err(WireFault::NoMemory) => {
                self.message.reader.take_back();
                self.message.come = before.come;
                self.ready.truncate(ready);
                Err(WireFault::NoMemory)
            }
            Err(fault) => {
                self.fault = Some(fault);
                self.before = (ready == 0).then_some(before);
                Err(fault)
            }
        }
    }
}
