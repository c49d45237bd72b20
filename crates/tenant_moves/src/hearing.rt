// A tenant hears a piece of its stream.
ghost use Rattle.std.specs.Prelude.{◌≡◌, ◌≢◌, ℕ, List, [], ◌++◌, true, false, None, is_some, IfOk};
ghost use Rattle.std.specs.Prelude.{OnOk, OnErr};
ghost use Rattle.bencode_wire.specs.Tree.{Tree};
ghost use Rattle.bencode_wire.specs.Inside.Decoder.{ready_of, fault_of, DecoderStands, IsUnchanged};
ghost use Rattle.bencode_wire.specs.Inside.Return.{CanReturn};
ghost use Rattle.tenant_parts.specs.View.{actors_view};
ghost use Rattle.tenant_moves.specs.Heard.{parts_of, CanHear, HearsPiece, HearsNothing};
ghost use Rattle.tenant_moves.specs.Holds.{AreSeated};

use crate::handling::handle_messages;
use bencode_wire::{Decoder, WireFault};
use bytes::Bytes;
use repl_sessions::Sessions;
use std::alloc::{AllocError, Global};
use tenant_parts::{Actors, Outbox};

/// Hears the next piece of the stream, and answers how many messages became whole with it. They
/// are carried out, those before a fault too, and a fault is told. It fails only for want of
/// memory, and then changes nothing.
pub fn hear(
    alloc: Global,
    piece: &Bytes,
    decoder: &mut Decoder,
    sessions: &mut Sessions,
    actors: &mut Actors,
    outbox: &mut Outbox,
) -> Result<usize, AllocError>
    requires { CanHear decoder.old (parts_of sessions.old actors.old outbox.old) }
    ensures heard { HearsPiece piece.now decoder.old (parts_of sessions.old actors.old outbox.old)
        result decoder.new (parts_of sessions.new actors.new outbox.new) }
    ensures ready { ready_of decoder.new ≡ [] }
    ensures seated { AreSeated sessions.new (actors_view actors.new) }
    ensures stays { HearsNothing decoder.old (parts_of sessions.old actors.old outbox.old)
        result decoder.new (parts_of sessions.new actors.new outbox.new) }
{
    let is_broken = feed_piece(decoder, piece)?;
    let messages = decoder.take_ready();
    let count = messages.len();
    match handle_messages(alloc, messages, is_broken, sessions, actors, outbox) {
        Ok(()) => {
            decoder.settle();
            Ok(count)
        }
        Err(refused) => {
            decoder.take_back();
            Err(refused)
        }
    }
}

// Feeds a piece. Answers whether the stream met a fault in it.
fn feed_piece(decoder: &mut Decoder, piece: &Bytes) -> Result<bool, AllocError>
    requires { fault_of decoder.old ≡ None }
    ensures broken { IfOk result (λ broken. broken ≡ is_some (fault_of decoder.new)) }
    ensures stands { (limit : ℕ) (all : List ℕ) (taken : List Tree)
        → DecoderStands limit decoder.old all taken
        → OnOk result (DecoderStands limit decoder.new (all ++ piece.now) taken) }
    ensures returns { (limit : ℕ) (all : List ℕ) (taken : List Tree)
        → DecoderStands limit decoder.old all taken
        → ready_of decoder.old ≡ [] → OnOk result (CanReturn limit decoder.new all taken) }
    ensures keeps { (limit : ℕ) (all : List ℕ) (taken : List Tree)
        → DecoderStands limit decoder.old all taken
        → OnErr result (DecoderStands limit decoder.new all taken) }
    ensures stays { OnErr result (IsUnchanged decoder.old decoder.new) }
{
    match decoder.feed(piece) {
        Ok(()) => Ok(false),
        Err(fault) => {
            if is_refused(fault) {
                Err(AllocError)
            } else {
                Ok(true)
            }
        }
    }
}

// Whether it was memory that was refused.
fn is_refused(fault: WireFault) -> bool
    ensures refused { result ≡ true → fault ≡ WireFault.NoMemory }
    ensures met { result ≡ false → fault ≢ WireFault.NoMemory }
{
    match fault {
        WireFault::NoMemory => true,
        WireFault::Malformed(_) => false,
        WireFault::TooLong(_) => false,
        WireFault::TooDeep(_) => false,
    }
}
