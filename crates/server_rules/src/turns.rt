// What `pipe` drives: a tenant that makes one turn at a time.
ghost use Rattle.std.specs.Prelude.{◌≡◌, ◌≢◌, ◌+◌, ◌<◌, [], ◌∷◌, length, Err, OnOk, OnErr, IfOk};
ghost use Rattle.std.specs.Prelude.{IfErr, MatchOption};
ghost use Rattle.server_rules.specs.Ground.{Ground};
ghost use Rattle.server_rules.specs.Grounds.{IsRight};
ghost use Rattle.server_rules.specs.LoneTurns.{LoneTenant, hears, goes, drains, accepted, lone_step};
ghost use Rattle.server_rules.specs.Inside.Wires.{wire_at};
ghost use Rattle.server_rules.specs.Inside.Turned.{LeftToDo, AcceptedWith, IsRefusedTurn};
ghost use Rattle.server_rules.specs.Inside.Rounds.{IsEnough};

use crate::actor::Actor;
use crate::refusal::Refusal;
use bencode_wire::WireFault;
use bytes::Bytes;
use std::alloc::{AllocError, Global};

/// What has come of a stream so far.
#[derive(Clone, Copy, Debug, PartialEq, Eq)]
pub enum Wire {
    /// Whole messages.
    Whole,
    /// Whole messages and the beginning of another.
    Partial,
    Broken(WireFault),
}

/// A tenant that is served alone, a turn at a time. A piece, and what an actor does, each use up a
/// step.
///
/// What each turn does stands in `specs/LoneTurns.antt`. A turn that was accepted leaves the tenant as
/// it is after the step. A turn that was refused, other than for want of memory, is one that the
/// step refuses so, and leaves the tenant as it was.
pub trait Core {
    /// How much is left to do: the steps, and the replies that wait.
    ghost left: { Self → LeftToDo };
    /// The code stands for this tenant.
    ghost stands: { Ground → Self → LoneTenant → Type 0 };

    /// Hears the next piece of the stream.
    fn hear(&mut self, piece: &Bytes) -> Result<(), Refusal>
        ensures heard { OnOk result ((left self.old).steps ≡ (left self.new).steps + 1) }
        ensures refused { OnErr result ((left self.new).steps ≡ (left self.old).steps) }
        ensures accepted { (g : Ground) (l : LoneTenant) → IsRight g → stands g self.old l
            → OnOk result (AcceptedWith (stands g self.new) (lone_step g l (hears piece.now))) }
        ensures as_it_was { (g : Ground) (l : LoneTenant) → IsRight g → stands g self.old l
            → IfErr result (λ why. why ≢ Refusal.NoMemory
            → IsRefusedTurn why (lone_step g l (hears piece.now)) × stands g self.new l) };

    /// The actors of the next round, in their order. Those that have nothing to do may be left out.
    /// It fails only for want of memory.
    fn actors(&self, alloc: Global) -> Result<Vec<Actor>, AllocError>
        ensures { (g : Ground) (l : LoneTenant) → stands g self.now l
            → IfOk result (λ actors. IsEnough l actors.items) };

    /// Does what is next for the actor: begins a form, answers one ask or ends a form.
    fn go(&mut self, actor: Actor) -> Result<(), Refusal>
        ensures gone { OnOk result ((left self.old).steps ≡ (left self.new).steps + 1) }
        ensures refused { OnErr result ((left self.new).steps ≡ (left self.old).steps) }
        ensures held { result ≡ Err Refusal.Held → 0 < length (left self.old).outbox }
        ensures accepted { (g : Ground) (l : LoneTenant) → IsRight g → stands g self.old l
            → OnOk result (AcceptedWith (stands g self.new) (lone_step g l (goes actor))) }
        ensures as_it_was { (g : Ground) (l : LoneTenant) → IsRight g → stands g self.old l
            → IfErr result (λ why. why ≢ Refusal.NoMemory
            → IsRefusedTurn why (lone_step g l (goes actor)) × stands g self.new l) };

    /// Takes the oldest reply out. It takes no memory.
    fn drain(&mut self) -> Option<Vec<u8>>
        ensures steps { (left self.new).steps ≡ (left self.old).steps }
        ensures oldest { MatchOption result
            (((left self.old).outbox ≡ []) × ((left self.new).outbox ≡ []))
            (λ reply. (left self.old).outbox ≡ reply.items ∷ (left self.new).outbox) }
        ensures drained { (g : Ground) (l : LoneTenant) → stands g self.old l → MatchOption result
            (IsRefusedTurn Refusal.Idle (lone_step g l drains) × stands g self.new l)
            (λ reply. (after : LoneTenant) × (lone_step g l drains ≡ accepted after reply.items)
            × stands g self.new after) };

    /// What has come of the stream. It takes no memory.
    fn wire(&self) -> Wire
        ensures { (g : Ground) (l : LoneTenant) → stands g self.now l
            → result ≡ wire_at (g.readings.stream l.state.heard).ending };
}
