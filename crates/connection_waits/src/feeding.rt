// A bounded channel under a rule: numbers rise.
ghost use Rattle.std.specs.Prelude.{◌≡◌, ◌+◌, ◌≤◌, ◌<◌, true, false, IfOk, IfSome, IfNone};
ghost use Rattle.crossbeam_channel.specs.Claims.{view, IsSeatAt};
ghost use Rattle.crossbeam_channel.specs.Ends.{sends_on, receives_on};
ghost use Rattle.connection_waits.specs.Numbers.{hand};

use crossbeam_channel::protocol::{Lesson, Outcome, Protocol, Split};
use crossbeam_channel::{Pass, RuledReceiver, RuledSender, bounded_with};
use std::alloc::{AllocError, Global};
use std::net::TcpStream;
use std::sync::Wait;

/// A connection, with its place among all that were accepted, from 0.
#[derive(Drop)]
pub struct Accepted {
    pub number: u64,
    pub stream: TcpStream,
}

/// What a ticket knows: the next number to send, or a number that is above all that were taken with
/// it. No value of it is made.
pub struct Hand {
    pub sends: bool,
    pub number: u64,
}

/// The rule of the queue.
pub struct Rising;

impl Protocol<Accepted, Hand> for Rising {
    ghost use Rattle.std.specs.Prelude.{true};
    ghost use Rattle.connection_waits.specs.Numbers.{hand, QueueRises};

    ghost holds = { QueueRises };

    ghost first = { hand true 0 };
}

struct Takes;

impl Split<Hand> for Takes {
    ghost use Rattle.std.specs.Prelude.{false};
    ghost use Rattle.connection_waits.specs.Numbers.{hand};

    ghost left = { λ v. v };

    ghost right = { λ v. hand false 0 };
}

struct NumberSent;

impl Outcome<Accepted, Hand> for NumberSent {
    ghost use Rattle.std.specs.Prelude.{◌≡◌, ◌+◌};
    ghost use Rattle.connection_waits.specs.Numbers.{hand};

    ghost then = { λ v x w. w ≡ hand v.sends (v.number + 1) };
}

impl Lesson<Accepted, Hand> for NumberSent {
    ghost fact = { λ v items. Unit {0} };
}

struct Taken;

impl Outcome<Accepted, Hand> for Taken {
    ghost use Rattle.std.specs.Prelude.{◌≡◌, ◌≤◌, ◌+◌, false};
    ghost use Rattle.connection_waits.specs.Numbers.{hand};

    ghost then = { λ v x w. (v.number ≤ x.number) × (w ≡ hand false (x.number + 1)) };
}

impl Lesson<Accepted, Hand> for Taken {
    ghost fact = { λ v items. Unit {0} };
}

/// The end at which connections go in.
pub type Feed = RuledSender<Accepted, Hand, Rising>;

/// The end at which they are taken.
pub type Takings = RuledReceiver<Accepted, Hand, Rising>;

/// What a thread knows of the queue. It has no bytes.
pub type Ticket = Pass<Accepted, Hand>;

/// A queue with room for so many connections, and the ticket of whoever sends.
pub fn queue(alloc: Global, room: usize) -> Result<(Feed, Takings, Ticket), AllocError>
    requires { 0 < room }
    ensures { IfOk result (λ r. (receives_on r.1 ≡ sends_on r.0) × IsSeatAt (sends_on r.0) r.2
        × (view r.2 ≡ hand true 0)) }
{
    bounded_with(alloc, room)
}

/// Sends the next connection, and tells whether it went in. It waits for room, and fails only where
/// nobody takes any more.
pub fn send<R: Wait>(rt: &R, feed: &Feed, ticket: &mut Ticket, accepted: Accepted) -> bool
    requires ticket { IsSeatAt (sends_on feed.now) ticket.old }
    requires next { view ticket.old ≡ hand true accepted.number }
    ensures ticket { IsSeatAt (sends_on feed.now) ticket.new }
    ensures sent { result ≡ true → view ticket.new ≡ hand true (accepted.number + 1) }
    ensures unsent { result ≡ false → view ticket.new ≡ view ticket.old }
{
    feed.send_as::<NumberSent, R>(rt, ticket, accepted).is_ok()
}

/// Takes the oldest connection: its number is above all that were taken with this ticket. It waits
/// for one, and gives none where nobody sends any more.
pub fn take<R: Wait>(rt: &R, from: &Takings, ticket: &mut Ticket) -> Option<Accepted>
    requires ticket { IsSeatAt (receives_on from.now) ticket.old }
    requires takes { (view ticket.old).sends ≡ false }
    ensures ticket { IsSeatAt (receives_on from.now) ticket.new }
    ensures taken { IfSome result (λ a. ((view ticket.old).number ≤ a.number)
        × (view ticket.new ≡ hand false (a.number + 1))) }
    ensures none { IfNone result (view ticket.new ≡ view ticket.old) }
{
    from.recv_as::<Taken, R>(rt, ticket).ok()
}

/// A ticket for one more crew, which has taken nothing.
pub fn another_ticket(feed: &Feed, from: &mut Ticket) -> Ticket
    requires ticket { IsSeatAt (sends_on feed.now) from.old }
    requires sends { (view from.old).sends ≡ true }
    ensures ticket { IsSeatAt (sends_on feed.now) from.new × IsSeatAt (sends_on feed.now) result }
    ensures same { view from.new ≡ view from.old }
    ensures new { view result ≡ hand false 0 }
{
    feed.another::<Takes>(from)
}
