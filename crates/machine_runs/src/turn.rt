// A turn of the server.
ghost use Rattle.std.specs.Prelude.{◌≡◌};
ghost use Rattle.server_rules.specs.Machine.Turns.{whose};
ghost use Rattle.machine_runs.specs.Turns.{turn_view};

use bytes::Bytes;
use server_rules::Actor;

/// A turn of the server. Tenants are named by their numbers.
#[derive(Drop)]
pub enum Turn {
    /// A tenant comes; its number is above all before it.
    Open(u64),
    /// A tenant hears a piece of its stream.
    Bytes(u64, Bytes),
    /// An actor begins a form, or goes on as its evaluation says.
    Go(u64, Actor),
    /// A tenant's oldest reply is taken out.
    Drain(u64),
    /// A tenant goes.
    Bye(u64),
}

impl Turn {
    /// The number of the tenant whose turn it is.
    pub fn whose(&self) -> u64
        ensures { result ≡ whose (turn_view self.now) }
    {
        match self {
            Turn::Open(number)
            | Turn::Bytes(number, _)
            | Turn::Go(number, _)
            | Turn::Drain(number)
            | Turn::Bye(number) => *number,
        }
    }
}
