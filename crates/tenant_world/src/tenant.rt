// A tenant: its stream, its actors and what they share.
ghost use Rattle.std.specs.Prelude.{◌≡◌, suc, true, length};
ghost use Rattle.bencode_wire.specs.Inside.Decoder.{ready_of};
ghost use Rattle.tenant_parts.specs.View.{actors_view};
ghost use Rattle.tenant_asks.specs.Memories.{opened_by};
ghost use Rattle.tenant_world.specs.Seats.{are_below};

use bencode_wire::Decoder;
use std::alloc::Global;
use tenant_asks::Remembered;
use tenant_parts::{Actors, Attempts};

/// One tenant. Each of its steps is a deed of the rules: it is accepted or refused as they say, and
/// leaves the tenant as they say. A step that is refused changes nothing, want of memory included.
pub struct Tenant {
    pub(crate) alloc: Global,
    pub(crate) retries: u32,
    // how many more pieces, and starts, asks and ends of forms it takes
    pub(crate) steps: u32,
    pub(crate) decoder: Decoder,
    pub(crate) actors: Actors,
    pub(crate) memory: Remembered,
    pub(crate) attempts: Attempts,
    // The messages of each piece were taken when it was heard.
    ghost taken: { length (ready_of decoder) ≡ 0 },
    // No actor is of a session that is yet to be made.
    ghost seated: { are_below (suc (suc (opened_by memory))) (actors_view actors) ≡ true },
}

impl Drop for Tenant {
    fn drop(self) {
        let Tenant {
            alloc: _alloc,
            retries: _retries,
            steps: _steps,
            decoder: _decoder,
            actors: _actors,
            memory: _memory,
            attempts: _attempts,
        } = self;
    }
}
