// The seats from which a tenant's steps are made.
ghost use Rattle.std.specs.Prelude.{◌≡◌, ◌+◌, ◌<◌, ◌^◌};
ghost use Rattle.journal_book.specs.View.{seat_with};

use std::marker::Model;
use std::sync::ledger::{Book, Ledger, Share};

/// A place from which steps of one tenant are made, with the count of them. The count is a share of
/// the book's ledger, and nobody else can raise it.
#[derive(Drop)]
pub struct Seat<L: Ledger> {
    tenant: u64,
    made: u64,
    share: Share<L>,
}

impl<L: Ledger> Model for Seat<L> {
    ghost use Rattle.std.specs.Prelude.{◌≡◌};
    ghost use Rattle.journal_book.specs.View.{SeatData, seat_with};

    ghost Value = { SeatData };

    ghost view = { λ s. seat_with s.tenant s.made };

    ghost invariant = { λ s. (s.share.parts ≡ 1) × (s.share.amount ≡ s.made) };
}

impl<L: Ledger> Seat<L> {
    /// The tenant's number.
    pub fn tenant(&self) -> u64
        ensures { result ≡ self.now.tenant }
    {
        self.tenant
    }

    /// How many steps were made from it.
    pub fn made(&self) -> u64
        ensures { result ≡ self.now.made }
    {
        self.made
    }

    // A seat on which nothing is counted, with a part of the rest.
    pub(crate) fn taken_from(rest: &mut Share<L>, tenant: u64) -> Seat<L>
        requires parts { 0 < rest.old.parts }
        requires amount { rest.old.amount ≡ 0 }
        ensures seat { result ≡ seat_with tenant 0 }
        ensures parts { rest.new.parts + 1 ≡ rest.old.parts }
        ensures amount { rest.new.amount ≡ 0 }
    {
        let share = rest.split_off(1, 0);
        Seat {
            tenant,
            made: 0,
            share,
        }
    }

    // Its part of the ledger, with what was counted on it.
    pub(crate) fn into_share(self) -> Share<L>
        ensures parts { result.parts ≡ 1 }
        ensures amount { result.amount ≡ self.made }
    {
        self.share
    }

    // Counts a step on it.
    pub(crate) fn count(&mut self, counts: &mut Book<L>)
        requires { counts.old.total + 1 < 2 ^ 64 }
        ensures total { counts.new.total ≡ counts.old.total + 1 }
        ensures seat { self.new ≡ seat_with self.old.tenant (self.old.made + 1) }
    {
        counts.audit(&mut self.share);
        counts.add(&mut self.share, 1);
        self.made += 1;
    }
}
