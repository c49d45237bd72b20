// Places of items, in an order that is the caller's.
ghost use Rattle.std.specs.Prelude.{◌≡◌, ◌<◌, ◌≤◌, [], length, slice_index_or, IsPermutation};
ghost use Rattle.std.specs.Prelude.{IfOk};
ghost use Rattle.std.specs.List.{insert};
ghost use Rattle.chunked_list.specs.Places.{without_place, first_places};

use crate::list::ChunkedList;
use std::alloc::{AllocError, Global};
use std::marker::Model;

/// The places 0, 1, .. of items, by ranks that the caller gives them. A new item has the place
/// behind all others; where one goes, each place behind its own is one less.
///
/// To find the place of a rank, to put in one and to take out one takes a logarithm of steps: an item
/// has a ticket that it keeps, and its place is the number of lesser tickets.
#[derive(Debug)]
pub struct RankedPlaces {
    // in the order of the items, which is their own
    tickets: ChunkedList,
    // the same by rank
    ranked: ChunkedList,
    next: usize,
}

impl Drop for RankedPlaces {
    fn drop(self) {
        let RankedPlaces {
            tickets: _tickets,
            ranked: _ranked,
            next: _next,
        } = self;
    }
}

impl Model for RankedPlaces {
    ghost use Rattle.std.specs.Prelude.{ℕ, List};
    ghost use Rattle.std.specs.Coded.{coded_list, coded_ℕ};
    ghost use Rattle.chunked_list.specs.Places.{places_of, KeepsTickets};

    ghost Value = { List ℕ };

    ghost coded = { coded_list coded_ℕ };

    ghost view = { λ p. places_of p.tickets p.ranked };

    ghost invariant = { λ p. KeepsTickets p.tickets p.ranked p.next };
}

impl RankedPlaces {
    /// No items. It takes no memory.
    pub fn new(alloc: Global) -> RankedPlaces
        ensures { result ≡ [] }
    {
        RankedPlaces {
            tickets: ChunkedList::new(alloc),
            ranked: ChunkedList::new(alloc),
            next: 0,
        }
    }

    /// Each of the places 0, 1, .. by its rank, as they stand in this order. It fails only for want
    /// of memory.
    pub fn in_order(alloc: Global, order: &[usize]) -> Result<RankedPlaces, AllocError>
        requires { IsPermutation (first_places (length order.now)) order.now }
        ensures { IfOk result (λ made. made ≡ order.now) }
    {
        let tickets = first_places(alloc, order.len())?;
        Ok(RankedPlaces {
            tickets: ChunkedList::from_slice(alloc, &tickets)?,
            ranked: ChunkedList::from_slice(alloc, order)?,
            next: order.len(),
        })
    }

    /// The place of the item of a rank, counted from 0.
    pub fn at(&self, rank: usize) -> usize
        requires { rank < length self.now }
        ensures { result ≡ slice_index_or self.now rank 0 }
    {
        let ticket = self.ranked.at(rank);
        if self.tickets.len() == self.next {
            // No item has gone.
            return ticket;
        }
        self.tickets.count_below(ticket)
    }

    /// One more item, which has this rank and stands behind all others. It fails for want of
    /// memory, or where there were 2^64 - 1 items.
    pub fn with_next(self, alloc: Global, rank: usize) -> Result<RankedPlaces, AllocError>
        requires { rank ≤ length self }
        ensures { IfOk result (λ made. made ≡ insert self rank (length self)) }
    {
        let RankedPlaces {
            mut tickets,
            mut ranked,
            next,
        } = self;
        let Some(later) = next.checked_add(1) else {
            return Err(AllocError);
        };
        let count = tickets.len();
        tickets.insert(alloc, count, next)?;
        ranked.insert(alloc, rank, next)?;
        Ok(RankedPlaces {
            tickets,
            ranked,
            next: later,
        })
    }

    /// The items without that of a rank. It fails only for want of memory.
    pub fn without(self, alloc: Global, rank: usize) -> Result<RankedPlaces, AllocError>
        requires { rank < length self }
        ensures { IfOk result (λ made. made ≡ without_place rank self) }
    {
        let RankedPlaces {
            mut tickets,
            mut ranked,
            next,
        } = self;
        let place = tickets.count_below(ranked.at(rank));
        tickets.remove(alloc, place)?;
        ranked.remove(alloc, rank)?;
        Ok(RankedPlaces {
            tickets,
            ranked,
            next,
        })
    }

    /// The same in one of its own, in two steps and with no memory. It fails only where 2^63 share
    /// the nodes.
    pub fn copy(&self, alloc: Global) -> Result<RankedPlaces, AllocError>
        ensures { IfOk result (λ copied. copied ≡ self.now) }
    {
        Ok(RankedPlaces {
            tickets: self.tickets.copy(alloc)?,
            ranked: self.ranked.copy(alloc)?,
            next: self.next,
        })
    }
}

/// The places 0, 1, .. of so many items. It fails only for want of memory.
pub fn first_places(alloc: Global, count: usize) -> Result<Vec<usize>, AllocError>
    ensures { IfOk result (λ made. made.items ≡ first_places count) }
{
    let mut places = Vec::with_capacity(alloc, count)?;
    for place in 0..count {
        places.push(place)?;
    }
    Ok(places)
}
