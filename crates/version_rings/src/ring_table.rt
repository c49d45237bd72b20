// The rings, each found by its number. What one gives back another takes.
ghost use Rattle.std.specs.Prelude.{◌≡◌, ◌≢◌, ◌<◌, ℕ, [], None, Some, IfNone, OnOk, OnSome};
ghost use Rattle.std.specs.Prelude.{length, slice_index_or, slice_set};
ghost use Rattle.version_rings.specs.Inside.Table.{rings_of};

use crate::node::Ring;
use paged_list::PagedRow;
use std::alloc::{AllocError, Global};

// A number that no ring has leads to the next such.
#[derive(Clone, Copy)]
pub(crate) enum Slot {
    Taken(Ring),
    Free(usize),
}

#[derive(Drop)]
pub(crate) struct RingTable {
    pub(crate) slots: PagedRow<Slot>,
    // taken next, where it is free; no ring ever has the greatest number
    pub(crate) next: usize,
}

impl RingTable {
    pub(crate) fn new(alloc: Global) -> RingTable
        ensures { rings_of result ≡ [] }
    {
        RingTable {
            slots: PagedRow::new(alloc),
            next: usize::MAX,
        }
    }

    // Makes room for one more.
    pub(crate) fn reserve(&mut self) -> Result<(), AllocError>
        ensures room { OnOk result (0 < self.new.slots.room) }
        ensures same { rings_of self.new ≡ rings_of self.old }
    {
        self.slots.reserve(1)
    }

    pub(crate) fn get(&self, place: usize) -> Option<Ring>
        ensures { result ≡ slice_index_or (rings_of self.now) place None }
    {
        if place >= self.slots.len() {
            return None;
        }
        match *self.slots.at(place) {
            Slot::Taken(ring) => Some(ring),
            Slot::Free(_) => None,
        }
    }

    pub(crate) fn set(&mut self, place: usize, ring: Ring)
        requires { place < length (rings_of self.old) }
        ensures { rings_of self.new ≡ slice_set (rings_of self.old) place (Some ring) }
    {
        self.slots.set(place, Slot::Taken(ring));
    }

    // Takes a number that is free, if there is one, and gives it.
    pub(crate) fn insert_reserved(&mut self, ring: Ring) -> usize
        requires { 0 < self.old.slots.room }
        ensures was_vacant { slice_index_or (rings_of self.old) result None ≡ None }
        ensures changed { slice_index_or (rings_of self.new) result None ≡ Some ring }
        ensures others { (n : ℕ) → n ≢ result → slice_index_or (rings_of self.new) n None
            ≡ slice_index_or (rings_of self.old) n None }
    {
        let place = self.next;
        match self.free_after(place) {
            Some(next) => {
                self.slots.set(place, Slot::Taken(ring));
                self.next = next;
                place
            }
            None => self.push_reserved(ring),
        }
    }

    // The free number after one, if that one is free.
    fn free_after(&self, place: usize) -> Option<usize>
        ensures within { OnSome result (place < length self.now.slots.items) }
        ensures free { OnSome result (slice_index_or (rings_of self.now) place None ≡ None) }
    {
        if place >= self.slots.len() {
            return None;
        }
        match *self.slots.at(place) {
            Slot::Taken(_) => None,
            Slot::Free(next) => Some(next),
        }
    }

    fn push_reserved(&mut self, ring: Ring) -> usize
        requires { 0 < self.old.slots.room }
        ensures was_vacant { slice_index_or (rings_of self.old) result None ≡ None }
        ensures changed { slice_index_or (rings_of self.new) result None ≡ Some ring }
        ensures others { (n : ℕ) → n ≢ result → slice_index_or (rings_of self.new) n None
            ≡ slice_index_or (rings_of self.old) n None }
    {
        let place = self.slots.len();
        self.slots.put(Slot::Taken(ring));
        place
    }

    // Frees a number, and gives the ring that had it.
    pub(crate) fn try_remove(&mut self, place: usize) -> Option<Ring>
        ensures value { result ≡ slice_index_or (rings_of self.old) place None }
        ensures changed { slice_index_or (rings_of self.new) place None ≡ None }
        ensures others { (n : ℕ) → n ≢ place → slice_index_or (rings_of self.new) n None
            ≡ slice_index_or (rings_of self.old) n None }
        ensures absent { IfNone result (self.new ≡ self.old) }
    {
        let ring = self.get(place)?;
        self.slots.set(place, Slot::Free(self.next));
        self.next = place;
        Some(ring)
    }
}
