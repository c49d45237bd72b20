// The versions of all refs, each ref's in a ring of its own.
ghost use Rattle.std.specs.Prelude.{◌≤◌};
ghost use Rattle.ref_history.specs.Rung.{reserved_in};

use crate::history::History;
use crate::ref_id::{Bounds, RefId};
use crate::ring_ref::{RingRef, put_at, ring_of};
use paged_list::PagedRow;
use std::alloc::{AllocError, Global};
use value_data::Value;
use version_rings::Rings;

/// Refs whose versions lie in the nodes of one list. What one ref gives back another takes. All
/// calls but `read_at` and `drop_ref` take about as many steps however much is stored: where the
/// pages in which it lies are full, one more is begun, and nothing that is kept moves.
#[derive(Drop)]
pub struct RingHistory {
    pub(crate) rings: Rings,
    // under the number of the ring
    pub(crate) refs: PagedRow<Option<RingRef>>,
    // at least as many as refs for whose next version room is reserved
    pub(crate) reserved: usize,
    ghost counted: { reserved_in refs.items ≤ reserved },
}

impl RingHistory {
    ghost use Rattle.std.specs.Prelude.{◌≡◌, ◌+◌, ◌-◌, Some, IfSome, IsTrue};
    ghost use Rattle.ref_history.specs.Versioned.{Ref, grows};
    ghost use Rattle.ref_history.specs.Changes.{IsAbsent};
    ghost use Rattle.ref_history.specs.RingHistories.{RingStands};
    ghost use Rattle.ref_history.specs.Rung.{ring_ref_in, RingKept, versions_of, room_for};
    ghost use Rattle.ref_history.specs.declared.ref_id.RefId.{RefId};

    /// A history without refs. It takes no memory.
    pub fn new(alloc: Global) -> RingHistory
        ensures { (id : RefId) → IsAbsent (RingStands result) id }
    {
        RingHistory {
            rings: Rings::new(alloc),
            refs: PagedRow::new(alloc),
            reserved: 0,
        }
    }

    fn kept(&self, id: RefId) -> Option<RingRef>
        ensures { result ≡ ring_ref_in self.now.rings self.now.refs.items id }
    {
        if !self.rings.is_live(ring_of(id)) {
            return None;
        }
        if id.place < self.refs.len() {
            *self.refs.at(id.place)
        } else {
            None
        }
    }

    // Whether the next version is kept beside all that are kept now.
    fn grows(&self, id: RefId, kept: RingRef) -> bool
        ensures { (r : Ref) → RingKept (versions_of self.now.rings id) kept r → result ≡ grows r }
    {
        let behind = (self.rings.count(ring_of(id)) as u64).saturating_sub(1);
        (kept.is_faulted && behind < kept.bounds.most) || behind < kept.bounds.least
    }

    // For how many refs room is to be reserved, with one.
    fn reserved_with(&self, kept: RingRef) -> Option<usize>
        ensures { IfSome result (λ n. n + room_for (Some kept) ≡ self.now.reserved + 1) }
    {
        if kept.has_room {
            Some(self.reserved)
        } else {
            self.reserved.checked_add(1)
        }
    }

    // For how many refs room stays reserved where one goes.
    fn reserved_without(&self, kept: RingRef) -> usize
        ensures { result ≡ self.now.reserved - room_for (Some kept) }
    {
        if kept.has_room {
            self.reserved.saturating_sub(1)
        } else {
            self.reserved
        }
    }
}

impl RingHistory {
    ghost use Rattle.ref_history.specs.Versioned.{with_failed_read};
    ghost use Rattle.ref_history.specs.Changes.{Changed};
    ghost use Rattle.ref_history.specs.RingHistories.{RingStands};

    // Notes that a read found no version kept.
    fn fault(&mut self, id: RefId)
        ensures { Changed id with_failed_read (RingStands self.old) (RingStands self.new) }
    {
        if let Some(kept) = self.kept(id) {
            let kept = RingRef {
                is_faulted: true,
                ..kept
            };
            self.refs.set(id.place, Some(kept));
        }
    }
}

impl History for RingHistory {
    ghost use Rattle.ref_history.specs.RingHistories.{RingStands, RingHasRoom};

    ghost stands = { RingStands };

    ghost has_room = { RingHasRoom };

    fn make(&mut self, value: Value, bounds: Bounds) -> Result<RefId, AllocError> {
        let ring = self.rings.new_ring(value)?;
        let kept = RingRef {
            has_room: false,
            is_faulted: false,
            bounds,
        };
        if put_at(&mut self.refs, ring.place, kept).is_err() {
            self.rings.release(ring);
            return Err(AllocError);
        }
        Ok(RefId { place: ring.place })
    }

    fn reserve(&mut self, id: RefId) -> Result<(), AllocError> {
        let Some(kept) = self.kept(id) else {
            return Ok(());
        };
        if !self.grows(id, kept) {
            return Ok(());
        }
        let Some(wanted) = self.reserved_with(kept) else {
            return Err(AllocError);
        };
        self.rings.reserve(wanted)?;
        self.reserved = wanted;
        let kept = RingRef {
            has_room: true,
            ..kept
        };
        self.refs.set(id.place, Some(kept));
        Ok(())
    }

    fn add_version(&mut self, id: RefId, stamp: u128, value: Value) {
        let Some(kept) = self.kept(id) else {
            return;
        };
        let grows = self.grows(id, kept);
        let _ = self.rings.push(ring_of(id), stamp, value, grows);
        if grows {
            let kept = RingRef {
                has_room: false,
                is_faulted: false,
                ..kept
            };
            self.refs.set(id.place, Some(kept));
            self.reserved = self.reserved.saturating_sub(1);
        }
    }

    fn read_at(&mut self, id: RefId, point: u128) -> Option<&Value> {
        self.kept(id)?;
        if self.rings.read_at(ring_of(id), point).is_none() {
            self.fault(id);
            return None;
        }
        self.rings.read_at(ring_of(id), point)
    }

    fn newest(&self, id: RefId) -> Option<&Value> {
        self.kept(id)?;
        self.rings.newest(ring_of(id))
    }

    fn is_newer(&self, id: RefId, point: u128) -> bool {
        self.kept(id).is_some() && self.rings.is_newer(ring_of(id), point)
    }

    fn count(&self, id: RefId) -> Option<u64> {
        self.kept(id)?;
        Some((self.rings.count(ring_of(id)) as u64).saturating_sub(1))
    }

    fn bounds(&self, id: RefId) -> Option<Bounds> {
        let kept = self.kept(id)?;
        Some(kept.bounds)
    }

    fn set_least(&mut self, id: RefId, least: u64) {
        if let Some(mut kept) = self.kept(id) {
            kept.bounds.least = least;
            self.refs.set(id.place, Some(kept));
        }
    }

    fn set_most(&mut self, id: RefId, most: u64) {
        if let Some(mut kept) = self.kept(id) {
            kept.bounds.most = most;
            self.refs.set(id.place, Some(kept));
        }
    }

    fn drop_ref(&mut self, id: RefId) {
        let Some(kept) = self.kept(id) else {
            return;
        };
        let reserved = self.reserved_without(kept);
        self.rings.release(ring_of(id));
        self.refs.set(id.place, None);
        self.reserved = reserved;
    }

    fn take_ref(&mut self, id: RefId, values: &mut Vec<Value>) {
        let Some(kept) = self.kept(id) else {
            return;
        };
        let reserved = self.reserved_without(kept);
        self.rings.take_out(ring_of(id), values);
        self.refs.set(id.place, None);
        self.reserved = reserved;
    }
}
