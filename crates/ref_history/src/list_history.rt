// The versions of all refs, each ref in a place of its own.
ghost use Rattle.ref_history.specs.Changes.{IsAbsent};
ghost use Rattle.ref_history.specs.Histories.{ListStands, ListHasRoom};
ghost use Rattle.ref_history.specs.declared.ref_id.RefId.{RefId};

use crate::history::History;
use crate::kept_ref::KeptRef;
use crate::ref_id::{Bounds, RefId};
use slab::Slab;
use std::alloc::{AllocError, Global};
use value_data::Value;

/// Refs in numbered places. All calls but `read_at` and `drop_ref` take about as many steps
/// however much is stored: `make` and `reserve` on average, since they double what is full.
#[derive(Drop)]
pub struct ListHistory {
    pub(crate) alloc: Global,
    pub(crate) refs: Slab<KeptRef>,
}

impl ListHistory {
    /// A history without refs. It takes no memory.
    pub fn new(alloc: Global) -> ListHistory
        ensures { (id : RefId) → IsAbsent (ListStands result) id }
    {
        ListHistory {
            alloc,
            refs: Slab::new(alloc),
        }
    }
}

impl History for ListHistory {
    ghost stands = { ListStands };

    ghost has_room = { ListHasRoom };

    fn make(&mut self, value: Value, bounds: Bounds) -> Result<RefId, AllocError> {
        let place = self.refs.insert(KeptRef::new(self.alloc, value, bounds))?;
        Ok(RefId { place })
    }

    fn reserve(&mut self, id: RefId) -> Result<(), AllocError> {
        match self.refs.get_mut(id.place) {
            Some(kept) => kept.reserve(),
            None => Ok(()),
        }
    }

    fn add_version(&mut self, id: RefId, stamp: u128, value: Value) {
        if let Some(kept) = self.refs.get_mut(id.place) {
            kept.add_version(stamp, value);
        }
    }

    fn read_at(&mut self, id: RefId, point: u128) -> Option<&Value> {
        let kept = self.refs.get_mut(id.place)?;
        let Some(place) = kept.place_at(point) else {
            kept.fault();
            return None;
        };
        kept.content_at(place)
    }

    fn newest(&self, id: RefId) -> Option<&Value> {
        let kept = self.refs.get(id.place)?;
        Some(&kept.newest.content)
    }

    fn is_newer(&self, id: RefId, point: u128) -> bool {
        match self.refs.get(id.place) {
            Some(kept) => point < kept.newest.stamp,
            None => false,
        }
    }

    fn count(&self, id: RefId) -> Option<u64> {
        let kept = self.refs.get(id.place)?;
        Some(kept.count())
    }

    fn bounds(&self, id: RefId) -> Option<Bounds> {
        let kept = self.refs.get(id.place)?;
        Some(kept.bounds)
    }

    fn set_least(&mut self, id: RefId, least: u64) {
        if let Some(kept) = self.refs.get_mut(id.place) {
            kept.bounds.least = least;
        }
    }

    fn set_most(&mut self, id: RefId, most: u64) {
        if let Some(kept) = self.refs.get_mut(id.place) {
            kept.bounds.most = most;
        }
    }

    fn drop_ref(&mut self, id: RefId) {
        drop(self.refs.try_remove(id.place));
    }

    fn take_ref(&mut self, id: RefId, values: &mut Vec<Value>) {
        if let Some(kept) = self.refs.try_remove(id.place) {
            kept.give(values);
        }
    }
}
