// What is kept of a ref beside its versions.
ghost use Rattle.std.specs.Prelude.{◌≡◌, ◌≢◌, ◌≤◌, ℕ, Some, OnOk, OnErr, false};
ghost use Rattle.ref_history.specs.Rung.{ref_at, reserved_in, ring_number};

use crate::ref_id::{Bounds, RefId};
use paged_list::PagedRow;
use std::alloc::AllocError;
use version_rings::RingId;

#[derive(Clone, Copy)]
pub(crate) struct RingRef {
    // whether room is reserved for its next version
    pub(crate) has_room: bool,
    // whether a read has failed since one more version was kept
    pub(crate) is_faulted: bool,
    pub(crate) bounds: Bounds,
}

// The ring of a ref has its number.
pub(crate) fn ring_of(id: RefId) -> RingId
    ensures { result ≡ ring_number id }
{
    RingId { place: id.place }
}

pub(crate) fn put_at(
    refs: &mut PagedRow<Option<RingRef>>,
    place: usize,
    kept: RingRef,
) -> Result<(), AllocError>
    ensures put { OnOk result (ref_at refs.new.items place ≡ Some kept) }
    ensures others { (n : ℕ) → n ≢ place → ref_at refs.new.items n ≡ ref_at refs.old.items n }
    ensures same { OnErr result (ref_at refs.new.items place ≡ ref_at refs.old.items place) }
    ensures fewer { kept.has_room ≡ false
        → reserved_in refs.new.items ≤ reserved_in refs.old.items }
{
    while refs.len() <= place {
        refs.reserve(1)?;
        refs.put(None);
    }
    refs.set(place, Some(kept));
    Ok(())
}
