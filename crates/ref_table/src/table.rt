// The table of all refs.
ghost use Rattle.std.specs.Prelude.{◌≡◌, ◌≢◌, ◌↔◌, ℕ, List, length, slice_get, Some, IfOk, OnOk};
ghost use Rattle.std.specs.Prelude.{OnErr, None, ◌∷◌};
ghost use Rattle.value_data.specs.Datum.{ref, tenant as tenant_owner};
ghost use Rattle.value_data.specs.Inside.View.{view, owner_view};
ghost use Rattle.repl_asks.specs.Exchange.{done, value as value_told};
ghost use Rattle.ref_table.specs.Numbered.{Entry, entry, part_under};
ghost use Rattle.ref_history.specs.Versioned.{Ref};
ghost use Rattle.ref_table.specs.Calls.{performed, makes, begins};
ghost use Rattle.ref_history.specs.Changes.{IsAbsent};
ghost use Rattle.ref_history.specs.Effects.{first_ref};
ghost use Rattle.ref_table.specs.Refs.{TableRefs, no_refs, store_of, with_ref, without_refs};

use crate::departed::Departed;
use crate::directory::Directory;
use crate::outcome::Point;
use ref_history::{Bounds, History, RefId};
use repl_values::{Owner, RefName, Value};
use std::alloc::{AllocError, Global};

/// The refs of all tenants, and those that all share.
///
/// A call is made for a tenant, the caller, who reaches its own refs and the shared ones. Of a ref
/// that it does not reach, as of one that is not there, nothing is told and nothing changes. To
/// look a ref up takes about the logarithm of the number of tenants.
#[derive(Drop)]
pub struct RefTable<H> {
    // How many commits there were that changed a ref.
    pub(crate) counter: u128,
    pub(crate) directory: Directory,
    // What tenants that are gone had.
    pub(crate) departed: Departed,
    pub(crate) history: H,
}

impl<H: History> RefTable<H> {
    ghost use Rattle.ref_table.specs.Standing.{TableStands, counter_of};
    ghost use Rattle.ref_table.specs.Told.{Performs};

    /// No refs, to be kept in this history, which is empty. It takes no memory.
    pub fn new(alloc: Global, history: H) -> RefTable<H>
        requires { (id : RefId) → IsAbsent (H.stands history) id }
        ensures { TableStands H.stands result no_refs }
    {
        RefTable {
            counter: 0,
            directory: Directory::new(alloc),
            departed: Departed::new(alloc),
            history,
        }
    }

    /// Makes the owner's next ref. Numbers begin at 0. It takes about the logarithm of the number
    /// of tenants, and on average no more for all refs that there are. It fails only for want of
    /// memory.
    pub fn make(
        &mut self,
        alloc: Global,
        owner: Owner,
        value: Value,
        bounds: Bounds,
    ) -> Result<RefName, AllocError>
        ensures name { (r : TableRefs) → TableStands H.stands self.old r → IfOk result (λ name.
            name ≡ record { owner = owner; number = length (r.owned (owner_view owner)) }) }
        ensures made { (r : TableRefs) → TableStands H.stands self.old r
            → OnOk result (TableStands H.stands self.new
            (with_ref (owner_view owner) (first_ref (view value) bounds) r)) }

        // One of a tenant is made as the rules say.
        ensures told { (r : TableRefs) (points : List (Entry ℕ)) (caller : ℕ)
            → TableStands H.stands self.old r → owner ≡ Owner.Tenant caller
            → IfOk result (λ name. Performs H.stands self.new r
            (Some (value_told (ref (owner_view name.owner) name.number)))
            (performed (store_of caller points r)
            (makes (view value) bounds.least bounds.most))) }
        ensures as_it_was { (r : TableRefs) → TableStands H.stands self.old r
            → OnErr result (TableStands H.stands self.new r) }
        ensures counter { counter_of self.new ≡ counter_of self.old }
    {
        let id = self.history.make(value, bounds)?;
        match self.directory.add(alloc, owner, id) {
            Ok(number) => Ok(RefName { owner, number }),
            Err(error) => {
                self.history.drop_ref(id);
                Err(error)
            }
        }
    }

    /// The read point of an attempt that begins now.
    pub fn begin(&self) -> Point
        ensures point { result.stamp ≡ counter_of self.now }
        ensures begun { (r : TableRefs) (points : List (Entry ℕ)) (caller seat : ℕ)
            → TableStands H.stands self.now r → part_under seat points ≡ None
            → Performs H.stands self.now r (Some done)
            (performed (store_of caller points r) (begins seat)) }
        ensures noted { (r : TableRefs) (points : List (Entry ℕ)) (caller seat : ℕ)
            → TableStands H.stands self.now r → part_under seat points ≡ None
            → (performed (store_of caller points r) (begins seat)).store.mine.points
            ≡ entry seat result.stamp ∷ points }
    {
        Point {
            stamp: self.counter,
        }
    }

    /// Takes the refs of a tenant away. What the shared refs hold stays. It takes about the
    /// logarithm of the number of tenants: the refs are dropped by `drop_departed`, or here where
    /// memory is refused.
    pub fn release(&mut self, tenant: u64)
        ensures { (r : TableRefs) → TableStands H.stands self.old r
            → TableStands H.stands self.new (without_refs (tenant_owner tenant) r) }
    {
        let Some(ids) = self.directory.remove(tenant) else {
            return;
        };
        if let Err(ids) = self.departed.add(ids) {
            drop_refs(&mut self.history, &ids);
        }
    }

    /// Drops so many refs, at the most, of tenants that are gone, and answers whether more are
    /// left. Their values are put behind these, so that the caller drops them; one that finds no
    /// room there is dropped at once. It takes a step for each version that was kept of a ref.
    pub fn drop_departed(&mut self, most: usize, values: &mut Vec<Value>) -> bool
        ensures { (r : TableRefs) → TableStands H.stands self.old r → TableStands H.stands self.new r }
    {
        for _done in 0..most {
            if self.departed.is_empty() {
                return false;
            }
            self.drop_next(values);
        }
        !self.departed.is_empty()
    }

    fn drop_next(&mut self, values: &mut Vec<Value>)
        ensures { (r : TableRefs) → TableStands H.stands self.old r → TableStands H.stands self.new r }
    {
        if let Some(id) = self.departed.take() {
            self.history.take_ref(id, values);
        }
    }
}

// Drops the refs that have these ids.
fn drop_refs<H: History>(history: &mut H, ids: &[RefId])
    ensures gone { (n : ℕ) (id : RefId) → slice_get ids.now n ≡ Some id
        → IsAbsent (H.stands history.new) id }
    ensures others { (other : RefId) → ((n : ℕ) → slice_get ids.now n ≢ Some other)
        → (r : Ref) → H.stands history.old other r ↔ H.stands history.new other r }
{
    for id in ids {
        history.drop_ref(*id);
    }
}
