// How refs are read, and what is told of their histories.
ghost use Rattle.std.specs.Prelude.{◌≡◌, ℕ, List, Some, option_map, IfOk, OnErr};
ghost use Rattle.repl_asks.specs.Transactions.{RefNameData};
ghost use Rattle.repl_asks.specs.Exchange.{reading, found};
ghost use Rattle.repl_asks.specs.Inside.View.{name_view, reading_view};
ghost use Rattle.ref_table.specs.Numbered.{Entry, part_under as point_found};
ghost use Rattle.ref_history.specs.Versioned.{Ref, readable, newest};
ghost use Rattle.ref_table.specs.Store.{ref_named};
ghost use Rattle.ref_table.specs.Calls.{performed, read_at, reads, sets_least, sets_most};
ghost use Rattle.ref_history.specs.Effects.{bounds_of};
ghost use Rattle.ref_table.specs.Refs.{TableRefs, store_of};
ghost use Rattle.ref_table.specs.Directory.{id_named, own_id};
ghost use Rattle.ref_table.specs.Standing.{TableStands, counter_of};
ghost use Rattle.ref_table.specs.Told.{Performs, reading_told, setting_told};

use crate::outcome::Point;
use crate::table::RefTable;
use ref_history::{Bounds, History, RefId};
use repl_asks::Reading;
use repl_values::{Owner, RefName, copy};
use std::alloc::AllocError;

impl<H: History> RefTable<H> {
    /// Reads a ref: in an attempt as it was at the read point, and outside of one as it is. Where
    /// what it was then is kept no more, the attempt is to be made again; that is noted, and the
    /// ref's next version is kept beside the older ones, if its bounds allow it. It takes a step
    /// for each version that is kept of the ref, and no memory. It fails only where 2^63 owners
    /// share the value, and then all stays as it was.
    pub fn read(
        &mut self,
        caller: u64,
        name: RefName,
        point: Option<Point>,
    ) -> Result<Option<Reading>, AllocError>
        ensures read { (r : TableRefs) (points : List (Entry ℕ)) (seat : ℕ)
            → TableStands H.stands self.old r
            → point_found seat points ≡ option_map (λ p. p.stamp) point
            → IfOk result (λ told. Performs H.stands self.new r (reading_told told)
            (performed (store_of caller points r) (reads seat (name_view name)))) }
        ensures as_it_was { (r : TableRefs) → TableStands H.stands self.old r
            → OnErr result (TableStands H.stands self.new r) }
        ensures counter { counter_of self.new ≡ counter_of self.old }
    {
        let Some(id) = self.directory.id_of(caller, name) else {
            return Ok(None);
        };
        match point {
            Some(point) => Ok(Some(self.read_at(id, point)?)),
            None => self.read_newest(id),
        }
    }

    // As an attempt reads.
    fn read_at(&mut self, id: RefId, point: Point) -> Result<Reading, AllocError>
        ensures read { (r : TableRefs) (caller : ℕ) (points : List (Entry ℕ)) (seat : ℕ)
            (name : RefNameData) (ref : Ref) → TableStands H.stands self.old r
            → id_named self.old.directory caller name ≡ Some id
            → ref_named name (store_of caller points r) ≡ Some ref
            → IfOk result (λ it. Performs H.stands self.new r (Some (reading (reading_view it)))
            (read_at seat name (store_of caller points r) (readable point.stamp ref))) }
        ensures as_it_was { (r : TableRefs) → TableStands H.stands self.old r
            → OnErr result (TableStands H.stands self.new r) }
        ensures counter { counter_of self.new ≡ counter_of self.old }
    {
        match self.history.read_at(id, point.stamp) {
            Some(value) => Ok(Reading::Found(copy(value)?)),
            None => Ok(Reading::Retry),
        }
    }

    fn read_newest(&self, id: RefId) -> Result<Option<Reading>, AllocError>
        ensures { (ref : Ref) → H.stands self.now.history id ref → IfOk result (λ told.
            reading_told told ≡ option_map (λ d. reading (found d)) (newest ref.versions)) }
    {
        match self.history.newest(id) {
            Some(value) => Ok(Some(Reading::Found(copy(value)?))),
            None => Ok(None),
        }
    }

    /// How many versions a ref has behind its newest.
    pub fn history_count(&self, caller: u64, name: RefName) -> Option<u64>
        ensures { (r : TableRefs) (points : List (Entry ℕ)) → TableStands H.stands self.now r
            → result ≡ option_map (λ ref. ref.kept)
            (ref_named (name_view name) (store_of caller points r)) }
    {
        self.history.count(self.directory.id_of(caller, name)?)
    }

    /// How many versions a ref keeps behind its newest, at the least and at the most.
    pub fn bounds(&self, caller: u64, name: RefName) -> Option<Bounds>
        ensures { (r : TableRefs) (points : List (Entry ℕ)) → TableStands H.stands self.now r
            → result ≡ option_map bounds_of
            (ref_named (name_view name) (store_of caller points r)) }
    {
        self.history.bounds(self.directory.id_of(caller, name)?)
    }

    /// Sets how many versions a ref keeps behind its newest at the least, and answers whether it is
    /// there and not shared. It takes no memory.
    pub fn set_least(&mut self, caller: u64, name: RefName, least: u64) -> bool
        ensures told { (r : TableRefs) (points : List (Entry ℕ)) → TableStands H.stands self.old r
            → Performs H.stands self.new r (setting_told name result)
            (performed (store_of caller points r) (sets_least (name_view name) least)) }
        ensures counter { counter_of self.new ≡ counter_of self.old }
    {
        match self.settable(caller, name) {
            Some(id) => {
                self.history.set_least(id, least);
                true
            }
            None => false,
        }
    }

    /// Sets how many versions a ref keeps behind its newest at the most, and answers whether it is
    /// there and not shared. Versions that are kept by now stay. It takes no memory.
    pub fn set_most(&mut self, caller: u64, name: RefName, most: u64) -> bool
        ensures told { (r : TableRefs) (points : List (Entry ℕ)) → TableStands H.stands self.old r
            → Performs H.stands self.new r (setting_told name result)
            (performed (store_of caller points r) (sets_most (name_view name) most)) }
        ensures counter { counter_of self.new ≡ counter_of self.old }
    {
        match self.settable(caller, name) {
            Some(id) => {
                self.history.set_most(id, most);
                true
            }
            None => false,
        }
    }

    // The id of a ref whose bounds the tenant may set.
    fn settable(&self, caller: u64, name: RefName) -> Option<RefId>
        ensures { result ≡ own_id self.now.directory caller (name_view name) }
    {
        match name.owner {
            Owner::Shared => None,
            Owner::Tenant(_) => self.directory.id_of(caller, name),
        }
    }
}
