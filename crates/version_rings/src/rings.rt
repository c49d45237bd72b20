// Rings of versions.
ghost use Rattle.std.specs.Prelude.{◌≡◌, ◌<◌, ◌+◌, ◌∷◌, [], false, IsOk, IfOk, OnOk, OnErr};
ghost use Rattle.std.specs.Prelude.{option_map, length, ◌&&◌, ◌≤◌};
ghost use Rattle.value_data.specs.Inside.View.{view};
ghost use Rattle.version_rings.specs.Versions.{version, at_point, newest, is_newer, is_kept};
ghost use Rattle.version_rings.specs.Versions.{pushed, IsAbove, IsFalling};
ghost use Rattle.version_rings.specs.Rings.{versions, all_kept, SameOtherRings, TakesNode};
ghost use Rattle.version_rings.specs.Rings.{NodesAfter};
ghost use Rattle.version_rings.specs.declared.node.RingId.{RingId};

use crate::node::{Node, Ring, RingId};
use crate::nodes::Nodes;
use crate::ring_table::RingTable;
use std::alloc::{AllocError, Global};
use std::marker::Model;
use value_data::Value;

/// The versions of many values, each value's in a ring of its own, from the newest to the oldest.
///
/// All rings share their nodes: what `release` frees the next `new_ring` or `push` takes. Where no
/// ring has an id, there is nothing to tell of it or to change.
#[derive(Drop)]
pub struct Rings {
    pub(crate) nodes: Nodes,
    pub(crate) rings: RingTable,
}

impl Model for Rings {
    ghost use Rattle.version_rings.specs.Rings.{Rings as Seen, rings_code};

    ghost Value = { Seen };

    ghost coded = { rings_code };

    ghost use Rattle.version_rings.specs.Inside.Seen.{space, room, seen_rings};
    ghost use Rattle.version_rings.specs.Inside.Sound.{IsSound};
    ghost use Rattle.version_rings.specs.Inside.Table.{rings_of};

    ghost view = { λ r. seen_rings (room r.nodes) (space r.nodes) (rings_of r.rings) };

    ghost invariant = { λ r. IsSound (space r.nodes) (rings_of r.rings) };
}

impl Rings {
    /// No rings. It takes no memory.
    pub fn new(alloc: Global) -> Rings
        ensures none { (id : RingId) → versions result id ≡ [] }
        ensures slots { result.slots ≡ 0 }
        ensures free { result.free ≡ 0 }
        ensures room { result.room ≡ 0 }
    {
        Rings {
            nodes: Nodes::new(alloc),
            rings: RingTable::new(alloc),
        }
    }

    /// Makes a ring with one version, which is older than all commits.
    pub fn new_ring(&mut self, value: Value) -> Result<RingId, AllocError>
        ensures is_new { IfOk result (λ id. versions self.old id ≡ []) }
        ensures made { IfOk result (λ id.
            versions self.new id ≡ version 0 (view value) ∷ []) }
        ensures others { IfOk result (λ id. SameOtherRings id self.old self.new) }
        ensures node { OnOk result (TakesNode self.old self.new) }
        ensures as_it_was { OnErr result (self.new ≡ self.old) }
    {
        self.rings.reserve()?;
        let place = self.nodes.vacant();
        self.nodes.put(Node {
            stamp: 0,
            content: value,
            older: place,
            newer: place,
        })?;
        let id = self.rings.insert_reserved(Ring {
            newest: place,
            count: 1,
        });
        Ok(RingId { place: id })
    }

    /// Adds the newest version. Where `grow` is set, one version more is kept than before; else the
    /// oldest gives way, which takes no memory. Nor does a ring that grows where there is room.
    ///
    /// Stamps are to rise. Where one does not, `read_at` still looks from the newest version on,
    /// and stops at the first that is old enough.
    pub fn push(
        &mut self,
        id: RingId,
        stamp: u128,
        value: Value,
        grow: bool,
    ) -> Result<(), AllocError>
        ensures pushed { OnOk result (versions self.new id
            ≡ pushed grow (version stamp (view value)) (versions self.old id)) }
        ensures falling { IsAbove stamp (versions self.old id) → IsFalling (versions self.old id)
            → IsFalling (versions self.new id) }
        ensures others { SameOtherRings id self.old self.new }
        ensures nodes { OnOk result (NodesAfter (grow && is_kept (versions self.old id))
            self.old self.new) }
        ensures overwrites { grow ≡ false → IsOk result }
        ensures room { 0 < self.old.room → IsOk result }
        ensures free { 0 < self.old.free → IsOk result }
        ensures absent { versions self.old id ≡ [] → self.new ≡ self.old }
        ensures as_it_was { OnErr result (self.new ≡ self.old) }
    {
        let Some(ring) = self.rings.get(id.place) else {
            return Ok(());
        };
        if grow {
            let newest = self.nodes.put_before(ring.newest, stamp, value)?;
            let count = ring.count + 1;
            self.rings.set(id.place, Ring { newest, count });
        } else {
            let newest = self.nodes.overwrite_oldest(ring.newest, stamp, value);
            self.rings.set(id.place, Ring { newest, ..ring });
        }
        Ok(())
    }

    /// The value of the newest version that has at most this stamp, if it is kept. It costs a step
    /// for each version that is newer.
    pub fn read_at(&self, id: RingId, point: u128) -> Option<&Value>
        ensures { option_map (λ v. view v.now) result ≡ at_point point (versions self.now id) }
    {
        let ring = self.rings.get(id.place)?;
        self.nodes.read_at(ring.newest, ring.count, point)
    }

    /// The value of the newest version.
    pub fn newest(&self, id: RingId) -> Option<&Value>
        ensures { option_map (λ v. view v.now) result ≡ newest (versions self.now id) }
    {
        let ring = self.rings.get(id.place)?;
        Some(self.nodes.list.content(ring.newest))
    }

    /// Whether the newest version has a stamp above the point.
    pub fn is_newer(&self, id: RingId, point: u128) -> bool
        ensures { result ≡ is_newer point (versions self.now id) }
    {
        match self.rings.get(id.place) {
            Some(ring) => point < self.nodes.list.stamp(ring.newest),
            None => false,
        }
    }

    /// How many versions are kept.
    pub fn count(&self, id: RingId) -> usize
        ensures { result ≡ length (versions self.now id) }
    {
        match self.rings.get(id.place) {
            Some(ring) => ring.count as usize,
            None => 0,
        }
    }

    /// Whether a ring has this id.
    pub fn is_live(&self, id: RingId) -> bool
        ensures { result ≡ is_kept (versions self.now id) }
    {
        self.rings.get(id.place).is_some()
    }

    /// Clears a ring, and frees its nodes. It costs a step for each version that was kept.
    pub fn release(&mut self, id: RingId)
        ensures gone { versions self.new id ≡ [] }
        ensures others { SameOtherRings id self.old self.new }
        ensures slots { self.new.slots ≡ self.old.slots }
        ensures free { self.new.free ≡ self.old.free + length (versions self.old id) }
    {
        if let Some(ring) = self.rings.try_remove(id.place) {
            self.nodes.empty_all(ring.newest, ring.count);
        }
    }

    /// The same, and puts the versions' values behind these, so that the caller drops them. What
    /// finds no room there is dropped at once.
    pub fn take_out(&mut self, id: RingId, values: &mut Vec<Value>)
        ensures gone { versions self.new id ≡ [] }
        ensures others { SameOtherRings id self.old self.new }
        ensures slots { self.new.slots ≡ self.old.slots }
        ensures free { self.new.free ≡ self.old.free + length (versions self.old id) }
    {
        if let Some(ring) = self.rings.try_remove(id.place) {
            self.nodes.take_all(ring.newest, ring.count, values);
        }
    }

    /// How many nodes there are, free ones too. It takes no memory.
    pub fn slots(&self) -> usize
        ensures slots { result ≡ self.now.slots }
        ensures counted { result ≡ self.now.free + all_kept self.now.lists }
    {
        self.nodes.list.len() as usize
    }

    /// Makes room for so many nodes: as long as there is any, a ring that grows takes no memory.
    pub fn reserve(&mut self, count: usize) -> Result<(), AllocError>
        ensures room { OnOk result (count ≤ self.new.room) }
        ensures more { self.old.room ≤ self.new.room }
        ensures same { self.new ≡ record self.old { room = self.new.room } }
    {
        self.nodes.reserve(count)
    }

    /// How many nodes are in no ring.
    pub fn free(&self) -> usize
        ensures { result ≡ self.now.free }
    {
        self.nodes.free
    }
}
