// What is kept of one ref.
ghost use Rattle.std.specs.Prelude.{◌≡◌, ◌↔◌, ◌<◌, ◌∷◌, take, length, if◌then◌else◌, IsTrue};
ghost use Rattle.std.specs.Prelude.{IsSome, IfSome, OnOk, option_map, option_and_then};
ghost use Rattle.std.specs.VecDeque.{deque_len, deque_capacity};
ghost use Rattle.value_data.specs.Inside.View.{view};
ghost use Rattle.ref_history.specs.Versioned.{Ref, with_version, with_failed_read, grows, readable};
ghost use Rattle.ref_history.specs.Effects.{version, first_ref};
ghost use Rattle.ref_history.specs.Kept.{KeptStands, HasRoom, content_in};

use crate::ref_id::Bounds;
use std::alloc::{AllocError, Global};
use std::collections::VecDeque;
use std::mem;
use value_data::Value;

// A value, and the commit that set it.
#[derive(Drop)]
pub(crate) struct KeptVersion {
    pub(crate) stamp: u128,
    pub(crate) content: Value,
}

// The newest versions of a ref.
#[derive(Drop)]
pub(crate) struct KeptRef {
    pub(crate) newest: KeptVersion,
    // those behind it, the newest first
    pub(crate) older: VecDeque<KeptVersion>,
    // whether a read has failed since one more version was kept
    pub(crate) is_faulted: bool,
    pub(crate) bounds: Bounds,
}

impl KeptRef {
    pub(crate) fn new(alloc: Global, content: Value, bounds: Bounds) -> KeptRef
        ensures { KeptStands result (first_ref (view content) bounds) }
    {
        KeptRef {
            newest: KeptVersion { stamp: 0, content },
            older: VecDeque::new(alloc),
            is_faulted: false,
            bounds,
        }
    }

    pub(crate) fn count(&self) -> u64
        ensures { (r : Ref) → KeptStands self.now r → result ≡ r.kept }
    {
        self.older.len() as u64
    }

    // Whether the next version is kept beside all that are kept now.
    fn grows(&self) -> bool
        ensures { (r : Ref) → KeptStands self.now r → result ≡ grows r }
    {
        let kept = self.count();
        (self.is_faulted && kept < self.bounds.most) || kept < self.bounds.least
    }

    // Only a list that grows wants room.
    pub(crate) fn reserve(&mut self) -> Result<(), AllocError>
        ensures room { OnOk result (HasRoom self.new) }
        ensures stays { HasRoom self.old → HasRoom self.new }
        ensures same { (r : Ref) → KeptStands self.old r ↔ KeptStands self.new r }
    {
        if self.grows() {
            self.older.reserve(1)?;
        }
        Ok(())
    }

    pub(crate) fn add_version(&mut self, stamp: u128, content: Value)
        requires { HasRoom self.old }
        ensures { (r : Ref) → KeptStands self.old r
            → KeptStands self.new (with_version (version stamp (view content)) r) }
    {
        let grows = self.grows();
        let newest = mem::replace(&mut self.newest, KeptVersion { stamp, content });
        put_first(&mut self.older, grows, newest);
        self.is_faulted = self.is_faulted && !grows;
    }

    pub(crate) fn fault(&mut self)
        ensures { (r : Ref) → KeptStands self.old r → KeptStands self.new (with_failed_read r) }
    {
        self.is_faulted = true;
    }

    // Where the newest version stands that has at most this stamp: 0 is the newest of all.
    pub(crate) fn place_at(&self, point: u128) -> Option<usize>
        ensures kept { IfSome result (λ place. IsSome (content_in self.now place)) }
        ensures value { (r : Ref) → KeptStands self.now r
            → option_and_then (content_in self.now) result ≡ readable point r }
    {
        if self.newest.stamp <= point {
            return Some(0);
        }
        let behind = self
            .older
            .iter()
            .position(|version| version.stamp <= point)?;
        Some(behind + 1)
    }

    // Puts the values behind these. What finds no room there is dropped.
    pub(crate) fn give(self, values: &mut Vec<Value>) {
        let _ = values.push(self.newest.content);
        for version in self.older {
            let _ = values.push(version.content);
        }
    }

    pub(crate) fn content_at(&self, place: usize) -> Option<&Value>
        ensures { option_map (λ v. view v.now) result ≡ content_in self.now place }
    {
        if place == 0 {
            return Some(&self.newest.content);
        }
        let version = self.older.get(place - 1)?;
        Some(&version.content)
    }
}

// The last one goes, unless the list grows. A list that does not grow stays empty where it is.
fn put_first(versions: &mut VecDeque<KeptVersion>, grows: bool, version: KeptVersion)
    requires { IsTrue grows → deque_len versions.old < deque_capacity versions.old }
    ensures { versions.new.items ≡ (if grows then version ∷ versions.old.items
        else take (length versions.old.items) (version ∷ versions.old.items)) }
{
    if grows || versions.pop_back().is_some() {
        let _ = versions.push_front(version);
    }
}
