// Where a commit puts its values.
ghost use Rattle.std.specs.Prelude.{◌≡◌, [], ◌++◌, map, All, IfOk, OnOk};
ghost use Rattle.std.specs.List.{list_any};
ghost use Rattle.std.specs.Ordering.{eq_by_cmp};
ghost use Rattle.repl_asks.specs.Inside.View.{name_view, change_view, intent_view};
ghost use Rattle.ref_table.specs.Commit.{changing_refs};
ghost use Rattle.ref_history.specs.Changes.{SameRefs};
ghost use Rattle.ref_table.specs.Directory.{id_named, with_id, ids_named};
ghost use Rattle.ref_table.specs.Placing.{placed_view, placed_changes, all_distinct, HaveRoom};
ghost use Rattle.ref_table.specs.Placing.{AddsAll};

use crate::directory::Directory;
use ref_history::{History, RefId};
use repl_asks::{Change, Commuted, Intent};
use repl_values::{RefName, Value, copy};
use std::alloc::{AllocError, Global};
use std::collections::BTreeSet;

/// A value on its way into a ref.
#[derive(Drop)]
pub(crate) struct Placed {
    pub(crate) id: RefId,
    pub(crate) value: Value,
}

impl Directory {
    // Where the values of both go. A ref that is not there has no place. It fails only for want of
    // memory.
    pub(crate) fn places(
        &self,
        alloc: Global,
        caller: u64,
        sets: &[Change],
        folded: &[Change],
    ) -> Result<Vec<Placed>, AllocError>
        ensures { IfOk result (λ placed. map placed_view placed.items
            ≡ placed_changes self.now caller (map change_view sets.now ++ map change_view folded.now)) }
    {
        let mut placed = Vec::new(alloc);
        self.place(caller, sets, &mut placed)?;
        self.place(caller, folded, &mut placed)?;
        Ok(placed)
    }

    fn place(
        &self,
        caller: u64,
        changes: &[Change],
        placed: &mut Vec<Placed>,
    ) -> Result<(), AllocError>
        ensures { OnOk result (map placed_view placed.new.items
            ≡ map placed_view placed.old.items ++ placed_changes self.now caller
            (map change_view changes.now)) }
    {
        for change in changes {
            if let Some(id) = self.id_of(caller, change.name) {
                let value = copy(&change.now)?;
                placed.push(Placed { id, value })?;
            }
        }
        Ok(())
    }

    // Whether no ref that is there changes twice. It takes n log n steps for n refs; where memory is
    // refused for that, n².
    #[tactic(auto, using(crate::proofs::Committing::changing_names))]
    pub(crate) fn changes_each_once(&self, alloc: Global, caller: u64, intent: &Intent) -> bool
        ensures { result ≡ all_distinct (eq_by_cmp ⟦<RefId as Ord>⟧.cmp)
            (ids_named self.now caller (changing_refs (intent_view intent.now))) }
    {
        match self.ids_are_distinct(alloc, caller, intent) {
            Ok(are_distinct) => are_distinct,
            Err(AllocError) => self.sets_each_once(caller, &intent.sets, &intent.commuted),
        }
    }

    fn ids_are_distinct(
        &self,
        alloc: Global,
        caller: u64,
        intent: &Intent,
    ) -> Result<bool, AllocError>
        ensures { IfOk result (λ distinct. distinct ≡ all_distinct (eq_by_cmp ⟦<RefId as Ord>⟧.cmp)
            (ids_named self.now caller (changing_refs (intent_view intent.now)))) }
    {
        let ids = self.ids_changing(alloc, caller, intent)?;
        are_distinct(alloc, &ids)
    }

    // The same without memory: each is compared with those behind it.
    fn sets_each_once(&self, caller: u64, sets: &[Change], commuted: &[Commuted]) -> bool
        ensures { result ≡ all_distinct (eq_by_cmp ⟦<RefId as Ord>⟧.cmp) (ids_named self.now caller
            (map (λ c. name_view c.name) sets.now ++ map (λ c. name_view c.name) commuted.now)) }
    {
        let mut left = sets;
        while let Some((change, rest)) = left.split_first() {
            if let Some(id) = self.id_of(caller, change.name) {
                if self.any_changes(caller, id, rest, commuted) {
                    return false;
                }
            }
            left = rest;
        }
        self.commutes_each_once(caller, commuted)
    }

    fn commutes_each_once(&self, caller: u64, commuted: &[Commuted]) -> bool
        ensures { result ≡ all_distinct (eq_by_cmp ⟦<RefId as Ord>⟧.cmp)
            (ids_named self.now caller (map (λ c. name_view c.name) commuted.now)) }
    {
        let mut left = commuted;
        while let Some((one, rest)) = left.split_first() {
            if let Some(id) = self.id_of(caller, one.name) {
                if self.any_commutes(caller, id, rest) {
                    return false;
                }
            }
            left = rest;
        }
        true
    }

    // Whether one of them is of the ref with this id.
    #[tactic(auto, using(crate::proofs::Once::any_named))]
    fn any_changes(&self, caller: u64, id: RefId, sets: &[Change], commuted: &[Commuted]) -> bool
        ensures { result ≡ list_any (eq_by_cmp ⟦<RefId as Ord>⟧.cmp id) (ids_named self.now caller
            (map (λ c. name_view c.name) sets.now ++ map (λ c. name_view c.name) commuted.now)) }
    {
        self.any_sets(caller, id, sets) || self.any_commutes(caller, id, commuted)
    }

    fn any_sets(&self, caller: u64, id: RefId, sets: &[Change]) -> bool
        ensures { result ≡ list_any (eq_by_cmp ⟦<RefId as Ord>⟧.cmp id)
            (ids_named self.now caller (map (λ c. name_view c.name) sets.now)) }
    {
        for change in sets {
            if self.id_of(caller, change.name) == Some(id) {
                return true;
            }
        }
        false
    }

    fn any_commutes(&self, caller: u64, id: RefId, commuted: &[Commuted]) -> bool
        ensures { result ≡ list_any (eq_by_cmp ⟦<RefId as Ord>⟧.cmp id)
            (ids_named self.now caller (map (λ c. name_view c.name) commuted.now)) }
    {
        for one in commuted {
            if self.id_of(caller, one.name) == Some(id) {
                return true;
            }
        }
        false
    }

    // The ids of the refs that change and are there. It fails only for want of memory.
    fn ids_changing(
        &self,
        alloc: Global,
        caller: u64,
        intent: &Intent,
    ) -> Result<Vec<RefId>, AllocError>
        ensures { IfOk result (λ ids. ids.items
            ≡ ids_named self.now caller (changing_refs (intent_view intent.now))) }
    {
        let mut ids = Vec::new(alloc);
        for change in &intent.sets {
            self.note_id(caller, change.name, &mut ids)?;
        }
        for one in &intent.commuted {
            self.note_id(caller, one.name, &mut ids)?;
        }
        Ok(ids)
    }

    fn note_id(&self, caller: u64, name: RefName, ids: &mut Vec<RefId>) -> Result<(), AllocError>
        ensures { OnOk result (ids.new.items
            ≡ ids.old.items ++ with_id (id_named self.now caller (name_view name)) []) }
    {
        if let Some(id) = self.id_of(caller, name) {
            ids.push(id)?;
        }
        Ok(())
    }
}

// Whether no two ids are the same. It takes n log n steps, and fails only for want of memory.
fn are_distinct(alloc: Global, ids: &[RefId]) -> Result<bool, AllocError>
    ensures { IfOk result (λ distinct. distinct
        ≡ all_distinct (eq_by_cmp ⟦<RefId as Ord>⟧.cmp) ids.now) }
{
    let mut seen = BTreeSet::new(alloc);
    for id in ids {
        if !seen.insert(*id)? {
            return Ok(false);
        }
    }
    Ok(true)
}

// Makes room at each place.
pub(crate) fn reserve_all<H: History>(history: &mut H, placed: &[Placed]) -> Result<(), AllocError>
    ensures room { OnOk result (All (λ p. H.has_room history.new p.id) placed.now) }
    ensures same { SameRefs (H.stands history.old) (H.stands history.new) }
{
    for place in placed {
        history.reserve(place.id)?;
    }
    Ok(())
}

// Adds a version at each place. It takes no memory.
pub(crate) fn add_all<H: History>(history: &mut H, stamp: u128, placed: Vec<Placed>)
    requires { HaveRoom H.has_room history.old placed.items }
    ensures { AddsAll H.stands stamp history.old placed.items history.new }
{
    for place in placed {
        let Placed { id, value } = place;
        history.add_version(id, stamp, value);
    }
}
