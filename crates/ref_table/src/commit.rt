// Commits.
ghost use Rattle.std.specs.Prelude.{◌≡◌, ℕ, ◌+◌, ◌<◌, ◌≤◌, ◌&&◌, List, Some, true, false, map};
ghost use Rattle.std.specs.Prelude.{IfOk, OnOk, OnErr};
ghost use Rattle.std.specs.Ordering.{eq_by_cmp};
ghost use Rattle.repl_values.specs.Inside.FaultView.{Gives};
ghost use Rattle.repl_asks.specs.Transactions.{ChangeData};
ghost use Rattle.repl_asks.specs.Inside.View.{name_view, intent_view};
ghost use Rattle.ref_table.specs.Numbered.{Entry, part_under};
ghost use Rattle.ref_table.specs.Store.{ref_named, newest_value};
ghost use Rattle.ref_table.specs.Calls.{performed, commits};
ghost use Rattle.ref_table.specs.Commit.{guarded_refs, touched_refs, changing_refs, all_there};
ghost use Rattle.ref_table.specs.Commit.{all_fit, all_take, intent_fits, is_newer_ref};
ghost use Rattle.ref_table.specs.Commit.{any_newer, all_folded, with_all};
ghost use Rattle.ref_table.specs.Refs.{TableRefs, store_of, refs_after};
ghost use Rattle.ref_table.specs.Directory.{all_named, ids_named};
ghost use Rattle.ref_table.specs.Standing.{TableStands, counter_of};
ghost use Rattle.ref_table.specs.Placing.{placed_view, placed_changes, all_placed, all_distinct};
ghost use Rattle.ref_table.specs.Accepting.{may_commit, is_acceptable};
ghost use Rattle.ref_table.specs.Told.{Performs, outcome_told, is_committed};

use crate::fitting::{all_fit, all_take};
use crate::outcome::{CommitOutcome, Point};
use crate::placing::{Placed, add_all, reserve_all};
use crate::table::RefTable;
use ref_history::{History, RefId};
use repl_asks::{Change, Intent};
use repl_values::{ApplyError, RefName};
use std::alloc::{AllocError, Global};

impl<H: History> RefTable<H> {
    /// Changes what an attempt of the caller wants changed, unless a ref that it set or ensured has
    /// a version from after the attempt's read point. What it commuted is made again, of the values
    /// that the refs have now; where that is a fault, nothing changes. For n refs that it names it
    /// takes about n log n steps, and one for each commute beside those of its function; and it
    /// reads whole what goes into shared refs. It fails only for want of memory where it would not
    /// be refused, and then all is as it was.
    pub fn commit(
        &mut self,
        alloc: Global,
        caller: u64,
        intent: &Intent,
        point: Point,
    ) -> Result<CommitOutcome, AllocError>
        requires { counter_of self.old < u128.MAX }
        ensures committed { (r : TableRefs) (points : List (Entry ℕ)) (seat : ℕ)
            → TableStands H.stands self.old r → part_under seat points ≡ Some point.stamp
            → IfOk result (λ outcome. Performs H.stands self.new r (outcome_told outcome)
            (performed (store_of caller points r) (commits seat (intent_view intent.now)))) }
        ensures as_it_was { (r : TableRefs) → TableStands H.stands self.old r
            → OnErr result (TableStands H.stands self.new r) }
        ensures counter { counter_of self.new ≤ counter_of self.old + 1 }
        ensures accepted { (r : TableRefs) (points : List (Entry ℕ)) → TableStands H.stands self.old r
            → OnErr result ((all_there (touched_refs (intent_view intent.now))
            (store_of caller points r) && intent_fits (intent_view intent.now)) ≡ true) }
        ensures unmoved { IfOk result (λ outcome. is_committed outcome ≡ false
            → counter_of self.new ≡ counter_of self.old) }
        ensures failed { OnErr result (counter_of self.new ≡ counter_of self.old) }
    {
        if !self.fits(alloc, caller, intent) {
            return Ok(CommitOutcome::Refused);
        }
        if self.is_any_guarded_newer(caller, intent, point) {
            return Ok(CommitOutcome::Conflict);
        }
        match self.new_values(alloc, caller, intent) {
            Ok(placed) => {
                self.put_all(placed)?;
                Ok(CommitOutcome::Committed)
            }
            Err(ApplyError::Fault(fault)) => Ok(CommitOutcome::Faulted(fault)),
            Err(ApplyError::NoMemory) => Err(AllocError),
        }
    }

    /// Whether a commit of this would not be refused: all refs are there, none changes twice, each
    /// may hold what it is set to, and what is commuted takes its arguments. For n refs that it
    /// names it takes about n log n steps, or n² where memory is refused.
    pub fn accepts(&self, alloc: Global, caller: u64, intent: &Intent) -> bool
        ensures { (r : TableRefs) (points : List (Entry ℕ)) → TableStands H.stands self.now r
            → result ≡ (all_there (touched_refs (intent_view intent.now)) (store_of caller points r)
            && intent_fits (intent_view intent.now)) }
    {
        self.fits(alloc, caller, intent)
    }

    // The same, as the directory says it.
    fn fits(&self, alloc: Global, caller: u64, intent: &Intent) -> bool
        ensures { result ≡ is_acceptable self.now.directory caller (intent_view intent.now) }
    {
        self.may_commit(caller, intent) && self.directory.changes_each_once(alloc, caller, intent)
    }

    // The same, but for refs that change twice.
    #[tactic(auto, using(crate::proofs::Committing::three_named))]
    fn may_commit(&self, caller: u64, intent: &Intent) -> bool
        ensures { result ≡ may_commit self.now.directory caller (intent_view intent.now) }
    {
        self.directory.has_all_set(caller, &intent.sets)
            && self.directory.has_all(caller, &intent.ensured)
            && self.directory.has_all_commuted(caller, &intent.commuted)
            && all_fit(&intent.sets)
            && all_take(&intent.commuted)
    }

    // What the refs get that change, at their places. It changes nothing.
    fn new_values(
        &self,
        alloc: Global,
        caller: u64,
        intent: &Intent,
    ) -> Result<Vec<Placed>, ApplyError>
        requires { all_take (intent_view intent.now).commuted ≡ true }
        ensures placed { (r : TableRefs) (points : List (Entry ℕ)) → TableStands H.stands self.now r
            → let i = intent_view intent.now in
            Gives (λ placed. map placed_view placed.items) result
            (all_placed self.now.directory caller i.sets
            (all_folded (λ name. newest_value name (store_of caller points r)) i.commuted)) }
        ensures ids { IfOk result (λ placed. map (λ p. p.id) placed.items
            ≡ ids_named self.now.directory caller (changing_refs (intent_view intent.now))) }
    {
        let folded = self.fold_all(alloc, caller, &intent.commuted)?;
        Ok(self.directory.places(alloc, caller, &intent.sets, &folded)?)
    }

    // Whether a ref that was set or ensured has a version from after the point.
    #[tactic(auto, using(crate::proofs::Committing::either_newer))]
    fn is_any_guarded_newer(&self, caller: u64, intent: &Intent, point: Point) -> bool
        ensures { (r : TableRefs) (points : List (Entry ℕ)) → TableStands H.stands self.now r → result
            ≡ any_newer point.stamp (guarded_refs (intent_view intent.now))
            (store_of caller points r) }
    {
        self.is_any_set_newer(caller, &intent.sets, point)
            || self.is_any_newer(caller, &intent.ensured, point)
    }

    fn is_newer(&self, caller: u64, name: RefName, point: Point) -> bool
        ensures { (r : TableRefs) (points : List (Entry ℕ)) → TableStands H.stands self.now r → result
            ≡ is_newer_ref point.stamp (ref_named (name_view name) (store_of caller points r)) }
    {
        match self.directory.id_of(caller, name) {
            Some(id) => self.history.is_newer(id, point.stamp),
            None => false,
        }
    }

    fn is_any_set_newer(&self, caller: u64, sets: &[Change], point: Point) -> bool
        ensures { (r : TableRefs) (points : List (Entry ℕ)) → TableStands H.stands self.now r → result
            ≡ any_newer point.stamp (map (λ c. name_view c.name) sets.now)
            (store_of caller points r) }
    {
        for change in sets {
            if self.is_newer(caller, change.name, point) {
                return true;
            }
        }
        false
    }

    fn is_any_newer(&self, caller: u64, names: &[RefName], point: Point) -> bool
        ensures { (r : TableRefs) (points : List (Entry ℕ)) → TableStands H.stands self.now r → result
            ≡ any_newer point.stamp (map name_view names.now) (store_of caller points r) }
    {
        for name in names {
            if self.is_newer(caller, *name, point) {
                return true;
            }
        }
        false
    }

    // Adds a version at each place, at the next stamp. Where there is none, the counter stays.
    fn put_all(&mut self, placed: Vec<Placed>) -> Result<(), AllocError>
        requires room { counter_of self.old < u128.MAX }
        requires once { all_distinct (eq_by_cmp ⟦<RefId as Ord>⟧.cmp)
            (map (λ p. p.id) placed.items) ≡ true }
        ensures put { (r : TableRefs) (caller : ℕ) (points : List (Entry ℕ)) (changes : List ChangeData)
            → TableStands H.stands self.old r
            → all_named self.old.directory caller (map (λ c. c.name) changes) ≡ true
            → map placed_view placed.items ≡ placed_changes self.old.directory caller changes
            → OnOk result (TableStands H.stands self.new
            (refs_after (with_all changes (store_of caller points r)) r)) }
        ensures as_it_was { (r : TableRefs) → TableStands H.stands self.old r
            → OnErr result (TableStands H.stands self.new r) }
        ensures counter { counter_of self.new ≤ counter_of self.old + 1 }
        ensures failed { OnErr result (counter_of self.new ≡ counter_of self.old) }
    {
        if placed.is_empty() {
            return Ok(());
        }
        reserve_all(&mut self.history, &placed)?;
        self.counter += 1;
        add_all(&mut self.history, self.counter, placed);
        Ok(())
    }
}
