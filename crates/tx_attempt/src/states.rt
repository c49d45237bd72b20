// What is kept of each ref.
ghost use Rattle.std.specs.Prelude.{◌≡◌, not, option_map, OnOk, OnErr, IfOk};
ghost use Rattle.std.specs.Option.{option_map_or};
ghost use Rattle.value_data.specs.Inside.View.{view};
ghost use Rattle.repl_asks.specs.Inside.View.{name_view, commute_view};
ghost use Rattle.repl_asks.specs.Transactions.{RefNameData};
ghost use Rattle.tx_attempt.specs.Inside.States.{states_of, with_ref_state, unnamed, marked};
ghost use Rattle.tx_attempt.specs.Inside.States.{is_marked};
ghost use Rattle.tx_attempt.specs.Inside.States.{ref_state_view, has_value, has_commute};

use crate::key::Key;
use crate::state::{Mark, RefState};
use repl_asks::Commute;
use repl_values::{RefName, Value};
use std::alloc::{AllocError, Global};
use std::collections::BTreeMap;

/// What is kept of each ref that was named. Each call takes about the logarithm of their number.
#[derive(Drop)]
pub(crate) struct RefStates {
    pub(crate) alloc: Global,
    pub(crate) by_key: BTreeMap<Key, RefState>,
}

#[tactic(auto, unfolding(crate::specs::Inside::States::states_of))]
impl RefStates {
    pub(crate) fn new(alloc: Global) -> RefStates
        ensures { (n : RefNameData) → states_of ⟦<Key as Ord>⟧.cmp result n ≡ unnamed }
    {
        RefStates {
            alloc,
            by_key: BTreeMap::new(alloc),
        }
    }

    pub(crate) fn value_of(&self, name: RefName) -> Option<&Value>
        ensures { option_map (λ v. view v.now) result
            ≡ (states_of ⟦<Key as Ord>⟧.cmp self.now (name_view name)).value }
    {
        match self.by_key.get(&Key::of(name)) {
            Some(state) => Some(&state.value),
            None => None,
        }
    }

    pub(crate) fn is_commuted(&self, name: RefName) -> bool
        ensures { result
            ≡ (states_of ⟦<Key as Ord>⟧.cmp self.now (name_view name)).is_commuted }
    {
        match self.by_key.get(&Key::of(name)) {
            Some(state) => state.is_commuted,
            None => false,
        }
    }

    // A ref has this value, and this is done to it. Whether that is so for the first time; nothing
    // is done by a read.
    pub(crate) fn note(
        &mut self,
        name: RefName,
        value: Value,
        mark: Mark,
    ) -> Result<bool, AllocError>
        ensures noted { OnOk result ((n : RefNameData)
            → states_of ⟦<Key as Ord>⟧.cmp self.new n
            ≡ with_ref_state (name_view name) (marked mark (has_value (view value)
            (states_of ⟦<Key as Ord>⟧.cmp self.old (name_view name))))
            (states_of ⟦<Key as Ord>⟧.cmp self.old) n) }
        ensures first { IfOk result (λ first. first
            ≡ not (is_marked mark (states_of ⟦<Key as Ord>⟧.cmp self.old (name_view name)))) }
        ensures stays { OnErr result ((n : RefNameData)
            → states_of ⟦<Key as Ord>⟧.cmp self.new n
            ≡ states_of ⟦<Key as Ord>⟧.cmp self.old n) }
    {
        let key = Key::of(name);
        if let Some(state) = self.by_key.get_mut(&key) {
            state.value = value;
            return Ok(state.mark(mark));
        }
        let mut state = RefState::new(self.alloc, value);
        let is_first = state.mark(mark);
        self.by_key.insert(key, state)?;
        Ok(is_first)
    }

    // A ref is commuted, and has this value. Whether it was not commuted before.
    pub(crate) fn commute(
        &mut self,
        name: RefName,
        commute: Commute,
        value: Value,
    ) -> Result<bool, AllocError>
        ensures noted { OnOk result ((n : RefNameData)
            → states_of ⟦<Key as Ord>⟧.cmp self.new n
            ≡ with_ref_state (name_view name)
            (has_value (view value) (has_commute (commute_view commute)
            (states_of ⟦<Key as Ord>⟧.cmp self.old (name_view name))))
            (states_of ⟦<Key as Ord>⟧.cmp self.old) n) }
        ensures first { IfOk result (λ first. first
            ≡ not (states_of ⟦<Key as Ord>⟧.cmp self.old (name_view name)).is_commuted) }
        ensures stays { OnErr result ((n : RefNameData)
            → states_of ⟦<Key as Ord>⟧.cmp self.new n
            ≡ states_of ⟦<Key as Ord>⟧.cmp self.old n) }
    {
        let key = Key::of(name);
        if let Some(state) = self.by_key.get_mut(&key) {
            let is_first = state.commute(commute)?;
            state.value = value;
            return Ok(is_first);
        }
        let mut state = RefState::new(self.alloc, value);
        let is_first = state.commute(commute)?;
        self.by_key.insert(key, state)?;
        Ok(is_first)
    }

    // What is kept of a ref, which is named no more.
    pub(crate) fn take(&mut self, name: RefName) -> Option<RefState>
        ensures taken { option_map_or ref_state_view result unnamed
            ≡ states_of ⟦<Key as Ord>⟧.cmp self.old (name_view name) }
        ensures left { (n : RefNameData) → states_of ⟦<Key as Ord>⟧.cmp self.new n
            ≡ with_ref_state (name_view name) unnamed (states_of ⟦<Key as Ord>⟧.cmp self.old) n }
    {
        self.by_key.remove(&Key::of(name))
    }
}
