// The pairs of a map.
#![tactic(auto, using(crate::proofs::Sameness::size_steps, crate::proofs::Tables::table_steps))]

ghost use Rattle.std.specs.Prelude.{◌≡◌, ◌<◌, ◌^◌, true, is_some, option_map, IfOk};
ghost use Rattle.value_data.specs.Datum.{map};
ghost use Rattle.value_data.specs.Inside.View.{view};
ghost use Rattle.value_data.specs.Same.{size};
ghost use Rattle.value_data.specs.Measures.{capped, pairs_weight, pairs_nesting, pairs_are_plain};
ghost use Rattle.value_data.specs.Inside.Hash.{hash};
ghost use Rattle.value_data.specs.Keyed.{value_under, keys_of};
ghost use Rattle.value_data.specs.Inside.Placed.{values_of};
ghost use Rattle.value_data.specs.Inside.Placed.{are_distinct};

use crate::places::place_of;
use crate::value::{Sequence, Table, Value};
use std::alloc::AllocError;
use std::sync::Arc;

impl Table {
    /// The keys in the order in which they were put in, to be read or shared.
    pub fn keys(&self) -> &Sequence
        ensures { result.now.items ≡ keys_of self.now.pairs }
    {
        self.node.entries.keys()
    }

    /// The values in the order of their keys, to be read or shared.
    pub fn values(&self) -> &Sequence
        ensures { result.now.items ≡ values_of self.now.pairs }
    {
        self.node.entries.values()
    }

    /// How many pairs there are.
    pub fn len(&self) -> usize
        ensures count { result ≡ size self.now.pairs }
        ensures bound { result < 2 ^ 63 }
    {
        self.node.entries.len()
    }

    /// No two keys are equal.
    pub fn keys_are_distinct(&self)
        ensures { are_distinct self.now.pairs ≡ true }
    {
        let _node = &self.node;
    }

    /// The same pairs. It takes one step and no memory, and fails only where 2^63 owners share
    /// them.
    pub fn copy(&self) -> Result<Table, AllocError>
        ensures { IfOk result (λ copied. copied ≡ self.now) }
    {
        Ok(Table {
            node: Arc::try_clone(&self.node)?,
        })
    }

    /// The value under an equal key. It takes as many comparisons as the number of pairs
    /// has binary digits.
    pub fn get(&self, key: &Value) -> Option<&Value>
        ensures { option_map (λ v. view v.now) result ≡ value_under (view key.now) self.now.pairs }
    {
        let entries = &self.node.entries;
        let place = place_of(key, entries, &self.node.index)?;
        Some(entries.value(place))
    }

    /// Whether a key is equal, found as `get` finds it.
    pub fn contains(&self, key: &Value) -> bool
        ensures { result ≡ is_some (value_under (view key.now) self.now.pairs) }
    {
        self.get(key).is_some()
    }

    /// How large the keys and values are, read from their rows.
    pub fn weight(&self) -> u64
        ensures { result ≡ capped (pairs_weight self.now.pairs) }
    {
        self.node.entries.weight()
    }

    /// How deep the keys and values are, read from their rows.
    pub fn nesting(&self) -> u64
        ensures { result ≡ capped (pairs_nesting self.now.pairs) }
    {
        self.node.entries.nesting()
    }

    /// Whether all keys and values are plain, read from their rows.
    pub fn is_plain(&self) -> bool
        ensures { result ≡ pairs_are_plain self.now.pairs }
    {
        self.node.entries.is_plain()
    }

    /// What a map of these pairs hashes to, from what their node keeps.
    pub fn hash(&self) -> u64
        ensures { result ≡ hash (map self.now.pairs) }
    {
        self.node.peaks.hash(self.node.entries.len())
    }
}
