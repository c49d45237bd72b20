// Pairs in the order in which they were put in. Each change shares all nodes but those on one path
// of the keys and one of the values.
ghost use Rattle.std.specs.Prelude.{◌≡◌, ◌<◌, ◌^◌, ◌++◌, ◌∷◌, [], IfOk, map, length};
ghost use Rattle.std.specs.Prelude.{slice_index_or, slice_set};
ghost use Rattle.std.specs.List.{remove};
ghost use Rattle.value_data.specs.Datum.{Datum};
ghost use Rattle.value_data.specs.Listed.{items_of};
ghost use Rattle.value_data.specs.Measures.{capped, pairs_weight, pairs_nesting, pairs_are_plain};
ghost use Rattle.value_data.specs.Inside.Nodes.{entry_pairs};
ghost use Rattle.value_data.specs.Inside.View.{view, pair_view};
ghost use Rattle.value_data.specs.Inside.Seen.{entry_view, key_in, value_of_pair};

use crate::node_measures::both;
use crate::value::{Entries, Sequence, Value};
use std::alloc::{AllocError, Global};

impl Entries {
    // No pairs.
    pub(crate) fn empty(alloc: Global) -> Result<Entries, AllocError>
        ensures { IfOk result (λ made. made.listed ≡ []) }
    {
        Ok(Entries {
            keys: Sequence::from_vec(alloc, Vec::new(alloc))?,
            values: Sequence::from_vec(alloc, Vec::new(alloc))?,
        })
    }

    // These pairs, whose keys and values are handed over.
    pub(crate) fn of_pairs(alloc: Global, pairs: Vec<(Value, Value)>) -> Result<Entries, AllocError>
        ensures { IfOk result (λ made. made.listed ≡ map pair_view pairs.items) }
    {
        let mut keys = Vec::with_capacity(alloc, pairs.len())?;
        let mut values = Vec::with_capacity(alloc, pairs.len())?;
        for (key, value) in pairs {
            keys.push(key)?;
            values.push(value)?;
        }
        Ok(Entries {
            keys: Sequence::from_vec(alloc, keys)?,
            values: Sequence::from_vec(alloc, values)?,
        })
    }

    // How many pairs there are.
    pub(crate) fn len(&self) -> usize
        ensures count { result ≡ length self.now.listed }
        ensures bound { result < 2 ^ 63 }
    {
        self.keys.len()
    }

    // The keys in their order.
    pub(crate) fn keys(&self) -> &Sequence
        ensures { result.now.items ≡ items_of (map key_in self.now.listed) }
    {
        &self.keys
    }

    // The values in the order of their keys.
    pub(crate) fn values(&self) -> &Sequence
        ensures { result.now.items ≡ items_of (map value_of_pair self.now.listed) }
    {
        &self.values
    }

    // The key at a place that is one.
    pub(crate) fn key(&self, place: usize) -> &Value
        requires { place < length self.now.listed }
        ensures { view result.now ≡ slice_index_or (map key_in self.now.listed) place
            (view result.now) }
    {
        self.keys.at(place)
    }

    // The value at a place that is one.
    pub(crate) fn value(&self, place: usize) -> &Value
        requires { place < length self.now.listed }
        ensures { view result.now ≡ slice_index_or (map value_of_pair self.now.listed) place
            (view result.now) }
    {
        self.values.at(place)
    }

    // The pair at a place that is one.
    pub(crate) fn pair(&self, place: usize) -> (&Value, &Value)
        requires { place < length self.now.listed }
        ensures { entry_view result ≡ slice_index_or self.now.listed place (entry_view result) }
    {
        (self.keys.at(place), self.values.at(place))
    }

    // How large the keys and values are.
    pub(crate) fn weight(&self) -> u64
        ensures { result ≡ capped (pairs_weight (entry_pairs self.now)) }
    {
        self.keys.weight().saturating_add(self.values.weight())
    }

    // How deep the keys and values are.
    pub(crate) fn nesting(&self) -> u64
        ensures { result ≡ capped (pairs_nesting (entry_pairs self.now)) }
    {
        self.keys.nesting().max(self.values.nesting())
    }

    // Whether all keys and values are plain.
    pub(crate) fn is_plain(&self) -> bool
        ensures { result ≡ pairs_are_plain (entry_pairs self.now) }
    {
        both(self.keys.is_plain(), self.values.is_plain())
    }

    // The same pairs, in two steps and with no memory. It fails only where 2^63 owners share them.
    pub(crate) fn copy(&self) -> Result<Entries, AllocError>
        ensures { IfOk result (λ copied. copied ≡ self.now) }
    {
        Ok(Entries {
            keys: self.keys.copy()?,
            values: self.values.copy()?,
        })
    }

    // One more pair behind the others.
    pub(crate) fn with_pair(
        self,
        alloc: Global,
        key: Value,
        value: Value,
    ) -> Result<Entries, AllocError>
        ensures { IfOk result (λ made. made.listed
            ≡ self.listed ++ (view key, view value) ∷ []) }
    {
        let Entries { keys, values } = self;
        Ok(Entries {
            keys: keys.with_last(alloc, key)?,
            values: values.with_last(alloc, value)?,
        })
    }

    // Another value at a place, whose key stays.
    pub(crate) fn with_value(
        self,
        alloc: Global,
        place: usize,
        value: Value,
    ) -> Result<Entries, AllocError>
        requires { place < length self.listed }
        ensures { (key : Datum) → IfOk result (λ made. made.listed
            ≡ slice_set self.listed place (
              slice_index_or (map key_in self.listed) place key,
              view value,
            )) }
    {
        let Entries { keys, values } = self;
        Ok(Entries {
            keys,
            values: values.with_item(alloc, place, value)?,
        })
    }

    // The pairs without that at a place.
    pub(crate) fn without(self, alloc: Global, place: usize) -> Result<Entries, AllocError>
        requires { place < length self.listed }
        ensures { IfOk result (λ made. made.listed ≡ remove self.listed place) }
    {
        let Entries { keys, values } = self;
        Ok(Entries {
            keys: keys.without_item(alloc, place)?,
            values: values.without_item(alloc, place)?,
        })
    }
}
