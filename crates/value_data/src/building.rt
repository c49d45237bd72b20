// Maps made of pairs.
ghost use Rattle.std.specs.Prelude.{◌≡◌, true, length, IsPermutation, IfOk};
ghost use Rattle.chunked_list.specs.Places.{first_places};
ghost use Rattle.value_data.specs.Datum.{no_pairs};
ghost use Rattle.value_data.specs.Inside.View.{pairs_view};
ghost use Rattle.value_data.specs.Inside.Placed.{are_distinct};
ghost use Rattle.value_data.specs.Inside.Index.{ArePlaces, Ascend, Indexes};
ghost use Rattle.value_data.specs.Inside.Fits.{FitsPeaks};
ghost use Rattle.value_data.specs.Inside.Nodes.{entry_pairs};
ghost use Rattle.value_data.specs.Inside.BuiltView.{IsBuilt};

use crate::copies::copy;
use crate::node_measures::Peaks;
use crate::order::compare;
use crate::places::search;
use crate::value::{Entries, PairsNode, Table, Value};
use chunked_list::{RankedPlaces, first_places};
use std::alloc::{AllocError, Global};
use std::cmp::Ordering;
use std::sync::Arc;

/// A map's pairs, or the place of the first key to which an equal one stands before.
#[derive(Debug, Drop)]
pub enum Built {
    Made(Table),
    Repeats(usize),
}

impl Table {
    /// No pairs. It fails only for want of memory.
    pub fn empty(alloc: Global) -> Result<Table, AllocError>
        ensures { IfOk result (λ made. made.pairs ≡ no_pairs) }
    {
        let entries = Entries::empty(alloc)?;
        let index = RankedPlaces::new(alloc);
        sealed_table(alloc, entries, index, Peaks::of_none())
    }

    /// The pairs of the vector, measured and indexed at once. It fails only for want of memory, and
    /// compares n log n keys. Where a key repeats it puts the pairs in one by one, to find the first.
    pub fn from_pairs(alloc: Global, pairs: Vec<(Value, Value)>) -> Result<Built, AllocError>
        ensures { IfOk result (λ built. IsBuilt built (pairs_view pairs.items)) }
    {
        let order = places_by_key(alloc, &pairs)?;
        if !are_ascending(&pairs, &order) {
            return built_one_by_one(alloc, &pairs);
        }
        let index = RankedPlaces::in_order(alloc, &order)?;
        let peaks = peaks_of_pairs(&pairs);
        let entries = Entries::of_pairs(alloc, pairs)?;
        Ok(Built::Made(sealed_table(alloc, entries, index, peaks)?))
    }
}

// The places of the pairs in the order of their keys.
fn places_by_key(alloc: Global, pairs: &[(Value, Value)]) -> Result<Vec<usize>, AllocError>
    ensures { IfOk result (λ places. IsPermutation (first_places (length pairs.now)) places.items) }
{
    let mut places = first_places(alloc, pairs.len())?;
    places.sort_by(|left, right| compare_at(pairs, *left, *right))?;
    Ok(places)
}

// How the keys at two places compare.
fn compare_at(pairs: &[(Value, Value)], left: usize, right: usize) -> Ordering {
    match (pairs.get(left), pairs.get(right)) {
        (Some((ours, _)), Some((theirs, _))) => compare(ours, theirs),
        _ => Ordering::Equal,
    }
}

// Whether each key in this order is less than the one behind it.
fn are_ascending(pairs: &[(Value, Value)], order: &[usize]) -> bool
    requires { ArePlaces order.now (length pairs.now) }
    ensures { result ≡ true → Ascend (pairs_view pairs.now) order.now }
{
    for rank in 1..order.len() {
        let (before, _) = &pairs[order[rank - 1]];
        let (behind, _) = &pairs[order[rank]];
        if !compare(before, behind).is_lt() {
            return false;
        }
    }
    true
}

fn peaks_of_pairs(pairs: &[(Value, Value)]) -> Peaks
    ensures { FitsPeaks result (pairs_view pairs.now) }
{
    let mut peaks = Peaks::of_none();
    for (key, value) in pairs {
        peaks = peaks.with_pair(key, value);
    }
    peaks
}

// The pairs put in one after another, up to the first whose key is there.
fn built_one_by_one(alloc: Global, pairs: &[(Value, Value)]) -> Result<Built, AllocError>
    ensures { IfOk result (λ built. IsBuilt built (pairs_view pairs.now)) }
{
    let mut entries = Entries::empty(alloc)?;
    let mut index = RankedPlaces::new(alloc);
    let mut peaks = Peaks::of_none();
    for place in 0..pairs.len() {
        let (key, value) = &pairs[place];
        match search(key, &entries, &index) {
            Ok(_) => return Ok(Built::Repeats(place)),
            Err(rank) => index = index.with_next(alloc, rank)?,
        }
        peaks = peaks.with_pair(key, value);
        entries = entries.with_pair(alloc, copy(key)?, copy(value)?)?;
    }
    Ok(Built::Made(sealed_table(alloc, entries, index, peaks)?))
}

// The pairs with their index and their peaks.
pub(crate) fn sealed_table(
    alloc: Global,
    entries: Entries,
    index: RankedPlaces,
    peaks: Peaks,
) -> Result<Table, AllocError>
    requires distinct { are_distinct (entry_pairs entries) ≡ true }
    requires indexed { Indexes index (entry_pairs entries) }
    requires peaked { FitsPeaks peaks (entry_pairs entries) }
    ensures { IfOk result (λ made. made.pairs ≡ entry_pairs entries) }
{
    let node = PairsNode {
        entries,
        index,
        peaks,
    };
    let node = Arc::new(alloc, node)?;
    Ok(Table { node })
}
