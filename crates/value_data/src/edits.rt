// Pairs put into a map, one after another.
#![tactic(auto, using(crate::proofs::Editing::edit_steps))]

ghost use Rattle.std.specs.Prelude.{◌≡◌, ℕ, true, map, IfOk};
ghost use Rattle.value_data.specs.Datum.{Pairs};
ghost use Rattle.value_data.specs.Inside.View.{view};
ghost use Rattle.value_data.specs.Keyed.{behind_all};
ghost use Rattle.value_data.specs.Inside.Placed.{are_distinct, with_value, StandsAt};
ghost use Rattle.value_data.specs.Put.{put_pair, put_pairs};
ghost use Rattle.value_data.specs.Inside.Index.{Indexes};
ghost use Rattle.value_data.specs.Inside.Fits.{FitsPeaks};
ghost use Rattle.value_data.specs.Inside.Nodes.{KeepsPairs, KeepsEdited, entry_pairs};
ghost use Rattle.value_data.specs.Inside.Seen.{entry_view, MayFit};

use crate::building::sealed_table;
use crate::copies::copy;
use crate::node_measures::Peaks;
use crate::places::search;
use crate::value::{Entries, PairsNode, Table, Value};
use chunked_list::RankedPlaces;
use std::alloc::{AllocError, Global};

impl Table {
    /// The pairs with more put in, one after another: a key there keeps its place and takes the
    /// later value. It fails only for want of memory.
    ///
    /// Each takes a logarithm of comparisons and of steps, and shares all nodes but those on three
    /// paths, which are changed in their place where nobody else holds them. All pairs are looked at
    /// only where a replaced value decided the hash of the map.
    pub fn with_pairs(self, alloc: Global, more: &[(&Value, &Value)]) -> Result<Table, AllocError>
        ensures { IfOk result (λ made. made.pairs
            ≡ put_pairs self.pairs (map entry_view more.now)) }
    {
        let mut edited = Edited::of(self.into_owned_node(alloc)?);
        for (key, value) in more {
            edited = put(alloc, edited, key, value)?;
        }
        edited.sealed(alloc)
    }
}

// Pairs that are changed, with their index, and with their peaks, which are lost where they need
// all pairs.
#[derive(Drop)]
pub(crate) struct Edited {
    pub(crate) entries: Entries,
    pub(crate) index: RankedPlaces,
    pub(crate) peaks: Option<Peaks>,
}

impl Edited {
    pub(crate) fn of(node: PairsNode) -> Edited
        requires { KeepsPairs node }
        ensures pairs { result.entries ≡ node.entries }
        ensures keeps { KeepsEdited result }
    {
        let PairsNode {
            entries,
            index,
            peaks,
        } = node;
        Edited {
            entries,
            index,
            peaks: Some(peaks),
        }
    }

    // The map of the pairs.
    pub(crate) fn sealed(self, alloc: Global) -> Result<Table, AllocError>
        requires { KeepsEdited self }
        ensures { IfOk result (λ made. made.pairs ≡ entry_pairs self.entries) }
    {
        let Edited {
            entries,
            index,
            peaks,
        } = self;
        let peaks = match peaks {
            Some(peaks) => peaks,
            None => peaks_of(&entries),
        };
        sealed_table(alloc, entries, index, peaks)
    }
}

pub(crate) fn copy_node(alloc: Global, node: &PairsNode) -> Result<PairsNode, AllocError>
    requires { KeepsPairs node.now }
    ensures pairs { IfOk result (λ copied. copied.entries ≡ node.now.entries) }
    ensures keeps { IfOk result (λ copied. KeepsPairs copied) }
{
    Ok(PairsNode {
        entries: node.entries.copy()?,
        index: node.index.copy(alloc)?,
        peaks: node.peaks,
    })
}

fn peaks_of(entries: &Entries) -> Peaks
    ensures { FitsPeaks result (entry_pairs entries.now) }
{
    let mut peaks = Peaks::of_none();
    for place in 0..entries.len() {
        let (key, value) = entries.pair(place);
        peaks = peaks.with_pair(key, value);
    }
    peaks
}

// Puts one pair. The peaks go on, and are lost only where they need all pairs.
fn put(alloc: Global, edited: Edited, key: &Value, value: &Value) -> Result<Edited, AllocError>
    requires { KeepsEdited edited }
    ensures put { IfOk result (λ put. entry_pairs put.entries
        ≡ put_pair (view key.now) (view value.now) (entry_pairs edited.entries)) }
    ensures keeps { IfOk result (λ put. KeepsEdited put) }
{
    let Edited {
        entries,
        index,
        peaks,
    } = edited;
    match search(key, &entries, &index) {
        Ok(found) => Ok(Edited {
            peaks: peaks_with_value(peaks, entries.pair(found.place), value),
            entries: entries.with_value(alloc, found.place, copy(value)?)?,
            index,
        }),
        Err(rank) => Ok(Edited {
            index: index.with_next(alloc, rank)?,
            entries: entries.with_pair(alloc, copy(key)?, copy(value)?)?,
            peaks: with_pair(peaks, key, value),
        }),
    }
}

fn with_pair(peaks: Option<Peaks>, key: &Value, value: &Value) -> Option<Peaks>
    ensures { (ps : Pairs) → MayFit peaks ps
        → MayFit result (behind_all ps (view key.now) (view value.now)) }
{
    Some(peaks?.with_pair(key, value))
}

fn peaks_with_value(peaks: Option<Peaks>, pair: (&Value, &Value), value: &Value) -> Option<Peaks>
    ensures { (ps : Pairs) (n : ℕ) → MayFit peaks ps
        → StandsAt ps n (view pair.entry.0.now) (view pair.entry.1.now)
        → MayFit result (with_value n (view value.now) ps) }
{
    peaks?.with_value(pair.0, pair.1, value)
}
