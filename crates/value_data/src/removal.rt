// Pairs without those of some keys, and a pair as a vector.
ghost use Rattle.std.specs.Prelude.{◌≡◌, ℕ, IfOk};
ghost use Rattle.value_data.specs.Datum.{item, no_items, Pairs};
ghost use Rattle.value_data.specs.Inside.View.{view, items_view};
ghost use Rattle.value_data.specs.Inside.Nodes.{entry_pairs, KeepsEdited};
ghost use Rattle.value_data.specs.Inside.Placed.{StandsAt, without_at};
ghost use Rattle.value_data.specs.Inside.Seen.{MayFit};
ghost use Rattle.value_data.specs.Put.{without_keys as without};
ghost use Rattle.value_data.specs.Listed.{vector_of_two};

use crate::copies::copy;
use crate::edits::{Edited, copy_node};
use crate::node_measures::Peaks;
use crate::places::search;
use crate::value::{Sequence, Table, Value};
use std::alloc::{AllocError, Global};

impl Table {
    /// The pairs whose keys equal none of these, in their order. It fails only for want of memory.
    ///
    /// Each key takes a logarithm of comparisons and of steps, and all nodes but those on four paths
    /// are shared. All pairs are looked at only where one that goes decided the hash of the map.
    pub fn without_keys(&self, alloc: Global, keys: &[Value]) -> Result<Table, AllocError>
        ensures { IfOk result (λ made. made.pairs ≡ without self.now.pairs (items_view keys.now)) }
    {
        let mut edited = Edited::of(copy_node(alloc, &self.node)?);
        for key in keys {
            edited = without_key(alloc, edited, key)?;
        }
        edited.sealed(alloc)
    }
}

// The pairs without that of an equal key, where there is one.
fn without_key(alloc: Global, edited: Edited, key: &Value) -> Result<Edited, AllocError>
    requires { KeepsEdited edited }
    ensures left { IfOk result (λ left. entry_pairs left.entries
        ≡ without (entry_pairs edited.entries) (item (view key.now) no_items)) }
    ensures keeps { IfOk result (λ left. KeepsEdited left) }
{
    let Edited {
        entries,
        index,
        peaks,
    } = edited;
    match search(key, &entries, &index) {
        Ok(found) => Ok(Edited {
            peaks: peaks_without(peaks, entries.pair(found.place)),
            entries: entries.without(alloc, found.place)?,
            index: index.without(alloc, found.rank)?,
        }),
        Err(_) => Ok(Edited {
            entries,
            index,
            peaks,
        }),
    }
}

fn peaks_without(peaks: Option<Peaks>, pair: (&Value, &Value)) -> Option<Peaks>
    ensures { (ps : Pairs) (n : ℕ) → MayFit peaks ps
        → StandsAt ps n (view pair.entry.0.now) (view pair.entry.1.now)
        → MayFit result (without_at n ps) }
{
    peaks?.without_pair(pair.0, pair.1)
}

/// The vector of a key and its value. It fails only for want of memory.
pub fn pair_as_vector(alloc: Global, key: &Value, value: &Value) -> Result<Value, AllocError>
    ensures { IfOk result (λ made. view made ≡ vector_of_two (view key.now, view value.now)) }
{
    let mut items = Vec::with_capacity(alloc, 2)?;
    items.push(copy(key)?)?;
    items.push(copy(value)?)?;
    Ok(Value::Vector(Sequence::from_vec(alloc, items)?))
}
