// The places of a map's pairs, found by their keys.
#![tactic(auto, using(crate::proofs::Tables::table_steps))]

ghost use Rattle.std.specs.Prelude.{◌≡◌, Some, IfOk, IfErr};
ghost use Rattle.value_data.specs.Inside.View.{view};
ghost use Rattle.value_data.specs.Inside.Nodes.{entry_pairs};
ghost use Rattle.value_data.specs.Inside.Placed.{first_place};
ghost use Rattle.value_data.specs.Inside.Index.{Indexes, Belongs, IsRanked};

use crate::order::compare;
use crate::value::{Entries, Value};
use chunked_list::RankedPlaces;
use std::cmp::Ordering;

// An equal key, by its place and by the rank of this in the index.
#[derive(Clone, Copy)]
pub(crate) struct FoundKey {
    pub(crate) rank: usize,
    pub(crate) place: usize,
}

// An equal key, or else the rank at which the place of this key belongs. It compares with as many
// keys as the number of pairs has binary digits.
pub(crate) fn search(
    key: &Value,
    entries: &Entries,
    index: &RankedPlaces,
) -> Result<FoundKey, usize>
    requires { Indexes index.now (entry_pairs entries.now) }
    ensures found { IfOk result (λ found. first_place (entry_pairs entries.now) (view key.now)
        ≡ Some found.place) }
    ensures ranked { IfOk result (λ found. IsRanked found.rank found.place index.now) }
    ensures new { IfErr result (λ rank.
        Belongs rank index.now (entry_pairs entries.now) (view key.now)) }
{
    let mut low = 0;
    let mut high = entries.len();
    while low < high {
        let middle = low + (high - low) / 2;
        let place = index.at(middle);
        match compare(entries.key(place), key) {
            Ordering::Less => low = middle + 1,
            Ordering::Equal => {
                return Ok(FoundKey {
                    rank: middle,
                    place,
                });
            }
            Ordering::Greater => high = middle,
        }
    }
    Err(low)
}

// Where an equal key stands.
pub(crate) fn place_of(key: &Value, entries: &Entries, index: &RankedPlaces) -> Option<usize>
    requires { Indexes index.now (entry_pairs entries.now) }
    ensures { result ≡ first_place (entry_pairs entries.now) (view key.now) }
{
    match search(key, entries, index) {
        Ok(found) => Some(found.place),
        Err(_) => None,
    }
}
