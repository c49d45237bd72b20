// What is kept of the items of a list or a vector, and of the pairs of a map beside their rows.
ghost use Rattle.std.specs.Prelude.{◌≡◌, ℕ, Bool, ◌&&◌, max, List, [], ◌∷◌, ◌++◌, IfSome};
ghost use Rattle.value_data.specs.Datum.{Datum, Pairs, no_pairs, map};
ghost use Rattle.value_data.specs.Listed.{items_of};
ghost use Rattle.value_data.specs.Inside.View.{view, views};
ghost use Rattle.value_data.specs.Same.{size};
ghost use Rattle.value_data.specs.Inside.Hash.{hash, items_hash, salted};
ghost use Rattle.value_data.specs.Keyed.{behind_all};
ghost use Rattle.value_data.specs.Inside.Placed.{with_value, without_at, StandsAt};
ghost use Rattle.value_data.specs.Inside.Seen.{MayFit};
ghost use Rattle.value_data.specs.Inside.Fits.{FitsItems, FitsPeaks};

use crate::hashing::{hash_of, mix, raise, salt};
use crate::measure::{is_plain, nesting, weight};
use crate::value::Value;

// Their weight and nesting, whether all are plain, and the two numbers by which they change a hash
// that goes over them: h becomes h * factor + addend.
#[derive(Clone, Copy, Debug)]
pub(crate) struct ItemsMeasure {
    pub(crate) weight: u64,
    pub(crate) nesting: u64,
    pub(crate) plain: bool,
    pub(crate) factor: u64,
    pub(crate) addend: u64,
}

// The four numbers that a map's hash is made of beside its size: the greatest of its pairs' hashes
// in four orders.
#[derive(Clone, Copy, Debug)]
pub(crate) struct Peaks {
    pub(crate) first: u64,
    pub(crate) second: u64,
    pub(crate) third: u64,
    pub(crate) fourth: u64,
}

impl ItemsMeasure {
    // Of no items.
    pub(crate) fn of_none() -> ItemsMeasure
        ensures { FitsItems result [] }
    {
        ItemsMeasure {
            weight: 0,
            nesting: 0,
            plain: true,
            factor: 1,
            addend: 0,
        }
    }

    // Of one item.
    pub(crate) fn of_one(item: &Value) -> ItemsMeasure
        ensures { FitsItems result (view item.now ∷ []) }
    {
        ItemsMeasure {
            weight: weight(item),
            nesting: nesting(item),
            plain: is_plain(item),
            factor: 0x9E3779B97F4A7C15,
            addend: hash_of(item),
        }
    }

    // Of the items of the one and then those of the other.
    pub(crate) fn plus(self, other: ItemsMeasure) -> ItemsMeasure
        ensures { (ds es : List Datum) → FitsItems self ds → FitsItems other es
            → FitsItems result (ds ++ es) }
    {
        ItemsMeasure {
            weight: self.weight.saturating_add(other.weight),
            nesting: self.nesting.max(other.nesting),
            plain: both(self.plain, other.plain),
            factor: self.factor.wrapping_mul(other.factor),
            addend: self
                .addend
                .wrapping_mul(other.factor)
                .wrapping_add(other.addend),
        }
    }

    // What a list of the items hashes to.
    pub(crate) fn hash(self) -> u64
        ensures { (ds : List Datum) → FitsItems self ds → result ≡ items_hash 7 (items_of ds) }
    {
        self.factor.wrapping_mul(7).wrapping_add(self.addend)
    }
}

// Of some items, read one by one.
pub(crate) fn measure_of(items: &[Value]) -> ItemsMeasure
    ensures { FitsItems result (views items.now) }
{
    let mut measure = ItemsMeasure::of_none();
    for item in items {
        measure = measure.plus(ItemsMeasure::of_one(item));
    }
    measure
}

impl Peaks {
    // Of no pairs.
    pub(crate) fn of_none() -> Peaks
        ensures { FitsPeaks result no_pairs }
    {
        Peaks {
            first: 0,
            second: 0,
            third: 0,
            fourth: 0,
        }
    }

    // Of the pairs with one more behind them.
    pub(crate) fn with_pair(self, key: &Value, value: &Value) -> Peaks
        ensures { (ps : Pairs) → FitsPeaks self ps
            → FitsPeaks result (behind_all ps (view key.now) (view value.now)) }
    {
        let word = mix(mix(9, hash_of(key)), hash_of(value));
        Peaks {
            first: raise(self.first, 0xD6E8FEB86659FD93, word),
            second: raise(self.second, 0x2917014799A6026D, word),
            third: raise(self.third, 0xBF58476D1CE4E5B9, word),
            fourth: raise(self.fourth, 0x40A7B892E31B1A47, word),
        }
    }

    // Of the pairs with another value under a key, where that can be told without the others.
    pub(crate) fn with_value(self, key: &Value, old: &Value, new: &Value) -> Option<Peaks>
        ensures { (ps : Pairs) (n : ℕ) → FitsPeaks self ps
            → StandsAt ps n (view key.now) (view old.now)
            → MayFit result (with_value n (view new.now) ps) }
    {
        let hashed = mix(9, hash_of(key));
        let before = mix(hashed, hash_of(old));
        let now = mix(hashed, hash_of(new));
        Some(Peaks {
            first: peak(self.first, 0xD6E8FEB86659FD93, before, now)?,
            second: peak(self.second, 0x2917014799A6026D, before, now)?,
            third: peak(self.third, 0xBF58476D1CE4E5B9, before, now)?,
            fourth: peak(self.fourth, 0x40A7B892E31B1A47, before, now)?,
        })
    }

    // Of the pairs without one, where that can be told without the others.
    pub(crate) fn without_pair(self, key: &Value, value: &Value) -> Option<Peaks>
        ensures { (ps : Pairs) (n : ℕ) → FitsPeaks self ps
            → StandsAt ps n (view key.now) (view value.now)
            → MayFit result (without_at n ps) }
    {
        let word = mix(mix(9, hash_of(key)), hash_of(value));
        Some(Peaks {
            first: greatest(self.first, salt(0xD6E8FEB86659FD93, word), 0)?,
            second: greatest(self.second, salt(0x2917014799A6026D, word), 0)?,
            third: greatest(self.third, salt(0xBF58476D1CE4E5B9, word), 0)?,
            fourth: greatest(self.fourth, salt(0x40A7B892E31B1A47, word), 0)?,
        })
    }

    // What a map of so many pairs hashes to.
    pub(crate) fn hash(self, count: usize) -> u64
        ensures { (ps : Pairs) → FitsPeaks self ps → count ≡ size ps → result ≡ hash (map ps) }
    {
        let sized = mix(8, count as u64);
        mix(
            mix(mix(mix(sized, self.first), self.second), self.third),
            self.fourth,
        )
    }
}

// The greatest of some numbers of which one was `old` and is `new`, where that can be told without
// the others: it cannot where the old one was the greatest and the new one is less.
fn greatest(top: u64, old: u64, new: u64) -> Option<u64>
    ensures { IfSome result (λ found. (others : ℕ) → top ≡ max others old
        → found ≡ max others new) }
{
    if old < top || old <= new {
        Some(top.max(new))
    } else {
        None
    }
}

pub(crate) fn both(first: bool, second: bool) -> bool
    ensures { result ≡ (first && second) }
{
    first && second
}

// The same of numbers that were multiplied by a salt.
fn peak(top: u64, by: u64, old: u64, new: u64) -> Option<u64>
    ensures { IfSome result (λ found. (others : ℕ) → top ≡ max others (salted by old)
        → found ≡ max others (salted by new)) }
{
    greatest(top, salt(by, old), salt(by, new))
}
