// Stamps by their halves. Stamps that have no upper half take no place for one.
ghost use Rattle.std.specs.Prelude.{◌≡◌, ◌≢◌, ◌<◌, ◌≤◌, ◌+◌, ◌*◌, ◌/◌, ◌%◌, ◌^◌, ℕ, length};
ghost use Rattle.std.specs.Prelude.{slice_index_or};

use paged_list::PagedRow;

const HALF: u128 = 1 << 64;

pub(crate) fn upper_half(stamp: u128) -> u64
    ensures { result ≡ stamp / 2 ^ 64 }
{
    (stamp / HALF) as u64
}

pub(crate) fn lower_half(stamp: u128) -> u64
    ensures { result ≡ stamp % 2 ^ 64 }
{
    (stamp % HALF) as u64
}

pub(crate) fn joined(upper: u64, lower: u64) -> u128
    ensures { result ≡ upper * 2 ^ 64 + lower }
{
    upper as u128 * HALF + lower as u128
}

pub(crate) fn upper_at(uppers: &PagedRow<u64>, place: usize) -> u64
    ensures { result ≡ slice_index_or uppers.now.items place 0 }
{
    if place < uppers.len() {
        *uppers.at(place)
    } else {
        0
    }
}

// Where there is none yet, those between are 0.
pub(crate) fn put_upper(uppers: &mut PagedRow<u64>, place: usize, upper: u64)
    requires { place < length uppers.old.items + uppers.old.room }
    ensures here { slice_index_or uppers.new.items place 0 ≡ upper }
    ensures others { (n : ℕ) → n ≢ place
        → slice_index_or uppers.new.items n 0 ≡ slice_index_or uppers.old.items n 0 }
    ensures few { (most : ℕ) → place < most → length uppers.old.items ≤ most
        → length uppers.new.items ≤ most }
    ensures fitting { length uppers.new.items + uppers.new.room
        ≡ length uppers.old.items + uppers.old.room }
{
    if upper == 0 && uppers.len() <= place {
        return;
    }
    while uppers.len() <= place {
        uppers.put(0);
    }
    uppers.set(place, upper);
}
