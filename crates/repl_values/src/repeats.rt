// The first repeated key.
ghost use Rattle.std.specs.Prelude.{◌≡◌, IfOk};
ghost use Rattle.value_data.specs.Inside.View.{items_view};
ghost use Rattle.value_data.specs.Datum.{Pairs};
ghost use Rattle.value_data.specs.Keyed.{keys_of};
ghost use Rattle.value_data.specs.Repeats.{first_repeat};
ghost use Rattle.value_data.specs.Inside.BuiltView.{IsBuilt};

use std::alloc::{AllocError, Global};
use value_data::{Built, Table, Value, copy};

/// The index of the first key, from the left, to which an equal one stands before. It fails only
/// for want of memory, and compares n log n keys.
pub fn first_repeated(alloc: Global, keys: &[Value]) -> Result<Option<usize>, AllocError>
    ensures { IfOk result (λ found. found ≡ first_repeat (items_view keys.now)) }
{
    let mut pairs = Vec::with_capacity(alloc, keys.len())?;
    for key in keys {
        pairs.push((copy(key)?, Value::Nil))?;
    }
    Ok(repeated_place(Table::from_pairs(alloc, pairs)?))
}

fn repeated_place(built: Built) -> Option<usize>
    ensures { (ps : Pairs) → IsBuilt built ps → result ≡ first_repeat (keys_of ps) }
{
    match built {
        Built::Made(_) => None,
        Built::Repeats(place) => Some(place),
    }
}
