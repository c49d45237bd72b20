// When two values are equal.
ghost use Rattle.std.specs.Prelude.{◌≡◌};
ghost use Rattle.value_data.specs.Inside.View.{view};
ghost use Rattle.value_data.specs.Same.{same as are_same};

use crate::order::compare;
use crate::value::Value;

/// Whether the values are equal: a list and a vector by their items, and maps in any order.
///
/// It takes no memory, and reads items and pairs only where their hashes are equal.
#[tactic(auto, using(crate::proofs::Ties::ties))]
pub fn same(left: &Value, right: &Value) -> bool
    ensures { result ≡ are_same (view left.now) (view right.now) }
{
    compare(left, right).is_eq()
}
