// Whether what is to be set may be set, and what was commuted may be made again.
ghost use Rattle.std.specs.Prelude.{◌≡◌, map};
ghost use Rattle.std.specs.List.{list_all};
ghost use Rattle.value_data.specs.Inside.View.{view, owner_view};
ghost use Rattle.repl_asks.specs.Inside.View.{change_view, commute_view, commuted_view};
ghost use Rattle.ref_table.specs.Commit.{all_fit, takes_its_arguments, all_take};
ghost use Rattle.repl_asks.specs.Transactions.{may_hold};

use repl_asks::{Change, Commute, Commuted};
use repl_values::{Owner, Value, is_plain};

// Whether each shared ref gets a plain value. It reads these values whole.
pub(crate) fn all_fit(sets: &[Change]) -> bool
    ensures { result ≡ all_fit (map change_view sets.now) }
{
    for change in sets {
        if !may_hold(change.name.owner, &change.now) {
            return false;
        }
    }
    true
}

// Whether a ref may hold the value. It reads whole what goes into a shared one.
pub(crate) fn may_hold(owner: Owner, value: &Value) -> bool
    ensures { result ≡ may_hold (owner_view owner) (view value.now) }
{
    match owner {
        Owner::Shared => is_plain(value),
        Owner::Tenant(_) => true,
    }
}

// Whether each function takes the value of its ref and its arguments.
pub(crate) fn all_take(commuted: &[Commuted]) -> bool
    ensures { result ≡ all_take (map commuted_view commuted.now) }
{
    for one in commuted {
        if !each_takes(&one.commutes) {
            return false;
        }
    }
    true
}

fn each_takes(commutes: &[Commute]) -> bool
    ensures { result ≡ list_all takes_its_arguments (map commute_view commutes.now) }
{
    for commute in commutes {
        if !takes_its_arguments(commute) {
            return false;
        }
    }
    true
}

fn takes_its_arguments(commute: &Commute) -> bool
    ensures { result ≡ takes_its_arguments (commute_view commute.now) }
{
    commute.function.takes(commute.arguments.len() + 1)
}
