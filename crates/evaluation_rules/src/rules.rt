// The rules of transactions and of shared refs.
ghost use Rattle.std.specs.Prelude.{◌≡◌, true};
ghost use Rattle.value_data.specs.Inside.View.{view, owner_view};
ghost use Rattle.repl_values.specs.Inside.FaultView.{Gives};
ghost use Rattle.repl_asks.specs.Transactions.{may_hold};
ghost use Rattle.evaluation_rules.specs.Arguments as meant;

use repl_values::{ApplyError, Owner, RefName, Rule, Value, broken_rule, is_plain};
use std::alloc::Global;

/// Whether a ref may get this value: a ref that all tenants share holds plain data only. For such a
/// ref it takes about a step for each value inside; it takes no memory.
pub fn may_hold(name: RefName, value: &Value) -> bool
    ensures { result ≡ may_hold (owner_view name.owner) (view value.now) }
{
    match name.owner {
        Owner::Shared => is_plain(value),
        Owner::Tenant(_) => true,
    }
}

pub(crate) fn is_shared(name: RefName) -> bool
    ensures { result ≡ meant.is_shared (owner_view name.owner) }
{
    match name.owner {
        Owner::Shared => true,
        Owner::Tenant(_) => false,
    }
}

// The fault of the rule, unless it is kept.
pub(crate) fn keep_to(alloc: Global, rule: Rule, holds: bool) -> Result<(), ApplyError>
    ensures { Gives (λ _. true) result (meant.kept_to rule holds) }
{
    if holds {
        return Ok(());
    }
    Err(ApplyError::Fault(broken_rule(alloc, rule)?))
}
