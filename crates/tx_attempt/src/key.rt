// Names of refs in an order, by which they are found.
ghost use Rattle.std.specs.Prelude.{◌≡◌};
ghost use Rattle.repl_asks.specs.Inside.View.{name_view};
ghost use Rattle.tx_attempt.specs.Inside.Keys.{key_of};

use repl_values::{Owner, RefName};

/// The name of a ref, in an order.
#[derive(Clone, Copy, Debug, PartialEq, Eq, PartialOrd, Ord)]
pub(crate) struct Key {
    // None where the ref is shared.
    pub(crate) tenant: Option<u64>,
    pub(crate) number: u64,
}

impl Key {
    pub(crate) fn of(name: RefName) -> Key
        ensures { result ≡ key_of (name_view name) }
    {
        let tenant = match name.owner {
            Owner::Shared => None,
            Owner::Tenant(tenant) => Some(tenant),
        };
        Key {
            tenant,
            number: name.number,
        }
    }
}
