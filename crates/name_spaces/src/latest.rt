// The names of a session's latest results.
ghost use Rattle.std.specs.Prelude.{◌≡◌};
ghost use Rattle.name_spaces.specs.Latest.{latest_named};

/// One of the latest results of a session.
#[derive(Clone, Copy, Debug, PartialEq, Eq)]
pub enum Latest {
    /// The value of the latest form.
    One,
    /// The value of the form before.
    Two,
    /// The value of the form before that.
    Three,
    /// The latest fault.
    Fault,
}

impl Latest {
    // The one that a symbol names where nothing binds it.
    pub(crate) fn named(symbol: &str) -> Option<Latest>
        ensures { result ≡ latest_named symbol.now }
    {
        match symbol {
            "*1" => Some(Latest::One),
            "*2" => Some(Latest::Two),
            "*3" => Some(Latest::Three),
            "*e" => Some(Latest::Fault),
            _ => None,
        }
    }
}
