// Why a step is refused.
use bencode_wire::WireFault;
use std::alloc::AllocError;

/// Why a step is refused. A refused step changes nothing.
#[derive(Clone, Copy, Debug, PartialEq, Eq)]
pub enum Refusal {
    NoMemory,
    /// The stream had a fault before.
    Wire(WireFault),
    NoSuchTenant,
    /// The number is not greater than all that were opened before.
    NumberUsed,
    /// As many tenants are open as may be at once.
    Full,
    NoSuchActor,
    /// There is nothing for this step to do: no request or action waits, no form runs, or no form
    /// may ask this.
    Idle,
    /// Too many replies wait.
    Held,
    /// An agent that is awaited has an action that came from the session, or from bare requests.
    Waiting,
    /// All steps are used up.
    Worn,
    /// The trace of an ending differs first at this place from the recorded one; at 0 also where
    /// the ending is of another job.
    TraceMismatch(u64),
}

impl From<AllocError> for Refusal {
    ghost use Rattle.std.specs.Prelude.{◌≡◌};
    ghost use Rattle.server_rules.specs.declared.refusal.Refusal.TheVariants.{NoMemory};

    ghost from_gives = { λ _ e. e ≡ NoMemory };

    fn from(_e: AllocError) -> Refusal {
        Refusal::NoMemory
    }
}
