// The evaluations of all tenants.
ghost use Rattle.std.specs.Prelude.{◌≡◌, ◌≢◌, ℕ, Option, None, Some, OnOk};
ghost use Rattle.server_rules.specs.Machine.World.{TenantData};
ghost use Rattle.repl_core.specs.Going.{AreWalkedIn};
ghost use Rattle.machine_runs.specs.AllWalks.{walks_at, IsWalkedAt};

use repl_core::Walks;
use std::alloc::{AllocError, Global};
use std::collections::BTreeMap;

/// The evaluations of the forms that run, by the numbers of their tenants.
#[derive(Drop)]
pub(crate) struct AllWalks {
    pub(crate) live: BTreeMap<u64, Walks>,
}

// Each takes about the logarithm of the number of tenants.
impl AllWalks {
    pub(crate) fn new(alloc: Global) -> AllWalks
        ensures { (u : ℕ) → walks_at result u ≡ None }
    {
        AllWalks {
            live: BTreeMap::new(alloc),
        }
    }

    /// Takes those of a tenant out.
    pub(crate) fn take(&mut self, alloc: Global, number: u64) -> Walks
        ensures walked { (o : Option TenantData) → IsWalkedAt (walks_at self.old number) o
            → AreWalkedIn result o }
        ensures others { (u : ℕ) → u ≢ number → walks_at self.new u ≡ walks_at self.old u }
    {
        match self.live.remove(&number) {
            Some(walks) => walks,
            None => Walks::new(alloc),
        }
    }

    /// Puts those of a tenant in. It fails only for want of memory.
    pub(crate) fn put(&mut self, number: u64, walks: Walks) -> Result<(), AllocError>
        ensures put { OnOk result (walks_at self.new number ≡ Some walks) }
        ensures others { OnOk result ((u : ℕ) → u ≢ number
            → walks_at self.new u ≡ walks_at self.old u) }
    {
        drop(self.live.insert(number, walks)?);
        Ok(())
    }

    /// Those of a tenant go. It takes no memory.
    pub(crate) fn forget(&mut self, number: u64)
        ensures gone { walks_at self.new number ≡ None }
        ensures others { (u : ℕ) → u ≢ number → walks_at self.new u ≡ walks_at self.old u }
    {
        drop(self.live.remove(&number));
    }
}
