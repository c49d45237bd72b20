// The tenants that are open, by their numbers.
ghost use Rattle.std.specs.Prelude.{◌≡◌, ◌≢◌, ℕ, None, Some, is_some, option_map, OnOk, OnErr};
ghost use Rattle.std.specs.Borrow.{sem};
ghost use Rattle.repl_core.specs.TenantAt.{tenant_at};
ghost use Rattle.repl_core.specs.Lending.{LendsTenant};

use std::alloc::{AllocError, Global};
use std::collections::BTreeMap;
use tenant_world::Tenant;

/// The tenants that are open. Each lies still from when it comes until it goes.
#[derive(Drop)]
pub(crate) struct Tenants {
    alloc: Global,
    pub(crate) live: BTreeMap<u64, Box<Tenant>>,
}

// Each takes about the logarithm of the number of tenants that are open.
impl Tenants {
    pub(crate) fn new(alloc: Global) -> Tenants
        ensures { (u : ℕ) → tenant_at result u ≡ None }
    {
        Tenants {
            alloc,
            live: BTreeMap::new(alloc),
        }
    }

    pub(crate) fn get(&self, number: u64) -> Option<&Tenant>
        ensures { option_map (λ it. it.now) result ≡ tenant_at self.now number }
    {
        match self.live.get(&number) {
            Some(place) => Some(&**place),
            None => None,
        }
    }

    /// Lends a tenant, to be changed in its place.
    pub(crate) fn get_mut(&mut self, number: u64) -> Option<&mut Tenant>
        ensures* writes_back { sem 𝓛 (LendsTenant self.entry number result) }
        ensures value { option_map (λ it. it.now) result ≡ tenant_at self.old number }
    {
        match self.live.get_mut(&number) {
            Some(place) => Some(&mut **place),
            None => None,
        }
    }

    /// Adds a tenant. It fails only for want of memory, and then changes nothing.
    pub(crate) fn add(&mut self, number: u64, tenant: Tenant) -> Result<(), AllocError>
        ensures added { OnOk result (tenant_at self.new number ≡ Some tenant) }
        ensures others { OnOk result ((u : ℕ) → u ≢ number
            → tenant_at self.new u ≡ tenant_at self.old u) }
        ensures stays { OnErr result ((u : ℕ) → tenant_at self.new u ≡ tenant_at self.old u) }
    {
        let place = Box::new(self.alloc, tenant)?;
        drop(self.live.insert(number, place)?);
        Ok(())
    }

    /// Takes a tenant away, and gives it, if it was there. It takes no memory.
    pub(crate) fn remove(&mut self, number: u64) -> Option<Box<Tenant>>
        ensures was { is_some result ≡ is_some (tenant_at self.old number) }
        ensures gone { tenant_at self.new number ≡ None }
        ensures others { (u : ℕ) → u ≢ number → tenant_at self.new u ≡ tenant_at self.old u }
    {
        self.live.remove(&number)
    }
}
