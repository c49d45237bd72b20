// Under which ids the refs of each owner are kept.
ghost use Rattle.std.specs.Prelude.{◌≡◌, ◌≢◌, [], ◌∷◌, ◌++◌, length, map, slice_get, IfOk, OnOk};
ghost use Rattle.std.specs.Prelude.{OnErr};
ghost use Rattle.value_data.specs.Datum.{OwnerData, tenant as tenant_owner};
ghost use Rattle.value_data.specs.Inside.View.{owner_view};
ghost use Rattle.repl_asks.specs.Inside.View.{name_view};

use ref_history::RefId;
use repl_asks::{Change, Commuted};
use repl_values::{Owner, RefName};
use std::alloc::{AllocError, Global};
use std::collections::BTreeMap;

/// The ids of each owner's refs, by the refs' numbers.
#[derive(Drop)]
pub(crate) struct Directory {
    shared: Vec<RefId>,
    tenants: BTreeMap<u64, Vec<RefId>>,
}

// Each takes about the logarithm of the number of tenants.
impl Directory {
    ghost use Rattle.ref_table.specs.Directory.{ids_in, refs_of, id_named, all_named};

    pub(crate) fn new(alloc: Global) -> Directory
        ensures { (owner : OwnerData) → refs_of result owner ≡ [] }
    {
        Directory {
            shared: Vec::new(alloc),
            tenants: BTreeMap::new(alloc),
        }
    }

    // The id of a ref, if it is there and the tenant reaches it.
    pub(crate) fn id_of(&self, caller: u64, name: RefName) -> Option<RefId>
        ensures { result ≡ id_named self.now caller (name_view name) }
    {
        match name.owner {
            Owner::Shared => id_at(&self.shared, name.number),
            Owner::Tenant(tenant) if tenant == caller => {
                id_at(self.tenants.get(&tenant)?, name.number)
            }
            Owner::Tenant(_) => None,
        }
    }

    pub(crate) fn has_all(&self, caller: u64, names: &[RefName]) -> bool
        ensures { result ≡ all_named self.now caller (map name_view names.now) }
    {
        for name in names {
            if self.id_of(caller, *name).is_none() {
                return false;
            }
        }
        true
    }

    pub(crate) fn has_all_set(&self, caller: u64, sets: &[Change]) -> bool
        ensures { result ≡ all_named self.now caller (map (λ c. name_view c.name) sets.now) }
    {
        for change in sets {
            if self.id_of(caller, change.name).is_none() {
                return false;
            }
        }
        true
    }

    pub(crate) fn has_all_commuted(&self, caller: u64, commuted: &[Commuted]) -> bool
        ensures { result ≡ all_named self.now caller (map (λ c. name_view c.name) commuted.now) }
    {
        for one in commuted {
            if self.id_of(caller, one.name).is_none() {
                return false;
            }
        }
        true
    }

    // Adds the id of an owner's next ref, and answers that ref's number.
    pub(crate) fn add(&mut self, alloc: Global, owner: Owner, id: RefId) -> Result<u64, AllocError>
        ensures number { IfOk result (λ n. n ≡ length (refs_of self.old (owner_view owner))) }
        ensures added { OnOk result (refs_of self.new (owner_view owner)
            ≡ refs_of self.old (owner_view owner) ++ id ∷ []) }
        ensures others { (o : OwnerData) → o ≢ owner_view owner
            → refs_of self.new o ≡ refs_of self.old o }
        ensures as_it_was { OnErr result ((o : OwnerData) →
            refs_of self.new o ≡ refs_of self.old o) }
    {
        match owner {
            Owner::Shared => push_id(&mut self.shared, id),
            Owner::Tenant(tenant) => self.add_for(alloc, tenant, id),
        }
    }

    fn add_for(&mut self, alloc: Global, tenant: u64, id: RefId) -> Result<u64, AllocError>
        ensures number { IfOk result (λ n. n ≡ length (refs_of self.old (tenant_owner tenant))) }
        ensures added { OnOk result (refs_of self.new (tenant_owner tenant)
            ≡ refs_of self.old (tenant_owner tenant) ++ id ∷ []) }
        ensures others { (o : OwnerData) → o ≢ tenant_owner tenant
            → refs_of self.new o ≡ refs_of self.old o }
        ensures as_it_was { OnErr result ((o : OwnerData) →
            refs_of self.new o ≡ refs_of self.old o) }
    {
        match self.tenants.get_mut(&tenant) {
            Some(ids) => push_id(ids, id),
            None => {
                let mut ids = Vec::new(alloc);
                let number = push_id(&mut ids, id)?;
                drop(self.tenants.insert(tenant, ids)?);
                Ok(number)
            }
        }
    }

    // Takes the ids of a tenant's refs out.
    pub(crate) fn remove(&mut self, tenant: u64) -> Option<Vec<RefId>>
        ensures were { ids_in result ≡ refs_of self.old (tenant_owner tenant) }
        ensures gone { refs_of self.new (tenant_owner tenant) ≡ [] }
        ensures others { (o : OwnerData) → o ≢ tenant_owner tenant
            → refs_of self.new o ≡ refs_of self.old o }
    {
        self.tenants.remove(&tenant)
    }
}

fn id_at(ids: &[RefId], number: u64) -> Option<RefId>
    ensures { result ≡ slice_get ids.now number }
{
    ids.get(number as usize).copied()
}

fn push_id(ids: &mut Vec<RefId>, id: RefId) -> Result<u64, AllocError>
    ensures number { IfOk result (λ n. n ≡ length ids.old.items) }
    ensures added { OnOk result (ids.new.items ≡ ids.old.items ++ id ∷ []) }
    ensures as_it_was { OnErr result (ids.new.items ≡ ids.old.items) }
{
    let number = ids.len() as u64;
    ids.push(id)?;
    Ok(number)
}
