// The ids of refs whose tenants are gone, until these refs are dropped.
ghost use Rattle.std.specs.Prelude.{◌≡◌, ℕ, [], IfErr, IfSome, IsNone, OnOk, OnErr};
ghost use Rattle.ref_table.specs.Departed.{ids_left, GetsBatch, LosesId};

use ref_history::RefId;
use std::alloc::Global;

/// For each tenant that is gone the ids of its refs that are not dropped yet.
#[derive(Drop)]
pub(crate) struct Departed {
    batches: Vec<Vec<RefId>>,
}

impl Departed {
    pub(crate) fn new(alloc: Global) -> Departed
        ensures { (batch : ℕ) → ids_left result batch ≡ [] }
    {
        Departed {
            batches: Vec::new(alloc),
        }
    }

    pub(crate) fn is_empty(&self) -> bool {
        self.batches.is_empty()
    }

    // Adds the ids of one tenant, or gives them back for want of memory.
    pub(crate) fn add(&mut self, ids: Vec<RefId>) -> Result<(), Vec<RefId>>
        ensures added { OnOk result (GetsBatch self.old ids.items self.new) }
        ensures same { IfErr result (λ again. again ≡ ids) }
        ensures as_it_was { OnErr result ((batch : ℕ) →
            ids_left self.new batch ≡ ids_left self.old batch) }
    {
        if self.batches.reserve(1).is_err() {
            return Err(ids);
        }
        self.batches.push_reserved(ids);
        Ok(())
    }

    // Takes one id out. There may be none though there are batches, of which one has gone then.
    pub(crate) fn take(&mut self) -> Option<RefId>
        ensures taken { IfSome result (λ id. LosesId self.old id self.new) }
        ensures none { IsNone result → (batch : ℕ) →
            ids_left self.new batch ≡ ids_left self.old batch }
    {
        let mut ids = self.batches.pop()?;
        let id = ids.pop()?;
        self.batches.push_reserved(ids);
        Some(id)
    }
}
