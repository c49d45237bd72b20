// The attempts of a tenant's transactions.
ghost use Rattle.std.specs.Prelude.{◌≡◌, ℕ, List, [], ◌∷◌, option_map, OnOk, OnErr};
ghost use Rattle.ref_table.specs.Numbered.{Entry, entry, part_under, without};
ghost use Rattle.server_rules.specs.Tenant.{seat_of};

use ref_table::Point;
use server_rules::Actor;
use std::alloc::{AllocError, Global};
use std::collections::BTreeMap;

/// Where the attempts read that run: one for each actor at the most.
#[derive(Drop)]
pub struct Attempts {
    /// Whose they are.
    pub tenant: u64,
    pub(crate) points: BTreeMap<Actor, Point>,
}

// Each takes about the logarithm of the number of attempts.
impl Attempts {
    ghost use Rattle.tenant_parts.specs.Attempts.{ArePoints};

    /// No attempt of the tenant with this number. It takes no memory.
    pub fn new(alloc: Global, tenant: u64) -> Attempts
        ensures tenant { result.tenant ≡ tenant }
        ensures none { ArePoints result [] }
    {
        Attempts {
            tenant,
            points: BTreeMap::new(alloc),
        }
    }

    /// Where the attempt of an actor reads, if one runs.
    pub fn point(&self, actor: Actor) -> Option<Point>
        ensures { (points : List (Entry ℕ)) → ArePoints self.now points
            → part_under (seat_of actor) points ≡ option_map (λ p. p.stamp) result }
    {
        self.points.get(&actor).copied()
    }

    /// An attempt begins. It fails only for want of memory, and then changes nothing.
    pub fn begin(&mut self, actor: Actor, point: Point) -> Result<(), AllocError>
        ensures begun { (points : List (Entry ℕ)) → ArePoints self.old points
            → OnOk result (ArePoints self.new (entry (seat_of actor) point.stamp ∷ points)) }
        ensures stays { (points : List (Entry ℕ)) → ArePoints self.old points
            → OnErr result (ArePoints self.new points) }
        ensures tenant { self.new.tenant ≡ self.old.tenant }
    {
        drop(self.points.insert(actor, point)?);
        Ok(())
    }

    /// The attempt of an actor, if one runs, is over.
    pub fn leave(&mut self, actor: Actor)
        ensures left { (points : List (Entry ℕ)) → ArePoints self.old points
            → ArePoints self.new (without (seat_of actor) points) }
        ensures tenant { self.new.tenant ≡ self.old.tenant }
    {
        drop(self.points.remove(&actor));
    }
}
