// An actor goes on as its evaluation says.
ghost use Rattle.std.specs.Prelude.{◌≡◌, ◌+◌, ◌<◌, Err, OnOk, OnErr, length};
ghost use Rattle.ref_table.specs.Standing.{counter_of};
ghost use Rattle.repl_core.specs.Inside.Seen.{keeps_walk};

use crate::deeds::has_stamps;
use crate::machine::Machine;
use crate::walks::Walks;
use server_rules::{Actor, Refusal};

impl Machine {
    ghost use Rattle.repl_core.specs.Left.{left_at, steps_at};
    ghost use Rattle.repl_core.specs.Promises.{GoesOn, DeclinesToGo, GoingLacksMemory, LacksNoStep};

    /// Makes the honest step of an actor: begins a form, or asks what its evaluation asks, or ends
    /// it as that ends. The evaluations of the tenant's forms are lent, and go on. A step that is
    /// refused changes nothing.
    pub fn go(&mut self, number: u64, actor: Actor, walks: &mut Walks) -> Result<(), Refusal>
        ensures done { GoesOn number actor self.old walks.old self.new walks.new result }
        ensures refused { DeclinesToGo number actor self.old walks.old self.new walks.new result }
        ensures no_memory { GoingLacksMemory number actor self.old walks.old
            (counter_of self.old.refs < u128.MAX) (keeps_walk walks.old walks.new actor) result }
        ensures unworn { LacksNoStep number self.old (counter_of self.old.refs < u128.MAX) result }
        ensures steps { OnOk result (steps_at number self.old ≡ steps_at number self.new + 1) }
        ensures kept { OnErr result (steps_at number self.new ≡ steps_at number self.old) }
        ensures held { result ≡ Err Refusal.Held → 0 < length (left_at number self.old).outbox }
    {
        if !has_stamps(&self.refs) {
            return Err(Refusal::NoMemory);
        }
        let Some(tenant) = self.tenants.get_mut(number) else {
            return Err(Refusal::NoSuchTenant);
        };
        walks.go(tenant, &mut self.refs, actor)
    }
}
