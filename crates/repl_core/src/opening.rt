// Tenants come and go.
ghost use Rattle.std.specs.Prelude.{◌≡◌, ◌≢◌, Err, OnOk, IfErr};
ghost use Rattle.server_rules.specs.Ground.{Ground};
ghost use Rattle.server_rules.specs.Plan.{tenant_opened, tenant_gone};
ghost use Rattle.server_rules.specs.Machine.World.{World, opens, closes};
ghost use Rattle.server_rules.specs.Grounds.{IsRight};
ghost use Rattle.repl_core.specs.Standing.{is_reached};

use crate::machine::Machine;
use repl_values::Value;
use server_rules::Refusal;
use tenant_world::Tenant;

impl Machine {
    ghost use Rattle.repl_core.specs.Standing.{MachineStands};
    ghost use Rattle.repl_core.specs.Steps.{AcceptsStep, RefusesStep};
    ghost use Rattle.repl_core.specs.Promises.{DeclinesStep, StepLacksMemory};

    /// A tenant comes.
    pub fn open(&mut self, number: u64) -> Result<(), Refusal>
        ensures done { (g : Ground) (w : World) → IsRight g → MachineStands g self.old w
            → OnOk result (AcceptsStep g w (opens number) self.new tenant_opened) }
        ensures refused { DeclinesStep (opens number) self.old self.new result }
        ensures no_memory { StepLacksMemory (opens number) self.old result }
    {
        if self.is_reached(number) {
            return Err(Refusal::NumberUsed);
        }
        if self.places_taken >= self.places {
            return Err(Refusal::Full);
        }
        let (steps, retries) = (self.steps, self.retries);
        let names = self.names.copy()?;
        let tenant = Tenant::new(self.alloc, self.seed, number, steps, retries, names)?;
        self.tenants.add(number, tenant)?;
        self.newest = Some(number);
        self.places_taken += 1;
        Ok(())
    }

    // Whether the number is not above all that were opened.
    fn is_reached(&self, number: u64) -> bool
        ensures { result ≡ is_reached self.now.newest number }
    {
        match self.newest {
            Some(newest) => number <= newest,
            None => false,
        }
    }

    /// A tenant goes, and its refs with it. What is left of it is given, and its refs are left for
    /// `drop_departed`. It takes no memory.
    pub fn close(&mut self, number: u64) -> Result<Box<Tenant>, Refusal>
        ensures done { (g : Ground) (w : World) → MachineStands g self.old w
            → OnOk result (AcceptsStep g w (closes number) self.new tenant_gone) }
        ensures refused { (g : Ground) (w : World) → MachineStands g self.old w
            → IfErr result (RefusesStep g w (closes number) self.new) }
        ensures free { result ≢ Err Refusal.NoMemory }
    {
        let Some(tenant) = self.tenants.remove(number) else {
            return Err(Refusal::NoSuchTenant);
        };
        self.refs.release(number);
        self.places_taken = self.places_taken.saturating_sub(1);
        Ok(tenant)
    }

    /// Drops so many refs, at the most, of tenants that are gone, and answers whether more are
    /// left. Their values are put behind these, so that the caller drops them; one that finds no
    /// room there is dropped at once. It takes a step for each version that was kept of a ref.
    pub fn drop_departed(&mut self, most: usize, values: &mut Vec<Value>) -> bool
        ensures { (g : Ground) (w : World) → MachineStands g self.old w
            → MachineStands g self.new w }
    {
        self.refs.drop_departed(most, values)
    }

    // The same as `close`, and nothing is left to drop.
    pub(crate) fn close_whole(&mut self, number: u64) -> Result<(), Refusal>
        ensures done { (g : Ground) (w : World) → MachineStands g self.old w
            → OnOk result (AcceptsStep g w (closes number) self.new tenant_gone) }
        ensures refused { (g : Ground) (w : World) → MachineStands g self.old w
            → IfErr result (RefusesStep g w (closes number) self.new) }
        ensures free { result ≢ Err Refusal.NoMemory }
    {
        drop(self.close(number)?);
        let mut values = Vec::new(self.alloc);
        let _is_more = self.drop_departed(usize::MAX, &mut values);
        Ok(())
    }
}
