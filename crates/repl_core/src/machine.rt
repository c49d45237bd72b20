// The machine as it begins, and what it shows.
ghost use Rattle.std.specs.Prelude.{◌≡◌, option_and_then, option_map, IfOk, OnOk, IfErr};
ghost use Rattle.server_rules.specs.Ground.{Ground};
ghost use Rattle.server_rules.specs.Machine.Ready.{ready};
ghost use Rattle.server_rules.specs.Machine.World.{World, opened_world};
ghost use Rattle.repl_core.specs.Configured.{IsConfigured, shared_text};
ghost use Rattle.repl_core.specs.Starting.{TellsFault};
ghost use Rattle.repl_core.specs.Standing.{open_in};
ghost use Rattle.repl_core.specs.TenantAt.{tenant_at};

use crate::laws::every_configuration_has_a_ground;
use crate::tenants::Tenants;
use name_spaces::SharedNames;
use ref_history::RingHistory;
use ref_table::RefTable;
use repl_values::copy_text;
use server_rules::Actor;
use shared_space::{LoadError, load};
use std::alloc::{AllocError, Global};
use std::sync::ArcStr;
use tenant_world::Tenant;

/// How many tenants may be open at once.
pub const PLACES: usize = 64;

/// The steps that a tenant takes unless told otherwise.
pub const STEPS: u32 = 4_194_304;

/// How many attempts a transaction has unless told otherwise.
pub const RETRIES: u32 = 10_000;

/// The text of the namespace that all tenants share.
#[derive(Debug, Drop)]
pub enum SharedText {
    /// There is none: nothing is defined in it.
    Empty,
    /// Forms of `def` and `defn`, which are evaluated when the server is made.
    Text(ArcStr),
}

/// What a server begins with.
#[derive(Debug, Drop)]
pub struct Config {
    /// From it come the ids of all sessions.
    pub seed: [u8; 32],
    /// How many attempts a transaction has.
    pub retries: u32,
    /// How many pieces, and starts, asks and ends of forms each tenant takes.
    pub steps: u32,
    /// What all tenants share.
    pub shared: SharedText,
}

impl SharedText {
    /// The text once more. It takes constant time, and fails only where 2^63 owners share it.
    pub fn copy(&self) -> Result<SharedText, AllocError>
        ensures { IfOk result (λ copied. shared_text copied ≡ shared_text self.now) }
    {
        match self {
            SharedText::Empty => Ok(SharedText::Empty),
            SharedText::Text(text) => Ok(SharedText::Text(copy_text(text)?)),
        }
    }

    fn as_str(&self) -> &str
        ensures { result.now ≡ shared_text self.now }
    {
        match self {
            SharedText::Empty => "",
            SharedText::Text(text) => text.as_str(),
        }
    }
}

/// The tenants of a server, and the refs of all. Each step is that of the rules.
pub struct Machine {
    pub(crate) alloc: Global,
    pub(crate) seed: [u8; 32],
    pub(crate) retries: u32,
    pub(crate) steps: u32,
    pub(crate) places: usize,
    // how many tenants are open
    pub(crate) places_taken: usize,
    // the greatest number of all that were ever opened
    pub(crate) newest: Option<u64>,
    // what the shared namespace binds
    pub(crate) names: SharedNames,
    pub(crate) refs: RefTable<RingHistory>,
    pub(crate) tenants: Tenants,
}

impl Drop for Machine {
    fn drop(self) {
        let Machine {
            alloc: _alloc,
            seed: _seed,
            retries: _retries,
            steps: _steps,
            places: _places,
            places_taken: _places_taken,
            newest: _newest,
            names: _names,
            refs: _refs,
            tenants: _tenants,
        } = self;
    }
}

impl Machine {
    ghost use Rattle.repl_core.specs.Standing.{MachineStands};

    /// A server to which nobody came. The text that all share is evaluated; the first fault of it
    /// is the error. Where there is none, there is something that such a server stands on.
    pub fn new(alloc: Global, config: &Config) -> Result<Machine, LoadError>
        ensures stands { (g : Ground) → IsConfigured g config.now
            → IfOk result (λ made. MachineStands g made (opened_world g)) }
        ensures grounded { OnOk result ((g : Ground) × IsConfigured g config.now) }
        ensures fault { IfErr result (TellsFault config.now) }
    {
        every_configuration_has_a_ground();
        let shared = load(alloc, config.shared.as_str())?;
        Ok(Machine {
            alloc,
            seed: config.seed,
            retries: config.retries,
            steps: config.steps,
            places: PLACES,
            places_taken: 0,
            newest: None,
            names: shared.names,
            refs: shared.refs,
            tenants: Tenants::new(alloc),
        })
    }

    /// A tenant, if it is open.
    pub fn tenant(&self, number: u64) -> Option<&Tenant>
        ensures { option_map (λ it. it.now) result ≡ tenant_at self.now.tenants number }
    {
        self.tenants.get(number)
    }

    /// The first of a tenant's sessions and its bare requests that has a form or a request to
    /// begin, if the tenant is open and one has. It never names the actor of agents. It looks at
    /// each that has something to do, and takes no memory.
    pub fn ready(&self, number: u64) -> Option<Actor>
        ensures { (g : Ground) (w : World) → MachineStands g self.now w
            → result ≡ option_and_then (λ it. ready it.state) (open_in number w) }
    {
        self.tenants.get(number)?.ready()
    }
}
