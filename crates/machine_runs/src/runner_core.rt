// The turns of a tenant that is served alone.
ghost use Rattle.std.specs.Prelude.{◌≡◌, IfOk, IfErr, OnOk};
ghost use Rattle.server_rules.specs.Ground.{Ground};
ghost use Rattle.server_rules.specs.LoneTurns.{opened_lone};
ghost use Rattle.repl_core.specs.Configured.{IsConfigured};
ghost use Rattle.repl_core.specs.Starting.{TellsFault};

use crate::runner::{NUMBER, Runner};
use bytes::Bytes;
use repl_core::{Config, LoadError, Machine, Walks};
use server_rules::{Actor, Core, Refusal, Wire};
use std::alloc::{AllocError, Global};

impl Runner {
    ghost use Rattle.machine_runs.specs.Inside.Standing.{RunnerStands};

    /// A server whose first tenant has heard nothing.
    pub fn new(alloc: Global, config: &Config) -> Result<Runner, LoadError>
        ensures stands { (g : Ground) → IsConfigured g config.now
            → IfOk result (λ made. RunnerStands g made (opened_lone g)) }
        ensures grounded { OnOk result ((g : Ground) × IsConfigured g config.now) }
        ensures fault { IfErr result (TellsFault config.now) }
    {
        let walks = Walks::new(alloc);
        let mut machine = Machine::new(alloc, config)?;
        match machine.open(NUMBER) {
            Ok(()) => Ok(Runner { machine, walks }),
            Err(_) => Err(LoadError::NoMemory),
        }
    }
}

impl Core for Runner {
    ghost use Rattle.machine_runs.specs.Inside.Standing.{work_left, RunnerStands};

    ghost left = { work_left };

    ghost stands = { RunnerStands };

    fn hear(&mut self, piece: &Bytes) -> Result<(), Refusal> {
        match self.machine.hear(NUMBER, piece) {
            Ok(_) => Ok(()),
            Err(why) => Err(why),
        }
    }

    fn actors(&self, alloc: Global) -> Result<Vec<Actor>, AllocError> {
        match self.machine.tenant(NUMBER) {
            Some(tenant) => tenant.round(alloc),
            None => Ok(Vec::new(alloc)),
        }
    }

    fn go(&mut self, actor: Actor) -> Result<(), Refusal> {
        self.machine.go(NUMBER, actor, &mut self.walks)
    }

    fn drain(&mut self) -> Option<Vec<u8>> {
        match self.machine.drain(NUMBER) {
            Ok(reply) => Some(reply),
            Err(_) => None,
        }
    }

    fn wire(&self) -> Wire {
        match self.machine.tenant(NUMBER) {
            Some(tenant) => tenant.wire(),
            None => Wire::Whole,
        }
    }
}
