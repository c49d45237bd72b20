// A server that makes turns.
ghost use Rattle.std.specs.Prelude.{◌≡◌, IfOk, IfErr, OnOk};
ghost use Rattle.server_rules.specs.Ground.{Ground};
ghost use Rattle.server_rules.specs.Machine.Turns.{given, goes};
ghost use Rattle.server_rules.specs.Plan.{bytes_in};
ghost use Rattle.server_rules.specs.Machine.World.{closes, opened_world};
ghost use Rattle.repl_core.specs.Going.{StepKeepsForms};
ghost use Rattle.repl_core.specs.Steps.{step_view, step_answer_view};
ghost use Rattle.repl_core.specs.Configured.{IsConfigured};
ghost use Rattle.repl_core.specs.Starting.{TellsFault};
ghost use Rattle.machine_runs.specs.Turns.{turn_view, piece_given};

use crate::all_walks::AllWalks;
use crate::turn::Turn;
use repl_core::{Config, LoadError, Machine, Step, StepAnswer};
use server_rules::{Actor, Refusal};
use std::alloc::Global;

/// A server, and the evaluations of all forms that run.
#[derive(Drop)]
pub(crate) struct Driver {
    alloc: Global,
    pub(crate) machine: Machine,
    pub(crate) kept: AllWalks,
}

impl Driver {
    ghost use Rattle.machine_runs.specs.Driver.{DriverStands, DoesTurn, DeclinesTurn};

    pub(crate) fn new(alloc: Global, config: &Config) -> Result<Driver, LoadError>
        ensures stands { (g : Ground) → IsConfigured g config.now
            → IfOk result (λ made. DriverStands g made (opened_world g)) }
        ensures grounded { OnOk result ((g : Ground) × IsConfigured g config.now) }
        ensures fault { IfErr result (TellsFault config.now) }
    {
        let machine = Machine::new(alloc, config)?;
        let kept = AllWalks::new(alloc);
        Ok(Driver {
            alloc,
            machine,
            kept,
        })
    }

    /// Makes a turn, and gives the reply where one was taken out. Where memory is refused, the
    /// evaluations of a tenant may be lost; they are made again when their actors go on.
    pub(crate) fn turn(&mut self, turn: &Turn) -> Result<Option<Vec<u8>>, Refusal>
        ensures done { DoesTurn (turn_view turn.now) self.old self.new result }
        ensures refused { DeclinesTurn (turn_view turn.now) self.old self.new result }
    {
        match turn {
            Turn::Open(number) => self.step(Step::Open(*number)),
            Turn::Bytes(number, piece) => self.step(Step::Hear(*number, piece.slice(..)?)),
            Turn::Go(number, actor) => self.go(*number, *actor),
            Turn::Drain(number) => self.step(Step::Drain(*number)),
            Turn::Bye(number) => self.bye(*number),
        }
    }

    // A tenant goes, and the evaluations of its forms with it.
    fn bye(&mut self, number: u64) -> Result<Option<Vec<u8>>, Refusal>
        ensures done { DoesTurn (given (closes number)) self.old self.new result }
        ensures refused { DeclinesTurn (given (closes number)) self.old self.new result }
    {
        let nothing = self.step(Step::Bye(number))?;
        self.kept.forget(number);
        Ok(nothing)
    }

    // Makes a step by which no form goes on.
    fn step(&mut self, step: Step) -> Result<Option<Vec<u8>>, Refusal>
        requires { StepKeepsForms (step_view step) }
        ensures done { DoesTurn (given (step_view step)) self.old self.new result }
        ensures refused { DeclinesTurn (given (step_view step)) self.old self.new result }
    {
        match self.machine.step(step) {
            Ok(answer) => Ok(reply_in(answer)),
            Err(refused) => Err(refused.why),
        }
    }

    // An actor goes on.
    fn go(&mut self, number: u64, actor: Actor) -> Result<Option<Vec<u8>>, Refusal>
        ensures done { DoesTurn (goes number actor) self.old self.new result }
        ensures refused { DeclinesTurn (goes number actor) self.old self.new result }
    {
        let mut walks = self.kept.take(self.alloc, number);
        let result = self.machine.go(number, actor, &mut walks);
        self.kept.put(number, walks)?;
        match result {
            Ok(()) => Ok(None),
            Err(why) => Err(why),
        }
    }
}

// The reply that was taken out.
fn reply_in(answer: StepAnswer) -> Option<Vec<u8>>
    ensures { piece_given result ≡ bytes_in (step_answer_view answer) }
{
    match answer {
        StepAnswer::Bytes(bytes) => Some(bytes),
        StepAnswer::Opened
        | StepAnswer::Heard(_)
        | StepAnswer::Begun(_)
        | StepAnswer::Answered
        | StepAnswer::Answer(_)
        | StepAnswer::Finished
        | StepAnswer::Interrupted
        | StepAnswer::Gone => None,
    }
}
