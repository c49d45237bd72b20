// What a machine is given and answers.
ghost use Rattle.std.specs.Prelude.{◌≡◌, IfOk};
ghost use Rattle.server_rules.specs.Machine.Turns.{whose_step};
ghost use Rattle.repl_core.specs.Steps.{step_view, step_answer_view};

use bytes::Bytes;
use repl_asks::{Answer, Ask, Job};
use repl_walker::Ending;
use server_rules::{Actor, Refusal};
use std::alloc::{AllocError, Global};
use std::boxed::Box;

/// A step of the server. Tenants are named by their numbers. What is large stands in a box, so that
/// a step is small: whoever writes steps down keeps each.
#[derive(Drop)]
pub enum Step {
    /// A tenant comes; its number is above all before it.
    Open(u64),
    /// A tenant hears a piece of its stream.
    Hear(u64, Bytes),
    /// An actor begins its next form, or takes up its next request.
    Start(u64, Actor),
    /// The form of an actor that runs asks this.
    Asked(u64, Actor, Box<Ask>),
    /// The form of an actor that runs has ended so.
    Ended(u64, Actor, Box<Ending>),
    /// A tenant's oldest reply is taken out.
    Drain(u64),
    /// A tenant goes.
    Bye(u64),
}

/// What a step that was accepted answers.
#[derive(Drop)]
pub enum StepAnswer {
    Opened,
    /// How many messages became whole.
    Heard(usize),
    /// A form is to be evaluated.
    Begun(Job),
    /// The request was done at once.
    Answered,
    Answer(Answer),
    Finished,
    /// The session was closed meanwhile, and the request is answered so.
    Interrupted,
    /// A reply.
    Bytes(Vec<u8>),
    Gone,
}

/// What a step that was accepted answers, and the same once more for whoever writes it down.
#[derive(Drop)]
pub struct StepAnswers {
    pub given: StepAnswer,
    pub noted: StepAnswer,
}

/// A step that was refused, and why.
#[derive(Drop)]
pub struct Refused {
    pub why: Refusal,
    pub step: Step,
}

impl Step {
    /// The number of the tenant whose step it is.
    pub fn tenant(&self) -> u64
        ensures { result ≡ whose_step (step_view self.now) }
    {
        match self {
            Step::Open(number)
            | Step::Hear(number, _)
            | Step::Start(number, _)
            | Step::Asked(number, _, _)
            | Step::Ended(number, _, _)
            | Step::Drain(number)
            | Step::Bye(number) => *number,
        }
    }

    /// The same step once more. It fails only for want of memory.
    pub fn copy(&self, alloc: Global) -> Result<Step, AllocError>
        ensures { IfOk result (λ copied. step_view copied ≡ step_view self.now) }
    {
        match self {
            Step::Open(number) => Ok(Step::Open(*number)),
            Step::Hear(number, piece) => Ok(Step::Hear(*number, piece.slice(..)?)),
            Step::Start(number, actor) => Ok(Step::Start(*number, *actor)),
            Step::Asked(number, actor, ask) => {
                Ok(Step::Asked(*number, *actor, Box::new(alloc, ask.copy()?)?))
            }
            Step::Ended(number, actor, ending) => {
                Ok(Step::Ended(*number, *actor, Box::new(alloc, ending.copy(alloc)?)?))
            }
            Step::Drain(number) => Ok(Step::Drain(*number)),
            Step::Bye(number) => Ok(Step::Bye(*number)),
        }
    }
}
