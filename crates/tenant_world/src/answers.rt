// What the steps of an actor are given and answered.
ghost use Rattle.std.specs.Prelude.{◌≡◌, IfOk};
ghost use Rattle.tenant_asks.specs.Acting.{is_interruption};
ghost use Rattle.tenant_world.specs.declared.answers.StartAnswer as StartAnswer;
ghost use Rattle.tenant_world.specs.Answers.{AreSameStarts, start_answer_view, end_answer_view};

use repl_asks::{Exchange, Finished, Job};
use std::alloc::AllocError;

/// What comes of a start.
#[derive(Drop)]
pub enum StartAnswer {
    /// A form is to be evaluated.
    Begun(Job),
    /// The request was done at once.
    Answered,
    /// The session was closed meanwhile, and the request is answered so.
    Interrupted,
}

/// What comes of a start, and the same once more for whoever writes it down.
#[derive(Drop)]
pub struct StartAnswers {
    pub given: StartAnswer,
    pub noted: StartAnswer,
}

/// A reply that is taken out, and the same once more for whoever writes it down.
#[derive(Drop)]
pub struct Replies {
    pub given: Vec<u8>,
    pub noted: Vec<u8>,
}

/// An evaluation that comes back at its end: its job, what it asked and was answered, and how it
/// ended. Nothing of it is believed: the job and the trace are compared with those that were kept.
#[derive(Clone, Copy)]
pub struct EndedEvaluation<'a> {
    pub job: &'a Job,
    pub trace: &'a [Exchange],
    pub finished: &'a Finished,
}

/// What comes of an ending.
#[derive(Clone, Copy, Debug, PartialEq, Eq)]
pub enum EndAnswer {
    Finished,
    /// The session was closed meanwhile, and the request is answered so.
    Interrupted,
}

impl StartAnswer {
    pub(crate) fn is_interrupted(&self) -> bool
        ensures { result ≡ is_interruption (start_answer_view self.now) }
    {
        matches!(self, StartAnswer::Interrupted)
    }

    // The same once more. It takes constant time, and fails only where 2^63 owners share a part of
    // it.
    fn copy(&self) -> Result<StartAnswer, AllocError>
        ensures { IfOk result (λ copied. start_answer_view copied ≡ start_answer_view self.now) }
    {
        match self {
            StartAnswer::Begun(job) => Ok(StartAnswer::Begun(job.copy()?)),
            StartAnswer::Answered => Ok(StartAnswer::Answered),
            StartAnswer::Interrupted => Ok(StartAnswer::Interrupted),
        }
    }
}

impl StartAnswers {
    /// It fails only where 2^63 owners share a part of the answer.
    pub(crate) fn of(given: StartAnswer) -> Result<StartAnswers, AllocError>
        ensures given { IfOk result (λ it. it.given ≡ given) }
        ensures same { IfOk result AreSameStarts }
    {
        let noted = given.copy()?;
        Ok(StartAnswers { given, noted })
    }

    pub(crate) fn interrupted() -> StartAnswers
        ensures given { result.given ≡ StartAnswer.Interrupted }
        ensures same { AreSameStarts result }
    {
        StartAnswers {
            given: StartAnswer::Interrupted,
            noted: StartAnswer::Interrupted,
        }
    }
}

impl EndAnswer {
    pub(crate) fn is_interrupted(self) -> bool
        ensures { result ≡ is_interruption (end_answer_view self) }
    {
        matches!(self, EndAnswer::Interrupted)
    }
}
