// An evaluation that waits for an answer.
ghost use Rattle.std.specs.Prelude.{◌≡◌, IfOk};
ghost use Rattle.repl_asks.specs.Inside.View.{ask_view, answer_view, trace_view};
ghost use Rattle.repl_asks.specs.Inside.Jobs.{job_view};
ghost use Rattle.repl_asks.specs.InteractionTree.{asks};
ghost use Rattle.repl_walker.specs.Steps.{tree_behind};
ghost use Rattle.repl_walker.specs.Led.{LedTo};

use crate::ending::Ending;
use crate::resume::{progress, with_exchange};
use crate::steps::WaitingEvaluation;
use repl_asks::{Answer, Ask, Exchange, Job, Trace};
use std::alloc::{AllocError, Global};

/// An evaluation that waits for the answer to its ask: its job, and what was asked and answered
/// before.
pub struct Walk {
    pub(crate) job: Job,
    pub(crate) trace: Trace,
    pub(crate) ask: Ask,
    pub(crate) waiting: WaitingEvaluation,
    // Its trace led its job to this ask.
    ghost led: { LedTo (job_view job) (trace_view trace.items)
        (asks (ask_view ask) (tree_behind waiting)) },
}

impl Drop for Walk {
    fn drop(self) {
        let Walk {
            job: _job,
            trace: _trace,
            ask: _ask,
            waiting: _waiting,
        } = self;
    }
}

/// How far an evaluation came: to its next ask, or to its end.
#[derive(Drop)]
pub enum Progress {
    Asks(Walk),
    Ends(Ending),
}

impl Walk {
    /// What is evaluated.
    pub fn job(&self) -> &Job
        ensures { result.now ≡ self.now.job }
    {
        &self.job
    }

    /// What was asked and answered so far, in order.
    pub fn trace(&self) -> &[Exchange]
        ensures { result.now ≡ self.now.trace.items }
    {
        self.trace.as_slice()
    }

    /// What is asked.
    pub fn ask(&self) -> &Ask
        ensures { result.now ≡ self.now.ask }
    {
        &self.ask
    }

    /// Its trace led its job to its ask. The function does nothing: whoever is lent a walk can use
    /// what it ensures.
    pub fn comes_from_its_job(&self)
        ensures { LedTo (job_view self.now.job) (trace_view self.now.trace.items)
            (asks (ask_view self.now.ask) (tree_behind self.now.waiting)) }
    {}
}

impl Walk {
    ghost use Rattle.repl_walker.specs.Waits.{walk_behind, progress_tree, progress_job};
    ghost use Rattle.repl_walker.specs.Waits.{progress_trace, trace_with};
    ghost use Rattle.repl_walker.specs.Positions.{walk_position, IsLaterProgress};

    /// Goes on with this answer, up to the next ask or the end. It fails only for want of memory.
    pub fn resume(self, alloc: Global, answer: Answer) -> Result<Progress, AllocError>
        ensures meaning { IfOk result (λ later. progress_tree later
            ≡ walk_behind self (answer_view answer)) }
        ensures job { IfOk result (λ later. progress_job later ≡ job_view self.job) }
        ensures trace { IfOk result (λ later. progress_trace later
            ≡ trace_with self (answer_view answer)) }
        ensures later { IfOk result (λ later. IsLaterProgress later (walk_position self)) }
    {
        let Walk {
            job,
            trace,
            ask,
            waiting,
        } = self;
        let trace = with_exchange(trace, ask, &answer)?;
        let reached = waiting.go_on(alloc, answer)?;
        Ok(progress(job, trace, reached))
    }
}
