// An evaluation that ended, with its job and its trace.
ghost use Rattle.std.specs.Prelude.{◌≡◌, IfOk};
ghost use Rattle.repl_asks.specs.Inside.View.{trace_view};
ghost use Rattle.repl_asks.specs.Inside.Jobs.{job_view, finished_view};
ghost use Rattle.repl_asks.specs.InteractionTree as tree;
ghost use Rattle.repl_walker.specs.Led.{LedTo};

use repl_asks::{Exchange, Finished, Job, Trace, copy_trace};
use std::alloc::{AllocError, Global};

/// An evaluation that ended: its job, what was asked and answered, and how it ended. Only the
/// walker makes one.
#[derive(Debug, Drop)]
pub struct Ending {
    job: Job,
    trace: Trace,
    finished: Finished,
    // Its trace led its job to this end.
    ghost led: { LedTo (job_view job) (trace_view trace.items)
        (tree.finished (finished_view finished)) },
}

impl Ending {
    ghost use Rattle.repl_walker.specs.Ends.{ending_view};

    pub(crate) fn new(job: Job, trace: Trace, finished: Finished) -> Ending
        requires { LedTo (job_view job) (trace_view trace.items)
            (tree.finished (finished_view finished)) }
        ensures job { result.job ≡ job }
        ensures trace { result.trace ≡ trace }
        ensures finished { result.finished ≡ finished }
    {
        Ending {
            job,
            trace,
            finished,
        }
    }

    /// What was evaluated.
    pub fn job(&self) -> &Job
        ensures { result.now ≡ self.now.job }
    {
        &self.job
    }

    /// What was asked and answered, in order.
    pub fn trace(&self) -> &[Exchange]
        ensures { result.now ≡ self.now.trace.items }
    {
        self.trace.as_slice()
    }

    /// How it ended.
    pub fn end(&self) -> &Finished
        ensures { result.now ≡ self.now.finished }
    {
        &self.finished
    }

    /// Its trace led its job to its end. The function does nothing: whoever is lent an ending can
    /// use what it ensures.
    pub fn comes_from_its_job(&self)
        ensures { LedTo (job_view self.now.job) (trace_view self.now.trace.items)
            (tree.finished (finished_view self.now.finished)) }
    {}

    /// The same ending once more. It fails only for want of memory.
    pub fn copy(&self, alloc: Global) -> Result<Ending, AllocError>
        ensures { IfOk result (λ copied. ending_view copied ≡ ending_view self.now) }
    {
        let job = self.job.copy()?;
        let trace = copy_trace(alloc, self.trace.as_slice())?;
        let finished = self.finished.copy(alloc)?;
        Ok(Ending::new(job, trace, finished))
    }
}
