// An evaluation, from one ask to the next.
ghost use Rattle.std.specs.Prelude.{◌≡◌, ◌≤◌, ◌++◌, ◌∷◌, [], IfOk, OnOk};
ghost use Rattle.repl_asks.specs.Inside.View.{ask_view, answer_view, trace_view};
ghost use Rattle.repl_asks.specs.Inside.Jobs.{job_view};
ghost use Rattle.evaluation_rules.specs.Evaluation.{evaluation};
ghost use Rattle.repl_walker.specs.Steps.{reached_tree, most_calls_of, IsLaterReached};
ghost use Rattle.walker_state.specs.Position.{Position};
ghost use Rattle.repl_walker.specs.Led.{LedTo};
ghost use Rattle.repl_walker.specs.Waits.{progress_tree, progress_job, progress_trace};
ghost use Rattle.repl_walker.specs.Positions.{most_calls, IsLaterProgress};

use crate::ending::Ending;
use crate::steps::{Reached, begin};
use crate::waiting::{Progress, Walk};
use evaluation_rules::CALLS;
use repl_asks::{Answer, Ask, Exchange, Job, Trace};
use std::alloc::{AllocError, Global};

/// Begins the job, up to its first ask or its end. It fails only for want of memory.
pub fn start(alloc: Global, job: &Job) -> Result<Progress, AllocError>
    ensures meaning { IfOk result (λ progress. progress_tree progress
        ≡ evaluation (job_view job.now)) }
    ensures job { IfOk result (λ progress. progress_job progress ≡ job_view job.now) }
    ensures trace { IfOk result (λ progress. progress_trace progress ≡ []) }
    ensures calls { IfOk result (λ progress. most_calls progress ≤ CALLS) }
{
    let copied = job.copy()?;
    let reached = begin(alloc, job)?;
    Ok(progress(copied, Vec::new(alloc), reached))
}

/// The trace with one exchange more.
pub(crate) fn with_exchange(trace: Trace, ask: Ask, answer: &Answer) -> Result<Trace, AllocError>
    ensures { IfOk result (λ longer. trace_view longer.items ≡ trace_view trace.items
        ++ record { ask = ask_view ask; answer = answer_view answer.now } ∷ []) }
{
    let mut trace = trace;
    add(&mut trace, Exchange::of(ask, answer)?)?;
    Ok(trace)
}

// Most forms ask once, and who journals their endings keeps the room that a trace has: so the first
// exchange gets no more than it needs.
fn add(trace: &mut Trace, exchange: Exchange) -> Result<(), AllocError>
    ensures { OnOk result (trace.new.items ≡ trace.old.items ++ exchange ∷ []) }
{
    if trace.is_empty() {
        trace.reserve_exact(1)?;
    }
    trace.push(exchange)?;
    Ok(())
}

/// How far the job came by this trace.
pub(crate) fn progress(job: Job, trace: Trace, reached: Reached) -> Progress
    requires { LedTo (job_view job) (trace_view trace.items) (reached_tree reached) }
    ensures meaning { progress_tree result ≡ reached_tree reached }
    ensures job { progress_job result ≡ job_view job }
    ensures trace { progress_trace result ≡ trace_view trace.items }
    ensures calls { most_calls result ≡ most_calls_of reached }
    ensures later { (old : Position) → IsLaterReached reached old → IsLaterProgress result old }
{
    match reached {
        Reached::Asks(waiting, ask) => Progress::Asks(Walk {
            job,
            trace,
            ask,
            waiting,
        }),
        Reached::Ends(finished) => Progress::Ends(Ending::new(job, trace, finished)),
    }
}
