// Replies that tell how a form ended, made before its end is handed in.
ghost use Rattle.std.specs.Prelude.{◌≡◌, None, Some, IfOk, IfSome};
ghost use Rattle.repl_asks.specs.Inside.Jobs.{finished_view};
ghost use Rattle.repl_asks.specs.Job.{EndData};
ghost use Rattle.repl_replies.specs.Inside.View.{origin_view};
ghost use Rattle.tenant_parts.specs.Spelled.{SpellsEnd, TellsEnd, TellsResult};

use crate::batch::Batch;
use repl_asks::{End, Finished};
use repl_replies::Origin;
use repl_values::copy_text;
use std::alloc::{AllocError, Global};
use std::sync::{Arc, ArcStr};

/// To whom and how it is told that a form ended.
#[derive(Drop)]
pub struct Addressee {
    pub origin: Arc<Origin>,
    /// The namespace that is told with a value; none where it is the one in which the form ends.
    pub namespace: Option<ArcStr>,
    /// Whether a value is told.
    pub hears_value: bool,
}

/// The replies that tell the value or the fault of a form, a value in this namespace.
#[derive(Drop)]
pub struct ToldResult {
    pub(crate) namespace: ArcStr,
    pub(crate) replies: Batch,
}

/// The replies that tell how a form ended, as far as they were made.
#[derive(Drop)]
pub struct EndReplies {
    /// What it printed, if that is anything.
    pub output: Option<Batch>,
    pub result: Option<ToldResult>,
}

/// The same, with the request that they are for.
pub struct SpelledEnd {
    origin: Arc<Origin>,
    replies: EndReplies,
}

impl Drop for SpelledEnd {
    fn drop(self) {
        let SpelledEnd {
            origin: _origin,
            replies: _replies,
        } = self;
    }
}

impl EndReplies {
    /// None was made.
    pub fn none() -> EndReplies
        ensures { result ≡ record { output = None; result = None } }
    {
        EndReplies {
            output: None,
            result: None,
        }
    }
}

impl SpelledEnd {
    /// Makes the replies that tell how a form ended. It fails only for want of memory.
    pub fn new(alloc: Global, to: &Addressee, finished: &Finished) -> Result<SpelledEnd, AllocError>
        ensures { IfOk result (λ it. SpellsEnd (Some it) (finished_view finished.now)) }
    {
        let origin = Arc::try_clone(&to.origin)?;
        let mut output = Batch::new(alloc);
        output.add_output(&*origin, finished.text())?;
        let result = told_result(alloc, &*origin, to, finished)?;
        let output = Some(output);
        Ok(SpelledEnd {
            origin,
            replies: EndReplies { output, result },
        })
    }

    // The replies, if they are for this request.
    pub(crate) fn replies_to(self, origin: &Origin) -> EndReplies
        ensures { (e : EndData) → SpellsEnd (Some self) e → TellsEnd (origin_view origin.now) e result }
    {
        let SpelledEnd {
            origin: whose,
            replies,
        } = self;
        if whose.is_same(origin) {
            replies
        } else {
            EndReplies::none()
        }
    }
}

// The value or the fault of a form, unless it is a value that is not told.
fn told_result(
    alloc: Global,
    origin: &Origin,
    to: &Addressee,
    finished: &Finished,
) -> Result<Option<ToldResult>, AllocError>
    ensures { IfOk result (λ it. IfSome it (TellsResult (origin_view origin.now)
        (finished_view finished.now).result)) }
{
    let namespace = match &to.namespace {
        Some(namespace) => copy_text(namespace)?,
        None => copy_text(finished.namespace())?,
    };
    let mut replies = Batch::new(alloc);
    match finished.end() {
        End::Value(value) => {
            if !to.hears_value {
                return Ok(None);
            }
            replies.add_value(origin, namespace.as_str(), value, None)?;
        }
        End::Fault(fault) => replies.add_fault(origin, fault, None)?,
    }
    Ok(Some(ToldResult { namespace, replies }))
}
