// What is evaluated, and how it ends.
ghost use Rattle.std.specs.Prelude.{◌≡◌, string_bytes, IfOk};
ghost use Rattle.repl_asks.specs.Inside.Jobs.{work_view, job_view, end_view, finished_view};

use crate::sends::Task;
use repl_values::{Fault, Value, copy, copy_text};
use std::alloc::{AllocError, Global};
use std::sync::{Arc, ArcStr};

/// What there is to evaluate.
#[derive(Debug)]
pub enum Work {
    Form(Value),
    /// A form of the text of the namespace that all tenants share.
    SharedForm(Value),
    /// An action of an agent, which has this state.
    Action(Value, Arc<Task>),
}

impl Drop for Work {
    fn drop(self) {
        match self {
            Work::Form(_it) => {}
            Work::SharedForm(_it) => {}
            Work::Action(_state, _task) => {}
        }
    }
}

/// An evaluation: its work, the namespace in which it begins, and how many attempts a transaction
/// has.
#[derive(Debug)]
pub struct Job {
    pub work: Work,
    pub namespace: ArcStr,
    pub retries: u32,
}

impl Drop for Job {
    fn drop(self) {
        let Job {
            work: _work,
            namespace: _namespace,
            retries: _retries,
        } = self;
    }
}

/// A value, or the fault that ended the evaluation.
#[derive(Debug, Drop)]
pub enum End {
    Value(Value),
    Fault(Fault),
}

/// How an evaluation ended, the text that it printed, and the namespace after it.
#[derive(Debug)]
pub struct Finished {
    end: End,
    text: String,
    namespace: ArcStr,
}

impl Drop for Finished {
    fn drop(self) {
        let Finished {
            end: _end,
            text: _text,
            namespace: _namespace,
        } = self;
    }
}

impl Work {
    /// The same work once more. It takes one step, and fails only where 2^63 owners share a part of
    /// it.
    pub fn copy(&self) -> Result<Work, AllocError>
        ensures { IfOk result (λ copied. work_view copied ≡ work_view self.now) }
    {
        match self {
            Work::Form(form) => Ok(Work::Form(copy(form)?)),
            Work::SharedForm(form) => Ok(Work::SharedForm(copy(form)?)),
            Work::Action(state, task) => Ok(Work::Action(copy(state)?, Arc::try_clone(task)?)),
        }
    }
}

impl Job {
    /// The same job once more. It takes one step, and fails only where 2^63 owners share a part of
    /// it.
    pub fn copy(&self) -> Result<Job, AllocError>
        ensures { IfOk result (λ copied. job_view copied ≡ job_view self.now) }
    {
        Ok(Job {
            work: self.work.copy()?,
            namespace: copy_text(&self.namespace)?,
            retries: self.retries,
        })
    }
}

impl End {
    /// The same end once more. It takes one step, and fails only where 2^63 owners share a part of
    /// it.
    pub fn copy(&self) -> Result<End, AllocError>
        ensures { IfOk result (λ copied. end_view copied ≡ end_view self.now) }
    {
        match self {
            End::Value(value) => Ok(End::Value(copy(value)?)),
            End::Fault(fault) => Ok(End::Fault(fault.copy()?)),
        }
    }
}

impl Finished {
    /// An end with the text that was printed before it, and the namespace after it.
    pub fn new(end: End, text: String, namespace: ArcStr) -> Finished
        ensures end { result.end ≡ end }
        ensures text { result.text ≡ text }
        ensures namespace { result.namespace ≡ namespace }
    {
        Finished {
            end,
            text,
            namespace,
        }
    }

    /// The value or the fault.
    pub fn end(&self) -> &End
        ensures { result.now ≡ self.now.end }
    {
        &self.end
    }

    /// The text that was printed.
    pub fn text(&self) -> &str
        ensures { result.now ≡ string_bytes self.now.text }
    {
        self.text.as_str()
    }

    /// The namespace after it.
    pub fn namespace(&self) -> &ArcStr
        ensures { result.now ≡ self.now.namespace }
    {
        &self.namespace
    }

    /// The same once more. It fails only for want of memory.
    pub fn copy(&self, alloc: Global) -> Result<Finished, AllocError>
        ensures { IfOk result (λ copied. finished_view copied ≡ finished_view self.now) }
    {
        Ok(Finished {
            end: self.end.copy()?,
            text: String::from_str(alloc, self.text.as_str())?,
            namespace: copy_text(&self.namespace)?,
        })
    }
}
