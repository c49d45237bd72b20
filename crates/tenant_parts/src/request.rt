// A request to evaluate: while it waits, and while it is in hand.
use bencode_wire::Ben;
use repl_asks::{Exchange, Job};
use repl_replies::Origin;
use repl_values::{Fault, Value};
use std::boxed::Box;
use std::collections::VecDeque;
use std::sync::{Arc, ArcStr};

/// What a request asks to evaluate.
#[derive(Drop)]
pub enum ProgramText {
    /// Code, and the namespace that is named for it, as it came.
    Code { text: String, ns: Option<Ben> },
    /// The text of a file.
    File(String),
}

/// A request that waits.
pub struct Waiting {
    pub origin: Arc<Origin>,
    pub text: ProgramText,
}

impl Drop for Waiting {
    fn drop(self) {
        let Waiting {
            origin: _origin,
            text: _text,
        } = self;
    }
}

/// How the forms of a request are answered.
#[derive(Drop)]
pub enum Manner {
    /// Each by its value. Where they leave the namespace, there the session stays.
    EachForm,
    /// Each by its value, in a namespace that was named for them.
    EachFormElsewhere,
    /// All by the value of the last; this is the last so far.
    LastForm(Value),
    /// An action, by what it prints alone. It came from the session of this number, or from none.
    OfAction(Option<u64>),
}

/// A form that runs: its job, and what it asked and was answered.
pub struct Run {
    pub job: Job,
    /// Each exchange has a box of its own, so that little moves where a long trace gets more room.
    pub trace: Vec<Box<Exchange>>,
}

impl Drop for Run {
    fn drop(self) {
        let Run {
            job: _job,
            trace: _trace,
        } = self;
    }
}

/// A request that was begun and is not done, or an action.
pub struct WorkInHand {
    pub origin: Arc<Origin>,
    pub manner: Manner,
    /// The namespace in which its next form is evaluated.
    pub namespace: ArcStr,
    /// The form that runs, if one does.
    pub running: Option<Run>,
    /// The forms behind it, and the fault of the text behind them all.
    pub forms: VecDeque<Value>,
    pub fault: Option<Fault>,
}

impl Drop for WorkInHand {
    fn drop(self) {
        let WorkInHand {
            origin: _origin,
            manner: _manner,
            namespace: _namespace,
            running: _running,
            forms: _forms,
            fault: _fault,
        } = self;
    }
}
