// What an attempt at a transaction changed.
use crate::sends::Sending;
use core_functions::CoreFunction;
use repl_values::{RefName, Value};

/// What an attempt wants committed.
#[derive(Debug)]
pub struct Intent {
    /// The refs that were set, each once, with its last value.
    pub sets: Vec<Change>,
    /// The refs that nobody else may have changed meanwhile, each once.
    pub ensured: Vec<RefName>,
    /// The refs that were commuted and not set, each once, in the order in which they were first
    /// commuted.
    pub commuted: Vec<Commuted>,
    /// What is sent to agents where it is committed, in order.
    pub sends: Vec<Sending>,
}

impl Drop for Intent {
    fn drop(self) {
        let Intent {
            sets: _sets,
            ensured: _ensured,
            commuted: _commuted,
            sends: _sends,
        } = self;
    }
}

/// A ref, and the value that it gets.
#[derive(Debug)]
pub struct Change {
    pub name: RefName,
    pub now: Value,
}

impl Drop for Change {
    fn drop(self) {
        let Change {
            name: _name,
            now: _now,
        } = self;
    }
}

/// A ref, and what is applied to the value that it has when the attempt is committed.
#[derive(Debug)]
pub struct Commuted {
    pub name: RefName,
    /// In order: each is applied to what the one before it gave.
    pub commutes: Vec<Commute>,
}

impl Drop for Commuted {
    fn drop(self) {
        let Commuted {
            name: _name,
            commutes: _commutes,
        } = self;
    }
}

/// A function that is applied to the value of a ref.
#[derive(Debug)]
pub struct Commute {
    pub function: CoreFunction,
    /// Those behind the value of the ref.
    pub arguments: Vec<Value>,
}

impl Drop for Commute {
    fn drop(self) {
        let Commute {
            function: _function,
            arguments: _arguments,
        } = self;
    }
}
