// The answers, by their kinds.
ghost use Rattle.std.specs.Prelude.{◌≡◌, IfOk};
ghost use Rattle.repl_asks.specs.Exchange.{kind_of, resolution_in, value_in, reading_in};
ghost use Rattle.repl_asks.specs.Exchange.{verdict_in, permission_in};
ghost use Rattle.value_data.specs.Inside.View.{view};
ghost use Rattle.repl_asks.specs.Inside.View.{answer_view, named_view, resolution_view};
ghost use Rattle.repl_asks.specs.Inside.View.{reading_view};
ghost use Rattle.repl_asks.specs.Inside.View.{verdict_view, permission_view};

use crate::ask::AnswerKind;
use core_functions::{CoreFunction, StoreFunction};
use repl_values::{Fault, Value, copy};
use special_forms::Function;
use std::alloc::AllocError;
use std::sync::Arc;

/// A function that has a name.
#[derive(Debug, Drop)]
pub enum NamedFunction {
    /// One of the language that needs no store.
    Core(CoreFunction),
    /// One of the language that asks the store.
    Store(StoreFunction),
    /// One that the program defined.
    Program(Arc<Function>),
}

/// What a symbol names.
#[derive(Debug, Drop)]
pub enum Resolution {
    Value(Value),
    Function(NamedFunction),
    /// Nothing, and why.
    Nothing(Fault),
}

/// The value of a ref, as an attempt reads it.
#[derive(Debug, Drop)]
pub enum Reading {
    Found(Value),
    /// It is kept no longer: the attempt is to be made again.
    Retry,
}

/// What comes of a commit.
#[derive(Debug, Drop)]
pub enum Verdict {
    Committed,
    /// Another came first: the attempt is to be made again.
    Conflict,
    Faulted(Fault),
}

/// What comes of what may be refused.
#[derive(Debug, Drop)]
pub enum Permission {
    Granted,
    Denied(Fault),
}

/// What the store answers.
#[derive(Debug)]
pub enum Answer {
    Resolution(Resolution),
    /// What was asked for is done, and gives no value.
    Done,
    Value(Value),
    Reading(Reading),
    Verdict(Verdict),
    Permission(Permission),
}

impl Drop for Answer {
    fn drop(self) {
        match self {
            Answer::Resolution(_it) => {}
            Answer::Done => {}
            Answer::Value(_it) => {}
            Answer::Reading(_it) => {}
            Answer::Verdict(_it) => {}
            Answer::Permission(_it) => {}
        }
    }
}

impl NamedFunction {
    /// The same function once more. It takes one step, and fails only where 2^63 owners share a
    /// part of it.
    pub fn copy(&self) -> Result<NamedFunction, AllocError>
        ensures { IfOk result (λ copied. named_view copied ≡ named_view self.now) }
    {
        match self {
            NamedFunction::Core(function) => Ok(NamedFunction::Core(*function)),
            NamedFunction::Store(function) => Ok(NamedFunction::Store(*function)),
            NamedFunction::Program(function) => {
                Ok(NamedFunction::Program(Arc::try_clone(function)?))
            }
        }
    }
}

impl Resolution {
    /// The same once more. It takes one step, and fails only where 2^63 owners share a part of it.
    pub fn copy(&self) -> Result<Resolution, AllocError>
        ensures { IfOk result (λ copied. resolution_view copied ≡ resolution_view self.now) }
    {
        match self {
            Resolution::Value(value) => Ok(Resolution::Value(copy(value)?)),
            Resolution::Function(function) => Ok(Resolution::Function(function.copy()?)),
            Resolution::Nothing(fault) => Ok(Resolution::Nothing(fault.copy()?)),
        }
    }
}

impl Reading {
    /// The same once more. It takes one step, and fails only where 2^63 owners share a part of it.
    pub fn copy(&self) -> Result<Reading, AllocError>
        ensures { IfOk result (λ copied. reading_view copied ≡ reading_view self.now) }
    {
        match self {
            Reading::Found(value) => Ok(Reading::Found(copy(value)?)),
            Reading::Retry => Ok(Reading::Retry),
        }
    }
}

impl Verdict {
    /// The same once more. It takes one step, and fails only where 2^63 owners share a part of it.
    pub fn copy(&self) -> Result<Verdict, AllocError>
        ensures { IfOk result (λ copied. verdict_view copied ≡ verdict_view self.now) }
    {
        match self {
            Verdict::Committed => Ok(Verdict::Committed),
            Verdict::Conflict => Ok(Verdict::Conflict),
            Verdict::Faulted(fault) => Ok(Verdict::Faulted(fault.copy()?)),
        }
    }
}

impl Permission {
    /// The same once more. It takes one step, and fails only where 2^63 owners share a part of it.
    pub fn copy(&self) -> Result<Permission, AllocError>
        ensures { IfOk result (λ copied. permission_view copied ≡ permission_view self.now) }
    {
        match self {
            Permission::Granted => Ok(Permission::Granted),
            Permission::Denied(fault) => Ok(Permission::Denied(fault.copy()?)),
        }
    }
}

impl Answer {
    /// What kind of answer it is.
    pub fn kind(&self) -> AnswerKind
        ensures { result ≡ kind_of (answer_view self.now) }
    {
        match self {
            Answer::Resolution(_) => AnswerKind::Resolution,
            Answer::Done => AnswerKind::Completion,
            Answer::Value(_) => AnswerKind::Value,
            Answer::Reading(_) => AnswerKind::Reading,
            Answer::Verdict(_) => AnswerKind::Verdict,
            Answer::Permission(_) => AnswerKind::Permission,
        }
    }

    /// What it says of a symbol. An answer of another kind, which fits no symbol, counts as nil.
    #[tactic(auto, using(value_data::proofs::Views::value_views))]
    pub fn into_resolution(self) -> Resolution
        ensures { resolution_view result ≡ resolution_in (answer_view self) }
    {
        match self {
            Answer::Resolution(resolution) => resolution,
            Answer::Done
            | Answer::Value(_)
            | Answer::Reading(_)
            | Answer::Verdict(_)
            | Answer::Permission(_) => Resolution::Value(Value::Nil),
        }
    }

    /// The value that it is. An answer of another kind counts as nil.
    #[tactic(auto, using(value_data::proofs::Views::value_views))]
    pub fn into_value(self) -> Value
        ensures { view result ≡ value_in (answer_view self) }
    {
        match self {
            Answer::Value(value) => value,
            Answer::Done
            | Answer::Resolution(_)
            | Answer::Reading(_)
            | Answer::Verdict(_)
            | Answer::Permission(_) => Value::Nil,
        }
    }

    /// What it says of a ref's value. An answer of another kind, which fits no read, counts as nil.
    #[tactic(auto, using(value_data::proofs::Views::value_views))]
    pub fn into_reading(self) -> Reading
        ensures { reading_view result ≡ reading_in (answer_view self) }
    {
        match self {
            Answer::Reading(reading) => reading,
            Answer::Done
            | Answer::Resolution(_)
            | Answer::Value(_)
            | Answer::Verdict(_)
            | Answer::Permission(_) => Reading::Found(Value::Nil),
        }
    }

    /// What it says of a commit. An answer of another kind, which fits no commit, counts as
    /// committed.
    pub fn into_verdict(self) -> Verdict
        ensures { verdict_view result ≡ verdict_in (answer_view self) }
    {
        match self {
            Answer::Verdict(verdict) => verdict,
            Answer::Done
            | Answer::Resolution(_)
            | Answer::Value(_)
            | Answer::Reading(_)
            | Answer::Permission(_) => Verdict::Committed,
        }
    }

    /// What it says of what may be refused. An answer of another kind, which fits no such ask,
    /// counts as granted.
    pub fn into_permission(self) -> Permission
        ensures { permission_view result ≡ permission_in (answer_view self) }
    {
        match self {
            Answer::Permission(permission) => permission,
            Answer::Done
            | Answer::Resolution(_)
            | Answer::Value(_)
            | Answer::Reading(_)
            | Answer::Verdict(_) => Permission::Granted,
        }
    }

    /// The same answer once more. It takes one step, and fails only where 2^63 owners share a part
    /// of it.
    pub fn copy(&self) -> Result<Answer, AllocError>
        ensures { IfOk result (λ copied. answer_view copied ≡ answer_view self.now) }
    {
        match self {
            Answer::Resolution(resolution) => Ok(Answer::Resolution(resolution.copy()?)),
            Answer::Done => Ok(Answer::Done),
            Answer::Value(value) => Ok(Answer::Value(copy(value)?)),
            Answer::Reading(reading) => Ok(Answer::Reading(reading.copy()?)),
            Answer::Verdict(verdict) => Ok(Answer::Verdict(verdict.copy()?)),
            Answer::Permission(permission) => Ok(Answer::Permission(permission.copy()?)),
        }
    }
}
