// An answer, three times.
ghost use Rattle.std.specs.Prelude.{◌≡◌, ◌<◌, ◌^◌, IfOk};
ghost use Rattle.value_data.specs.Datum.{ref, atom, agent, boolean};
ghost use Rattle.value_data.specs.Inside.View.{view, owner_view};
ghost use Rattle.repl_asks.specs.Exchange.{done, value, reading, found, retry, verdict};
ghost use Rattle.repl_asks.specs.Exchange.{permission, granted};
ghost use Rattle.repl_values.specs.Inside.FaultView.{failure_of};
ghost use Rattle.repl_asks.specs.Exchange.{committed, conflict, faulted};
ghost use Rattle.repl_asks.specs.Inside.View.{answer_view};
ghost use Rattle.ref_table.specs.Calls.{number_told};

use repl_asks::{Answer, Permission, Reading, Verdict};
use repl_values::{Fault, RefName, Value, copy};
use std::alloc::AllocError;

/// One answer, to be kept with its ask, to be given, and to be noted by whoever writes it down. What
/// can fail of its making is over before anything changes.
#[derive(Drop)]
pub struct AnswerCopies {
    pub kept: Answer,
    pub given: Answer,
    pub noted: Answer,
}

impl AnswerCopies {
    ghost use Rattle.tenant_parts.specs.AnswerCopies.{copies_view, AreAllSame};

    /// What is asked is done.
    pub fn done() -> AnswerCopies
        ensures view { copies_view result ≡ done }
        ensures copies { AreAllSame result }
    {
        AnswerCopies {
            kept: Answer::Done,
            given: Answer::Done,
            noted: Answer::Done,
        }
    }

    /// It fails only where 2^63 owners share a part of the answer.
    pub fn of(answer: Answer) -> Result<AnswerCopies, AllocError>
        ensures view { IfOk result (λ it. copies_view it ≡ answer_view answer) }
        ensures copies { IfOk result AreAllSame }
    {
        let given = answer.copy()?;
        let noted = answer.copy()?;
        Ok(AnswerCopies {
            kept: answer,
            given,
            noted,
        })
    }

    /// It takes no memory.
    pub fn of_atom(number: u64) -> AnswerCopies
        ensures view { copies_view result ≡ value (atom number) }
        ensures copies { AreAllSame result }
    {
        AnswerCopies {
            kept: Answer::Value(Value::Atom(number)),
            given: Answer::Value(Value::Atom(number)),
            noted: Answer::Value(Value::Atom(number)),
        }
    }

    /// It takes no memory.
    pub fn of_agent(number: u64) -> AnswerCopies
        ensures view { copies_view result ≡ value (agent number) }
        ensures copies { AreAllSame result }
    {
        AnswerCopies {
            kept: Answer::Value(Value::Agent(number)),
            given: Answer::Value(Value::Agent(number)),
            noted: Answer::Value(Value::Agent(number)),
        }
    }

    /// What is asked is granted. It takes no memory.
    pub fn granted() -> AnswerCopies
        ensures view { copies_view result ≡ permission granted }
        ensures copies { AreAllSame result }
    {
        AnswerCopies {
            kept: Answer::Permission(Permission::Granted),
            given: Answer::Permission(Permission::Granted),
            noted: Answer::Permission(Permission::Granted),
        }
    }

    /// It takes no memory.
    pub fn of_boolean(holds: bool) -> AnswerCopies
        ensures view { copies_view result ≡ value (boolean holds) }
        ensures copies { AreAllSame result }
    {
        AnswerCopies {
            kept: Answer::Value(Value::Bool(holds)),
            given: Answer::Value(Value::Bool(holds)),
            noted: Answer::Value(Value::Bool(holds)),
        }
    }

    pub(crate) fn of_name(name: RefName) -> AnswerCopies
        ensures view { copies_view result ≡ value (ref (owner_view name.owner) name.number) }
        ensures copies { AreAllSame result }
    {
        AnswerCopies {
            kept: Answer::Value(Value::Ref(name)),
            given: Answer::Value(Value::Ref(name)),
            noted: Answer::Value(Value::Ref(name)),
        }
    }

    pub(crate) fn of_number(number: u64) -> AnswerCopies
        ensures view { number < 2 ^ 63 → copies_view result ≡ number_told number }
        ensures copies { AreAllSame result }
    {
        let number = i64::try_from(number).unwrap_or(i64::MAX);
        AnswerCopies {
            kept: Answer::Value(Value::Int(number)),
            given: Answer::Value(Value::Int(number)),
            noted: Answer::Value(Value::Int(number)),
        }
    }

    pub(crate) fn of_found(value: Value) -> Result<AnswerCopies, AllocError>
        ensures view { IfOk result (λ it. copies_view it ≡ reading (found (view value))) }
        ensures copies { IfOk result AreAllSame }
    {
        let given = copy(&value)?;
        let noted = copy(&value)?;
        Ok(AnswerCopies {
            kept: Answer::Reading(Reading::Found(value)),
            given: Answer::Reading(Reading::Found(given)),
            noted: Answer::Reading(Reading::Found(noted)),
        })
    }

    pub(crate) fn retry() -> AnswerCopies
        ensures view { copies_view result ≡ reading retry }
        ensures copies { AreAllSame result }
    {
        AnswerCopies {
            kept: Answer::Reading(Reading::Retry),
            given: Answer::Reading(Reading::Retry),
            noted: Answer::Reading(Reading::Retry),
        }
    }

    pub(crate) fn committed() -> AnswerCopies
        ensures view { copies_view result ≡ verdict committed }
        ensures copies { AreAllSame result }
    {
        AnswerCopies {
            kept: Answer::Verdict(Verdict::Committed),
            given: Answer::Verdict(Verdict::Committed),
            noted: Answer::Verdict(Verdict::Committed),
        }
    }

    pub(crate) fn conflict() -> AnswerCopies
        ensures view { copies_view result ≡ verdict conflict }
        ensures copies { AreAllSame result }
    {
        AnswerCopies {
            kept: Answer::Verdict(Verdict::Conflict),
            given: Answer::Verdict(Verdict::Conflict),
            noted: Answer::Verdict(Verdict::Conflict),
        }
    }

    pub(crate) fn faulted(fault: Fault) -> Result<AnswerCopies, AllocError>
        ensures view { IfOk result (λ it. copies_view it ≡ verdict (faulted (failure_of fault))) }
        ensures copies { IfOk result AreAllSame }
    {
        let given = fault.copy()?;
        let noted = fault.copy()?;
        Ok(AnswerCopies {
            kept: Answer::Verdict(Verdict::Faulted(fault)),
            given: Answer::Verdict(Verdict::Faulted(given)),
            noted: Answer::Verdict(Verdict::Faulted(noted)),
        })
    }
}
