// The asks.
ghost use Rattle.std.specs.Prelude.{◌≡◌, IfOk};
ghost use Rattle.value_data.specs.Inside.View.{view};
ghost use Rattle.repl_asks.specs.Exchange as asked;
ghost use Rattle.repl_asks.specs.Exchange.{kind_wanted};
ghost use Rattle.repl_asks.specs.Inside.View.{ask_view, binding_view};

use crate::intent::Intent;
use crate::sends::Sending;
use repl_values::{RefName, Value, copy, copy_text};
use special_forms::Function;
use std::alloc::AllocError;
use std::sync::{Arc, ArcStr};

/// What a form asks next.
#[derive(Debug)]
pub enum Ask {
    /// What a symbol names in a namespace. Answered by a resolution.
    Resolve {
        namespace: ArcStr,
        symbol: ArcStr,
    },
    /// Binds a name in a namespace. Answered by `Done`; the value of the form is the var.
    Define {
        namespace: ArcStr,
        name: ArcStr,
        binding: Binding,
    },
    /// Makes a namespace where it is new. Answered by `Done`; the form goes on in it.
    Enter(ArcStr),
    /// Makes a ref with bounds of its history. Answered by a value, the ref.
    NewRef {
        value: Value,
        min_history: u64,
        max_history: u64,
    },
    /// Begins an attempt at a transaction. Answered by `Done`.
    Begin,
    /// The value of a ref, in an attempt that of its read point. Answered by a reading.
    Read(RefName),
    /// How many versions a ref has behind its newest. Answered by a value.
    History(RefName),
    /// The least count of a ref's history, which is set first where a number is given. Answered by
    /// a value: the count, or where it is set the ref.
    MinHistory {
        name: RefName,
        set: Option<u64>,
    },
    /// The greatest count, likewise.
    MaxHistory {
        name: RefName,
        set: Option<u64>,
    },
    /// What the attempt changed is to stand for all. Answered by a verdict.
    Commit(Arc<Intent>),
    /// Makes an atom with this value. Answered by a value, the atom.
    NewAtom(Value),
    /// The value of the atom with this number. Answered by a value.
    ReadAtom(u64),
    /// The atom gets this value, whatever it was. Answered by a value, this one.
    SetAtom {
        number: u64,
        value: Value,
    },
    /// The atom gets its next value if it equals what was seen of it. Answered by a value: whether
    /// it did.
    TryAtom {
        number: u64,
        seen: Value,
        next: Value,
    },
    /// Makes an agent with this state. Answered by a value, the agent.
    NewAgent(Value),
    /// The state of the agent with this number. Answered by a value.
    ReadAgent(u64),
    /// What the agent with this number failed with. Answered by a value, which is nil where it is
    /// not failed.
    AgentFault(u64),
    /// The agent, which is failed, gets this state and goes on. Answered by a permission.
    RestartAgent {
        number: u64,
        state: Value,
    },
    /// This is sent to an agent. Answered by a permission.
    Send(Sending),
    /// This is to be sent to an agent, once the attempt is committed, or the action has ended well.
    /// Answered by a permission.
    MaySend(Sending),
    /// The agents with these numbers have done all that was sent to them from here. Answered by a
    /// permission.
    Await(Arc<Vec<u64>>),
}

impl Drop for Ask {
    fn drop(self) {
        match self {
            Ask::Resolve {
                namespace: _namespace,
                symbol: _symbol,
            } => {}
            Ask::Define {
                namespace: _namespace,
                name: _name,
                binding: _binding,
            } => {}
            Ask::Enter(_it) => {}
            Ask::NewRef {
                value: _value,
                min_history: _min_history,
                max_history: _max_history,
            } => {}
            Ask::Begin => {}
            Ask::Read(_it) => {}
            Ask::History(_it) => {}
            Ask::MinHistory {
                name: _name,
                set: _set,
            } => {}
            Ask::MaxHistory {
                name: _name,
                set: _set,
            } => {}
            Ask::Commit(_it) => {}
            Ask::NewAtom(_it) => {}
            Ask::ReadAtom(_it) => {}
            Ask::SetAtom {
                number: _number,
                value: _value,
            } => {}
            Ask::TryAtom {
                number: _number,
                seen: _seen,
                next: _next,
            } => {}
            Ask::NewAgent(_it) => {}
            Ask::ReadAgent(_it) => {}
            Ask::AgentFault(_it) => {}
            Ask::RestartAgent {
                number: _number,
                state: _state,
            } => {}
            Ask::Send(_it) => {}
            Ask::MaySend(_it) => {}
            Ask::Await(_it) => {}
        }
    }
}

/// What a name is bound to.
#[derive(Debug)]
pub enum Binding {
    Value(Value),
    Function(Arc<Function>),
}

impl Drop for Binding {
    fn drop(self) {
        match self {
            Binding::Value(_it) => {}
            Binding::Function(_it) => {}
        }
    }
}

/// What an answer can be.
#[derive(Clone, Copy, Debug, PartialEq, Eq)]
pub enum AnswerKind {
    Resolution,
    Completion,
    Value,
    Reading,
    Verdict,
    Permission,
}

impl Ask {
    /// The kind of answer that it wants.
    pub fn kind(&self) -> AnswerKind
        ensures { result ≡ kind_wanted (ask_view self.now) }
    {
        match self {
            Ask::Resolve { .. } => AnswerKind::Resolution,
            Ask::Define { .. } => AnswerKind::Completion,
            Ask::Enter(_) => AnswerKind::Completion,
            Ask::NewRef { .. } => AnswerKind::Value,
            Ask::Begin => AnswerKind::Completion,
            Ask::Read(_) => AnswerKind::Reading,
            Ask::History(_) => AnswerKind::Value,
            Ask::MinHistory { .. } | Ask::MaxHistory { .. } => AnswerKind::Value,
            Ask::Commit(_) => AnswerKind::Verdict,
            Ask::NewAtom(_) => AnswerKind::Value,
            Ask::ReadAtom(_) => AnswerKind::Value,
            Ask::SetAtom { .. } | Ask::TryAtom { .. } => AnswerKind::Value,
            Ask::NewAgent(_) => AnswerKind::Value,
            Ask::ReadAgent(_) | Ask::AgentFault(_) => AnswerKind::Value,
            Ask::RestartAgent { .. } => AnswerKind::Permission,
            Ask::Send(_) | Ask::MaySend(_) | Ask::Await(_) => AnswerKind::Permission,
        }
    }

    /// The same ask once more. It takes one step, and fails only where 2^63 owners share a part of
    /// it.
    pub fn copy(&self) -> Result<Ask, AllocError>
        ensures { IfOk result (λ copied. ask_view copied ≡ ask_view self.now) }
    {
        match self {
            Ask::Resolve { namespace, symbol } => Ok(Ask::Resolve {
                namespace: copy_text(namespace)?,
                symbol: copy_text(symbol)?,
            }),
            Ask::Define {
                namespace,
                name,
                binding,
            } => Ok(Ask::Define {
                namespace: copy_text(namespace)?,
                name: copy_text(name)?,
                binding: binding.copy()?,
            }),
            Ask::Enter(name) => Ok(Ask::Enter(copy_text(name)?)),
            Ask::NewRef {
                value,
                min_history,
                max_history,
            } => new_ref(value, *min_history, *max_history),
            Ask::Begin => Ok(Ask::Begin),
            Ask::Read(name) => Ok(Ask::Read(*name)),
            Ask::History(name) => Ok(Ask::History(*name)),
            Ask::MinHistory { name, set } => Ok(Ask::MinHistory {
                name: *name,
                set: *set,
            }),
            Ask::MaxHistory { name, set } => Ok(Ask::MaxHistory {
                name: *name,
                set: *set,
            }),
            Ask::Commit(intent) => Ok(Ask::Commit(Arc::try_clone(intent)?)),
            Ask::NewAtom(value) => Ok(Ask::NewAtom(copy(value)?)),
            Ask::ReadAtom(number) => Ok(Ask::ReadAtom(*number)),
            Ask::SetAtom { number, value } => set_atom(*number, value),
            Ask::TryAtom { number, seen, next } => try_atom(*number, seen, next),
            Ask::NewAgent(state) => Ok(Ask::NewAgent(copy(state)?)),
            Ask::ReadAgent(number) => Ok(Ask::ReadAgent(*number)),
            Ask::AgentFault(number) => Ok(Ask::AgentFault(*number)),
            Ask::RestartAgent { number, state } => restart_agent(*number, state),
            Ask::Send(sending) => Ok(Ask::Send(sending.copy()?)),
            Ask::MaySend(sending) => Ok(Ask::MaySend(sending.copy()?)),
            Ask::Await(numbers) => Ok(Ask::Await(Arc::try_clone(numbers)?)),
        }
    }
}

fn new_ref(value: &Value, min_history: u64, max_history: u64) -> Result<Ask, AllocError>
    ensures { IfOk result (λ ask. ask_view ask
        ≡ asked.new_ref (view value.now) min_history max_history) }
{
    Ok(Ask::NewRef {
        value: copy(value)?,
        min_history,
        max_history,
    })
}

fn set_atom(number: u64, value: &Value) -> Result<Ask, AllocError>
    ensures { IfOk result (λ ask. ask_view ask ≡ asked.set_atom number (view value.now)) }
{
    Ok(Ask::SetAtom {
        number,
        value: copy(value)?,
    })
}

fn try_atom(number: u64, seen: &Value, next: &Value) -> Result<Ask, AllocError>
    ensures { IfOk result (λ ask. ask_view ask
        ≡ asked.try_atom number (view seen.now) (view next.now)) }
{
    Ok(Ask::TryAtom {
        number,
        seen: copy(seen)?,
        next: copy(next)?,
    })
}

fn restart_agent(number: u64, state: &Value) -> Result<Ask, AllocError>
    ensures { IfOk result (λ ask. ask_view ask ≡ asked.restart_agent number (view state.now)) }
{
    Ok(Ask::RestartAgent {
        number,
        state: copy(state)?,
    })
}

impl Binding {
    /// The same binding once more. It takes one step, and fails only where 2^63 owners share a part
    /// of it.
    pub fn copy(&self) -> Result<Binding, AllocError>
        ensures { IfOk result (λ copied. binding_view copied ≡ binding_view self.now) }
    {
        match self {
            Binding::Value(value) => Ok(Binding::Value(copy(value)?)),
            Binding::Function(function) => Ok(Binding::Function(Arc::try_clone(function)?)),
        }
    }
}
