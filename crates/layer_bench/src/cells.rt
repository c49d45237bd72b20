// Sends to agents and runs what was sent, and tries at an atom, so that both can be timed alone.
use crate::number_of;
use core_functions::StoreFunction;
use private_cells::{Action, Agents, Atoms};
use repl_asks::{NamedFunction, Task};
use repl_replies::Origin;
use repl_values::Value;
use std::alloc::{AllocError, Global};
use std::str::SplitWhitespace;
use std::sync::Arc;

// The actions come from so many sessions.
const SESSIONS: u64 = 8;

// The atom's values go round.
const VALUES: u64 = 1_000_000;

#[derive(Clone, Copy, Debug)]
pub(crate) struct Size {
    agents: u64,
    sends: u64,
    tries: u64,
}

#[derive(Clone, Copy, Debug, Default)]
pub(crate) struct CellCounts {
    pub(crate) ran: u64,
    pub(crate) kept: u64,
}

/// The number of agents, that of sends and that of tries.
pub(crate) fn size_of(words: &mut SplitWhitespace<'_>) -> Size {
    Size {
        agents: number_of(words.next()),
        sends: number_of(words.next()),
        tries: number_of(words.next()),
    }
}

fn action(alloc: Global, number: u64) -> Result<Action, AllocError> {
    let task = Task {
        function: NamedFunction::Store(StoreFunction::Deref),
        arguments: Vec::new(alloc),
    };
    Ok(Action {
        task: Arc::new(alloc, task)?,
        origin: Arc::new(alloc, Origin::none())?,
        session: Some(number % SESSIONS),
    })
}

fn send(agents: &mut Agents, number: u64, action: Action) -> Result<(), AllocError> {
    agents.reserve(1)?;
    agents.send(number, action);
    Ok(())
}

// To one agent after another.
fn send_all(alloc: Global, agents: &mut Agents, size: Size) -> Result<(), AllocError> {
    for _ in 0..size.agents {
        agents.make(Value::Int(0))?;
    }
    if size.agents == 0 {
        return Ok(());
    }
    for number in 0..size.sends {
        send(agents, number % size.agents, action(alloc, number)?)?;
    }
    Ok(())
}

// How many actions ran.
fn run_all(agents: &mut Agents, sends: u64) -> u64 {
    let mut ran: u64 = 0;
    for _ in 0..sends {
        if agents.take_ready().is_some() {
            ran = ran.saturating_add(1);
        }
        agents.finish(Value::Int(1));
    }
    ran
}

fn value_of(number: u64) -> Value {
    Value::Int((number % VALUES) as i64)
}

// Each try has seen what the one before it gave. Answers how many were kept.
fn try_all(alloc: Global, tries: u64) -> Result<u64, AllocError> {
    let mut atoms = Atoms::new(alloc);
    let atom = atoms.make(value_of(0))?;
    let mut kept: u64 = 0;
    for number in 0..tries {
        let next = value_of(number.saturating_add(1));
        if atoms.swap_try(atom, &value_of(number), next) {
            kept = kept.saturating_add(1);
        }
    }
    Ok(kept)
}

pub(crate) fn run(alloc: Global, size: Size) -> Result<CellCounts, AllocError> {
    let mut agents = Agents::new(alloc);
    send_all(alloc, &mut agents, size)?;
    Ok(CellCounts {
        ran: run_all(&mut agents, size.sends),
        kept: try_all(alloc, size.tries)?,
    })
}
