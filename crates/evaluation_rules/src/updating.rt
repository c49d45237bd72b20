// What calls a function in turn, and the atom of `swap!`, before its function is applied.
ghost use Rattle.std.specs.Prelude.{◌≡◌, IfOk};
ghost use Rattle.core_functions.specs.declared.store.StoreFunction.{StoreFunction};
ghost use Rattle.value_data.specs.Inside.View.{view};
ghost use Rattle.evaluation_rules.specs.Arguments.{atom_in};
ghost use Rattle.evaluation_rules.specs.Calling.{updating};
ghost use Rattle.evaluation_rules.specs.Inside.View.{swapped_view};

use crate::altering::Alteration;
use crate::arguments::atom_of;
use crate::outcome::Swapped;
use crate::sending::Dispatch;
use core_functions::StoreFunction;
use repl_values::{ApplyError, Value};
use std::alloc::{AllocError, Global};

/// Whose value goes to a function, and becomes what the function gives: at once, or when an agent
/// comes to it. In a call the function stands between the first argument and those behind it.
#[derive(Clone, Copy, Debug, PartialEq, Eq)]
pub enum Update {
    /// A ref's, within a transaction.
    Ref(Alteration),
    /// An atom's. It is tried again where the atom has got another value in between.
    Atom,
    /// An agent's, later, in an action.
    Agent(Dispatch),
}

impl Update {
    /// What it is named by.
    pub fn function(self) -> StoreFunction
        ensures { result ≡ updating self }
    {
        match self {
            Update::Ref(by) => by.function(),
            Update::Atom => StoreFunction::Swap,
            Update::Agent(by) => by.function(),
        }
    }
}

/// The atom of `(swap! atom function argument ..)`, whose first argument is this value. What is no
/// atom is refused. It fails only for want of memory.
pub fn atom_to_swap(alloc: Global, value: &Value) -> Result<Swapped, AllocError>
    ensures { IfOk result (λ swapped. swapped_view swapped
        ≡ atom_in StoreFunction.Swap (view value.now)) }
{
    match atom_of(alloc, StoreFunction::Swap, value) {
        Ok(number) => Ok(Swapped::Atom(number)),
        Err(ApplyError::Fault(fault)) => Ok(Swapped::Refused(fault)),
        Err(ApplyError::NoMemory) => Err(AllocError),
    }
}
