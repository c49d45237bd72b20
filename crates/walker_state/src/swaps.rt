// `swap!`: its call, up to the ask for the value of its atom; a try; and what becomes of that. Its
// function is called by others.
#![tactic(auto, using(crate::proofs::Stepping::steps))]

ghost use Rattle.std.specs.Prelude.{◌≡◌, ◌<◌, IfOk};
ghost use Rattle.value_data.specs.Inside.View.{view, views};
ghost use Rattle.repl_asks.specs.Inside.View.{named_view};
ghost use Rattle.evaluation_rules.specs.Atoms.{settled_value, swap_call, tried_value};
ghost use Rattle.evaluation_rules.specs.Evaluation.{value_at};
ghost use Rattle.walker_state.specs.Frames.{swap_again};
ghost use Rattle.walker_state.specs.Pending.{from_state, tree};
ghost use Rattle.walker_state.specs.Position.{LeadsOnWithin};
ghost use Rattle.walker_state.specs.declared.frames.State.{State};

use crate::frames::{Control, State, Swap, Wanted};
use core_functions::StoreFunction;
use evaluation_rules::{Swapped, atom_to_swap};
use repl_asks::{Ask, NamedFunction};
use repl_values::{Value, copy, too_many_calls, wrong_arity};
use special_forms::is_truthy;
use std::alloc::{AllocError, Global};
use std::boxed::Box;

/// A call of `swap!` with this function: the value of its atom is asked for, which goes to the
/// function with the other arguments. It fails only for want of memory.
pub fn call_swap(
    alloc: Global,
    state: &State,
    function: NamedFunction,
    values: Vec<Value>,
    room: u32,
) -> Result<Control, AllocError>
    ensures on { IfOk result (LeadsOnWithin 3 state.now state.now) }
    ensures meaning { IfOk result (λ control. tree control state.now
        ≡ from_state (swap_call (value_at room) (named_view function) (views values.items))
        state.now) }
{
    let mut values = values;
    if values.is_empty() {
        let fault = wrong_arity(alloc, StoreFunction::Swap.name(), 1)?;
        return Ok(Control::Fault(fault));
    }
    let target = values.remove(0);
    match atom_to_swap(alloc, &target)? {
        Swapped::Refused(fault) => Ok(Control::Fault(fault)),
        Swapped::Atom(atom) => {
            let swap = Swap {
                atom,
                function,
                arguments: values,
                room,
                left: state.calls,
            };
            let wanted = Wanted::Seen(Box::new(alloc, swap)?);
            Ok(Control::Ask(Ask::ReadAtom(atom), wanted))
        }
    }
}

/// What the function gave is tried: the atom gets it, if it still has the value that was seen. It
/// fails only for want of memory.
pub fn try_swap(alloc: Global, swap: Swap, seen: Value, next: Value) -> Result<Control, AllocError>
    ensures on { IfOk result (λ control. (s : State) → LeadsOnWithin 4 s s control) }
    ensures meaning { IfOk result (λ control. (s : State) → tree control s
        ≡ from_state (tried_value swap.atom (view seen) (swap_again swap) (view next)) s) }
{
    let ask = Ask::TryAtom {
        number: swap.atom,
        next: copy(&next)?,
        seen,
    };
    let swap = Box::new(alloc, swap)?;
    Ok(Control::Ask(ask, Wanted::Tried(swap, next)))
}

/// The value of `swap!` where the try is said to have gone through, else another try. It fails only
/// for want of memory.
pub fn settle_swap(
    alloc: Global,
    swap: Swap,
    next: Value,
    done: Value,
) -> Result<Control, AllocError>
    ensures on { IfOk result (λ control. (s : State) → LeadsOnWithin 3 s s control) }
    ensures meaning { IfOk result (λ control. (s : State) → tree control s
        ≡ from_state (settled_value (swap_again swap) (view next) (view done)) s) }
{
    if is_truthy(&done) {
        return Ok(Control::Return(next));
    }
    swap_once_more(alloc, swap)
}

// One try fewer is left. Where none is, so many calls were made as there may be.
fn swap_once_more(alloc: Global, swap: Swap) -> Result<Control, AllocError>
    ensures on { IfOk result (λ control. (s : State) → LeadsOnWithin 3 s s control) }
    ensures meaning { IfOk result (λ control. (s : State) → tree control s
        ≡ from_state (swap_again swap) s) }
{
    if swap.left == 0 {
        return Ok(Control::Fault(too_many_calls(alloc)?));
    }
    let mut swap = swap;
    swap.left -= 1;
    let ask = Ask::ReadAtom(swap.atom);
    let wanted = Wanted::Seen(Box::new(alloc, swap)?);
    Ok(Control::Ask(ask, wanted))
}
