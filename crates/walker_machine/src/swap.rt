// The function of `swap!`, which is called with the value of the atom.
#![tactic(auto, using(walker_state::proofs::Stepping::steps))]

ghost use Rattle.std.specs.Prelude.{◌≡◌, ◌≤◌, IfOk};
ghost use Rattle.value_data.specs.Inside.View.{view};
ghost use Rattle.walker_state.specs.Frames.{swap_step};
ghost use Rattle.walker_state.specs.Pending.{from_state, tree};
ghost use Rattle.walker_state.specs.Position.{IsLater, control_around, control_calls};
ghost use Rattle.walker_state.specs.Position.{control_position, entered_calls, wanted_position};
ghost use Rattle.walker_state.specs.declared.frames.Wanted.{Wanted};

use crate::calls::{call_named, enter};
use repl_values::{Value, copy, copy_items, too_many_calls};
use std::alloc::{AllocError, Global};
use std::boxed::Box;
use walker_state::{Control, Frame, State, StoreFrame, Swap};

// The value that was seen goes to the function, in front of the other arguments. One call is taken
// from the budget, so that fewer are left at the next try.
pub(crate) fn call_seen(
    alloc: Global,
    state: &mut State,
    swap: Swap,
    seen: Value,
) -> Result<Control, AllocError>
    ensures later { IfOk result (λ control. IsLater (control_position control state.new)
        (wanted_position Wanted.Value state.old)) }
    ensures meaning { IfOk result (λ control. tree control state.new
        ≡ from_state (swap_step swap (view seen)) state.old) }
{
    if state.calls == 0 {
        return Ok(Control::Fault(too_many_calls(alloc)?));
    }
    let mut values = copy_items(alloc, &swap.arguments)?;
    values.insert(0, copy(&seen)?)?;
    let function = swap.function.copy()?;
    let room = swap.room;
    let swap = Box::new(alloc, swap)?;
    state
        .frames
        .push_front(Frame::Store(StoreFrame::Swapped(swap, seen)))?;
    let control = call_named(alloc, state, function, values, room)?;
    enter_body(alloc, state, control)
}

// The same, at the first step of a body where one is entered.
fn enter_body(alloc: Global, state: &mut State, control: Control) -> Result<Control, AllocError>
    ensures calls { IfOk result (λ entered. control_calls entered state.new
        ≤ entered_calls control state.old) }
    ensures around { IfOk result (λ entered. control_around entered state.new
        ≡ control_around control state.old) }
    ensures meaning { IfOk result (λ entered. tree entered state.new ≡ tree control state.old) }
{
    match control {
        Control::Enter(function, values, room) => enter(alloc, state, function, values, room),
        other => Ok(other),
    }
}
