// `alter` and `commute`, which call a function with the value of a ref.
#![tactic(auto, using(walker_state::proofs::Stepping::steps))]

ghost use Rattle.std.specs.Prelude.{◌≡◌, ◌<◌, IfOk};
ghost use Rattle.value_data.specs.Inside.View.{view, views};
ghost use Rattle.repl_asks.specs.Exchange.{core_function};
ghost use Rattle.repl_asks.specs.Inside.View.{name_view, named_view};
ghost use Rattle.evaluation_rules.specs.Calls.{alter_call, commute_applied, commuting_value};
ghost use Rattle.evaluation_rules.specs.Evaluation.{value_at};
ghost use Rattle.walker_state.specs.Pending.{from_state, tree};
ghost use Rattle.walker_state.specs.Frames.{alter_step};
ghost use Rattle.walker_state.specs.Position.{LeadsOnWithin};

use crate::calls::call_named;
use core_functions::CoreFunction;
use evaluation_rules::{Alteration, Altered, ref_to_alter};
use repl_asks::{Commute, NamedFunction};
use repl_values::{RefName, Value, copy_items, too_many_calls, wrong_arity};
use std::alloc::{AllocError, Global};
use walker_state::{
    Control, Frame, State, StoreFrame, call_core, read, refuse_program, refuse_store,
};

// A call of `alter` or `commute` with this function: the value of its ref goes to it, with the
// other arguments.
#[tactic(auto, using(walker_state::proofs::Stepping::steps), unfolding(evaluation_rules::specs::Calls::alter_call))]
pub(crate) fn call_alter(
    alloc: Global,
    state: &mut State,
    by: Alteration,
    function: NamedFunction,
    values: Vec<Value>,
    room: u32,
) -> Result<Control, AllocError>
    ensures on { IfOk result (LeadsOnWithin 6 state.old state.new) }
    ensures meaning { IfOk result (λ control. tree control state.new
        ≡ from_state (alter_call (value_at room) by (named_view function) (views values.items))
        state.old) }
{
    let mut values = values;
    if values.is_empty() {
        let fault = wrong_arity(alloc, by.function().name(), 1)?;
        return Ok(Control::Fault(fault));
    }
    let target = values.remove(0);
    match ref_to_alter(alloc, by, state.transaction.is_some(), &target)? {
        Altered::Refused(fault) => Ok(Control::Fault(fault)),
        Altered::Ref(name) => {
            let frame = StoreFrame::AlterCall(by, name, function, values, room);
            state.frames.push_front(Frame::Store(frame))?;
            read(state, name)
        }
    }
}

// The function is called with the value of the ref, and these arguments behind it.
#[tactic(auto, using(walker_state::proofs::Stepping::steps), unfolding(walker_state::specs::Frames::alter_step))]
pub(crate) fn call_altering(
    alloc: Global,
    state: &mut State,
    by: Alteration,
    name: RefName,
    function: NamedFunction,
    values: Vec<Value>,
    value: Value,
    room: u32,
) -> Result<Control, AllocError>
    ensures on { IfOk result (LeadsOnWithin 4 state.old state.new) }
    ensures meaning { IfOk result (λ control. tree control state.new
        ≡ from_state (alter_step room by (name_view name) (named_view function)
        (views values.items) (view value)) state.old) }
{
    match by {
        Alteration::Alter => {
            let mut values = values;
            values.insert(0, value)?;
            let frame = Frame::Store(StoreFrame::Held(name));
            state.frames.push_front(frame)?;
            call_named(alloc, state, function, values, room)
        }
        Alteration::Commute => call_commuting(alloc, state, name, function, values, value),
    }
}

// One call is taken from the budget, and a function of the language is applied to the value of a
// ref. No other function may be.
#[tactic(auto, using(walker_state::proofs::Stepping::steps, walker_state::proofs::Taking::lengths), unfolding(evaluation_rules::specs::Calls::commuting_value))]
fn call_commuting(
    alloc: Global,
    state: &mut State,
    name: RefName,
    function: NamedFunction,
    values: Vec<Value>,
    value: Value,
) -> Result<Control, AllocError>
    ensures on { IfOk result (LeadsOnWithin 4 state.old state.new) }
    ensures meaning { IfOk result (λ control. tree control state.new
        ≡ from_state (commuting_value (named_view function) (views values.items) (name_view name)
        (view value)) state.old) }
{
    if state.calls == 0 {
        return Ok(Control::Fault(too_many_calls(alloc)?));
    }
    state.calls -= 1;
    let arguments = values.len().saturating_add(1);
    match function {
        NamedFunction::Core(function) => {
            apply_commuting(alloc, state, name, function, values, value)
        }
        NamedFunction::Store(function) => refuse_store(alloc, function, arguments),
        NamedFunction::Program(function) => refuse_program(alloc, &function, arguments),
    }
}

// The function is applied, and noted with what it gives.
fn apply_commuting(
    alloc: Global,
    state: &mut State,
    name: RefName,
    function: CoreFunction,
    values: Vec<Value>,
    value: Value,
) -> Result<Control, AllocError>
    ensures on { IfOk result (LeadsOnWithin 3 state.old state.new) }
    ensures meaning { IfOk result (λ control. tree control state.new
        ≡ from_state (commute_applied (core_function function) (views values.items)
        (name_view name) (view value)) state.old) }
{
    let mut row = copy_items(alloc, &values)?;
    row.insert(0, value)?;
    let commute = Commute {
        function,
        arguments: values,
    };
    let frame = Frame::Store(StoreFrame::Commuted(name, commute));
    state.frames.push_front(frame)?;
    call_core(alloc, state, function, row.as_slice())
}
