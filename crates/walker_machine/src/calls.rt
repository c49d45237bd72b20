// Calls: first one call is taken from the budget, then the number of arguments is checked, then the
// function is applied.
#![tactic(auto, using(walker_state::proofs::Stepping::steps))]

ghost use Rattle.std.specs.Prelude.{◌≡◌, ◌+◌, ◌<◌, ◌≤◌, IfOk};
ghost use Rattle.std.specs.Arc.{arc_str_bytes, arc_value};
ghost use Rattle.walker_state.specs.Pending.{from_state, tree};
ghost use Rattle.walker_state.specs.Frames.{callee_view};
ghost use Rattle.walker_state.specs.declared.frames.State.{State};
ghost use Rattle.special_forms.specs.Inside.Seen.{function_view};
ghost use Rattle.value_data.specs.Inside.View.{views};
ghost use Rattle.walker_state.specs.Size.{control_size, frames_size};
ghost use Rattle.walker_state.specs.Position.{around, control_around, control_calls};
ghost use Rattle.walker_state.specs.Position.{entered_calls, LeadsOnWithin};
ghost use Rattle.repl_asks.specs.Inside.View.{named_view};
ghost use Rattle.evaluation_rules.specs.Calls.{counted_call};
ghost use Rattle.evaluation_rules.specs.Applying.{keyword_call};
ghost use Rattle.evaluation_rules.specs.Applying.{function_called, function_applied, program_call};
ghost use Rattle.evaluation_rules.specs.Applying.{body_value};
ghost use Rattle.evaluation_rules.specs.Evaluation.{value_at};

use crate::update::call_update;
use core_collections::MapFunction;
use core_functions::CoreFunction;
use evaluation_rules::{bind_parameters, full_name, get_arguments};
use repl_asks::NamedFunction;
use repl_values::{Value, copy_text, too_many_calls, wrong_arity};
use special_forms::Function;
use std::alloc::{AllocError, Global};
use std::mem;
use std::sync::{Arc, ArcStr};
use walker_state::{Callee, Control, Frame, Place, State, call_core, call_store, next_in_body};

// One call is taken from the budget, and the callee is applied.
#[tactic(auto, using(walker_state::proofs::Stepping::steps), unfolding(evaluation_rules::specs::Calls::counted_call))]
pub(crate) fn call(
    alloc: Global,
    state: &mut State,
    callee: Callee,
    values: Vec<Value>,
    room: u32,
) -> Result<Control, AllocError>
    ensures on { IfOk result (LeadsOnWithin 6 state.old state.new) }
    ensures meaning { IfOk result (λ control. tree control state.new
        ≡ from_state (counted_call (value_at room) (callee_view callee) (views values.items))
        state.old) }
{
    if state.calls == 0 {
        return Ok(Control::Fault(too_many_calls(alloc)?));
    }
    state.calls -= 1;
    match callee {
        Callee::Named(function) => apply_named(alloc, state, function, values, room),
        Callee::Keyword(name) => call_keyword(alloc, state, name, values),
        Callee::Update(by, function) => call_update(alloc, state, by, function, values, room),
    }
}

/// One call is taken from the budget, and the function is applied. It fails only for want of
/// memory.
#[tactic(auto, using(walker_state::proofs::Stepping::steps), unfolding(evaluation_rules::specs::Applying::function_called))]
pub fn call_named(
    alloc: Global,
    state: &mut State,
    function: NamedFunction,
    values: Vec<Value>,
    room: u32,
) -> Result<Control, AllocError>
    ensures on { IfOk result (LeadsOnWithin 3 state.old state.new) }
    ensures meaning { IfOk result (λ control. tree control state.new
        ≡ from_state (function_called (value_at room) (named_view function) (views values.items))
        state.old) }
    ensures entered { 0 < state.old.calls
        → IfOk result (λ control. entered_calls control state.new < state.old.calls) }
{
    if state.calls == 0 {
        return Ok(Control::Fault(too_many_calls(alloc)?));
    }
    state.calls -= 1;
    apply_named(alloc, state, function, values, room)
}

// The function at these arguments, its call taken from the budget already.
fn apply_named(
    alloc: Global,
    state: &mut State,
    function: NamedFunction,
    values: Vec<Value>,
    room: u32,
) -> Result<Control, AllocError>
    ensures size { IfOk result (λ control. control_size control + frames_size state.new.frames.items
        < 3 + frames_size state.old.frames.items) }
    ensures calls { IfOk result (λ control. control_calls control state.new ≤ 1 + state.old.calls) }
    ensures entered { IfOk result (λ control. entered_calls control state.new ≤ state.old.calls) }
    ensures around { IfOk result (λ control. control_around control state.new
        ≡ around state.old.transaction) }
    ensures meaning { IfOk result (λ control. tree control state.new
        ≡ from_state (function_applied (value_at room) (named_view function) (views values.items))
        state.old) }
{
    match function {
        NamedFunction::Core(function) => call_core(alloc, state, function, values.as_slice()),
        NamedFunction::Store(function) => call_store(alloc, state, function, values),
        NamedFunction::Program(function) => call_function(alloc, function, values, room),
    }
}

// `(:name map)` and `(:name map default)` look the keyword up.
#[tactic(auto, using(walker_state::proofs::Stepping::steps), unfolding(evaluation_rules::specs::Applying::keyword_call))]
fn call_keyword(
    alloc: Global,
    state: &mut State,
    name: ArcStr,
    values: Vec<Value>,
) -> Result<Control, AllocError>
    ensures on { IfOk result (LeadsOnWithin 2 state.old state.new) }
    ensures meaning { IfOk result (λ control. tree control state.new
        ≡ from_state (keyword_call (arc_str_bytes name) (views values.items)) state.old) }
{
    if values.len() == 1 || values.len() == 2 {
        let get = CoreFunction::Map(MapFunction::Get);
        let args = get_arguments(name, values)?;
        return call_core(alloc, state, get, args.as_slice());
    }
    let mut text = String::from_str(alloc, ":")?;
    text.push_str(name.as_str())?;
    let fault = wrong_arity(alloc, text.as_str(), values.len())?;
    Ok(Control::Fault(fault))
}

#[tactic(auto, using(walker_state::proofs::Stepping::steps), unfolding(evaluation_rules::specs::Applying::program_call))]
fn call_function(
    alloc: Global,
    function: Arc<Function>,
    values: Vec<Value>,
    room: u32,
) -> Result<Control, AllocError>
    ensures size { IfOk result (λ control. control_size control < 2) }
    ensures calls { IfOk result (λ control. (s : State) → control_calls control s ≤ 1 + s.calls) }
    ensures entered { IfOk result (λ control. (s : State) → entered_calls control s ≤ s.calls) }
    ensures around { IfOk result (λ control. (s : State)
        → control_around control s ≡ around s.transaction) }
    ensures meaning { IfOk result (λ control. (s : State)
        → tree control s ≡ from_state (program_call (value_at room)
        (function_view (arc_value function)) (views values.items)) s) }
{
    if function.params.len() == values.len() {
        return Ok(Control::Enter(function, values, room));
    }
    let name = full_name(alloc, &function)?;
    let fault = wrong_arity(alloc, name.as_str(), values.len())?;
    Ok(Control::Fault(fault))
}

/// The function's body is evaluated with its parameters as the only locals. It fails only for want
/// of memory.
pub fn enter(
    alloc: Global,
    state: &mut State,
    function: Arc<Function>,
    values: Vec<Value>,
    room: u32,
) -> Result<Control, AllocError>
    ensures calls { IfOk result (λ control. control_calls control state.new ≤ state.old.calls) }
    ensures around { IfOk result (λ control. control_around control state.new
        ≡ around state.old.transaction) }
    ensures meaning { IfOk result (λ control. tree control state.new
        ≡ from_state (body_value (value_at room) (function_view (arc_value function))
        (views values.items)) state.old) }
{
    let locals = bind_parameters(alloc, &function.params, values)?;
    let home = Some(copy_text(&function.space)?);
    let body = function.body.copy()?;
    let place = mem::replace(&mut state.place, Place { locals, home });
    state.frames.push_front(Frame::Leave(place))?;
    next_in_body(state, Value::Nil, body, room)
}
