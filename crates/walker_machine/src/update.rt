// `alter`, `commute`, `swap!`, `send` and `send-off`, whose function stands between the first
// argument and those behind it; and what waits for the value of one of their parts.
#![tactic(auto, using(walker_state::proofs::Stepping::steps))]

ghost use Rattle.std.specs.Prelude.{◌≡◌, ◌+◌, ◌<◌, IfOk};
ghost use Rattle.value_data.specs.Inside.View.{view, views};
ghost use Rattle.repl_asks.specs.Exchange.{store_function};
ghost use Rattle.repl_asks.specs.Inside.View.{named_view};
ghost use Rattle.special_forms.specs.Inside.Seen.{forms_view};
ghost use Rattle.special_forms.specs.Inside.Size.{forms_size};
ghost use Rattle.evaluation_rules.specs.Calling.{updating};
ghost use Rattle.evaluation_rules.specs.Calls.{named_call, update_call};
ghost use Rattle.evaluation_rules.specs.Evaluation.{value_at};
ghost use Rattle.walker_state.specs.Pending.{from_state, place_of, tree};
ghost use Rattle.walker_state.specs.Frames.{update_behind, store_next};
ghost use Rattle.walker_state.specs.Size.{store_frame_size};
ghost use Rattle.walker_state.specs.Position.{LeadsOnWithin};

use crate::alter::{call_alter, call_altering};
use crate::forms::evaluate_symbol;
use crate::rows::next_argument;
use evaluation_rules::Update;
use repl_asks::NamedFunction;
use repl_values::{Rule, Value, broken_rule, not_a_function};
use special_forms::Forms;
use std::alloc::{AllocError, Global};
use std::boxed::Box;
use walker_state::{
    Callee, Control, Frame, State, StoreFrame, SymbolUse, call_send, call_swap, commute, hold,
    try_swap,
};

// A list with one of them at its head, and these forms behind it: a function stands between the
// first argument and those behind it.
pub(crate) fn begin_update(
    alloc: Global,
    state: &mut State,
    by: Update,
    forms: Forms,
    room: u32,
) -> Result<Control, AllocError>
    ensures on { IfOk result
        (LeadsOnWithin (6 + forms_size (forms_view forms)) state.old state.new) }
    ensures meaning { IfOk result (λ control. tree control state.new
        ≡ from_state (named_call (value_at room) (place_of state.old) (forms_view forms)
        (store_function (updating by))) state.old) }
{
    let callee = Callee::Named(NamedFunction::Store(by.function()));
    let values = Vec::new(alloc);
    let mut forms = forms;
    let Some(target) = forms.take_first()? else {
        return next_argument(alloc, state, callee, values, forms, room);
    };
    match forms.take_first()? {
        Some(function) => {
            let frame = StoreFrame::UpdateTarget(by, function, forms, room);
            state.frames.push_front(Frame::Store(frame))?;
            Ok(Control::Evaluate(target, room))
        }
        None => {
            let frame = Frame::Arguments(callee, values, forms, room);
            state.frames.push_front(frame)?;
            Ok(Control::Evaluate(target, room))
        }
    }
}

/// The value goes to a function that asks the store. It fails only for want of memory.
pub fn give_to_store(
    alloc: Global,
    state: &mut State,
    frame: StoreFrame,
    value: Value,
) -> Result<Control, AllocError>
    ensures on { IfOk result (LeadsOnWithin (1 + store_frame_size frame) state.old state.new) }
    ensures meaning { IfOk result (λ control. tree control state.new
        ≡ from_state (store_next frame (place_of state.old) (view value)) state.old) }
{
    match frame {
        StoreFrame::UpdateTarget(by, function, forms, room) => {
            name_function(alloc, state, by, value, function, forms, room)
        }
        StoreFrame::AlterCall(by, name, function, values, room) => {
            call_altering(alloc, state, by, name, function, values, value, room)
        }
        StoreFrame::Held(name) => hold(alloc, state, name, value),
        StoreFrame::Commuted(name, applied) => commute(alloc, state, name, applied, value),
        StoreFrame::Swapped(swap, seen) => try_swap(alloc, Box::into_inner(swap), seen, value),
    }
}

// One of them behind its first argument, which has this value: its function is named by a symbol.
#[tactic(auto, using(value_data::proofs::Views::value_views, walker_state::proofs::Stepping::steps), unfolding(walker_state::specs::Frames::update_behind))]
fn name_function(
    alloc: Global,
    state: &mut State,
    by: Update,
    target: Value,
    function: Value,
    forms: Forms,
    room: u32,
) -> Result<Control, AllocError>
    ensures on { IfOk result
        (LeadsOnWithin (7 + forms_size (forms_view forms)) state.old state.new) }
    ensures meaning { IfOk result (λ control. tree control state.new
        ≡ from_state (update_behind room (place_of state.old) by (view target) (view function)
        (forms_view forms)) state.old) }
{
    match function {
        Value::Symbol(symbol) => {
            let purpose = SymbolUse::Update(by, target, forms, room);
            evaluate_symbol(alloc, state, symbol, purpose)
        }
        other => Ok(Control::Fault(not_a_function(alloc, &other)?)),
    }
}

// A call of one of them with this function. The text of the shared namespace makes none.
#[tactic(auto, using(walker_state::proofs::Stepping::steps), unfolding(evaluation_rules::specs::SharedText::outside_shared_text))]
pub(crate) fn call_update(
    alloc: Global,
    state: &mut State,
    by: Update,
    function: NamedFunction,
    values: Vec<Value>,
    room: u32,
) -> Result<Control, AllocError>
    ensures on { IfOk result (LeadsOnWithin 6 state.old state.new) }
    ensures meaning { IfOk result (λ control. tree control state.new
        ≡ from_state (update_call (value_at room) by (named_view function) (views values.items))
        state.old) }
{
    if state.setting.occasion.is_shared_text() {
        return Ok(Control::Fault(broken_rule(alloc, Rule::SharedTextDefinesAlone)?));
    }
    match by {
        Update::Ref(by) => call_alter(alloc, state, by, function, values, room),
        Update::Atom => call_swap(alloc, state, function, values, room),
        Update::Agent(by) => call_send(alloc, state, by, function, values),
    }
}
