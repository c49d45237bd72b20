// Forms in a row: arguments, items, bodies, `and`, `or` and bindings.
#![tactic(auto, using(walker_state::proofs::Stepping::steps))]

ghost use Rattle.std.specs.Prelude.{◌≡◌, ◌+◌, ◌<◌, IfOk};
ghost use Rattle.value_data.specs.Inside.View.{view, views};
ghost use Rattle.walker_state.specs.Frames.{callee_view, call_behind, items_behind};
ghost use Rattle.walker_state.specs.Pending.{place_of, from_state, tree};
ghost use Rattle.special_forms.specs.Inside.Bindings.{bindings_in};
ghost use Rattle.special_forms.specs.Inside.Seen.{forms_view};
ghost use Rattle.special_forms.specs.Inside.Size.{forms_size, bindings_size};
ghost use Rattle.walker_state.specs.Position.{LeadsOnWithin};
ghost use Rattle.evaluation_rules.specs.Evaluation.{value_at};
ghost use Rattle.evaluation_rules.specs.SpecialForms.{let_value, logic_value};

use crate::calls::call;
use crate::collect::make_collection;
use repl_values::Value;
use special_forms::{Forms, LetBinding, Logic};
use std::alloc::{AllocError, Global};
use walker_state::{Callee, Collection, Control, Frame, State, next_in_body};

/// The next argument is evaluated, or the function is called. It fails only for want of memory.
#[tactic(auto, using(crate::proofs::Evaluating::steps))]
pub fn next_argument(
    alloc: Global,
    state: &mut State,
    callee: Callee,
    values: Vec<Value>,
    mut forms: Forms,
    room: u32,
) -> Result<Control, AllocError>
    ensures on { IfOk result
        (LeadsOnWithin (6 + forms_size (forms_view forms)) state.old state.new) }
    ensures meaning { IfOk result (λ control. tree control state.new
        ≡ from_state (call_behind room (place_of state.old) (callee_view callee)
        (views values.items) (forms_view forms)) state.old) }
{
    let Some(form) = forms.take_first()? else {
        return call(alloc, state, callee, values, room);
    };
    let frame = Frame::Arguments(callee, values, forms, room);
    state.frames.push_front(frame)?;
    Ok(Control::Evaluate(form, room))
}

/// The next item of a vector or a map is evaluated, or it is made. It fails only for want of
/// memory.
#[tactic(auto, using(crate::proofs::Evaluating::steps))]
pub fn next_item(
    alloc: Global,
    state: &mut State,
    kind: Collection,
    values: Vec<Value>,
    mut forms: Forms,
    room: u32,
) -> Result<Control, AllocError>
    ensures on { IfOk result
        (LeadsOnWithin (2 + forms_size (forms_view forms)) state.old state.new) }
    ensures meaning { IfOk result (λ control. tree control state.new
        ≡ from_state (items_behind room (place_of state.old) kind (views values.items)
        (forms_view forms)) state.old) }
{
    match forms.take_first()? {
        None => make_collection(alloc, kind, values),
        Some(form) => {
            let frame = Frame::Collection(kind, values, forms, room);
            state.frames.push_front(frame)?;
            Ok(Control::Evaluate(form, room))
        }
    }
}

/// The next form of `and` or `or` is evaluated, unless the last value decides. It fails only for
/// want of memory.
pub fn next_in_logic(
    state: &mut State,
    logic: Logic,
    last: Value,
    mut forms: Forms,
    room: u32,
) -> Result<Control, AllocError>
    ensures on { IfOk result
        (LeadsOnWithin (2 + forms_size (forms_view forms)) state.old state.new) }
    ensures meaning { IfOk result (λ control. tree control state.new
        ≡ from_state (logic_value (value_at room (place_of state.old)) logic (view last)
        (forms_view forms)) state.old) }
{
    match forms.take_first()? {
        None => Ok(Control::Return(last)),
        Some(_form) if logic.decides(&last) => Ok(Control::Return(last)),
        Some(form) => {
            let frame = Frame::Logic(logic, forms, room);
            state.frames.push_front(frame)?;
            Ok(Control::Evaluate(form, room))
        }
    }
}

/// The next binding's form is evaluated, or the body. It fails only for want of memory.
pub fn next_binding(
    alloc: Global,
    state: &mut State,
    mut bindings: Forms,
    body: Forms,
    room: u32,
) -> Result<Control, AllocError>
    ensures on { IfOk result
        (LeadsOnWithin
        (2 + bindings_size (bindings_in (forms_view bindings)) + forms_size (forms_view body))
        state.old state.new) }
    ensures meaning { IfOk result (λ control. tree control state.new
        ≡ from_state (let_value (value_at room) (place_of state.old)
        (bindings_in (forms_view bindings)) (forms_view body)) state.old) }
{
    match bindings.take_binding(alloc)? {
        None => next_in_body(state, Value::Nil, body, room),
        Some(binding) => {
            let LetBinding { name, form } = binding;
            let frame = Frame::Let(name, bindings, body, room);
            state.frames.push_front(frame)?;
            Ok(Control::Evaluate(form, room))
        }
    }
}
