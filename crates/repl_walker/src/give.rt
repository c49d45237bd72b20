// The value of the innermost form goes to what waits for it.
#![tactic(auto, using(walker_state::proofs::Stepping::steps))]

ghost use Rattle.std.specs.Prelude.{◌≡◌, ◌+◌, ◌<◌, IfOk};
ghost use Rattle.value_data.specs.Inside.View.{view};
ghost use Rattle.walker_state.specs.Pending.{tree_with_value, tree};
ghost use Rattle.walker_state.specs.Size.{frame_size};
ghost use Rattle.walker_state.specs.Position.{LeadsOnWithin};

use crate::thrown::throw;
use repl_asks::Binding;
use repl_values::Value;
use special_forms::chosen_body;
use std::alloc::{AllocError, Global};
use walker_machine::{
    define, give_to_store, next_argument, next_binding, next_in_logic, next_item,
};
use walker_state::{Control, Frame, State, bind, enter_named, next_in_body};

pub(crate) fn give(
    alloc: Global,
    state: &mut State,
    frame: Frame,
    value: Value,
) -> Result<Control, AllocError>
    ensures on { IfOk result (LeadsOnWithin (1 + frame_size frame) state.old state.new) }
    ensures meaning { IfOk result (λ control. tree control state.new
        ≡ tree_with_value frame (view value) state.old) }
{
    match frame {
        Frame::Arguments(callee, mut values, forms, room) => {
            values.push(value)?;
            next_argument(alloc, state, callee, values, forms, room)
        }
        Frame::Collection(kind, mut values, forms, room) => {
            values.push(value)?;
            next_item(alloc, state, kind, values, forms, room)
        }
        Frame::Body(forms, room) => next_in_body(state, value, forms, room),
        Frame::Choice(consequent, alternative, room) => {
            let body = chosen_body(value, consequent, alternative);
            next_in_body(state, Value::Nil, body, room)
        }
        Frame::Logic(logic, forms, room) => next_in_logic(state, logic, value, forms, room),
        Frame::Let(name, bindings, body, room) => {
            bind(state, name, value)?;
            next_binding(alloc, state, bindings, body, room)
        }
        Frame::Define(name) => define(alloc, state, name, Binding::Value(value)),
        Frame::Throw => throw(alloc, value),
        Frame::Namespace => enter_named(alloc, value),
        Frame::Store(frame) => give_to_store(alloc, state, frame, value),
        Frame::Unbind => {
            state.place.locals.unbind();
            Ok(Control::Return(value))
        }
        Frame::Leave(place) => {
            state.place = place;
            Ok(Control::Return(value))
        }
    }
}
