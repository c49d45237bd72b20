// Bodies: forms in a row, of which the last gives the value; and the locals of a `let`.
ghost use Rattle.std.specs.Prelude.{◌≡◌, ◌+◌, ◌<◌, IfOk};
ghost use Rattle.std.specs.Arc.{arc_str_bytes};
ghost use Rattle.value_data.specs.Inside.View.{view};
ghost use Rattle.evaluation_rules.specs.Rows.{value_of_last};
ghost use Rattle.evaluation_rules.specs.Evaluation.{value_at};
ghost use Rattle.evaluation_rules.specs.Places.{with_local};
ghost use Rattle.special_forms.specs.Inside.Seen.{forms_view};
ghost use Rattle.special_forms.specs.Inside.Size.{forms_size};
ghost use Rattle.walker_state.specs.Frames.{bottom};
ghost use Rattle.walker_state.specs.Pending.{place_of, kept_of, next_of, from_state, tree};
ghost use Rattle.walker_state.specs.Position.{LeadsOnWithin};
ghost use Rattle.walker_state.specs.Size.{frames_size};

use crate::frames::{Control, Frame, State};
use repl_values::Value;
use special_forms::Forms;
use std::alloc::AllocError;
use std::sync::ArcStr;

/// The next form of a body is evaluated, or its value is that of the last.
pub fn next_in_body(
    state: &mut State,
    last: Value,
    mut forms: Forms,
    room: u32,
) -> Result<Control, AllocError>
    ensures on { IfOk result
        (LeadsOnWithin (2 + forms_size (forms_view forms)) state.old state.new) }
    ensures meaning { IfOk result (λ control. tree control state.new
        ≡ from_state (value_of_last (value_at room (place_of state.old)) (view last) (forms_view forms))
        state.old) }
{
    match forms.take_first()? {
        None => Ok(Control::Return(last)),
        Some(form) => {
            state.frames.push_front(Frame::Body(forms, room))?;
            Ok(Control::Evaluate(form, room))
        }
    }
}

/// The name is a local for what follows in its `let`. It fails only for want of memory.
pub fn bind(state: &mut State, name: ArcStr, value: Value) -> Result<(), AllocError>
    ensures size { IfOk result (λ _. frames_size state.new.frames.items
        ≡ 1 + frames_size state.old.frames.items) }
    ensures calls { state.new.calls ≡ state.old.calls }
    ensures transaction { state.new.transaction ≡ state.old.transaction }
    ensures setting { state.new.setting ≡ state.old.setting }
    ensures bottom { IfOk result (λ _. bottom state.new.frames.items (place_of state.new)
        ≡ bottom state.old.frames.items (place_of state.old)) }
    ensures place { IfOk result (λ _. place_of state.new
        ≡ with_local (place_of state.old) (arc_str_bytes name) (view value)) }
    ensures next { IfOk result (λ _. next_of state.new ≡ next_of state.old) }
    ensures kept { kept_of state.new ≡ kept_of state.old }
    ensures text { state.new.text ≡ state.old.text }
{
    state.place.locals.bind(name, value)?;
    state.frames.push_front(Frame::Unbind)?;
    Ok(())
}
