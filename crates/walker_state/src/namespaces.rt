// The namespace in which an evaluation goes on.
#![tactic(auto, using(crate::proofs::Stepping::steps))]

ghost use Rattle.std.specs.Prelude.{◌≡◌, ◌<◌, IfOk};
ghost use Rattle.std.specs.Arc.{arc_str_bytes};
ghost use Rattle.value_data.specs.Datum.{nil};
ghost use Rattle.value_data.specs.Inside.View.{view};
ghost use Rattle.walker_state.specs.Pending.{kept_of, whole, next_of, from_state, tree};
ghost use Rattle.walker_state.specs.Size.{control_size};
ghost use Rattle.walker_state.specs.Position.{around, control_around, control_calls, LeadsOnWithin};
ghost use Rattle.evaluation_rules.specs.SpecialForms.{entry_value, computed_entry_value};
ghost use Rattle.walker_state.specs.declared.frames.State.{State};

use crate::frames::{Control, State, Wanted};
use repl_asks::{Ask, is_fixed};
use repl_values::{Value, copy_text, namespace_is_fixed, wrong_argument};
use special_forms::SpecialForm;
use std::alloc::{AllocError, Global};
use std::sync::ArcStr;

/// The namespace is asked for, unless it is the same for all.
#[tactic(auto, using(crate::proofs::Stepping::steps), unfolding(evaluation_rules::specs::SpecialForms::entry_value))]
pub fn enter_namespace(alloc: Global, name: ArcStr) -> Result<Control, AllocError>
    ensures on { IfOk result (λ control. (s : State) → LeadsOnWithin 3 s s control) }
    ensures meaning { IfOk result (λ control. (s : State) → tree control s
        ≡ from_state (entry_value (arc_str_bytes name)) s) }
{
    if is_fixed(name.as_str()) {
        let fault = namespace_is_fixed(alloc, name.as_str())?;
        return Ok(Control::Fault(fault));
    }
    let ask = Ask::Enter(copy_text(&name)?);
    Ok(Control::Ask(ask, Wanted::Namespace(name)))
}

/// `in-ns` takes the name that a symbol is.
#[tactic(auto, using(value_data::proofs::Views::value_views, crate::proofs::Stepping::steps))]
pub fn enter_named(alloc: Global, value: Value) -> Result<Control, AllocError>
    ensures on { IfOk result (λ control. (s : State) → LeadsOnWithin 3 s s control) }
    ensures meaning { IfOk result (λ control. (s : State) → tree control s
        ≡ from_state (computed_entry_value (view value)) s) }
{
    match value {
        Value::Symbol(name) => enter_namespace(alloc, name),
        other => {
            let fault = wrong_argument(alloc, SpecialForm::InNs.name(), &other)?;
            Ok(Control::Fault(fault))
        }
    }
}

/// The namespace is there: what follows is evaluated in it.
#[tactic(auto, using(value_data::proofs::Views::value_views, crate::proofs::Stepping::steps))]
pub fn go_on_in(state: &mut State, name: ArcStr) -> Control
    ensures size { control_size result ≡ 1 }
    ensures calls { control_calls result state.new ≡ state.old.calls }
    ensures around { control_around result state.new ≡ around state.old.transaction }
    ensures transaction { state.new.transaction ≡ state.old.transaction }
    ensures frames { state.new.frames ≡ state.old.frames }
    ensures budget { state.new.calls ≡ state.old.calls }
    ensures meaning { tree result state.new ≡ whole state.old (next_of state.old nil
        (record (kept_of state.old) { namespace = arc_str_bytes name })) }
{
    state.namespace = name;
    Control::Return(Value::Nil)
}
