// Definitions: a name is bound in a namespace, unless that is refused.
#![tactic(auto, using(walker_state::proofs::Stepping::steps))]

ghost use Rattle.std.specs.Prelude.{◌≡◌, ◌<◌, map, IfOk};
ghost use Rattle.std.specs.Arc.{arc_str_bytes};
ghost use Rattle.repl_asks.specs.Inside.View.{binding_view};
ghost use Rattle.walker_state.specs.Pending.{from_state, place_of, tree};
ghost use Rattle.special_forms.specs.Inside.Seen.{forms_view};
ghost use Rattle.walker_state.specs.Position.{LeadsOnWithin};
ghost use Rattle.evaluation_rules.specs.SpecialForms.{definition_value, function_defined};
ghost use Rattle.walker_state.specs.declared.frames.State.{State};

use crate::names::space;
use repl_asks::{Ask, Binding};
use repl_values::{Value, copy_text};
use special_forms::{Forms, Function};
use std::alloc::{AllocError, Global};
use std::sync::{Arc, ArcStr};
use walker_state::{Control, State, Wanted, refuse_definition};

pub(crate) fn define_function(
    alloc: Global,
    state: &State,
    name: ArcStr,
    params: Vec<ArcStr>,
    body: Forms,
) -> Result<Control, AllocError>
    ensures on { IfOk result (λ control. (s : State) → LeadsOnWithin 3 s s control) }
    ensures meaning { IfOk result (λ control. tree control state.now
        ≡ from_state (function_defined (place_of state.now) (arc_str_bytes name)
        (map arc_str_bytes params.items) (forms_view body)) state.now) }
{
    let function = Function {
        space: space(state)?,
        name: copy_text(&name)?,
        params,
        body,
    };
    let function = Arc::new(alloc, function)?;
    define(alloc, state, name, Binding::Function(function))
}

/// Binds the name in the form's namespace, unless that is refused. The form's value is the var. It
/// fails only for want of memory.
#[tactic(auto, using(value_data::proofs::Views::value_views, walker_state::proofs::Stepping::steps), unfolding(evaluation_rules::specs::SpecialForms::definition_value))]
pub fn define(
    alloc: Global,
    state: &State,
    name: ArcStr,
    binding: Binding,
) -> Result<Control, AllocError>
    ensures on { IfOk result (λ control. (s : State) → LeadsOnWithin 3 s s control) }
    ensures meaning { IfOk result (λ control. tree control state.now
        ≡ from_state (definition_value (place_of state.now) (arc_str_bytes name)
        (binding_view binding)) state.now) }
{
    let namespace = space(state)?;
    let occasion = state.setting.occasion;
    if let Some(fault) = refuse_definition(alloc, occasion, namespace.as_str(), &binding)? {
        return Ok(Control::Fault(fault));
    }
    let var = Value::Var {
        space: copy_text(&namespace)?,
        name: copy_text(&name)?,
    };
    let ask = Ask::Define {
        namespace,
        name,
        binding,
    };
    Ok(Control::Ask(ask, Wanted::Completion(var)))
}
