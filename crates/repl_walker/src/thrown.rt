// What `throw` throws.
ghost use Rattle.std.specs.Prelude.{◌≡◌, ◌<◌, string_bytes, IfOk};
ghost use Rattle.value_data.specs.Inside.View.{view};
ghost use Rattle.repl_values.specs.Inside.FaultView.{failure_of};
ghost use Rattle.walker_state.specs.Pending.{from_state, tree};
ghost use Rattle.walker_state.specs.declared.frames.State.{State};
ghost use Rattle.walker_state.specs.Position.{LeadsOnWithin};
ghost use Rattle.evaluation_rules.specs.SpecialForms.{thrown_failure, thrown_value};

use core_scalars::show_into;
use repl_values::{Fault, MOST_WEIGHT, Value, thrown_text, too_large};
use std::alloc::{AllocError, Global};
use walker_state::Control;

// A fault is thrown as it is, any other value by its text. It fails only for want of memory.
#[tactic(auto, using(value_data::proofs::Views::value_views, walker_state::proofs::Stepping::steps))]
pub(crate) fn throw(alloc: Global, value: Value) -> Result<Control, AllocError>
    ensures on { IfOk result (λ control. (s : State) → LeadsOnWithin 2 s s control) }
    ensures meaning { IfOk result (λ control. (s : State)
        → tree control s ≡ from_state (thrown_value (view value)) s) }
{
    match value {
        Value::Fault { class, text } => Ok(Control::Fault(Fault { class, text })),
        other => {
            let mut text = String::new(alloc);
            show_into(alloc, &other, &mut text)?;
            Ok(Control::Fault(thrown_fault(alloc, text)?))
        }
    }
}

// The text has to be one that a value may have.
#[tactic(auto, using(walker_state::proofs::Stepping::steps), unfolding(evaluation_rules::specs::SpecialForms::thrown_failure))]
fn thrown_fault(alloc: Global, text: String) -> Result<Fault, AllocError>
    ensures { IfOk result (λ fault. failure_of fault ≡ thrown_failure (string_bytes text)) }
{
    if (text.len() as u64) < MOST_WEIGHT {
        return thrown_text(alloc, text);
    }
    too_large(alloc)
}
