// Functions of the language that need no store: the number of arguments is checked, then the
// function is applied, and what it prints is printed.
ghost use Rattle.std.specs.Prelude.{◌≡◌, ◌<◌, true, length, IfOk};
ghost use Rattle.core_functions.specs.Names.{fits};
ghost use Rattle.core_functions.specs.Meaning.{meaning};
ghost use Rattle.evaluation_rules.specs.SharedText.{outside_shared_text};
ghost use Rattle.core_functions.specs.ApplyOutcome.{ApplyOutcome, bounded_outcome};
ghost use Rattle.core_functions.specs.Inside.View.{FailsIn};
ghost use Rattle.value_data.specs.Inside.View.{view, views};
ghost use Rattle.evaluation_rules.specs.Applying.{printed_value, outcome, prints, core_applied};
ghost use Rattle.evaluation_rules.specs.Applying.{core_call};
ghost use Rattle.walker_state.specs.Pending.{from_state, tree};
ghost use Rattle.walker_state.specs.Position.{LeadsOnWithin};

use crate::frames::{Control, State};
use core_functions::{Applied, CoreFunction, apply};
use repl_values::{ApplyError, MOST_TEXT, Rule, Value, broken_rule, output_too_long, wrong_arity};
use std::alloc::{AllocError, Global};

/// A call of a function of the language that needs no store.
#[tactic(auto, using(crate::proofs::Stepping::steps), unfolding(evaluation_rules::specs::Applying::core_call))]
pub fn call_core(
    alloc: Global,
    state: &mut State,
    function: CoreFunction,
    values: &[Value],
) -> Result<Control, AllocError>
    ensures on { IfOk result (LeadsOnWithin 2 state.old state.new) }
    ensures meaning { IfOk result (λ control. tree control state.new
        ≡ from_state (core_call function (views values.now)) state.old) }
{
    if !function.takes(values.len()) {
        let fault = wrong_arity(alloc, function.name(), values.len())?;
        return Ok(Control::Fault(fault));
    }
    apply_core(alloc, state, function, values)
}

// What is printed, others see.
#[tactic(auto, unfolding(evaluation_rules::specs::Applying::core_applied))]
fn apply_core(
    alloc: Global,
    state: &mut State,
    function: CoreFunction,
    values: &[Value],
) -> Result<Control, AllocError>
    requires { fits function (length values.now) ≡ true }
    ensures on { IfOk result (LeadsOnWithin 2 state.old state.new) }
    ensures meaning { IfOk result (λ control. tree control state.new
        ≡ from_state (core_applied function (views values.now)) state.old) }
{
    if prints(function) {
        return apply_outside(alloc, state, function, values);
    }
    apply_any(alloc, state, function, values)
}

// In the text of the shared namespace nothing is printed.
#[tactic(auto, using(crate::proofs::Stepping::steps), unfolding(evaluation_rules::specs::SharedText::outside_shared_text))]
fn apply_outside(
    alloc: Global,
    state: &mut State,
    function: CoreFunction,
    values: &[Value],
) -> Result<Control, AllocError>
    requires { fits function (length values.now) ≡ true }
    ensures on { IfOk result (LeadsOnWithin 2 state.old state.new) }
    ensures meaning { IfOk result (λ control. tree control state.new
        ≡ from_state (outside_shared_text (outcome (meaning function (views values.now))))
        state.old) }
{
    if state.setting.occasion.is_shared_text() {
        return Ok(Control::Fault(broken_rule(alloc, Rule::SharedTextDefinesAlone)?));
    }
    apply_any(alloc, state, function, values)
}

#[tactic(auto, using(crate::proofs::Stepping::steps, crate::proofs::Printing::bounds))]
fn apply_any(
    alloc: Global,
    state: &mut State,
    function: CoreFunction,
    values: &[Value],
) -> Result<Control, AllocError>
    requires { fits function (length values.now) ≡ true }
    ensures on { IfOk result (LeadsOnWithin 2 state.old state.new) }
    ensures meaning { IfOk result (λ control. tree control state.new
        ≡ from_state (outcome (meaning function (views values.now))) state.old) }
{
    match apply(alloc, function, values) {
        Ok(applied) => {
            let Applied { value, text } = applied;
            print(alloc, state, text.as_str(), value)
        }
        Err(error) => fault_control(error),
    }
}

fn prints(function: CoreFunction) -> bool
    ensures { result ≡ prints function }
{
    match function {
        CoreFunction::Print(_) => true,
        CoreFunction::Integer(_)
        | CoreFunction::Predicate(_)
        | CoreFunction::Text(_)
        | CoreFunction::Sequence(_)
        | CoreFunction::Map(_) => false,
    }
}

// The fault of a function ends the evaluation.
fn fault_control(error: ApplyError) -> Result<Control, AllocError>
    ensures on { IfOk result (λ control. (s : State) → LeadsOnWithin 2 s s control) }
    ensures meaning { (o : ApplyOutcome) → FailsIn (bounded_outcome o) error
        → IfOk result (λ control. (s : State) → tree control s ≡ from_state (outcome o) s) }
{
    match error {
        ApplyError::Fault(fault) => Ok(Control::Fault(fault)),
        ApplyError::NoMemory => Err(AllocError),
    }
}

// The value, with this text printed. Text that would pass the limit is not printed at all.
#[tactic(auto, using(crate::proofs::Stepping::steps), unfolding(evaluation_rules::specs::Applying::printed_value))]
fn print(alloc: Global, state: &mut State, text: &str, value: Value) -> Result<Control, AllocError>
    ensures on { IfOk result (LeadsOnWithin 2 state.old state.new) }
    ensures meaning { IfOk result (λ control. tree control state.new
        ≡ from_state (printed_value text.now (view value)) state.old) }
{
    if state.text.len().saturating_add(text.len()) > MOST_TEXT {
        return Ok(Control::Fault(output_too_long(alloc)?));
    }
    state.text.push_str(text)?;
    Ok(Control::Return(value))
}
