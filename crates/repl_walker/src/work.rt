// What the work of a job begins with.
#![tactic(auto, using(walker_state::proofs::Stepping::steps))]

ghost use Rattle.std.specs.Prelude.{◌≡◌, ◌≤◌, IfOk};
ghost use Rattle.value_data.specs.Inside.View.{view};
ghost use Rattle.repl_asks.specs.Inside.Jobs.{work_view};
ghost use Rattle.repl_asks.specs.Inside.View.{task_view};
ghost use Rattle.evaluation_rules.specs.Evaluation.{action_value, shared_form_value, work_value};
ghost use Rattle.evaluation_rules.specs.Places.{outside};
ghost use Rattle.walker_state.specs.Pending.{from_state, place_of, tree};
ghost use Rattle.walker_state.specs.Position.{around, control_around, control_calls};
ghost use Rattle.walker_state.specs.Position.{LeadsOnWithin};
ghost use Rattle.walker_state.specs.declared.frames.State.{State};

use evaluation_rules::ROOM;
use repl_asks::{Task, Work};
use repl_values::{Value, bad_form, copy, copy_items};
use std::alloc::{AllocError, Global};
use walker_machine::call_named;
use walker_state::{Control, State, is_definition};

// The work begins outside of functions.
pub(crate) fn begin_work(
    alloc: Global,
    state: &mut State,
    work: &Work,
) -> Result<Control, AllocError>
    ensures calls { IfOk result (λ control. control_calls control state.new ≤ state.old.calls) }
    ensures around { IfOk result (λ control. control_around control state.new
        ≡ around state.old.transaction) }
    ensures meaning { IfOk result (λ control. place_of state.old ≡ outside
        → tree control state.new ≡ from_state (work_value (work_view work.now)) state.old) }
{
    match work {
        Work::Form(form) => Ok(Control::Evaluate(copy(form)?, ROOM)),
        Work::SharedForm(form) => begin_shared_form(alloc, form),
        Work::Action(agent_state, task) => begin_action(alloc, state, agent_state, task),
    }
}

// What was sent to an agent is called with the agent's state, in front of what came with it.
#[tactic(auto, using(walker_state::proofs::Stepping::steps), unfolding(evaluation_rules::specs::Evaluation::action_value))]
fn begin_action(
    alloc: Global,
    state: &mut State,
    agent_state: &Value,
    task: &Task,
) -> Result<Control, AllocError>
    ensures on { IfOk result (LeadsOnWithin 3 state.old state.new) }
    ensures meaning { IfOk result (λ control. tree control state.new
        ≡ from_state (action_value (view agent_state.now) (task_view task.now)) state.old) }
{
    let mut values = copy_items(alloc, &task.arguments)?;
    values.insert(0, copy(agent_state)?)?;
    call_named(alloc, state, task.function.copy()?, values, ROOM)
}

// The text of the shared namespace consists of definitions.
#[tactic(auto, using(walker_state::proofs::Stepping::steps), unfolding(evaluation_rules::specs::Evaluation::shared_form_value))]
fn begin_shared_form(alloc: Global, form: &Value) -> Result<Control, AllocError>
    ensures calls { IfOk result (λ control. (s : State) → control_calls control s ≤ s.calls) }
    ensures around { IfOk result (λ control. (s : State)
        → control_around control s ≡ around s.transaction) }
    ensures meaning { IfOk result (λ control. (s : State) → place_of s ≡ outside
        → tree control s ≡ from_state (shared_form_value (view form.now)) s) }
{
    if !is_definition(form) {
        return Ok(Control::Fault(bad_form(alloc, "shared")?));
    }
    Ok(Control::Evaluate(copy(form)?, ROOM))
}
