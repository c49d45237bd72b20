// The attempt that runs: what it knows of refs, and what it notes.
ghost use Rattle.std.specs.Prelude.{◌≡◌, ◌<◌, ◌≤◌, IfOk, option_map};
ghost use Rattle.value_data.specs.Inside.View.{view};
ghost use Rattle.repl_asks.specs.Inside.View.{commute_view, name_view, sending_view};
ghost use Rattle.repl_asks.specs.Accesses.{got, commuted, ensured, sent, attempt_value};
ghost use Rattle.evaluation_rules.specs.Doing.{Doing, noting};
ghost use Rattle.evaluation_rules.specs.Refs.{ref_value, ensured_value};
ghost use Rattle.walker_state.specs.Pending as machine;
ghost use Rattle.walker_state.specs.Pending.{from_state, tree};
ghost use Rattle.walker_state.specs.UnderWay.{so_far};
ghost use Rattle.walker_state.specs.Size.{control_size};
ghost use Rattle.walker_state.specs.Position.{around, control_around, control_calls, LeadsOnWithin};

use crate::frames::{Control, State, Wanted};
use repl_asks::{Ask, Commute, Sending};
use repl_values::{RefName, Value, copy};
use std::alloc::AllocError;

/// The value of a ref: the one that the attempt knows, else one that is asked for.
#[tactic(auto, using(crate::proofs::Stepping::steps))]
pub fn read(state: &State, name: RefName) -> Result<Control, AllocError>
    ensures size { IfOk result (λ control. control_size control < 3) }
    ensures calls { IfOk result (λ control. control_calls control state.now ≤ state.now.calls) }
    ensures around { IfOk result (λ control. control_around control state.now
        ≡ around state.now.transaction) }
    ensures meaning { IfOk result (λ control. tree control state.now
        ≡ from_state (ref_value (name_view name)) state.now) }
{
    match &state.transaction {
        None => Ok(Control::Ask(Ask::Read(name), Wanted::Reading(name))),
        Some(transaction) => match transaction.attempt.value_of(name) {
            Some(value) => Ok(Control::Return(copy(value)?)),
            None => Ok(Control::Ask(Ask::Read(name), Wanted::Reading(name))),
        },
    }
}

/// Notes the value of a ref that was read, if an attempt runs.
#[tactic(auto, using(crate::proofs::Stepping::steps))]
pub(crate) fn note_read(state: &mut State, name: RefName, value: &Value) -> Result<(), AllocError>
    ensures frames { IfOk result (λ _. state.new.frames ≡ state.old.frames) }
    ensures place { IfOk result (λ _. machine.place_of state.new ≡ machine.place_of state.old) }
    ensures calls { IfOk result (λ _. state.new.calls ≡ state.old.calls) }
    ensures around { IfOk result (λ _. around state.new.transaction
        ≡ around state.old.transaction) }
    ensures kept { IfOk result (λ _. machine.kept_of state.new ≡ machine.kept_of state.old) }
    ensures noted { IfOk result (λ _. (d : Doing) → machine.whole state.new d
        ≡ machine.whole state.old (noting (got (name_view name) (view value.now)) d)) }
{
    match state.transaction.take() {
        None => Ok(()),
        Some(mut transaction) => {
            transaction.attempt.note_read(name, copy(value)?)?;
            state.transaction = Some(transaction);
            Ok(())
        }
    }
}

/// The value of a ref that nobody else is to change: the one that the attempt knows, else one that
/// is asked for.
#[tactic(auto, using(crate::proofs::Stepping::steps), unfolding(evaluation_rules::specs::Refs::ensured_value))]
pub(crate) fn ensure(state: &mut State, name: RefName) -> Result<Control, AllocError>
    ensures on { IfOk result (LeadsOnWithin 3 state.old state.new) }
    ensures meaning { IfOk result (λ control. tree control state.new
        ≡ from_state (ensured_value (name_view name)) state.old) }
{
    match known(state, name)? {
        Some(value) => {
            note_ensured(state, name, &value)?;
            Ok(Control::Return(value))
        }
        None => Ok(Control::Ask(Ask::Read(name), Wanted::Ensuring(name))),
    }
}

// The value that the attempt knows, if one runs.
#[tactic(auto, unfolding(repl_asks::specs::Accesses::attempt_value))]
fn known(state: &State, name: RefName) -> Result<Option<Value>, AllocError>
    ensures { IfOk result (λ known. option_map view known
        ≡ attempt_value (name_view name) (so_far state.now.transaction)) }
{
    match &state.transaction {
        None => Ok(None),
        Some(transaction) => match transaction.attempt.value_of(name) {
            Some(value) => Ok(Some(copy(value)?)),
            None => Ok(None),
        },
    }
}

/// Notes that nobody else is to change a ref, which has this value, if an attempt runs.
#[tactic(auto, using(crate::proofs::Stepping::steps))]
pub(crate) fn note_ensured(
    state: &mut State,
    name: RefName,
    value: &Value,
) -> Result<(), AllocError>
    ensures frames { IfOk result (λ _. state.new.frames ≡ state.old.frames) }
    ensures place { IfOk result (λ _. machine.place_of state.new ≡ machine.place_of state.old) }
    ensures calls { IfOk result (λ _. state.new.calls ≡ state.old.calls) }
    ensures around { IfOk result (λ _. around state.new.transaction
        ≡ around state.old.transaction) }
    ensures kept { IfOk result (λ _. machine.kept_of state.new ≡ machine.kept_of state.old) }
    ensures noted { IfOk result (λ _. (d : Doing) → machine.whole state.new d
        ≡ machine.whole state.old (noting (ensured (name_view name) (view value.now)) d)) }
{
    match state.transaction.take() {
        None => Ok(()),
        Some(mut transaction) => {
            transaction.attempt.ensure(name, copy(value)?)?;
            state.transaction = Some(transaction);
            Ok(())
        }
    }
}

/// Notes what was applied to the value of a ref, and what it gave, if an attempt runs.
#[tactic(auto, using(crate::proofs::Stepping::steps))]
pub(crate) fn note_commuted(
    state: &mut State,
    name: RefName,
    commute: Commute,
    value: &Value,
) -> Result<(), AllocError>
    ensures frames { IfOk result (λ _. state.new.frames ≡ state.old.frames) }
    ensures place { IfOk result (λ _. machine.place_of state.new ≡ machine.place_of state.old) }
    ensures calls { IfOk result (λ _. state.new.calls ≡ state.old.calls) }
    ensures around { IfOk result (λ _. around state.new.transaction
        ≡ around state.old.transaction) }
    ensures kept { IfOk result (λ _. machine.kept_of state.new ≡ machine.kept_of state.old) }
    ensures noted { IfOk result (λ _. (d : Doing) → machine.whole state.new d
        ≡ machine.whole state.old (noting
        (commuted (name_view name) (commute_view commute) (view value.now)) d)) }
{
    match state.transaction.take() {
        None => Ok(()),
        Some(mut transaction) => {
            transaction.attempt.commute(name, commute, copy(value)?)?;
            state.transaction = Some(transaction);
            Ok(())
        }
    }
}

/// Notes what is sent to an agent, if an attempt runs.
#[tactic(auto, using(crate::proofs::Stepping::steps))]
pub(crate) fn note_sent(state: &mut State, sending: Sending) -> Result<(), AllocError>
    ensures frames { IfOk result (λ _. state.new.frames ≡ state.old.frames) }
    ensures place { IfOk result (λ _. machine.place_of state.new ≡ machine.place_of state.old) }
    ensures calls { IfOk result (λ _. state.new.calls ≡ state.old.calls) }
    ensures around { IfOk result (λ _. around state.new.transaction
        ≡ around state.old.transaction) }
    ensures kept { IfOk result (λ _. machine.kept_of state.new ≡ machine.kept_of state.old) }
    ensures noted { IfOk result (λ _. (d : Doing) → machine.whole state.new d
        ≡ machine.whole state.old (noting (sent (sending_view sending)) d)) }
{
    match state.transaction.take() {
        None => Ok(()),
        Some(mut transaction) => {
            transaction.attempt.hold_send(sending)?;
            state.transaction = Some(transaction);
            Ok(())
        }
    }
}
