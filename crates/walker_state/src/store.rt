// Functions that ask the store: what a call of one leaves to be done, and what becomes of what they
// are answered.
#![tactic(auto, using(crate::proofs::Stepping::steps))]

ghost use Rattle.std.specs.Prelude.{◌≡◌, ◌<◌, IfOk};
ghost use Rattle.value_data.specs.Inside.View.{view, views};
ghost use Rattle.repl_asks.specs.Inside.View.{commute_view, name_view, permission_view};
ghost use Rattle.repl_asks.specs.Inside.View.{reading_view};
ghost use Rattle.evaluation_rules.specs.Calls.{commute_noted};
ghost use Rattle.evaluation_rules.specs.Refs.{ensured_read, held_value, permitted_value};
ghost use Rattle.evaluation_rules.specs.Refs.{put_value, read_value};
ghost use Rattle.evaluation_rules.specs.Refs.{call_data_at, store_call};
ghost use Rattle.evaluation_rules.specs.Inside.View.{call_view};
ghost use Rattle.walker_state.specs.UnderWay.{is_running};
ghost use Rattle.walker_state.specs.Pending.{from_state, tree};
ghost use Rattle.walker_state.specs.Position.{IsLater, LeadsOnWithin, control_position};
ghost use Rattle.walker_state.specs.Position.{wanted_position};
ghost use Rattle.walker_state.specs.declared.frames.State.{State};
ghost use Rattle.walker_state.specs.declared.frames.Wanted.{Wanted};

use crate::attempts::retry;
use crate::frames::{Control, State, Wanted};
use crate::refs::{ensure, note_commuted, note_ensured, note_read, read};
use core_functions::StoreFunction;
use evaluation_rules::{Call, Occasion, call_in_action, call_in_shared_text, may_hold};
use repl_asks::{Commute, Permission, Reading};
use repl_values::{RefName, Rule, Value, broken_rule, copy};
use std::alloc::{AllocError, Global};
use tx_attempt::SetError;

/// A call of a function that asks the store.
#[tactic(auto, using(crate::proofs::Stepping::steps), unfolding(evaluation_rules::specs::Refs::store_call))]
pub fn call_store(
    alloc: Global,
    state: &mut State,
    function: StoreFunction,
    values: Vec<Value>,
) -> Result<Control, AllocError>
    ensures on { IfOk result (LeadsOnWithin 3 state.old state.new) }
    ensures meaning { IfOk result (λ control. tree control state.new
        ≡ from_state (store_call function (views values.items)) state.old) }
{
    match take_apart(alloc, state, function, values)? {
        Call::Refused(fault) => Ok(Control::Fault(fault)),
        Call::Reads(name) => read(state, name),
        Call::Puts(name, value) => put(alloc, state, name, value),
        Call::Ensures(name) => ensure(state, name),
        Call::AsksValue(ask) => Ok(Control::Ask(ask, Wanted::Value)),
        Call::AsksPermission(ask, value) => Ok(Control::Ask(ask, Wanted::Permission(value))),
    }
}

// What the call comes to, before anybody is asked.
fn take_apart(
    alloc: Global,
    state: &State,
    function: StoreFunction,
    values: Vec<Value>,
) -> Result<Call, AllocError>
    ensures { IfOk result (λ call. call_view call ≡ call_data_at state.now.setting.occasion function
        (is_running state.now.transaction) (views values.items)) }
{
    let in_transaction = state.transaction.is_some();
    match state.setting.occasion {
        Occasion::Form => evaluation_rules::call(alloc, function, in_transaction, values),
        Occasion::SharedText => call_in_shared_text(alloc, function, values),
        Occasion::Action => call_in_action(alloc, function, in_transaction, values),
    }
}

// A ref is set, if an attempt runs, and the value given. One that was commuted is set no more.
fn put(alloc: Global, state: &mut State, name: RefName, value: Value) -> Result<Control, AllocError>
    ensures on { IfOk result (LeadsOnWithin 2 state.old state.new) }
    ensures meaning { IfOk result (λ control. tree control state.new
        ≡ from_state (put_value (name_view name) (view value)) state.old) }
{
    match state.transaction.take() {
        None => Ok(Control::Return(value)),
        Some(mut transaction) => {
            let outcome = transaction.attempt.set(name, copy(&value)?);
            state.transaction = Some(transaction);
            match outcome {
                Ok(()) => Ok(Control::Return(value)),
                Err(SetError::Commuted) => {
                    Ok(Control::Fault(broken_rule(alloc, Rule::NoSetAfterCommute)?))
                }
                Err(SetError::NoMemory) => Err(AllocError),
            }
        }
    }
}

/// What a function gave goes into a ref, if the ref may hold it.
#[tactic(auto, using(crate::proofs::Stepping::steps), unfolding(evaluation_rules::specs::Refs::held_value))]
pub fn hold(
    alloc: Global,
    state: &mut State,
    name: RefName,
    value: Value,
) -> Result<Control, AllocError>
    ensures on { IfOk result (LeadsOnWithin 2 state.old state.new) }
    ensures meaning { IfOk result (λ control. tree control state.new
        ≡ from_state (held_value (name_view name) (view value)) state.old) }
{
    if !may_hold(name, &value) {
        return Ok(Control::Fault(broken_rule(alloc, Rule::SharedRefsArePlain)?));
    }
    put(alloc, state, name, value)
}

/// What a function gave that was applied to the value of a ref: it is noted, and is to be made
/// again at the commit, if the ref may hold it.
pub fn commute(
    alloc: Global,
    state: &mut State,
    name: RefName,
    commute: Commute,
    value: Value,
) -> Result<Control, AllocError>
    ensures on { IfOk result (LeadsOnWithin 2 state.old state.new) }
    ensures meaning { IfOk result (λ control. tree control state.new
        ≡ from_state (commute_noted (name_view name) (commute_view commute) (view value))
        state.old) }
{
    if !may_hold(name, &value) {
        return Ok(Control::Fault(broken_rule(alloc, Rule::SharedRefsArePlain)?));
    }
    note_commuted(state, name, commute, &value)?;
    Ok(Control::Return(value))
}

/// The value of a ref, which the attempt notes. One that is kept no longer ends the attempt.
pub fn note_or_retry(
    alloc: Global,
    state: &mut State,
    name: RefName,
    reading: Reading,
) -> Result<Control, AllocError>
    ensures later { IfOk result (λ control. IsLater (control_position control state.new)
        (wanted_position (Wanted.Reading name) state.old)) }
    ensures meaning { IfOk result (λ control. tree control state.new
        ≡ from_state (read_value (name_view name) (reading_view reading)) state.old) }
{
    match reading {
        Reading::Found(value) => {
            note_read(state, name, &value)?;
            Ok(Control::Return(value))
        }
        Reading::Retry => retry(alloc, state),
    }
}

/// The same, of a ref that nobody else is to change.
pub fn ensure_or_retry(
    alloc: Global,
    state: &mut State,
    name: RefName,
    reading: Reading,
) -> Result<Control, AllocError>
    ensures later { IfOk result (λ control. IsLater (control_position control state.new)
        (wanted_position (Wanted.Ensuring name) state.old)) }
    ensures meaning { IfOk result (λ control. tree control state.new
        ≡ from_state (ensured_read (name_view name) (reading_view reading)) state.old) }
{
    match reading {
        Reading::Retry => {
            // As for a read: the body begins anew.
            retry(alloc, state)
        }
        Reading::Found(found) => {
            note_read(state, name, &found)?;
            note_ensured(state, name, &found)?;
            Ok(Control::Return(found))
        }
    }
}

/// The value, where what was asked is granted; else the fault for which it is denied.
pub fn permit(value: Value, permission: Permission) -> Control
    ensures on { (s : State) → LeadsOnWithin 2 s s result }
    ensures meaning { (s : State) → tree result s
        ≡ from_state (permitted_value (view value) (permission_view permission)) s }
{
    match permission {
        Permission::Granted => Control::Return(value),
        Permission::Denied(fault) => Control::Fault(fault),
    }
}
