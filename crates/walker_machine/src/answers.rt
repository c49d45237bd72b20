// An answer goes to what it was wanted for.
#![tactic(auto, using(walker_state::proofs::Stepping::steps))]

ghost use Rattle.std.specs.Prelude.{◌≡◌, ◌+◌, ◌<◌, IfOk};
ghost use Rattle.std.specs.Arc.{arc_str_bytes};
ghost use Rattle.repl_asks.specs.Inside.View.{answer_view, named_view, resolution_view};
ghost use Rattle.special_forms.specs.Inside.Seen.{forms_view};
ghost use Rattle.special_forms.specs.Inside.Size.{forms_size};
ghost use Rattle.evaluation_rules.specs.Calls.{named_call};
ghost use Rattle.evaluation_rules.specs.Evaluation.{value_at};
ghost use Rattle.walker_state.specs.Pending.{tree_with_answer, value_for_use, resolved_call};
ghost use Rattle.walker_state.specs.Pending.{from_state, place_of, tree};
ghost use Rattle.evaluation_rules.specs.Naming.{as_value};
ghost use Rattle.walker_state.specs.declared.frames.State.{State};
ghost use Rattle.walker_state.specs.declared.frames.SymbolUse.{SymbolUse};
ghost use Rattle.walker_state.specs.declared.frames.Wanted.{Wanted};
ghost use Rattle.walker_state.specs.Size.{use_size};
ghost use Rattle.walker_state.specs.Position.{IsLater, LeadsOnWithin, control_position};
ghost use Rattle.walker_state.specs.Position.{wanted_position};

use crate::rows::next_argument;
use crate::swap::call_seen;
use crate::update::begin_update;
use core_functions::StoreFunction;
use evaluation_rules::{Alteration, Dispatch, Update};
use repl_asks::{Answer, NamedFunction, Resolution};
use repl_values::{Value, not_a_function, not_a_value};
use special_forms::Forms;
use std::alloc::{AllocError, Global};
use std::boxed::Box;
use std::sync::ArcStr;
use walker_state::{
    Callee, Control, State, SymbolUse, Wanted, begin_attempt, ensure_or_retry, go_on_in,
    note_or_retry, permit, settle, settle_send, settle_swap,
};

/// The answer goes to what it was wanted for. It fails only for want of memory.
pub fn use_answer(
    alloc: Global,
    state: &mut State,
    wanted: Wanted,
    answer: Answer,
) -> Result<Control, AllocError>
    ensures later { IfOk result (λ control.
        IsLater (control_position control state.new) (wanted_position wanted state.old)) }
    ensures meaning { IfOk result (λ control. tree control state.new
        ≡ tree_with_answer wanted (answer_view answer) state.old) }
{
    match wanted {
        Wanted::Resolution(purpose) => {
            use_resolution(alloc, state, purpose, answer.into_resolution())
        }
        Wanted::Completion(value) => Ok(Control::Return(value)),
        Wanted::Namespace(name) => Ok(go_on_in(state, name)),
        Wanted::Value => Ok(Control::Return(answer.into_value())),
        Wanted::Permission(value) => Ok(permit(value, answer.into_permission())),
        Wanted::Sending(sending) => settle_send(state, sending, answer.into_permission()),
        Wanted::Reading(name) => note_or_retry(alloc, state, name, answer.into_reading()),
        Wanted::Ensuring(name) => ensure_or_retry(alloc, state, name, answer.into_reading()),
        Wanted::Seen(swap) => call_seen(alloc, state, Box::into_inner(swap), answer.into_value()),
        Wanted::Tried(swap, next) => {
            settle_swap(alloc, Box::into_inner(swap), next, answer.into_value())
        }
        Wanted::Begin(transaction) => begin_attempt(alloc, state, transaction),
        Wanted::Verdict(value, transaction) => {
            settle(alloc, state, value, transaction, answer.into_verdict())
        }
    }
}

pub(crate) fn use_resolution(
    alloc: Global,
    state: &mut State,
    purpose: SymbolUse,
    resolution: Resolution,
) -> Result<Control, AllocError>
    ensures on { IfOk result (LeadsOnWithin (use_size purpose) state.old state.new) }
    ensures meaning { IfOk result (λ control. tree control state.new
        ≡ from_state (value_for_use (place_of state.old) purpose (resolution_view resolution))
        state.old) }
{
    match purpose {
        SymbolUse::Value(symbol) => use_as_value(alloc, symbol, resolution),
        SymbolUse::Head(forms, room) => use_as_head(alloc, state, forms, room, resolution),
        SymbolUse::Update(by, target, forms, room) => {
            use_in_update(alloc, state, by, target, forms, room, resolution)
        }
    }
}

// The symbol stands in a value's place.
fn use_as_value(
    alloc: Global,
    symbol: ArcStr,
    resolution: Resolution,
) -> Result<Control, AllocError>
    ensures on { IfOk result (λ control. (s : State) → LeadsOnWithin 2 s s control) }
    ensures meaning { IfOk result (λ control. (s : State) → tree control s
        ≡ from_state (as_value (arc_str_bytes symbol) (resolution_view resolution)) s) }
{
    match resolution {
        Resolution::Value(value) => Ok(Control::Return(value)),
        Resolution::Function(_) => Ok(Control::Fault(not_a_value(alloc, symbol.as_str())?)),
        Resolution::Nothing(fault) => Ok(Control::Fault(fault)),
    }
}

// The symbol stands at the head of a list, with these forms behind it.
fn use_as_head(
    alloc: Global,
    state: &mut State,
    forms: Forms,
    room: u32,
    resolution: Resolution,
) -> Result<Control, AllocError>
    ensures on { IfOk result
        (LeadsOnWithin (6 + forms_size (forms_view forms)) state.old state.new) }
    ensures meaning { IfOk result (λ control. tree control state.new
        ≡ from_state (resolved_call room (place_of state.old) (forms_view forms)
        (resolution_view resolution)) state.old) }
{
    match resolution {
        Resolution::Function(function) => begin_call(alloc, state, function, forms, room),
        Resolution::Value(value) => Ok(Control::Fault(not_a_function(alloc, &value)?)),
        Resolution::Nothing(fault) => Ok(Control::Fault(fault)),
    }
}

// The symbol stands in the place of the function of `alter`, `commute`, `swap!`, `send` or
// `send-off`, behind this value and before these forms.
fn use_in_update(
    alloc: Global,
    state: &mut State,
    by: Update,
    target: Value,
    forms: Forms,
    room: u32,
    resolution: Resolution,
) -> Result<Control, AllocError>
    ensures on { IfOk result
        (LeadsOnWithin (6 + forms_size (forms_view forms)) state.old state.new) }
    ensures meaning { IfOk result (λ control. tree control state.new
        ≡ from_state (value_for_use (place_of state.old) (SymbolUse.Update by target forms room)
        (resolution_view resolution)) state.old) }
{
    match resolution {
        Resolution::Function(function) => {
            let mut values = Vec::new(alloc);
            values.push(target)?;
            let callee = Callee::Update(by, function);
            next_argument(alloc, state, callee, values, forms, room)
        }
        Resolution::Value(value) => Ok(Control::Fault(not_a_function(alloc, &value)?)),
        Resolution::Nothing(fault) => Ok(Control::Fault(fault)),
    }
}

// No argument has its value yet.
fn begin_call(
    alloc: Global,
    state: &mut State,
    function: NamedFunction,
    forms: Forms,
    room: u32,
) -> Result<Control, AllocError>
    ensures on { IfOk result
        (LeadsOnWithin (6 + forms_size (forms_view forms)) state.old state.new) }
    ensures meaning { IfOk result (λ control. tree control state.new
        ≡ from_state (named_call (value_at room) (place_of state.old) (forms_view forms)
        (named_view function)) state.old) }
{
    match function {
        NamedFunction::Store(StoreFunction::Alter) => {
            begin_update(alloc, state, Update::Ref(Alteration::Alter), forms, room)
        }
        NamedFunction::Store(StoreFunction::Commute) => {
            begin_update(alloc, state, Update::Ref(Alteration::Commute), forms, room)
        }
        NamedFunction::Store(StoreFunction::Swap) => {
            begin_update(alloc, state, Update::Atom, forms, room)
        }
        NamedFunction::Store(StoreFunction::Send) => {
            begin_update(alloc, state, Update::Agent(Dispatch::Send), forms, room)
        }
        NamedFunction::Store(StoreFunction::SendOff) => {
            begin_update(alloc, state, Update::Agent(Dispatch::SendOff), forms, room)
        }
        other => {
            let callee = Callee::Named(other);
            next_argument(alloc, state, callee, Vec::new(alloc), forms, room)
        }
    }
}
