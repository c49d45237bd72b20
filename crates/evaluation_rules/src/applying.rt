// Calls, by the functions that are called.
ghost use Rattle.std.specs.Prelude.{◌≡◌, ◌∷◌, true, option_map, vec_len, IfOk};
ghost use Rattle.value_data.specs.Inside.View.{view, views};
ghost use Rattle.core_functions.specs.StoreNames.{store_fits};
ghost use Rattle.repl_asks.specs.Inside.View.{name_view};
ghost use Rattle.repl_values.specs.Inside.FaultView.{Gives};
ghost use Rattle.evaluation_rules.specs.Calling as meant;
ghost use Rattle.evaluation_rules.specs.Inside.Parts.{bound_call, bound_set};
ghost use Rattle.evaluation_rules.specs.Inside.View.{call_view};

use crate::agents::{agent_call, agent_error_call, await_call, restart_agent_call, send_by_value};
use crate::altering::Alteration;
use crate::arguments::{atom_of, count_of, ref_of};
use crate::bounds::{HistoryBound, bounds_in};
use crate::outcome::Call;
use crate::rules::{is_shared, keep_to, may_hold};
use crate::sending::Dispatch;
use core_functions::StoreFunction;
use repl_asks::Ask;
use repl_values::{ApplyError, RefName, Rule, Value, broken_rule, wrong_argument, wrong_arity};
use std::alloc::{AllocError, Global};

/// What a call of the function with these values comes to, while a transaction runs or none does.
/// The number of values is checked first, then the kinds of all of them from the left, then the
/// rules of transactions, then those of shared refs. The values are taken and not copied; where a
/// shared ref is set, the new value is walked once. It fails only for want of memory.
#[tactic(auto, unfolding(crate::specs::Calling::call_data_of))]
pub fn call(
    alloc: Global,
    function: StoreFunction,
    in_transaction: bool,
    values: Vec<Value>,
) -> Result<Call, AllocError>
    ensures { IfOk result (λ call. call_view call
        ≡ meant.call_data_of function in_transaction (views values.items)) }
{
    if !function.takes(values.len()) {
        let fault = wrong_arity(alloc, function.name(), values.len())?;
        return Ok(Call::Refused(fault));
    }
    match call_with(alloc, function, in_transaction, values) {
        Ok(call) => Ok(call),
        Err(ApplyError::Fault(fault)) => Ok(Call::Refused(fault)),
        Err(ApplyError::NoMemory) => Err(AllocError),
    }
}

/// What it comes to in an action of an agent, where nothing is awaited. It fails only for want of
/// memory.
#[tactic(auto, unfolding(crate::specs::Calling::action_call_data_of))]
pub fn call_in_action(
    alloc: Global,
    function: StoreFunction,
    in_transaction: bool,
    values: Vec<Value>,
) -> Result<Call, AllocError>
    ensures { IfOk result (λ call. call_view call
        ≡ meant.action_call_data_of function in_transaction (views values.items)) }
{
    let call = call(alloc, function, in_transaction, values)?;
    refuse_awaiting(alloc, call)
}

fn refuse_awaiting(alloc: Global, call: Call) -> Result<Call, AllocError>
    ensures { IfOk result (λ allowed. call_view allowed ≡ meant.unless_awaited (call_view call)) }
{
    if let Call::AsksPermission(Ask::Await(_), _) = &call {
        return Ok(Call::Refused(broken_rule(alloc, Rule::NoAwaitInAction)?));
    }
    Ok(call)
}

#[tactic(auto, using(crate::proofs::Taken::calls))]
fn call_with(
    alloc: Global,
    function: StoreFunction,
    in_transaction: bool,
    mut values: Vec<Value>,
) -> Result<Call, ApplyError>
    requires { store_fits function (vec_len values) ≡ true }
    ensures { Gives call_view result
        (meant.call_with function in_transaction (views values.items)) }
{
    match function {
        StoreFunction::Ref => {
            let value = values.remove(0);
            ref_call(alloc, value, values.as_slice())
        }
        StoreFunction::Deref => deref_call(alloc, &values[0]),
        StoreFunction::RefSet => {
            let value = values.remove(1);
            ref_set_call(alloc, in_transaction, &values[0], value)
        }
        StoreFunction::Alter => alter_by_value(alloc, Alteration::Alter, &values[0], &values[1]),
        StoreFunction::Commute => {
            alter_by_value(alloc, Alteration::Commute, &values[0], &values[1])
        }
        StoreFunction::Ensure => ensure_call(alloc, in_transaction, &values[0]),
        StoreFunction::HistoryCount => history_count_call(alloc, in_transaction, &values[0]),
        StoreFunction::MinHistory => {
            bound_call(alloc, HistoryBound::Least, &values[0], values.get(1))
        }
        StoreFunction::MaxHistory => {
            bound_call(alloc, HistoryBound::Greatest, &values[0], values.get(1))
        }
        StoreFunction::Atom => atom_call(values.remove(0)),
        StoreFunction::Swap => swap_by_value(alloc, &values[0], &values[1]),
        StoreFunction::Reset => reset_call(alloc, values.remove(1), &values[0]),
        StoreFunction::CompareAndSet => {
            compare_and_set_call(alloc, values.remove(2), values.remove(1), &values[0])
        }
        StoreFunction::Agent => agent_call(values.remove(0)),
        StoreFunction::AgentError => agent_error_call(alloc, &values[0]),
        StoreFunction::RestartAgent => restart_agent_call(alloc, values.remove(1), &values[0]),
        StoreFunction::Send => send_by_value(alloc, Dispatch::Send, &values[0], &values[1]),
        StoreFunction::SendOff => send_by_value(alloc, Dispatch::SendOff, &values[0], &values[1]),
        StoreFunction::Await => await_call(alloc, in_transaction, values.as_slice()),
    }
}

// `(ref value option count ..)`
pub(crate) fn ref_call(alloc: Global, value: Value, options: &[Value]) -> Result<Call, ApplyError>
    ensures { Gives call_view result (meant.ref_call (view value ∷ views options.now)) }
{
    let bounds = bounds_in(alloc, options)?;
    Ok(Call::AsksValue(Ask::NewRef {
        value,
        min_history: bounds.least,
        max_history: bounds.most,
    }))
}

// `(deref ref)`, `(deref atom)` or `(deref agent)`
#[tactic(auto, using(value_data::proofs::Views::value_views))]
pub(crate) fn deref_call(alloc: Global, target: &Value) -> Result<Call, ApplyError>
    ensures { Gives call_view result (meant.deref_call (view target.now)) }
{
    match target {
        Value::Atom(number) => Ok(Call::AsksValue(Ask::ReadAtom(*number))),
        Value::Agent(number) => Ok(Call::AsksValue(Ask::ReadAgent(*number))),
        other => {
            let name = ref_of(alloc, StoreFunction::Deref, other)?;
            Ok(Call::Reads(name))
        }
    }
}

// `(ref-set ref value)`
fn ref_set_call(
    alloc: Global,
    in_transaction: bool,
    target: &Value,
    value: Value,
) -> Result<Call, ApplyError>
    ensures { Gives call_view result
        (meant.ref_set_call in_transaction (view target.now) (view value)) }
{
    let name = ref_of(alloc, StoreFunction::RefSet, target)?;
    keep_to(alloc, Rule::ATransactionRuns, in_transaction)?;
    keep_to(alloc, Rule::SharedRefsArePlain, may_hold(name, &value))?;
    Ok(Call::Puts(name, value))
}

// `(ensure ref)`
fn ensure_call(alloc: Global, in_transaction: bool, target: &Value) -> Result<Call, ApplyError>
    ensures { Gives call_view result (meant.ensure_call in_transaction (view target.now)) }
{
    let name = ref_of(alloc, StoreFunction::Ensure, target)?;
    keep_to(alloc, Rule::ATransactionRuns, in_transaction)?;
    Ok(Call::Ensures(name))
}

// `(alter ref value ..)` or `(commute ref value ..)`, where no function stands: one of the two is a
// wrong argument.
fn alter_by_value(
    alloc: Global,
    by: Alteration,
    target: &Value,
    function: &Value,
) -> Result<Call, ApplyError>
    ensures { Gives call_view result
        (meant.alter_by_value by (view target.now) (view function.now)) }
{
    let _name = ref_of(alloc, by.function(), target)?;
    let name = by.function().name();
    Err(ApplyError::Fault(wrong_argument(alloc, name, function)?))
}

// `(ref-history-count ref)`
fn history_count_call(
    alloc: Global,
    in_transaction: bool,
    target: &Value,
) -> Result<Call, ApplyError>
    ensures { Gives call_view result (meant.history_count_call in_transaction (view target.now)) }
{
    let name = ref_of(alloc, StoreFunction::HistoryCount, target)?;
    let is_told = !in_transaction || !is_shared(name);
    keep_to(alloc, Rule::SharedHistoryIsHidden, is_told)?;
    Ok(Call::AsksValue(Ask::History(name)))
}

// `(ref-min-history ref)` or `(ref-max-history ref)`, and where there is a count it is set.
fn bound_call(
    alloc: Global,
    bound: HistoryBound,
    target: &Value,
    count: Option<&Value>,
) -> Result<Call, ApplyError>
    ensures { Gives call_view result
        (bound_call bound (view target.now) (option_map (λ v. view v.now) count.entry)) }
{
    match count {
        None => tell_bound_call(alloc, bound, target),
        Some(count) => set_bound_call(alloc, bound, target, count),
    }
}

fn tell_bound_call(alloc: Global, bound: HistoryBound, target: &Value) -> Result<Call, ApplyError>
    ensures { Gives call_view result (meant.tell_bound_call bound (view target.now)) }
{
    let name = ref_of(alloc, bound.function(), target)?;
    Ok(Call::AsksValue(bound.ask(name, None)))
}

fn set_bound_call(
    alloc: Global,
    bound: HistoryBound,
    target: &Value,
    count: &Value,
) -> Result<Call, ApplyError>
    ensures { Gives call_view result
        (meant.set_bound_call bound (view target.now) (view count.now)) }
{
    let function = bound.function();
    let name = ref_of(alloc, function, target)?;
    let count = count_of(alloc, function, count)?;
    set_bound_of(alloc, bound, name, count)
}

// The bounds of a shared ref stay as they are.
fn set_bound_of(
    alloc: Global,
    bound: HistoryBound,
    name: RefName,
    count: u64,
) -> Result<Call, ApplyError>
    ensures { Gives call_view result
        (bound_set bound (name_view name) count) }
{
    keep_to(alloc, Rule::SharedBoundsStay, !is_shared(name))?;
    Ok(Call::AsksValue(bound.ask(name, Some(count))))
}

// `(atom value)`
fn atom_call(value: Value) -> Result<Call, ApplyError>
    ensures { Gives call_view result (meant.atom_call (view value)) }
{
    Ok(Call::AsksValue(Ask::NewAtom(value)))
}

// `(swap! atom value ..)`, where no function stands: one of the two is a wrong argument.
fn swap_by_value(alloc: Global, target: &Value, function: &Value) -> Result<Call, ApplyError>
    ensures { Gives call_view result
        (meant.swap_by_value (view target.now) (view function.now)) }
{
    let _number = atom_of(alloc, StoreFunction::Swap, target)?;
    let name = StoreFunction::Swap.name();
    Err(ApplyError::Fault(wrong_argument(alloc, name, function)?))
}

// `(reset! atom value)`
fn reset_call(alloc: Global, value: Value, target: &Value) -> Result<Call, ApplyError>
    ensures { Gives call_view result (meant.reset_call (view target.now) (view value)) }
{
    let number = atom_of(alloc, StoreFunction::Reset, target)?;
    Ok(Call::AsksValue(Ask::SetAtom { number, value }))
}

// `(compare-and-set! atom seen next)`
fn compare_and_set_call(
    alloc: Global,
    next: Value,
    seen: Value,
    target: &Value,
) -> Result<Call, ApplyError>
    ensures { Gives call_view result
        (meant.compare_and_set_call (view target.now) (view seen) (view next)) }
{
    let number = atom_of(alloc, StoreFunction::CompareAndSet, target)?;
    Ok(Call::AsksValue(Ask::TryAtom { number, seen, next }))
}
