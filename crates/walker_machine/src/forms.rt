// The first step of a form's evaluation.
#![tactic(auto, using(walker_state::proofs::Stepping::steps))]

ghost use Rattle.std.specs.Prelude.{◌≡◌, ◌+◌, ◌*◌, ◌<◌, IfOk};
ghost use Rattle.std.specs.Arc.{arc_str_bytes};
ghost use Rattle.value_data.specs.Listed.{listed};
ghost use Rattle.value_data.specs.Inside.View.{view};
ghost use Rattle.walker_state.specs.Pending.{place_of, from_state, tree};
ghost use Rattle.walker_state.specs.Frames.{items_value, list_at};
ghost use Rattle.walker_state.specs.Pending.{symbol_for_use};
ghost use Rattle.special_forms.specs.Inside.Seen.{forms_view};
ghost use Rattle.special_forms.specs.Names.{special_named};
ghost use Rattle.special_forms.specs.Inside.Size.{datum_size, forms_size};
ghost use Rattle.walker_state.specs.Size.{use_size};
ghost use Rattle.walker_state.specs.Position.{LeadsOnWithin};
ghost use Rattle.evaluation_rules.specs.Evaluation.{headed_value, list_value, value_at};

use crate::answers::use_resolution;
use crate::names::{look_up, resolve};
use crate::rows::{next_argument, next_item};
use crate::special::evaluate_special;
use repl_values::{Sequence, Value, copy_text, not_a_function, too_deep};
use special_forms::{Forms, SpecialForm};
use std::alloc::{AllocError, Global};
use std::sync::ArcStr;
use walker_state::{Callee, Collection, Control, State, SymbolUse, Wanted};

/// The form's value, or what has to be known first. Symbols, lists, vectors and maps apart, a form
/// is its own value. `room` is how many lists, vectors and maps may be under way inside one
/// another. It fails only for want of memory.
#[tactic(auto, using(crate::proofs::Evaluating::first_steps))]
pub fn evaluate(
    alloc: Global,
    state: &mut State,
    form: Value,
    room: u32,
) -> Result<Control, AllocError>
    ensures on { IfOk result (LeadsOnWithin (3 * datum_size (view form)) state.old state.new) }
    ensures meaning { IfOk result (λ control. tree control state.new
        ≡ from_state (value_at room (place_of state.old) (view form)) state.old) }
{
    match form {
        Value::Symbol(symbol) => {
            let purpose = SymbolUse::Value(copy_text(&symbol)?);
            evaluate_symbol(alloc, state, symbol, purpose)
        }
        Value::List(items) => evaluate_list(alloc, state, items, room),
        Value::Vector(items) => {
            let forms = Forms::of_items(items);
            evaluate_items(alloc, state, Collection::Vector, forms, room)
        }
        Value::Map(pairs) => {
            let forms = Forms::of_pairs(pairs);
            evaluate_items(alloc, state, Collection::Map, forms, room)
        }
        other => Ok(Control::Return(other)),
    }
}

// What the symbol names goes to what it is wanted for, at once or after an ask.
#[tactic(auto, using(walker_state::proofs::Stepping::steps))]
pub(crate) fn evaluate_symbol(
    alloc: Global,
    state: &mut State,
    symbol: ArcStr,
    purpose: SymbolUse,
) -> Result<Control, AllocError>
    ensures on { IfOk result (LeadsOnWithin (1 + use_size purpose) state.old state.new) }
    ensures meaning { IfOk result (λ control. tree control state.new
        ≡ from_state (symbol_for_use (place_of state.old) (arc_str_bytes symbol) purpose)
        state.old) }
{
    match look_up(alloc, &state.place, &symbol)? {
        Some(resolution) => use_resolution(alloc, state, purpose, resolution),
        None => {
            let ask = resolve(state, &symbol)?;
            Ok(Control::Ask(ask, Wanted::Resolution(purpose)))
        }
    }
}

#[tactic(auto, using(walker_state::proofs::Stepping::steps), unfolding(walker_state::specs::Frames::items_behind))]
fn evaluate_items(
    alloc: Global,
    state: &mut State,
    kind: Collection,
    forms: Forms,
    room: u32,
) -> Result<Control, AllocError>
    ensures on { IfOk result
        (LeadsOnWithin (2 + forms_size (forms_view forms)) state.old state.new) }
    ensures meaning { IfOk result (λ control. tree control state.new
        ≡ from_state (items_value room (place_of state.old) kind (forms_view forms)) state.old) }
{
    if room == 0 {
        return Ok(Control::Fault(too_deep(alloc)?));
    }
    next_item(alloc, state, kind, Vec::new(alloc), forms, room - 1)
}

// A list's head is looked at first. An empty list is itself.
#[tactic(auto, using(walker_state::proofs::Stepping::steps, crate::proofs::Evaluating::steps), unfolding(walker_state::specs::Frames::call_behind))]
fn evaluate_list(
    alloc: Global,
    state: &mut State,
    items: Sequence,
    room: u32,
) -> Result<Control, AllocError>
    ensures on { IfOk result
        (LeadsOnWithin (3 + forms_size (listed items.items)) state.old state.new) }
    ensures meaning { IfOk result (λ control. tree control state.new
        ≡ from_state (list_at room (place_of state.old) (listed items.items)) state.old) }
{
    let mut forms = Forms::of_items(items);
    let Some(head) = forms.take_first()? else {
        let none = Sequence::from_vec(alloc, Vec::new(alloc))?;
        return Ok(Control::Return(Value::List(none)));
    };
    if room == 0 {
        return Ok(Control::Fault(too_deep(alloc)?));
    }
    evaluate_behind(alloc, state, head, forms, room - 1)
}

// The list with this head, and these forms behind it.
#[tactic(auto, using(walker_state::proofs::Stepping::steps, crate::proofs::Evaluating::steps), unfolding(walker_state::specs::Frames::call_behind))]
fn evaluate_behind(
    alloc: Global,
    state: &mut State,
    head: Value,
    forms: Forms,
    room: u32,
) -> Result<Control, AllocError>
    ensures on { IfOk result
        (LeadsOnWithin (7 + forms_size (forms_view forms)) state.old state.new) }
    ensures meaning { IfOk result (λ control. tree control state.new
        ≡ from_state (list_value (value_at room) (place_of state.old) (view head)
        (forms_view forms)) state.old) }
{
    match head {
        Value::Symbol(name) => evaluate_headed(alloc, state, name, forms, room),
        Value::Keyword(name) => {
            let callee = Callee::Keyword(name);
            next_argument(alloc, state, callee, Vec::new(alloc), forms, room)
        }
        other => Ok(Control::Fault(not_a_function(alloc, &other)?)),
    }
}

// A special form's name at the head always is that form.
#[tactic(auto, using(walker_state::proofs::Stepping::steps), unfolding(walker_state::specs::Frames::call_behind))]
fn evaluate_headed(
    alloc: Global,
    state: &mut State,
    name: ArcStr,
    forms: Forms,
    room: u32,
) -> Result<Control, AllocError>
    ensures on { IfOk result
        (LeadsOnWithin (7 + forms_size (forms_view forms)) state.old state.new) }
    ensures meaning { IfOk result (λ control. tree control state.new
        ≡ from_state (headed_value (value_at room) (place_of state.old) (arc_str_bytes name)
        (forms_view forms) (special_named (arc_str_bytes name))) state.old) }
{
    if let Some(special) = SpecialForm::named(name.as_str()) {
        return evaluate_special(alloc, state, special, forms, room);
    }
    evaluate_symbol(alloc, state, name, SymbolUse::Head(forms, room))
}
