// The special forms.
#![tactic(auto, using(walker_state::proofs::Stepping::steps))]

ghost use Rattle.std.specs.Prelude.{◌≡◌, ◌+◌, ◌*◌, ◌<◌, ◌≤◌, ◌∷◌, IfOk};
ghost use Rattle.std.specs.Arc.{arc_str_bytes};
ghost use Rattle.value_data.specs.Datum.{nil};
ghost use Rattle.value_data.specs.Inside.View.{view};
ghost use Rattle.evaluation_rules.specs.Rows.{value_of_last};
ghost use Rattle.evaluation_rules.specs.Transactions.{transaction_value, effects_value};
ghost use Rattle.walker_state.specs.Pending.{whole_at, place_of, kept_of};
ghost use Rattle.walker_state.specs.Frames.{frames_next, bottom};
ghost use Rattle.walker_state.specs.Pending.{from_state, tree};
ghost use Rattle.special_forms.specs.Inside.Seen.{forms_view, shape_view};
ghost use Rattle.special_forms.specs.Shapes.{computed_entry, shape_of};
ghost use Rattle.special_forms.specs.Inside.Size.{datum_size, forms_size, shape_size};
ghost use Rattle.walker_state.specs.Size.{frame_size, control_size, frames_size};
ghost use Rattle.walker_state.specs.Position.{around, control_around, control_calls, LeadsOnWithin};
ghost use Rattle.evaluation_rules.specs.Evaluation.{value_at};
ghost use Rattle.evaluation_rules.specs.SharedText.{outside_shared_text};
ghost use Rattle.evaluation_rules.specs.SpecialForms.{entry_value};
ghost use Rattle.evaluation_rules.specs.SpecialForms.{shape_value, special_value};

use crate::defining::define_function;
use crate::rows::{next_binding, next_in_logic};
use repl_values::{Rule, Value, bad_form, broken_rule};
use special_forms::{Forms, Shape, SpecialForm, shape_of};
use std::alloc::{AllocError, Global};
use std::sync::ArcStr;
use walker_state::{Control, Frame, State, begin_transaction, enter_namespace, next_in_body};

pub(crate) fn evaluate_special(
    alloc: Global,
    state: &mut State,
    special: SpecialForm,
    forms: Forms,
    room: u32,
) -> Result<Control, AllocError>
    ensures on { IfOk result
        (LeadsOnWithin (7 + forms_size (forms_view forms)) state.old state.new) }
    ensures meaning { IfOk result (λ control. tree control state.new
        ≡ from_state (special_value (value_at room) (place_of state.old) special
        (shape_of special (forms_view forms))) state.old) }
{
    match shape_of(alloc, special, forms)? {
        Some(shape) => begin(alloc, state, shape, room),
        None => Ok(Control::Fault(bad_form(alloc, special.name())?)),
    }
}

fn begin(alloc: Global, state: &mut State, shape: Shape, room: u32) -> Result<Control, AllocError>
    ensures on { IfOk result
        (LeadsOnWithin (6 + shape_size (shape_view shape)) state.old state.new) }
    ensures meaning { IfOk result (λ control. tree control state.new
        ≡ from_state (shape_value (value_at room) (place_of state.old) (shape_view shape))
        state.old) }
{
    match shape {
        Shape::Quote(form) => Ok(Control::Return(form)),
        Shape::Body(forms) => next_in_body(state, Value::Nil, forms, room),
        Shape::Transaction(forms) => transact(alloc, state, forms, room),
        Shape::Effects(forms) => affect(alloc, state, forms, room),
        Shape::Choice {
            condition,
            consequent,
            alternative,
        } => {
            let frame = Frame::Choice(consequent, alternative, room);
            evaluate_for(state, frame, condition, room)
        }
        Shape::Let { bindings, body } => next_binding(alloc, state, bindings, body, room),
        Shape::Logic(logic, forms) => next_in_logic(state, logic, logic.before(), forms, room),
        Shape::Define { name, form } => evaluate_for(state, Frame::Define(name), form, room),
        Shape::DefineFunction { name, params, body } => {
            define_function(alloc, state, name, params, body)
        }
        Shape::Throw(form) => evaluate_for(state, Frame::Throw, form, room),
        Shape::Enter(name) => enter(alloc, state, name),
        Shape::EnterComputed(form) => enter_computed(alloc, state, form, room),
    }
}

// A transaction within another joins it. None runs while the text of the shared namespace is read.
#[tactic(auto, using(walker_state::proofs::Stepping::steps), unfolding(evaluation_rules::specs::Transactions::transaction_value, evaluation_rules::specs::SharedText::outside_shared_text))]
fn transact(alloc: Global, state: &mut State, body: Forms, room: u32) -> Result<Control, AllocError>
    ensures on { IfOk result
        (LeadsOnWithin (3 + forms_size (forms_view body)) state.old state.new) }
    ensures meaning { IfOk result (λ control. tree control state.new
        ≡ from_state (outside_shared_text (transaction_value
        (value_of_last (value_at room (place_of state.old)) nil (forms_view body)))) state.old) }
{
    if state.setting.occasion.is_shared_text() {
        return Ok(Control::Fault(broken_rule(alloc, Rule::SharedTextDefinesAlone)?));
    }
    if state.transaction.is_some() {
        return next_in_body(state, Value::Nil, body, room);
    }
    begin_transaction(alloc, state, body, room)
}

// What may not be done twice does not stand in a transaction.
#[tactic(auto, using(walker_state::proofs::Stepping::steps), unfolding(evaluation_rules::specs::Transactions::effects_value, evaluation_rules::specs::SharedText::outside_shared_text))]
fn affect(alloc: Global, state: &mut State, body: Forms, room: u32) -> Result<Control, AllocError>
    ensures on { IfOk result
        (LeadsOnWithin (3 + forms_size (forms_view body)) state.old state.new) }
    ensures meaning { IfOk result (λ control. tree control state.new
        ≡ from_state (outside_shared_text (effects_value
        (value_of_last (value_at room (place_of state.old)) nil (forms_view body)))) state.old) }
{
    if state.setting.occasion.is_shared_text() {
        return Ok(Control::Fault(broken_rule(alloc, Rule::SharedTextDefinesAlone)?));
    }
    if state.transaction.is_some() {
        return Ok(Control::Fault(broken_rule(alloc, Rule::NoIoInTransaction)?));
    }
    next_in_body(state, Value::Nil, body, room)
}

// The text of the shared namespace stays in it.
#[tactic(auto, using(walker_state::proofs::Stepping::steps), unfolding(evaluation_rules::specs::SharedText::outside_shared_text))]
fn enter(alloc: Global, state: &State, name: ArcStr) -> Result<Control, AllocError>
    ensures on { IfOk result (LeadsOnWithin 3 state.now state.now) }
    ensures meaning { IfOk result (λ control. tree control state.now
        ≡ from_state (outside_shared_text (entry_value (arc_str_bytes name))) state.now) }
{
    if state.setting.occasion.is_shared_text() {
        return Ok(Control::Fault(broken_rule(alloc, Rule::SharedTextDefinesAlone)?));
    }
    enter_namespace(alloc, name)
}

// The same where the namespace is what a form gives, which is not evaluated in that text.
#[tactic(auto, using(walker_state::proofs::Stepping::steps), unfolding(evaluation_rules::specs::SharedText::outside_shared_text))]
fn enter_computed(
    alloc: Global,
    state: &mut State,
    form: Value,
    room: u32,
) -> Result<Control, AllocError>
    ensures on { IfOk result
        (LeadsOnWithin (3 + 3 * datum_size (view form)) state.old state.new) }
    ensures meaning { IfOk result (λ control. tree control state.new
        ≡ from_state (shape_value (value_at room) (place_of state.old)
        (computed_entry (view form))) state.old) }
{
    if state.setting.occasion.is_shared_text() {
        return Ok(Control::Fault(broken_rule(alloc, Rule::SharedTextDefinesAlone)?));
    }
    evaluate_for(state, Frame::Namespace, form, room)
}

// The form is evaluated, and its value goes to the frame.
fn evaluate_for(
    state: &mut State,
    frame: Frame,
    form: Value,
    room: u32,
) -> Result<Control, AllocError>
    ensures size { IfOk result (λ control. control_size control + frames_size state.new.frames.items
        ≡ 3 * datum_size (view form) + frame_size frame + frames_size state.old.frames.items) }
    ensures calls { IfOk result (λ control. control_calls control state.new ≤ state.old.calls) }
    ensures around { IfOk result (λ control. control_around control state.new
        ≡ around state.old.transaction) }
    ensures meaning { IfOk result (λ control. tree control state.new
        ≡ whole_at state.old (bottom (frame ∷ state.old.frames.items) (place_of state.old))
        (value_at room (place_of state.old) (view form)
        (frames_next (frame ∷ state.old.frames.items) (place_of state.old)) (kept_of state.old))) }
{
    state.frames.push_front(frame)?;
    Ok(Control::Evaluate(form, room))
}
