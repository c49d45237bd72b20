// The shapes that special forms have. A form of another shape is a fault before anything in it is
// evaluated.
ghost use Rattle.std.specs.Prelude.{◌≡◌, ◌≤◌, Some, None, if◌then◌else◌, IfOk, IfSome, option_map};
ghost use Rattle.std.specs.Prelude.{map};
ghost use Rattle.std.specs.Arc.{arc_str_bytes};
ghost use Rattle.value_data.specs.Listed.{listed};
ghost use Rattle.value_data.specs.Inside.View.{view, views};
ghost use Rattle.special_forms.specs.Inside.Bindings.{bindings_in};
ghost use Rattle.special_forms.specs.Kinds as kinds;
ghost use Rattle.special_forms.specs.Shapes as meant;
ghost use Rattle.special_forms.specs.Inside.Seen.{forms_view, shape_view};
ghost use Rattle.special_forms.specs.Inside.Size.{forms_size, shape_size};

use crate::forms::Forms;
use crate::names::{parameters_in, simple_symbol, symbol};
use crate::special::SpecialForm;
use repl_values::{Sequence, Value, copy_text};
use std::alloc::{AllocError, Global};
use std::sync::ArcStr;

/// Whether forms in a row are evaluated up to the first that is false, or the first that is true.
#[derive(Clone, Copy)]
pub enum Logic {
    And,
    Or,
}

/// A special form's parts.
#[derive(Drop)]
pub enum Shape {
    Quote(Value),
    Body(Forms),
    /// Forms that are evaluated as one transaction.
    Transaction(Forms),
    /// Forms that are evaluated outside of transactions alone.
    Effects(Forms),
    Choice {
        condition: Value,
        consequent: Forms,
        alternative: Forms,
    },
    /// Names and their forms by turns, and the body behind them.
    Let {
        bindings: Forms,
        body: Forms,
    },
    Logic(Logic, Forms),
    Define {
        name: ArcStr,
        form: Value,
    },
    DefineFunction {
        name: ArcStr,
        params: Vec<ArcStr>,
        body: Forms,
    },
    Throw(Value),
    /// The namespace of this name is entered.
    Enter(ArcStr),
    /// The namespace is entered that the value of this form names.
    EnterComputed(Value),
}

/// The parts of the special form with these forms behind its name; none where it has another shape.
/// It fails only for want of memory.
pub fn shape_of(
    alloc: Global,
    special: SpecialForm,
    forms: Forms,
) -> Result<Option<Shape>, AllocError>
    ensures size { IfOk result (λ shape.
        IfSome shape (λ s. shape_size (shape_view s) ≤ forms_size (forms_view forms))) }
    ensures exact { IfOk result (λ shape. option_map shape_view shape
        ≡ meant.shape_of special (forms_view forms)) }
{
    parts_of(alloc, special, forms)
}

fn parts_of(alloc: Global, special: SpecialForm, forms: Forms) -> Result<Option<Shape>, AllocError>
    ensures { IfOk result (λ shape. option_map shape_view shape
        ≡ meant.shape_of special (forms_view forms)) }
{
    match special {
        SpecialForm::And => Ok(Some(Shape::Logic(Logic::And, forms))),
        SpecialForm::Or => Ok(Some(Shape::Logic(Logic::Or, forms))),
        SpecialForm::Do => Ok(Some(Shape::Body(forms))),
        SpecialForm::Dosync => Ok(Some(Shape::Transaction(forms))),
        SpecialForm::Io => Ok(Some(Shape::Effects(forms))),
        SpecialForm::Quote => quote(forms),
        SpecialForm::Throw => throw(forms),
        SpecialForm::Ns => namespace(forms),
        SpecialForm::InNs => computed_namespace(forms),
        SpecialForm::If => choice(forms),
        SpecialForm::When => when(forms),
        SpecialForm::Let => binding_form(forms),
        SpecialForm::Def => definition(forms),
        SpecialForm::Defn => function_definition(alloc, forms),
    }
}

// The form that stands alone.
fn sole_form(mut forms: Forms) -> Result<Option<Value>, AllocError>
    ensures { IfOk result (λ form. option_map view form ≡ meant.sole_form (forms_view forms)) }
{
    let form = forms.take_first()?;
    if forms.is_empty() { Ok(form) } else { Ok(None) }
}

fn quote(forms: Forms) -> Result<Option<Shape>, AllocError>
    ensures { IfOk result (λ shape. option_map shape_view shape
        ≡ option_map meant.quoted (meant.sole_form (forms_view forms))) }
{
    match sole_form(forms)? {
        Some(form) => Ok(Some(Shape::Quote(form))),
        None => Ok(None),
    }
}

fn throw(forms: Forms) -> Result<Option<Shape>, AllocError>
    ensures { IfOk result (λ shape. option_map shape_view shape
        ≡ option_map meant.thrown (meant.sole_form (forms_view forms))) }
{
    match sole_form(forms)? {
        Some(form) => Ok(Some(Shape::Throw(form))),
        None => Ok(None),
    }
}

// `(ns name)`.
fn namespace(forms: Forms) -> Result<Option<Shape>, AllocError>
    ensures { IfOk result (λ shape. option_map shape_view shape
        ≡ meant.ns_shape (forms_view forms)) }
{
    let Some(form) = sole_form(forms)? else {
        return Ok(None);
    };
    match symbol(&form) {
        Some(name) => Ok(Some(Shape::Enter(copy_text(name)?))),
        None => Ok(None),
    }
}

// `(in-ns form)`.
fn computed_namespace(forms: Forms) -> Result<Option<Shape>, AllocError>
    ensures { IfOk result (λ shape. option_map shape_view shape
        ≡ option_map meant.computed_entry (meant.sole_form (forms_view forms))) }
{
    match sole_form(forms)? {
        Some(form) => Ok(Some(Shape::EnterComputed(form))),
        None => Ok(None),
    }
}

// `(if condition form)` or `(if condition form form)`.
fn choice(mut forms: Forms) -> Result<Option<Shape>, AllocError>
    ensures { IfOk result (λ shape. option_map shape_view shape
        ≡ meant.if_shape (forms_view forms)) }
{
    let Some(condition) = forms.take_first()? else {
        return Ok(None);
    };
    if forms.is_empty() {
        return Ok(None);
    }
    let (consequent, alternative) = forms.split_first()?;
    if alternative.has_two() {
        return Ok(None);
    }
    Ok(Some(Shape::Choice {
        condition,
        consequent,
        alternative,
    }))
}

// `(when condition form ..)`.
fn when(mut forms: Forms) -> Result<Option<Shape>, AllocError>
    ensures { IfOk result (λ shape. option_map shape_view shape
        ≡ meant.when_shape (forms_view forms)) }
{
    let Some(condition) = forms.take_first()? else {
        return Ok(None);
    };
    let alternative = forms.none()?;
    Ok(Some(Shape::Choice {
        condition,
        consequent: forms,
        alternative,
    }))
}

// `(let [name form ..] form ..)`.
fn binding_form(mut forms: Forms) -> Result<Option<Shape>, AllocError>
    ensures { IfOk result (λ shape. option_map shape_view shape
        ≡ meant.let_shape (forms_view forms)) }
{
    let Some(form) = forms.take_first()? else {
        return Ok(None);
    };
    let Some(items) = vector_items(form) else {
        return Ok(None);
    };
    if !are_bindings(&items) {
        return Ok(None);
    }
    Ok(Some(Shape::Let {
        bindings: Forms::of_items(items),
        body: forms,
    }))
}

// The items of a vector.
#[tactic(auto, using(crate::proofs::Shaping::seen), unfolding(crate::specs::Kinds::in_vector))]
fn vector_items(form: Value) -> Option<Sequence>
    ensures { option_map (λ items. listed items.items) result ≡ kinds.in_vector (view form) }
{
    match form {
        Value::Vector(items) => Some(items),
        _other => None,
    }
}

// Whether these are names and forms by turns.
fn are_bindings(items: &Sequence) -> bool
    ensures { meant.bound_forms (listed items.now.items)
        ≡ (if result then Some (bindings_in (listed items.now.items)) else None) }
{
    let count = items.len();
    let mut place = 0;
    while count - place >= 2 {
        if simple_symbol(items.at(place)).is_none() {
            return false;
        }
        place += 2;
    }
    place == count
}

// `(def name form)`.
fn definition(mut forms: Forms) -> Result<Option<Shape>, AllocError>
    ensures { IfOk result (λ shape. option_map shape_view shape
        ≡ meant.def_shape (forms_view forms)) }
{
    let Some(first) = forms.take_first()? else {
        return Ok(None);
    };
    let Some(name) = simple_symbol(&first) else {
        return Ok(None);
    };
    let name = copy_text(name)?;
    match sole_form(forms)? {
        Some(form) => Ok(Some(Shape::Define { name, form })),
        None => Ok(None),
    }
}

// `(defn name [name ..] form ..)`, where a string may stand behind the first name.
fn function_definition(alloc: Global, mut forms: Forms) -> Result<Option<Shape>, AllocError>
    ensures { IfOk result (λ shape. option_map shape_view shape
        ≡ meant.defn_shape (forms_view forms)) }
{
    let Some(first) = forms.take_first()? else {
        return Ok(None);
    };
    match simple_symbol(&first) {
        Some(name) => function_behind(alloc, copy_text(name)?, without_text(forms)),
        None => Ok(None),
    }
}

// `[name ..] form ..`.
fn function_behind(
    alloc: Global,
    name: ArcStr,
    mut forms: Forms,
) -> Result<Option<Shape>, AllocError>
    ensures { IfOk result (λ shape. option_map shape_view shape
        ≡ meant.function_shape (arc_str_bytes name) (forms_view forms)) }
{
    let Some(form) = forms.take_first()? else {
        return Ok(None);
    };
    let Some(items) = vector_items(form) else {
        return Ok(None);
    };
    match parameters_in(alloc, &items)? {
        Some(params) => Ok(Some(Shape::DefineFunction {
            name,
            params,
            body: forms,
        })),
        None => Ok(None),
    }
}

// What stands behind the string that may stand in front.
fn without_text(forms: Forms) -> Forms
    ensures { forms_view result ≡ meant.behind_name (forms_view forms) }
{
    if begins_with_text(&forms) {
        return forms.behind_first();
    }
    forms
}

fn begins_with_text(forms: &Forms) -> bool
    ensures { result ≡ meant.begins_with_text (forms_view forms.now) }
{
    match forms.first() {
        Some(form) => is_text(form),
        None => false,
    }
}

#[tactic(auto, using(crate::proofs::Shaping::seen), unfolding(crate::specs::Kinds::is_text))]
fn is_text(form: &Value) -> bool
    ensures { result ≡ kinds.is_text (view form.now) }
{
    match form {
        Value::Str(_) => true,
        _ => false,
    }
}
