// When two faults, or two functions of the program, are the same.
#![tactic(auto, using(crate::proofs::Matching::place_steps))]

ghost use Rattle.std.specs.Prelude.{◌≡◌, ◌↔◌, IsTrue, map, option_map};
ghost use Rattle.std.specs.Arc.{arc_str_bytes};
ghost use Rattle.value_data.specs.Inside.View.{view};
ghost use Rattle.repl_values.specs.Inside.FaultView.{failure_of};
ghost use Rattle.special_forms.specs.Inside.Seen.{forms_view, function_view};

use crate::values::{same_text, same_value};
use repl_values::{Fault, Value};
use special_forms::{Forms, Function};
use std::sync::ArcStr;

/// Whether the faults have the same class and the same text.
pub fn same_fault(left: &Fault, right: &Fault) -> bool
    ensures { IsTrue result ↔ (failure_of left.now ≡ failure_of right.now) }
{
    same_text(&left.class, &right.class) && same_text(&left.text, &right.text)
}

/// Whether the functions were defined in one namespace, by one name, with the same parameters and
/// the same body.
pub fn same_function(left: &Function, right: &Function) -> bool
    ensures { IsTrue result ↔ (function_view left.now ≡ function_view right.now) }
{
    same_text(&left.space, &right.space)
        && same_text(&left.name, &right.name)
        && same_names(left.params.as_slice(), right.params.as_slice())
        && same_forms(&left.body, &right.body)
}

// Whether the names are the same, in order.
fn same_names(left: &[ArcStr], right: &[ArcStr]) -> bool
    ensures { IsTrue result ↔ (map arc_str_bytes left.now ≡ map arc_str_bytes right.now) }
{
    if left.len() != right.len() {
        return false;
    }
    for (place, name) in left.iter().enumerate() {
        if !same_text(name, &right[place]) {
            return false;
        }
    }
    true
}

// Whether the forms are the same, in order.
fn same_forms(left: &Forms, right: &Forms) -> bool
    ensures { IsTrue result ↔ (forms_view left.now ≡ forms_view right.now) }
{
    if left.len() != right.len() {
        return false;
    }
    for place in 0..left.len() {
        if !same_form(left.get(place), right.get(place)) {
            return false;
        }
    }
    true
}

// Whether both are the same form, or there is none.
fn same_form(left: Option<&Value>, right: Option<&Value>) -> bool
    ensures { IsTrue result
        ↔ (option_map (λ v. view v.now) left.entry ≡ option_map (λ v. view v.now) right.entry) }
{
    match (left, right) {
        (Some(form), Some(other)) => same_value(form, other),
        (None, None) => true,
        _ => false,
    }
}
