// When two attempts at a transaction changed the same.
#![tactic(auto, using(crate::proofs::Matching::place_steps))]

ghost use Rattle.std.specs.Prelude.{◌≡◌, ◌↔◌, IsTrue, map};
ghost use Rattle.value_data.specs.Inside.View.{view};
ghost use Rattle.repl_asks.specs.Inside.View.{name_view, change_view, intent_view};
ghost use Rattle.repl_asks.specs.Inside.View.{commute_view, commuted_view};

use crate::sends::same_sends;
use crate::values::same_value;
use repl_asks::{Change, Commute, Commuted, Intent};
use repl_values::{RefName, Value};

/// Whether the same refs get the same values, the same refs are ensured, the same is applied to the
/// same refs, and the same is sent to the same agents, in the same order.
pub fn same_intent(left: &Intent, right: &Intent) -> bool
    ensures { IsTrue result ↔ (intent_view left.now ≡ intent_view right.now) }
{
    same_changes(left.sets.as_slice(), right.sets.as_slice())
        && same_names(left.ensured.as_slice(), right.ensured.as_slice())
        && same_commuted(left.commuted.as_slice(), right.commuted.as_slice())
        && same_sends(left.sends.as_slice(), right.sends.as_slice())
}

fn same_change(left: &Change, right: &Change) -> bool
    ensures { IsTrue result ↔ (change_view left.entry.now ≡ change_view right.entry.now) }
{
    same_name(&left.name, &right.name) && same_value(&left.now, &right.now)
}

// Whether the changes are the same, in order.
fn same_changes(left: &[Change], right: &[Change]) -> bool
    ensures { IsTrue result ↔ (map change_view left.now ≡ map change_view right.now) }
{
    if left.len() != right.len() {
        return false;
    }
    for (place, change) in left.iter().enumerate() {
        if !same_change(change, &right[place]) {
            return false;
        }
    }
    true
}

// Whether the refs are the same, in order.
#[tactic(auto, using(crate::proofs::Matching::ref_steps))]
fn same_names(left: &[RefName], right: &[RefName]) -> bool
    ensures { IsTrue result ↔ (map name_view left.now ≡ map name_view right.now) }
{
    if left.len() != right.len() {
        return false;
    }
    for (place, name) in left.iter().enumerate() {
        if !same_name(name, &right[place]) {
            return false;
        }
    }
    true
}

// Whether the same is applied to the same refs, in order.
fn same_commuted(left: &[Commuted], right: &[Commuted]) -> bool
    ensures { IsTrue result ↔ (map commuted_view left.now ≡ map commuted_view right.now) }
{
    if left.len() != right.len() {
        return false;
    }
    for (place, commuted) in left.iter().enumerate() {
        if !same_commuted_ref(commuted, &right[place]) {
            return false;
        }
    }
    true
}

fn same_commuted_ref(left: &Commuted, right: &Commuted) -> bool
    ensures { IsTrue result ↔ (commuted_view left.now ≡ commuted_view right.now) }
{
    same_name(&left.name, &right.name)
        && same_commutes(left.commutes.as_slice(), right.commutes.as_slice())
}

// Whether the same functions are applied with the same arguments, in order.
fn same_commutes(left: &[Commute], right: &[Commute]) -> bool
    ensures { IsTrue result ↔ (map commute_view left.now ≡ map commute_view right.now) }
{
    if left.len() != right.len() {
        return false;
    }
    for (place, commute) in left.iter().enumerate() {
        if !same_commute(commute, &right[place]) {
            return false;
        }
    }
    true
}

fn same_commute(left: &Commute, right: &Commute) -> bool
    ensures { IsTrue result ↔ (commute_view left.now ≡ commute_view right.now) }
{
    left.function == right.function
        && same_arguments(left.arguments.as_slice(), right.arguments.as_slice())
}

// Whether the arguments are the same, in order.
pub(crate) fn same_arguments(left: &[Value], right: &[Value]) -> bool
    ensures { IsTrue result ↔ (map view left.now ≡ map view right.now) }
{
    if left.len() != right.len() {
        return false;
    }
    for (place, argument) in left.iter().enumerate() {
        if !same_value(argument, &right[place]) {
            return false;
        }
    }
    true
}

// Whether both name the same ref.
#[tactic(auto, using(crate::proofs::Matching::ref_steps))]
pub(crate) fn same_name(left: &RefName, right: &RefName) -> bool
    ensures { IsTrue result ↔ (name_view left.now ≡ name_view right.now) }
{
    left == right
}
