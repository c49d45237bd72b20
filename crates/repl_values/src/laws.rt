//! What holds of all values. Each law is the contract of a function that does nothing.
#![tactic(auto)]

ghost use Rattle.std.specs.Prelude.{◌≡◌, ◌<◌, true};
ghost use Rattle.value_data.specs.Datum.{Datum, Items, list, vector};
ghost use Rattle.value_data.specs.Inside.View.{view};
ghost use Rattle.value_data.specs.Same.{same};
ghost use Rattle.value_data.specs.Inside.Hash.{hash};
ghost use Rattle.value_data.specs.Inside.Order.{order, sort_key};
ghost use Rattle.std.specs.Ordering.{is_eq, ordering_reverse};
ghost use Rattle.repl_values.specs.Print.{print};
ghost use Rattle.value_data.specs.Measures.{weight, nesting};
ghost use Rattle.repl_values.specs.Inside.Parts.{IsPartOf};

use std::cmp::Ordering;
use value_data::Value;

/// A value is equal to itself.
pub fn same_is_reflexive()
    ensures { (d : Datum) → same d d ≡ true }
{}

/// The order of two values does not matter.
pub fn same_is_symmetric()
    ensures { (d e : Datum) → same d e ≡ same e d }
{}

/// What is equal to an equal value is equal.
pub fn same_is_transitive()
    ensures { (d e f : Datum) → same d e ≡ true → same e f ≡ true → same d f ≡ true }
{}

/// A list equals the vector of its items.
pub fn list_is_same_as_vector()
    ensures { (ds : Items) → same (list ds) (vector ds) ≡ true }
{}

/// Equal values have equal hashes.
pub fn same_values_hash_alike()
    ensures { (d e : Datum) → same d e ≡ true → hash d ≡ hash e }
{}

/// Two values tie in the order of keys exactly where they are equal.
pub fn only_equal_values_tie()
    ensures { (d e : Datum) → is_eq (order (sort_key d) (sort_key e)) ≡ same d e }
{}

/// One value comes before another exactly where that one comes behind it.
pub fn order_is_antisymmetric()
    ensures { (d e : Datum) → order (sort_key d) (sort_key e)
        ≡ ordering_reverse (order (sort_key e) (sort_key d)) }
{}

/// What comes before a value that comes before another comes before that one.
pub fn order_is_transitive()
    ensures { (d e f : Datum) → order (sort_key d) (sort_key e) ≡ Ordering.Less
        → order (sort_key e) (sort_key f) ≡ Ordering.Less
        → order (sort_key d) (sort_key f) ≡ Ordering.Less }
{}

/// A copy, which has the view of what it was made from, is equal to it and prints as it does.
pub fn copy_is_same(value: &Value, copied: &Value)
    requires { view copied.now ≡ view value.now }
    ensures equal { same (view copied.now) (view value.now) ≡ true }
    ensures printed { print (view copied.now) ≡ print (view value.now) }
{}

/// An item, a key or a map's value weighs less than the value in which it stands.
pub fn parts_weigh_less()
    ensures { (d e : Datum) → IsPartOf d e → weight d < weight e }
{}

/// An item, a key or a map's value is nested less deep than the value in which it stands.
pub fn parts_are_less_nested()
    ensures { (d e : Datum) → IsPartOf d e → nesting d < nesting e }
{}
