// How large and how deep a value is, and whether it is plain, read from its node. Nothing here takes
// memory.
#![tactic(auto, using(crate::proofs::Nodes::node_steps))]

ghost use Rattle.std.specs.Prelude.{◌≡◌, ◌+◌, length};
ghost use Rattle.std.specs.Arc.{arc_str_bytes};
ghost use Rattle.value_data.specs.Inside.View.{view};
ghost use Rattle.value_data.specs.Measures.{capped, weight as weight_of, nesting as nesting_of};
ghost use Rattle.value_data.specs.Measures.{is_plain as plain};

use crate::value::Value;
use std::sync::ArcStr;

/// How large the value is: 1 for each value in it, and the bytes of its texts.
pub fn weight(value: &Value) -> u64
    ensures { result ≡ capped (weight_of (view value.now)) }
{
    match value {
        Value::Str(text) | Value::Keyword(text) | Value::Symbol(text) => text_weight(text),
        Value::List(items) | Value::Vector(items) => items.weight().saturating_add(1),
        Value::Map(pairs) => pairs.weight().saturating_add(1),
        Value::Var { space, name } => two_texts_weight(space, name),
        Value::Fault { class, text } => two_texts_weight(class, text),
        _ => 1,
    }
}

fn text_weight(text: &ArcStr) -> u64
    ensures { result ≡ capped (1 + length (arc_str_bytes text.now)) }
{
    (text.len() as u64).saturating_add(1)
}

fn two_texts_weight(first: &ArcStr, second: &ArcStr) -> u64
    ensures { result ≡ capped (1 + length (arc_str_bytes first.now) + length
        (arc_str_bytes second.now)) }
{
    text_weight(first).saturating_add(second.len() as u64)
}

/// How many lists, vectors and maps stand one inside another.
pub fn nesting(value: &Value) -> u64
    ensures { result ≡ capped (nesting_of (view value.now)) }
{
    match value {
        Value::List(items) | Value::Vector(items) => items.nesting().saturating_add(1),
        Value::Map(pairs) => pairs.nesting().saturating_add(1),
        _ => 0,
    }
}

/// Whether no ref, atom, agent or var stands anywhere inside the value.
pub fn is_plain(value: &Value) -> bool
    ensures { result ≡ plain (view value.now) }
{
    match value {
        Value::List(items) | Value::Vector(items) => items.is_plain(),
        Value::Map(pairs) => pairs.is_plain(),
        Value::Ref(_) | Value::Atom(_) | Value::Agent(_) | Value::Var { .. } => false,
        Value::Nil
        | Value::Bool(_)
        | Value::Int(_)
        | Value::Str(_)
        | Value::Keyword(_)
        | Value::Symbol(_)
        | Value::Fault { .. } => true,
    }
}
