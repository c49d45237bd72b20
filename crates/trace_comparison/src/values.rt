// When two values are the same.
#![tactic(auto, using(crate::proofs::Sequences::value_steps))]

ghost use Rattle.std.specs.Prelude.{◌≡◌, ◌↔◌, IsTrue};
ghost use Rattle.std.specs.Arc.{arc_str_bytes};
ghost use Rattle.value_data.specs.Inside.View.{view, views};

use repl_values::{RefName, Sequence, Table, Value};
use std::sync::ArcStr;

/// Whether the values are the same, kind for kind: a list is no vector, and a map has its pairs in
/// their order.
///
/// Items and pairs are read only where all that is kept of them is equal, each once, and up to the
/// first that differ.
#[cycle(same_value)]
pub fn same_value(left: &Value, right: &Value) -> bool
    ensures { IsTrue result ↔ (view left.now ≡ view right.now) }
{
    match (left, right) {
        (Value::Nil, Value::Nil) => true,
        (Value::Bool(a), Value::Bool(b)) => a == b,
        (Value::Int(a), Value::Int(b)) => a == b,
        (Value::Str(a), Value::Str(b)) => same_text(a, b),
        (Value::Keyword(a), Value::Keyword(b)) => same_text(a, b),
        (Value::Symbol(a), Value::Symbol(b)) => same_text(a, b),
        (Value::List(a), Value::List(b)) => same_sequence(a, b),
        (Value::Vector(a), Value::Vector(b)) => same_sequence(a, b),
        (Value::Map(a), Value::Map(b)) => same_table(a, b),
        (Value::Ref(a), Value::Ref(b)) => same_ref(*a, *b),
        (Value::Atom(a), Value::Atom(b)) => a == b,
        (Value::Agent(a), Value::Agent(b)) => a == b,
        (
            Value::Var { space, name },
            Value::Var {
                space: other,
                name: named,
            },
        ) => same_text(space, other) && same_text(name, named),
        (
            Value::Fault { class, text },
            Value::Fault {
                class: other,
                text: told,
            },
        ) => same_text(class, other) && same_text(text, told),
        _ => false,
    }
}

// Whether the texts have the same bytes.
pub(crate) fn same_text(left: &ArcStr, right: &ArcStr) -> bool
    ensures { IsTrue result ↔ (arc_str_bytes left.now ≡ arc_str_bytes right.now) }
{
    left.as_str() == right.as_str()
}

fn same_ref(left: RefName, right: RefName) -> bool
    ensures { IsTrue result ↔ (left ≡ right) }
{
    left == right
}

#[cycle(same_value)]
fn same_sequence(left: &Sequence, right: &Sequence) -> bool
    ensures { IsTrue result ↔ (left.now.items ≡ right.now.items) }
{
    left.hash() == right.hash()
        && left.weight() == right.weight()
        && left.nesting() == right.nesting()
        && same_items(left, right)
}

// Whether the items are the same, in order. They are read chunk by chunk.
#[cycle(same_value)]
fn same_items(left: &Sequence, right: &Sequence) -> bool
    ensures { IsTrue result ↔ (left.now.items ≡ right.now.items) }
{
    let count = left.len();
    if count != right.len() {
        return false;
    }
    let mut place = 0;
    while place < count {
        let ours = left.chunk_from(place);
        let theirs = right.chunk_from(place);
        let common = ours.len().min(theirs.len());
        if !same_chunks(&ours[..common], &theirs[..common]) {
            return false;
        }
        place += common;
    }
    true
}

#[cycle(same_value)]
fn same_chunks(left: &[Value], right: &[Value]) -> bool
    ensures { IsTrue result ↔ (views left.now ≡ views right.now) }
{
    if left.len() != right.len() {
        return false;
    }
    for (place, item) in left.iter().enumerate() {
        if !same_value(item, &right[place]) {
            return false;
        }
    }
    true
}

#[cycle(same_value)]
fn same_table(left: &Table, right: &Table) -> bool
    ensures { IsTrue result ↔ (left.now.pairs ≡ right.now.pairs) }
{
    left.hash() == right.hash()
        && left.weight() == right.weight()
        && left.nesting() == right.nesting()
        && same_sequence(left.keys(), right.keys())
        && same_sequence(left.values(), right.values())
}
