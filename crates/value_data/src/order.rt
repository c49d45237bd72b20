// A total order of values, in which only equal values tie.
#![tactic(auto, using(crate::proofs::Nodes::node_steps, crate::proofs::Ranked::order_steps))]

ghost use Rattle.std.specs.Prelude.{◌≡◌, ◌<◌, length};
ghost use Rattle.std.specs.Arc.{arc_str_bytes};
ghost use Rattle.value_data.specs.Datum.{list, map};
ghost use Rattle.value_data.specs.Inside.View.{view, items_view, owner_view};
ghost use Rattle.value_data.specs.Inside.Nodes.{entry_pairs};
ghost use Rattle.value_data.specs.Same.{size};
ghost use Rattle.value_data.specs.Inside.Order.{text, both, number, order, sort_key, content, kind};
ghost use Rattle.value_data.specs.Inside.Order.{items_sort_key, owner_sort_key, chain, sorted_keys};
ghost use Rattle.value_data.specs.Inside.Order.{rows};
ghost use Rattle.value_data.specs.Inside.Index.{rows_at, ArePlaces};

use crate::value::{Entries, Owner, RefName, Sequence, Table, Value};
use chunked_list::RankedPlaces;
use std::cmp::Ordering;
use std::sync::ArcStr;

// How the values compare. It takes no memory, and compares items and pairs only where their hashes
// are equal.
#[cycle(compare)]
pub(crate) fn compare(left: &Value, right: &Value) -> Ordering
    ensures { result ≡ order (sort_key (view left.now)) (sort_key (view right.now)) }
{
    match (left, right) {
        (Value::Nil, Value::Nil) => Ordering::Equal,
        (Value::Bool(a), Value::Bool(b)) => a.cmp(b),
        (Value::Int(a), Value::Int(b)) => a.cmp(b),
        (Value::Str(a), Value::Str(b)) => compare_texts(a, b),
        (Value::Keyword(a), Value::Keyword(b)) => compare_texts(a, b),
        (Value::Symbol(a), Value::Symbol(b)) => compare_texts(a, b),
        (Value::List(a), Value::List(b)) => compare_sequences(a, b),
        (Value::List(a), Value::Vector(b)) => compare_sequences(a, b),
        (Value::Vector(a), Value::List(b)) => compare_sequences(a, b),
        (Value::Vector(a), Value::Vector(b)) => compare_sequences(a, b),
        (Value::Map(a), Value::Map(b)) => compare_maps(a, b),
        (Value::Ref(a), Value::Ref(b)) => compare_refs(*a, *b),
        (Value::Atom(a), Value::Atom(b)) => a.cmp(b),
        (Value::Agent(a), Value::Agent(b)) => a.cmp(b),
        (
            Value::Var { space, name },
            Value::Var {
                space: other,
                name: named,
            },
        ) => compare_texts(space, other).then(compare_texts(name, named)),
        (
            Value::Fault { class, text },
            Value::Fault {
                class: other,
                text: told,
            },
        ) => compare_texts(class, other).then(compare_texts(text, told)),
        _ => kind_of(left).cmp(&kind_of(right)),
    }
}

// A list and a vector are of one kind.
fn kind_of(value: &Value) -> u64
    ensures { result ≡ kind (view value.now) }
{
    match value {
        Value::Nil => 0,
        Value::Bool(_) => 1,
        Value::Int(_) => 2,
        Value::Str(_) => 3,
        Value::Keyword(_) => 4,
        Value::Symbol(_) => 5,
        Value::List(_) => 6,
        Value::Vector(_) => 6,
        Value::Map(_) => 7,
        Value::Ref(_) => 8,
        Value::Atom(_) => 9,
        Value::Agent(_) => 10,
        Value::Var { .. } => 11,
        Value::Fault { .. } => 12,
    }
}

fn compare_texts(left: &ArcStr, right: &ArcStr) -> Ordering
    ensures { result ≡ order (text (arc_str_bytes left.now)) (text (arc_str_bytes right.now)) }
{
    left.as_str().cmp(&right.as_str())
}

fn compare_refs(left: RefName, right: RefName) -> Ordering
    ensures { result ≡ order (both (owner_sort_key (owner_view left.owner)) (number left.number))
        (both (owner_sort_key (owner_view right.owner)) (number right.number)) }
{
    compare_owners(left.owner, right.owner).then(left.number.cmp(&right.number))
}

fn compare_owners(left: Owner, right: Owner) -> Ordering
    ensures { result ≡ order (owner_sort_key (owner_view left))
        (owner_sort_key (owner_view right)) }
{
    match (left, right) {
        (Owner::Shared, Owner::Shared) => Ordering::Equal,
        (Owner::Shared, Owner::Tenant(_)) => Ordering::Less,
        (Owner::Tenant(_), Owner::Shared) => Ordering::Greater,
        (Owner::Tenant(a), Owner::Tenant(b)) => a.cmp(&b),
    }
}

#[cycle(compare)]
fn compare_sequences(left: &Sequence, right: &Sequence) -> Ordering
    ensures { result ≡ order (content (list left.now.items)) (content (list right.now.items)) }
{
    match left.hash().cmp(&right.hash()) {
        Ordering::Equal => compare_items(left, right),
        unequal => unequal,
    }
}

// The first items that differ decide, and else the number of items. They are read chunk by chunk.
#[cycle(compare)]
fn compare_items(left: &Sequence, right: &Sequence) -> Ordering
    ensures { result ≡ order (items_sort_key left.now.items) (items_sort_key right.now.items) }
{
    let count = left.len().min(right.len());
    let mut place = 0;
    while place < count {
        let ours = left.chunk_from(place);
        let theirs = right.chunk_from(place);
        let common = ours.len().min(theirs.len());
        let compared = compare_chunks(&ours[..common], &theirs[..common]);
        if compared.is_ne() {
            return compared;
        }
        place += common;
    }
    left.len().cmp(&right.len())
}

// Of as many items each.
#[cycle(compare)]
fn compare_chunks(left: &[Value], right: &[Value]) -> Ordering
    requires { length left.now ≡ length right.now }
    ensures { result ≡ order (items_sort_key (items_view left.now))
        (items_sort_key (items_view right.now)) }
{
    for (place, item) in left.iter().enumerate() {
        let compared = compare(item, &right[place]);
        if compared.is_ne() {
            return compared;
        }
    }
    Ordering::Equal
}

#[cycle(compare)]
fn compare_maps(left: &Table, right: &Table) -> Ordering
    ensures { result ≡ order (content (map left.now.pairs)) (content (map right.now.pairs)) }
{
    let numbers = left
        .hash()
        .cmp(&right.hash())
        .then(left.len().cmp(&right.len()));
    if numbers.is_ne() {
        return numbers;
    }
    compare_rows(
        &left.node.entries,
        &left.node.index,
        &right.node.entries,
        &right.node.index,
    )
}

// Of as many pairs each, those at the places of two indexes, in turn.
#[cycle(compare)]
fn compare_rows(
    left: &Entries,
    left_index: &RankedPlaces,
    right: &Entries,
    right_index: &RankedPlaces,
) -> Ordering
    requires left { ArePlaces left_index.now (length left.now.listed) }
    requires right { ArePlaces right_index.now (length right.now.listed) }
    requires equal { length left.now.listed ≡ length right.now.listed }
    ensures { result ≡ order (rows_at (entry_pairs left.now) left_index.now)
        (rows_at (entry_pairs right.now) right_index.now) }
{
    for rank in 0..left.len() {
        let ours = left.pair(left_index.at(rank));
        let theirs = right.pair(right_index.at(rank));
        let compared = compare_pairs(ours, theirs);
        if compared.is_ne() {
            return compared;
        }
    }
    Ordering::Equal
}

// The keys decide, and then the values.
#[cycle(compare)]
fn compare_pairs(left: (&Value, &Value), right: (&Value, &Value)) -> Ordering
    ensures { result ≡ order (both (sort_key (view left.entry.0.now)) (sort_key (view left.entry.1.now)))
        (both (sort_key (view right.entry.0.now)) (sort_key (view right.entry.1.now))) }
{
    let compared = compare(left.0, right.0);
    if compared.is_ne() {
        return compared;
    }
    compare(left.1, right.1)
}
