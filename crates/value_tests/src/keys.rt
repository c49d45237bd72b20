// Keys that are chosen to have one hash, and many keys.
use crate::read::read;
use repl_values::{Built, Table, Value, first_repeated, hash_of, same};
use std::alloc::{AllocError, Global};
use std::test::Fail;

// Values that differ, in pairs that have one hash. Cases take such keys to be of one hash.
const OF_ONE_HASH: &[(&str, &str)] = &[
    ("\"RICYCKLEfJM\"", "\"CCdCPCCCCCC\""),
    ("\"aRICYCKLEfJMCCdCPCCCCCC\"", "\"aCCdCPCCCCCCRICYCKLEfJM\""),
    (":RICYCKLEfJM", ":CCdCPCCCCCC"),
    ("[\"RICYCKLEfJM\"]", "(\"CCdCPCCCCCC\")"),
    ("{\"RICYCKLEfJM\" nil}", "{\"CCdCPCCCCCC\" nil}"),
    ("{nil \"RICYCKLEfJM\"}", "{nil \"CCdCPCCCCCC\"}"),
];

#[test]
fn other_values_may_have_one_hash(rt: HostRuntime) -> Result<(), Fail> {
    for (text, other) in OF_ONE_HASH {
        let value = read(rt.alloc(), text)?;
        let other = read(rt.alloc(), other)?;
        assert!(rt; hash_of(&value) == hash_of(&other), "{text}");
        assert!(rt; !same(&value, &other), "{text}");
    }
    Ok(())
}

// The order in which keys are put in: each is noted before all others, behind them, or among them.
#[derive(Clone, Copy)]
enum Order {
    Falling,
    Rising,
    Scattered,
}

// The key that is put in at a place. A prime that does not divide the count scatters them all.
fn key_at(order: Order, place: u32, count: u32) -> Value {
    match order {
        Order::Falling => Value::Int(-i64::from(place)),
        Order::Rising => Value::Int(i64::from(place)),
        Order::Scattered => Value::Int(i64::from(place.wrapping_mul(7_919) % count.max(1))),
    }
}

fn put_in_order(alloc: Global, order: Order, count: u32) -> Result<Table, AllocError> {
    let mut pairs = Vec::new(alloc);
    for place in 0..count {
        pairs.push((key_at(order, place, count), Value::Int(i64::from(place))))?;
    }
    match Table::from_pairs(alloc, pairs)? {
        Built::Made(table) => Ok(table),
        Built::Repeats(_place) => Table::empty(alloc),
    }
}

fn number_of(table: &Table, key: &Value) -> i64 {
    match table.get(key) {
        Some(Value::Int(found)) => *found,
        _other => -1,
    }
}

fn is_found_in_order(alloc: Global, order: Order, count: u32) -> Result<bool, AllocError> {
    let table = put_in_order(alloc, order, count)?;
    for place in 0..count {
        if number_of(&table, &key_at(order, place, count)) != i64::from(place) {
            return Ok(false);
        }
    }
    Ok(!table.contains(&Value::Int(i64::from(count))))
}

const ORDERS: &[(Order, u32)] = &[
    (Order::Falling, 100_000),
    (Order::Rising, 100_000),
    (Order::Scattered, 50_000),
];

#[test]
fn keys_are_found_in_whatever_order_they_came(rt: HostRuntime) -> Result<(), Fail> {
    for (order, count) in ORDERS {
        assert!(rt; is_found_in_order(rt.alloc(), *order, *count)?);
    }
    Ok(())
}

#[test]
fn many_distinct_keys_are_quick(rt: HostRuntime) -> Result<(), Fail> {
    let mut keys = Vec::new(rt.alloc());
    for n in 0..50_000i64 {
        keys.push(Value::Int(n))?;
    }
    assert_eq!(rt; first_repeated(rt.alloc(), &keys)?, None);
    Ok(())
}
