// Values that no program makes, or whose measures none shows.
use crate::read::read;
use Name::{Agent, Atom, Other, Own, Shared};
use repl_values::{Owner, RefName, Value, hash_of, is_plain, nesting, print_into, same, weight};
use std::alloc::{AllocError, Global};
use std::test::Fail;

// A ref of a tenant, of another one, or of all; an atom or an agent.
#[derive(Clone, Copy)]
enum Name {
    Own(u64),
    Other(u64),
    Shared(u64),
    Atom(u64),
    Agent(u64),
}

fn reference(owner: Owner, number: u64) -> Value {
    Value::Ref(RefName { owner, number })
}

fn named(name: Name) -> Value {
    match name {
        Own(number) => reference(Owner::Tenant(7), number),
        Other(number) => reference(Owner::Tenant(8), number),
        Shared(number) => reference(Owner::Shared, number),
        Atom(number) => Value::Atom(number),
        Agent(number) => Value::Agent(number),
    }
}

// Each is equal to itself alone.
const NAMES: &[(Name, &str)] = &[
    (Own(3), "#ref[3]"),
    (Own(4), "#ref[4]"),
    (Other(3), "#ref[3]"),
    (Shared(3), "#ref[shared/3]"),
    (Atom(1), "#atom[1]"),
    (Atom(2), "#atom[2]"),
    (Agent(1), "#agent[1]"),
];

fn is_printed(alloc: Global, value: &Value, print: &str) -> Result<bool, AllocError> {
    let mut printed = String::new(alloc);
    print_into(alloc, value, &mut printed)?;
    Ok(printed.as_str() == print)
}

#[test]
fn names_are_equal_to_themselves_alone(rt: HostRuntime) -> Result<(), Fail> {
    for (place, (name, print)) in NAMES.iter().enumerate() {
        let value = named(*name);
        assert!(rt; is_printed(rt.alloc(), &value, print)?, "{print}");
        for (other_place, (other, _print)) in NAMES.iter().enumerate() {
            let other = named(*other);
            assert_eq!(rt; same(&value, &other), place == other_place, "{print}");
            assert!(rt; place != other_place || hash_of(&value) == hash_of(&other));
        }
    }
    Ok(())
}

// A value, its weight and its nesting.
const MEASURED: &[(&str, u64, u64)] = &[
    ("nil", 1, 0),
    ("-9", 1, 0),
    ("\"é\"", 3, 0),
    (":ab", 3, 0),
    ("a/b", 4, 0),
    ("()", 1, 1),
    ("{:a 1 \"b\" (nil \"c\")}", 10, 2),
];

#[test]
fn values_are_measured(rt: HostRuntime) -> Result<(), Fail> {
    for (text, weighs, deep) in MEASURED {
        let value = read(rt.alloc(), text)?;
        let measured = (weight(&value), nesting(&value), is_plain(&value));
        assert_eq!(rt; measured, (*weighs, *deep, true), "{text}");
    }
    assert!(rt; !is_plain(&named(Own(3))));
    Ok(())
}
