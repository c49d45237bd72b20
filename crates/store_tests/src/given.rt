// Refs, and values in short.
use repl_values::{Owner, RefName, Value};
use std::alloc::{AllocError, Global};

/// The first refs of tenant 1.
pub(crate) const FIRST: RefName = RefName {
    owner: Owner::Tenant(1),
    number: 0,
};

pub(crate) const SECOND: RefName = RefName {
    owner: Owner::Tenant(1),
    number: 1,
};

/// The first ref of tenant 2.
pub(crate) const OTHERS: RefName = RefName {
    owner: Owner::Tenant(2),
    number: 0,
};

/// A ref that all tenants share.
pub(crate) const OURS: RefName = RefName {
    owner: Owner::Shared,
    number: 0,
};

/// A value, in short.
#[derive(Clone, Copy)]
pub(crate) enum Given {
    Int(i64),
    Atom,
    Ref(RefName),
}

pub(crate) fn value_of(given: Given) -> Value {
    match given {
        Given::Int(number) => Value::Int(number),
        Given::Atom => Value::Atom(0),
        Given::Ref(name) => Value::Ref(name),
    }
}

pub(crate) fn values_of(alloc: Global, given: &[Given]) -> Result<Vec<Value>, AllocError> {
    let mut values = Vec::new(alloc);
    for one in given {
        values.push(value_of(*one))?;
    }
    Ok(values)
}
