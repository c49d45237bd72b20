// Lists and vectors of items. Each fails only for want of memory.
#![tactic(auto, using(crate::proofs::Values::seen))]

ghost use Rattle.std.specs.Prelude.{◌≡◌, map, IfOk};
ghost use Rattle.value_data.specs.Inside.View.{view};
ghost use Rattle.repl_values.specs.Making as meant;

use std::alloc::{AllocError, Global};
use value_data::{Sequence, Value};

/// The list of the items.
pub fn list_of(alloc: Global, items: Vec<Value>) -> Result<Value, AllocError>
    ensures { IfOk result (λ made. view made ≡ meant.list_of (map view items.items)) }
{
    Ok(Value::List(Sequence::from_vec(alloc, items)?))
}

/// The vector of the items.
pub fn vector_of(alloc: Global, items: Vec<Value>) -> Result<Value, AllocError>
    ensures { IfOk result (λ made. view made ≡ meant.vector_of (map view items.items)) }
{
    Ok(Value::Vector(Sequence::from_vec(alloc, items)?))
}

/// The list, or nil for an empty one.
pub fn list_or_nil(alloc: Global, items: Vec<Value>) -> Result<Value, AllocError>
    ensures { IfOk result (λ made. view made ≡ meant.list_or_nil (map view items.items)) }
{
    if items.is_empty() {
        return Ok(Value::Nil);
    }
    list_of(alloc, items)
}
