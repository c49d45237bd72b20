// Copies: one more owner of what a value shares.
ghost use Rattle.std.specs.Prelude.{◌≡◌, ◌++◌, IfOk, map};
ghost use Rattle.std.specs.Arc.{arc_str_bytes};
ghost use Rattle.value_data.specs.Inside.View.{view, views};
ghost use Rattle.value_data.specs.Inside.Nodes.{held_count, items_held};

use crate::value::Value;
use std::alloc::{AllocError, Global};
use std::sync::ArcStr;

/// The same text. It takes one step and no memory, and fails only where 2^63 owners share it.
pub fn copy_text(text: &ArcStr) -> Result<ArcStr, AllocError>
    ensures { IfOk result (λ copied. arc_str_bytes copied ≡ arc_str_bytes text.now) }
{
    text.clone()
}

/// A value with the same view. It takes one step and no memory, and fails only where 2^63 owners
/// share a node.
pub fn copy(value: &Value) -> Result<Value, AllocError>
    ensures { IfOk result (λ copied. view copied ≡ view value.now) }
{
    share(value)
}

// The same, over the same nodes.
fn share(value: &Value) -> Result<Value, AllocError>
    ensures seen { IfOk result (λ copied. view copied ≡ view value.now) }
    ensures held { IfOk result (λ copied. held_count copied ≡ held_count value.now) }
{
    match value {
        Value::Nil => Ok(Value::Nil),
        Value::Bool(b) => Ok(Value::Bool(*b)),
        Value::Int(n) => Ok(Value::Int(*n)),
        Value::Str(text) => Ok(Value::Str(copy_text(text)?)),
        Value::Keyword(text) => Ok(Value::Keyword(copy_text(text)?)),
        Value::Symbol(text) => Ok(Value::Symbol(copy_text(text)?)),
        Value::List(items) => Ok(Value::List(items.copy()?)),
        Value::Vector(items) => Ok(Value::Vector(items.copy()?)),
        Value::Map(pairs) => Ok(Value::Map(pairs.copy()?)),
        Value::Ref(name) => Ok(Value::Ref(*name)),
        Value::Atom(number) => Ok(Value::Atom(*number)),
        Value::Agent(number) => Ok(Value::Agent(*number)),
        Value::Var { space, name } => Ok(Value::Var {
            space: copy_text(space)?,
            name: copy_text(name)?,
        }),
        Value::Fault { class, text } => Ok(Value::Fault {
            class: copy_text(class)?,
            text: copy_text(text)?,
        }),
    }
}

/// The same items in a vector of their own: one step for each. It fails only for want of memory.
pub fn copy_items(alloc: Global, items: &[Value]) -> Result<Vec<Value>, AllocError>
    ensures { IfOk result (λ copies. map view copies.items ≡ map view items.now) }
{
    share_items(alloc, items, 0)
}

// The same items over the same nodes, in a vector that has room for more.
pub(crate) fn share_items(
    alloc: Global,
    items: &[Value],
    more: usize,
) -> Result<Vec<Value>, AllocError>
    ensures seen { IfOk result (λ copies. views copies.items ≡ views items.now) }
    ensures held { IfOk result (λ copies. items_held copies.items ≡ items_held items.now) }
{
    let mut copies = Vec::with_capacity(alloc, items.len().saturating_add(more))?;
    for item in items {
        copies.push_reserved(share(item)?);
    }
    Ok(copies)
}

// The items of one row and then those of another.
pub(crate) fn share_both(
    alloc: Global,
    first: &[Value],
    second: &[Value],
) -> Result<Vec<Value>, AllocError>
    ensures { IfOk result (λ copies. views copies.items ≡ views first.now ++ views second.now) }
{
    let mut copies = share_items(alloc, first, second.len())?;
    for item in second {
        copies.push(share(item)?)?;
    }
    Ok(copies)
}
