// Forms that are names, and the names of parameters.
ghost use Rattle.std.specs.Prelude.{◌≡◌, IfOk, option_map, map};
ghost use Rattle.std.specs.Arc.{arc_str_bytes};
ghost use Rattle.value_data.specs.Listed.{listed};
ghost use Rattle.value_data.specs.Inside.View.{view, views};
ghost use Rattle.special_forms.specs.Kinds as kinds;
ghost use Rattle.special_forms.specs.Parameters as meant;

use repl_values::{Sequence, Value, copy_text, first_repeated};
use std::alloc::{AllocError, Global};
use std::sync::ArcStr;

// The names of the parameters that a function has, if they are such.
pub(crate) fn parameters_in(
    alloc: Global,
    items: &Sequence,
) -> Result<Option<Vec<ArcStr>>, AllocError>
    ensures { IfOk result (λ found. option_map (λ names. map arc_str_bytes names.items) found
        ≡ meant.parameters (listed items.now.items)) }
{
    let items = items.copies(alloc)?;
    parameters_of(alloc, items.as_slice())
}

// The names of parameters, which are distinct.
#[tactic(auto, unfolding(crate::specs::Parameters::parameters))]
fn parameters_of(alloc: Global, items: &[Value]) -> Result<Option<Vec<ArcStr>>, AllocError>
    ensures { IfOk result (λ found. option_map (λ names. map arc_str_bytes names.items) found
        ≡ meant.parameters (views items.now)) }
{
    if first_repeated(alloc, items)?.is_some() {
        return Ok(None);
    }
    parameter_names(alloc, items)
}

fn parameter_names(alloc: Global, items: &[Value]) -> Result<Option<Vec<ArcStr>>, AllocError>
    ensures { IfOk result (λ found. option_map (λ names. map arc_str_bytes names.items) found
        ≡ meant.parameter_names (views items.now)) }
{
    let mut names = Vec::new(alloc);
    for item in items {
        let Some(name) = parameter_name(item) else {
            return Ok(None);
        };
        names.push(copy_text(name)?)?;
    }
    Ok(Some(names))
}

// A symbol without a slash, other than `&`.
fn parameter_name(item: &Value) -> Option<&ArcStr>
    ensures { option_map (λ name. arc_str_bytes name.now) result
        ≡ meant.parameter_name (view item.now) }
{
    let name = simple_symbol(item)?;
    if name.as_str() == "&" {
        return None;
    }
    Some(name)
}

// The name that a form is, if it is a symbol without a slash.
#[tactic(auto, unfolding(crate::specs::Kinds::simple_name))]
pub(crate) fn simple_symbol(form: &Value) -> Option<&ArcStr>
    ensures { option_map (λ name. arc_str_bytes name.now) result
        ≡ kinds.simple_name (view form.now) }
{
    without_slash(symbol(form)?)
}

// The name that a form is, if it is a symbol.
#[tactic(auto, using(crate::proofs::Shaping::seen), unfolding(crate::specs::Kinds::symbol_name))]
pub(crate) fn symbol(form: &Value) -> Option<&ArcStr>
    ensures { option_map (λ name. arc_str_bytes name.now) result
        ≡ kinds.symbol_name (view form.now) }
{
    match form {
        Value::Symbol(name) => Some(name),
        _other => None,
    }
}

fn without_slash(name: &ArcStr) -> Option<&ArcStr>
    ensures { option_map (λ found. arc_str_bytes found.now) result
        ≡ kinds.without_slash (arc_str_bytes name.now) }
{
    if name.as_str().as_bytes().contains(&b'/') {
        return None;
    }
    Some(name)
}
