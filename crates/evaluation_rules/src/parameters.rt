// Arguments of calls, and the names of functions of the program.
ghost use Rattle.std.specs.Prelude.{◌≡◌, [], map, IfOk, string_bytes};
ghost use Rattle.std.specs.Arc.{arc_str_bytes};
ghost use Rattle.special_forms.specs.Inside.Seen.{function_view};
ghost use Rattle.value_data.specs.Inside.View.{views};
ghost use Rattle.evaluation_rules.specs.Applying.{bound_to, full_name, get_arguments};

use repl_values::{Value, copy_text};
use special_forms::{Function, Locals};
use std::alloc::{AllocError, Global};
use std::collections::VecDeque;
use std::sync::ArcStr;

/// The arguments of `get` where a keyword is called with these values: the map, the keyword and
/// what comes behind the map. It fails only for want of memory.
#[tactic(auto, using(value_data::proofs::Views::value_views))]
pub fn get_arguments(name: ArcStr, mut values: Vec<Value>) -> Result<Vec<Value>, AllocError>
    ensures { IfOk result (λ args. views args.items
        ≡ get_arguments (arc_str_bytes name) (views values.items)) }
{
    if !values.is_empty() {
        values.insert(1, Value::Keyword(name))?;
    }
    Ok(values)
}

/// The name of a function behind that of its namespace. It fails only for want of memory.
pub fn full_name(alloc: Global, function: &Function) -> Result<String, AllocError>
    ensures { IfOk result (λ name. string_bytes name ≡ full_name (function_view function.now)) }
{
    let mut name = String::from_str(alloc, function.space.as_str())?;
    name.push_str("/")?;
    name.push_str(function.name.as_str())?;
    Ok(name)
}

/// Each parameter with its argument, the last in front. It fails only for want of memory.
pub fn bind_parameters(
    alloc: Global,
    params: &[ArcStr],
    values: Vec<Value>,
) -> Result<Locals, AllocError>
    ensures { IfOk result (λ locals. locals
        ≡ bound_to [] (map arc_str_bytes params.now) (views values.items)) }
{
    let mut values = VecDeque::from_vec(values);
    let mut locals = Locals::none(alloc);
    for name in params {
        let Some(value) = values.pop_front() else {
            return Ok(locals);
        };
        locals.bind(copy_text(name)?, value)?;
    }
    Ok(locals)
}
