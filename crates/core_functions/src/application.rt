// Applying a function to values.
ghost use Rattle.std.specs.Prelude.{◌≡◌, true, length, map, option_map, string_bytes};
ghost use Rattle.value_data.specs.Inside.View.{view};
ghost use Rattle.core_functions.specs.Names.{fits};
ghost use Rattle.core_functions.specs.ApplyOutcome.{limited_outcome, bounded_outcome, printed_nil};
ghost use Rattle.core_functions.specs.Meaning.{meaning};
ghost use Rattle.core_functions.specs.Inside.View.{GivesOutcome};

use crate::function::CoreFunction;
use core_collections::{apply_maps, apply_sequences};
use core_scalars::{apply_integers, apply_predicates, apply_texts, text_printed};
use repl_values::{
    ApplyError, MOST_NESTING, MOST_WEIGHT, Value, nesting, output_too_long, too_large, weight,
};
use std::alloc::Global;

/// What a function gave, and the text that it printed.
#[derive(Debug, Drop)]
pub struct Applied {
    pub value: Value,
    pub text: String,
}

/// Applies the function. All arguments' kinds are checked from the left before anything else, and
/// the size of the value last. A function that prints gives nil, and fails where it alone prints
/// more than 1,048,576 bytes.
#[tactic(auto, using(crate::proofs::Outcomes::outcomes), unfolding(crate::specs::ApplyOutcome::apply_outcome))]
pub fn apply(alloc: Global, function: CoreFunction, args: &[Value]) -> Result<Applied, ApplyError>
    requires { fits function (length args.now) ≡ true }
    ensures { GivesOutcome (bounded_outcome (meaning function (map view args.now))) result }
{
    match function {
        CoreFunction::Integer(function) => {
            let value = apply_integers(alloc, function, args)?;
            limited_value(alloc, value)
        }
        CoreFunction::Predicate(function) => {
            let value = apply_predicates(alloc, function, args)?;
            limited_value(alloc, value)
        }
        CoreFunction::Text(function) => {
            let value = apply_texts(alloc, function, args)?;
            limited_value(alloc, value)
        }
        CoreFunction::Sequence(function) => {
            let value = apply_sequences(alloc, function, args)?;
            limited_value(alloc, value)
        }
        CoreFunction::Map(function) => {
            let value = apply_maps(alloc, function, args)?;
            limited_value(alloc, value)
        }
        CoreFunction::Print(function) => {
            let text = text_printed(alloc, function, args)?;
            printed_nil(alloc, text)
        }
    }
}

// Nil, with this text printed, where there is one.
#[tactic(auto, using(value_data::proofs::Views::value_views))]
fn printed_nil(alloc: Global, text: Option<String>) -> Result<Applied, ApplyError>
    ensures { GivesOutcome (printed_nil (option_map string_bytes text)) result }
{
    match text {
        Some(text) => Ok(Applied {
            value: Value::Nil,
            text,
        }),
        None => Err(ApplyError::Fault(output_too_long(alloc)?)),
    }
}

// The value with nothing printed, where it keeps within the limits.
#[tactic(auto, unfolding(crate::specs::ApplyOutcome::limited_outcome))]
fn limited_value(alloc: Global, value: Value) -> Result<Applied, ApplyError>
    ensures { GivesOutcome (limited_outcome (view value)) result }
{
    if weight(&value) > MOST_WEIGHT || nesting(&value) > MOST_NESTING {
        return Err(ApplyError::Fault(too_large(alloc)?));
    }
    let text = String::new(alloc);
    Ok(Applied { value, text })
}
