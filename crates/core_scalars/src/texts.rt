// Applying a function that gives a text.
ghost use Rattle.std.specs.Prelude.{◌≡◌, ◌++◌, Ok, true, length, map, option_map, flat_map, IfOk};
ghost use Rattle.std.specs.Prelude.{OnOk, OnErr, string_bytes};
ghost use Rattle.std.specs.Arc.{arc_str_bytes};
ghost use Rattle.value_data.specs.Datum.{string};
ghost use Rattle.value_data.specs.Inside.View.{view};
ghost use Rattle.repl_values.specs.Inside.FaultView.{Gives};
ghost use Rattle.core_scalars.specs.Limits.{if_short, light, within_weight};
ghost use Rattle.core_scalars.specs.TextNames.{fits_text_function};
ghost use Rattle.core_scalars.specs.TextMeaning as meant;

use crate::printing::{Spelling, if_short, spaced_text};
use crate::text_function::TextFunction;
use repl_values::{
    ApplyError, MOST_TEXT, MOST_WEIGHT, Value, copy_text, print_into, too_large, wrong_argument,
};
use std::alloc::{AllocError, Global};
use std::sync::ArcStr;

/// The function's value at as many arguments as it takes, or the fault of one that is too heavy. A
/// text that is too long already is not put together any further.
#[tactic(auto, using(crate::proofs::Shortness::short_steps), unfolding(crate::specs::TextMeaning::text_meaning))]
pub fn apply_texts(
    alloc: Global,
    function: TextFunction,
    args: &[Value],
) -> Result<Value, ApplyError>
    requires { fits_text_function function (length args.now) ≡ true }
    ensures { Gives view result (within_weight (meant.text_meaning function (map view args.now))) }
{
    match function {
        TextFunction::Str => value_of_text(alloc, all_shown(alloc, args)?),
        TextFunction::PrStr => value_of_text(alloc, spaced_text(alloc, Spelling::Print, args)?),
        TextFunction::Name => name_value(alloc, &args[0]),
    }
}

#[tactic(auto, using(crate::proofs::Shortness::short_steps), unfolding(crate::specs::TextMeaning::name_value))]
fn name_value(alloc: Global, value: &Value) -> Result<Value, ApplyError>
    ensures { Gives view result (within_weight (meant.name_value (view value.now))) }
{
    let name = name_in(alloc, value)?;
    string_of(alloc, name)
}

// The text, where it was short enough to be put together.
#[tactic(auto, using(crate::proofs::Shortness::short_steps))]
fn value_of_text(alloc: Global, text: Option<String>) -> Result<Value, ApplyError>
    ensures { Gives view result (light (option_map string_bytes text)) }
{
    match text {
        Some(text) => string_of(alloc, ArcStr::from_string(text)?),
        None => Err(ApplyError::Fault(too_large(alloc)?)),
    }
}

#[tactic(auto, using(crate::proofs::Shortness::short_steps))]
fn string_of(alloc: Global, text: ArcStr) -> Result<Value, ApplyError>
    ensures { Gives view result (within_weight (Ok (string (arc_str_bytes text)))) }
{
    if (text.len() as u64) < MOST_WEIGHT {
        return Ok(Value::Str(text));
    }
    Err(ApplyError::Fault(too_large(alloc)?))
}

#[tactic(auto, using(crate::proofs::Shortness::short_steps))]
fn all_shown(alloc: Global, values: &[Value]) -> Result<Option<String>, AllocError>
    ensures { IfOk result (λ text. option_map string_bytes text
        ≡ if_short (flat_map meant.shown_text (map view values.now))) }
{
    let mut text = String::new(alloc);
    for value in values {
        if text.len() > MOST_TEXT {
            return Ok(None);
        }
        show_into(alloc, value, &mut text)?;
    }
    Ok(if_short(text))
}

/// Appends nothing for nil, the characters of a string, and the print of all else. After want of
/// memory `out` is as it was.
#[tactic(auto, using(value_data::proofs::Views::value_views))]
pub fn show_into(alloc: Global, value: &Value, out: &mut String) -> Result<(), AllocError>
    ensures ok { OnOk result (string_bytes out.new
        ≡ string_bytes out.old ++ meant.shown_text (view value.now)) }
    ensures err { OnErr result (string_bytes out.new ≡ string_bytes out.old) }
{
    match value {
        Value::Nil => Ok(()),
        Value::Str(text) => out.push_str(text.as_str()),
        other => print_into(alloc, other, out),
    }
}

#[tactic(auto, using(value_data::proofs::Views::value_views))]
fn name_in(alloc: Global, value: &Value) -> Result<ArcStr, ApplyError>
    ensures { Gives arc_str_bytes result (meant.name_in (view value.now)) }
{
    match value {
        Value::Str(text) => Ok(copy_text(text)?),
        Value::Keyword(text) => Ok(ArcStr::from_str(alloc, local_part(text.as_str()))?),
        Value::Symbol(text) => Ok(ArcStr::from_str(alloc, local_part(text.as_str()))?),
        other => Err(ApplyError::Fault(wrong_argument(alloc, "name", other)?)),
    }
}

// What follows the first slash, or all of it; a slash alone is all of it.
#[tactic(auto, unfolding(crate::specs::TextMeaning::local_part))]
fn local_part(text: &str) -> &str
    ensures { result.now ≡ meant.local_part text.now }
{
    if text == "/" {
        return text;
    }
    match text.split_once('/') {
        Some((_, local)) => local,
        None => text,
    }
}
