// What the functions that print add to the printed text. Arguments share what they hold, so a few
// of them may print more than memory has: a text that is too long already is not put together
// further.
#![tactic(auto, using(crate::proofs::Shortness::short_steps))]

ghost use Rattle.std.specs.Prelude.{◌≡◌, ◌++◌, IfOk, OnOk, map, option_map, string_bytes};
ghost use Rattle.value_data.specs.Inside.View.{view};
ghost use Rattle.core_scalars.specs.Limits.{if_short};
ghost use Rattle.core_scalars.specs.Printing as meant;
ghost use Rattle.core_scalars.specs.Inside.Spelling.{text_spelled};

use crate::text_function::PrintFunction;
use repl_values::{MOST_TEXT, Value, display_into, print_into};
use std::alloc::{AllocError, Global};

// How a value is spelled: as a reply shows it, or with each string as its characters.
#[derive(Clone, Copy)]
pub(crate) enum Spelling {
    Print,
    Display,
}

/// The text that the function prints, or none where it is longer than 1,048,576 bytes. It fails
/// only for want of memory.
pub fn text_printed(
    alloc: Global,
    function: PrintFunction,
    args: &[Value],
) -> Result<Option<String>, AllocError>
    ensures { IfOk result (λ text. option_map string_bytes text
        ≡ if_short (meant.text_printed function (map view args.now))) }
{
    match function {
        PrintFunction::Print => spaced_text(alloc, Spelling::Display, args),
        PrintFunction::Println => line(alloc, Spelling::Display, args),
        PrintFunction::Pr => spaced_text(alloc, Spelling::Print, args),
        PrintFunction::Prn => line(alloc, Spelling::Print, args),
    }
}

fn line(alloc: Global, spelling: Spelling, values: &[Value]) -> Result<Option<String>, AllocError>
    ensures { IfOk result (λ text. option_map string_bytes text
        ≡ if_short (meant.spaced_text (text_spelled spelling) (map view values.now)
        ++ meant.newline)) }
{
    let Some(mut text) = spaced_text(alloc, spelling, values)? else {
        return Ok(None);
    };
    text.push_str("\n")?;
    Ok(if_short(text))
}

pub(crate) fn if_short(text: String) -> Option<String>
    ensures { option_map string_bytes result ≡ if_short (string_bytes text) }
{
    if text.len() > MOST_TEXT {
        None
    } else {
        Some(text)
    }
}

// The spelling of each value, joined by a space.
pub(crate) fn spaced_text(
    alloc: Global,
    spelling: Spelling,
    values: &[Value],
) -> Result<Option<String>, AllocError>
    ensures { IfOk result (λ text. option_map string_bytes text
        ≡ if_short (meant.spaced_text (text_spelled spelling) (map view values.now))) }
{
    let mut text = String::new(alloc);
    let Some((first, rest)) = values.split_first() else {
        return Ok(Some(text));
    };
    spell_into(alloc, spelling, first, &mut text)?;
    for value in rest {
        if text.len() > MOST_TEXT {
            return Ok(None);
        }
        text.push_str(" ")?;
        spell_into(alloc, spelling, value, &mut text)?;
    }
    Ok(if_short(text))
}

fn spell_into(
    alloc: Global,
    spelling: Spelling,
    value: &Value,
    out: &mut String,
) -> Result<(), AllocError>
    ensures { OnOk result (string_bytes out.new
        ≡ string_bytes out.old ++ text_spelled spelling (view value.now)) }
{
    match spelling {
        Spelling::Print => print_into(alloc, value, out),
        Spelling::Display => display_into(alloc, value, out),
    }
}
