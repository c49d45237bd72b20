// The spelling of values, into a text.
#![tactic(auto, using(value_data::proofs::Nodes::node_steps, crate::proofs::Places::place_steps))]

ghost use Rattle.std.specs.Prelude.{◌≡◌, ◌++◌, OnOk, OnErr, string_bytes, codes, decimal};
ghost use Rattle.std.specs.Prelude.{encode_utf8};
ghost use Rattle.value_data.specs.Inside.View.{view, owner_view};
ghost use Rattle.repl_values.specs.Print.{print, display, spelled, texts, pair_texts, joined_by};
ghost use Rattle.repl_values.specs.Print.{escaped, ref_text};
ghost use Rattle.std.specs.Fmt.{signed_decimal};
ghost use Rattle.repl_values.specs.Inside.Style.{spelling_of};

use itoa::Buffer;
use std::alloc::{AllocError, Global};
use value_data::{Owner, RefName, Sequence, Table, Value};

/// How the strings inside a value are spelled.
#[derive(Clone, Copy)]
enum Strings {
    Quoted,
    Bare,
}

/// Appends the value as a reply shows it. After want of memory `out` is as it was.
pub fn print_into(alloc: Global, value: &Value, out: &mut String) -> Result<(), AllocError>
    ensures ok { OnOk result (string_bytes out.new
        ≡ string_bytes out.old ++ print (view value.now)) }
    ensures err { OnErr result (string_bytes out.new ≡ string_bytes out.old) }
{
    let mut text = String::new(alloc);
    spell(value, Strings::Quoted, &mut text)?;
    out.push_str(text.as_str())
}

/// Appends the value with each string as its bare characters, at every depth. After want of memory
/// `out` is as it was.
pub fn display_into(alloc: Global, value: &Value, out: &mut String) -> Result<(), AllocError>
    ensures ok { OnOk result (string_bytes out.new
        ≡ string_bytes out.old ++ display (view value.now)) }
    ensures err { OnErr result (string_bytes out.new ≡ string_bytes out.old) }
{
    let mut text = String::new(alloc);
    spell(value, Strings::Bare, &mut text)?;
    out.push_str(text.as_str())
}

#[cycle(spell)]
fn spell(value: &Value, strings: Strings, out: &mut String) -> Result<(), AllocError>
    ensures { OnOk result (string_bytes out.new
        ≡ string_bytes out.old ++ spelled (spelling_of strings) (view value.now)) }
{
    match value {
        Value::Nil => out.push_str("nil"),
        Value::Bool(true) => out.push_str("true"),
        Value::Bool(false) => out.push_str("false"),
        Value::Int(n) => push_integer(*n, out),
        Value::Str(text) => push_string(text.as_str(), strings, out),
        Value::Keyword(name) => push_two(":", name.as_str(), out),
        Value::Symbol(name) => out.push_str(name.as_str()),
        Value::List(items) => {
            out.push_str("(")?;
            spell_items(items, strings, out)?;
            out.push_str(")")
        }
        Value::Vector(items) => {
            out.push_str("[")?;
            spell_items(items, strings, out)?;
            out.push_str("]")
        }
        Value::Map(pairs) => {
            out.push_str("{")?;
            spell_pairs(pairs, strings, out)?;
            out.push_str("}")
        }
        Value::Ref(name) => push_ref(*name, out),
        Value::Atom(number) => push_number("#atom[", *number, out),
        Value::Agent(number) => push_number("#agent[", *number, out),
        Value::Var { space, name } => {
            push_two("#'", space.as_str(), out)?;
            push_two("/", name.as_str(), out)
        }
        Value::Fault { class, text } => {
            push_two("#error{", class.as_str(), out)?;
            push_two(": ", text.as_str(), out)?;
            out.push_str("}")
        }
    }
}

#[cycle(spell)]
fn spell_items(items: &Sequence, strings: Strings, out: &mut String) -> Result<(), AllocError>
    ensures { OnOk result (string_bytes out.new ≡ string_bytes out.old
        ++ joined_by (codes " ") (texts (spelling_of strings) items.now.items)) }
{
    if items.is_empty() {
        return Ok(());
    }
    spell(items.at(0), strings, out)?;
    for place in 1..items.len() {
        out.push_str(" ")?;
        spell(items.at(place), strings, out)?;
    }
    Ok(())
}

#[cycle(spell)]
fn spell_pairs(pairs: &Table, strings: Strings, out: &mut String) -> Result<(), AllocError>
    ensures { OnOk result (string_bytes out.new ≡ string_bytes out.old
        ++ joined_by (codes ", ") (pair_texts (spelling_of strings) pairs.now.pairs)) }
{
    let keys = pairs.keys();
    let values = pairs.values();
    if pairs.len() == 0 {
        return Ok(());
    }
    spell(keys.at(0), strings, out)?;
    out.push_str(" ")?;
    spell(values.at(0), strings, out)?;
    for place in 1..pairs.len() {
        out.push_str(", ")?;
        spell(keys.at(place), strings, out)?;
        out.push_str(" ")?;
        spell(values.at(place), strings, out)?;
    }
    Ok(())
}

fn push_two(before: &str, text: &str, out: &mut String) -> Result<(), AllocError>
    ensures { OnOk result (string_bytes out.new
        ≡ string_bytes out.old ++ (before.now ++ text.now)) }
{
    out.push_str(before)?;
    out.push_str(text)
}

fn push_integer(n: i64, out: &mut String) -> Result<(), AllocError>
    ensures { OnOk result (string_bytes out.new ≡ string_bytes out.old ++ signed_decimal n) }
{
    let mut digits = Buffer::new();
    out.push_str(digits.format(n))
}

// A number in brackets behind the word that opens them.
fn push_number(opening: &str, number: u64, out: &mut String) -> Result<(), AllocError>
    ensures { OnOk result (string_bytes out.new ≡ string_bytes out.old
        ++ (opening.now ++ decimal number ++ codes "]")) }
{
    let mut digits = Buffer::new();
    out.push_str(opening)?;
    out.push_str(digits.format(number))?;
    out.push_str("]")
}

fn push_ref(name: RefName, out: &mut String) -> Result<(), AllocError>
    ensures { OnOk result (string_bytes out.new
        ≡ string_bytes out.old ++ ref_text (owner_view name.owner) name.number) }
{
    match name.owner {
        Owner::Shared => push_number("#ref[shared/", name.number, out),
        Owner::Tenant(_) => push_number("#ref[", name.number, out),
    }
}

fn push_string(text: &str, strings: Strings, out: &mut String) -> Result<(), AllocError>
    ensures { OnOk result (string_bytes out.new
        ≡ string_bytes out.old ++ spelling_of strings text.now) }
{
    match strings {
        Strings::Bare => out.push_str(text),
        Strings::Quoted => {
            out.push_str("\"")?;
            push_escaped(text, out)?;
            out.push_str("\"")
        }
    }
}

fn push_escaped(text: &str, out: &mut String) -> Result<(), AllocError>
    ensures { OnOk result (string_bytes out.new ≡ string_bytes out.old ++ escaped text.now) }
{
    for c in text.chars() {
        push_escaped_char(c, out)?;
    }
    Ok(())
}

fn push_escaped_char(c: char, out: &mut String) -> Result<(), AllocError>
    ensures { OnOk result (string_bytes out.new ≡ string_bytes out.old ++ escaped (encode_utf8 c)) }
{
    match c {
        '"' => out.push_str("\\\""),
        '\\' => out.push_str("\\\\"),
        '\n' => out.push_str("\\n"),
        '\t' => out.push_str("\\t"),
        '\r' => out.push_str("\\r"),
        '\u{c}' => out.push_str("\\f"),
        '\u{8}' => out.push_str("\\b"),
        _ => out.push(c),
    }
}
