// Strings, from the quote on.
ghost use Rattle.std.specs.Prelude.{◌≡◌, ℕ, ◌<◌, ◌≤◌, List, [], ◌∷◌, ◌++◌, true, false};
ghost use Rattle.std.specs.Prelude.{MatchOption, IfOk, IfSome, length, slice_index};
ghost use Rattle.std.specs.List.{position_or_len};
ghost use Rattle.repl_reader.specs.Reading.{is_escape, escape, contents, string_of, breaks};
ghost use Rattle.repl_reader.specs.Reading.{bad_escape};
ghost use Rattle.repl_reader.specs.Inside.Quoted.{string_from, escape_from};
ghost use Rattle.repl_reader.specs.Inside.View.{form_reading_view};
ghost use Rattle.repl_reader.specs.Text.{ends_plain};

use crate::fault::{FaultKind, break_with};
use crate::reading::FormReading;
use crate::text::{first_character, tail};
use repl_values::Value;
use std::alloc::{AllocError, Global};
use std::sync::ArcStr;

/// Reads what follows an opening quote, up to the closing one.
pub(crate) fn read_string(alloc: Global, text: &str) -> Result<FormReading<'_>, AllocError>
    ensures { IfOk result (λ r. form_reading_view r ≡ string_of (contents text.now)) }
{
    let mut contents = String::new(alloc);
    let mut text = text;
    loop {
        let (plain, rest) = split_plain(text);
        contents.push_str(plain)?;
        match rest.as_bytes() {
            [] => return Ok(FormReading::Broken(break_with(alloc, FaultKind::Eof, 0, "")?)),
            [b'"', ..] => {
                let contents = ArcStr::from_string(contents)?;
                return Ok(FormReading::Form(Value::Str(contents), tail(rest)));
            }
            _ => {}
        }
        let escape = tail(rest);
        let Some((character, after)) = split_escape(escape) else {
            return refuse_escape(alloc, escape);
        };
        contents.push_str(character)?;
        text = after;
    }
}

/// The characters before the first quote or backslash, and the rest.
fn split_plain(text: &str) -> (&str, &str)
    ensures same { (s : List ℕ) → string_from (s ++ result.0.now) result.1.now
        ≡ string_from s text.now }
    ensures stops { 0 < length result.1.now → ends_plain (slice_index result.1.now 0) ≡ true }
    ensures shorter { length result.1.now ≤ length text.now }
{
    text.split_at(plain_len(text))
}

/// What an escape stands for, by the text behind its backslash, and the rest.
fn split_escape(text: &str) -> Option<(&'static str, &str)>
    ensures same { MatchOption result ((s : List ℕ)
        → escape_from s text.now ≡ breaks (bad_escape text.now))
        (λ p. (s : List ℕ) → string_from (s ++ p.0.now) p.1.now ≡ escape_from s text.now) }
    ensures shorter { IfSome result (λ p. length p.1.now < length text.now) }
{
    let [first, ..] = text.as_bytes() else {
        return None;
    };
    match escape_character(*first) {
        Some(character) => Some((character, tail(text))),
        None => None,
    }
}

/// The fault of a text behind a backslash.
#[tactic(auto, unfolding(crate::specs::Reading::bad_escape))]
fn refuse_escape(alloc: Global, text: &str) -> Result<FormReading<'static>, AllocError>
    ensures { IfOk result (λ r. form_reading_view r ≡ breaks (bad_escape text.now)) }
{
    if text.is_empty() {
        return Ok(FormReading::Broken(break_with(alloc, FaultKind::Eof, 0, "")?));
    }
    let found = first_character(text);
    Ok(FormReading::Broken(break_with(alloc, FaultKind::BadEscape, text.len() + 1, found)?))
}

/// How many bytes stand before the first quote or backslash.
fn plain_len(text: &str) -> usize
    ensures { result ≡ position_or_len ends_plain text.now }
{
    let bytes = text.as_bytes();
    for (i, byte) in bytes.iter().enumerate() {
        if *byte == b'"' || *byte == b'\\' {
            return i;
        }
    }
    bytes.len()
}

/// What an escape stands for, by the character after its backslash.
fn escape_character(byte: u8) -> Option<&'static str>
    ensures { MatchOption result (is_escape byte ≡ false)
        (λ s. (is_escape byte ≡ true) × (s.now ≡ escape byte ∷ [])) }
{
    match byte {
        b'"' => Some("\""),
        b'\\' => Some("\\"),
        b'n' => Some("\n"),
        b't' => Some("\t"),
        b'r' => Some("\r"),
        b'f' => Some("\u{c}"),
        b'b' => Some("\u{8}"),
        _ => None,
    }
}
