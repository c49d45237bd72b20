// Tokens: the longest runs of characters that are neither white space nor delimiters.
ghost use Rattle.std.specs.Prelude.{◌≡◌, IfOk};
ghost use Rattle.std.specs.List.{position_or_len};
ghost use Rattle.value_data.specs.Inside.View.{view};
ghost use Rattle.repl_reader.specs.Text.{ends_token, token, after_token};
ghost use Rattle.repl_reader.specs.Token.{begins_number, without_sign, has_leading_zero};
ghost use Rattle.repl_reader.specs.Token.{integer_of, keyword_of, slashes, touches_slash};
ghost use Rattle.repl_reader.specs.Token.{is_symbol_text, symbol_of, word_of, named_datum};
ghost use Rattle.repl_reader.specs.Reading.{token_at, breaks};
ghost use Rattle.repl_reader.specs.Fault.{break_of};
ghost use Rattle.repl_reader.specs.Inside.View.{form_reading_view, IsValue};

use crate::blank::ends_token;
use crate::fault::{FaultKind, break_with};
use crate::reading::FormReading;
use crate::text::tail;
use repl_values::Value;
use std::alloc::{AllocError, Global};
use std::sync::ArcStr;

/// How many bytes the token has that stands at the front.
fn token_len(text: &str) -> usize
    ensures { result ≡ position_or_len ends_token text.now }
{
    let bytes = text.as_bytes();
    for (i, byte) in bytes.iter().enumerate() {
        if ends_token(*byte) {
            return i;
        }
    }
    bytes.len()
}

/// The token at the front, and the rest.
fn split_token(text: &str) -> (&str, &str)
    ensures front { result.0.now ≡ token text.now }
    ensures back { result.1.now ≡ after_token text.now }
{
    text.split_at(token_len(text))
}

/// Reads the token at the front.
#[tactic(auto, unfolding(crate::specs::Reading::token_at))]
pub(crate) fn read_token(alloc: Global, text: &str) -> Result<FormReading<'_>, AllocError>
    ensures { IfOk result (λ r. form_reading_view r ≡ token_at text.now) }
{
    let (token, rest) = split_token(text);
    if begins_number(token) {
        return match integer_of(token) {
            Some(number) => Ok(FormReading::Form(Value::Int(number), rest)),
            None => refuse(alloc, FaultKind::BadNumber, text.len(), token),
        };
    }
    match named_value(alloc, token)? {
        Some(value) => Ok(FormReading::Form(value, rest)),
        None => refuse(alloc, FaultKind::BadToken, text.len(), token),
    }
}

fn refuse(
    alloc: Global,
    kind: FaultKind,
    left: usize,
    token: &str,
) -> Result<FormReading<'static>, AllocError>
    ensures { IfOk result (λ r. form_reading_view r ≡ breaks (break_of kind left token.now)) }
{
    Ok(FormReading::Broken(break_with(alloc, kind, left, token)?))
}

/// Whether the token begins with a digit, or with a sign and a digit.
#[tactic(auto, unfolding(crate::specs::Token::begins_number))]
fn begins_number(token: &str) -> bool
    ensures { result ≡ begins_number token.now }
{
    match token.as_bytes() {
        [b'+' | b'-', second, ..] => second.is_ascii_digit(),
        [first, ..] => first.is_ascii_digit(),
        [] => false,
    }
}

/// The token behind its sign, if it has one.
fn without_sign(token: &[u8]) -> &[u8]
    ensures { result.now ≡ without_sign token.now }
{
    match token {
        [b'+' | b'-', digits @ ..] => digits,
        _ => token,
    }
}

/// Whether a zero stands before other digits.
fn has_leading_zero(digits: &[u8]) -> bool
    ensures { result ≡ has_leading_zero digits.now }
{
    matches!(digits, [b'0', _, ..])
}

#[tactic(auto, unfolding(crate::specs::Token::integer_of))]
fn integer_of(token: &str) -> Option<i64>
    ensures { result ≡ integer_of token.now }
{
    if has_leading_zero(without_sign(token.as_bytes())) {
        return None;
    }
    token.parse::<i64>().ok()
}

/// The value of a token that is no number, if it has one.
#[tactic(auto, unfolding(crate::specs::Token::named_datum))]
fn named_value(alloc: Global, token: &str) -> Result<Option<Value>, AllocError>
    ensures { IfOk result (λ v. IsValue v (named_datum token.now)) }
{
    if token == "nil" {
        Ok(Some(Value::Nil))
    } else if token == "true" {
        Ok(Some(Value::Bool(true)))
    } else if token == "false" {
        Ok(Some(Value::Bool(false)))
    } else {
        word_of(alloc, token)
    }
}

#[tactic(auto, unfolding(crate::specs::Token::word_of))]
fn word_of(alloc: Global, token: &str) -> Result<Option<Value>, AllocError>
    ensures { IfOk result (λ v. IsValue v (word_of token.now)) }
{
    match token.as_bytes() {
        [b':', ..] => keyword_of(alloc, tail(token)),
        _ => symbol_of(alloc, token),
    }
}

#[tactic(auto, unfolding(crate::specs::Token::keyword_of))]
fn keyword_of(alloc: Global, name: &str) -> Result<Option<Value>, AllocError>
    ensures { IfOk result (λ v. IsValue v (keyword_of name.now)) }
{
    match name.as_bytes() {
        [] | [b':', ..] => Ok(None),
        _ => Ok(Some(Value::Keyword(ArcStr::from_str(alloc, name)?))),
    }
}

#[tactic(auto, unfolding(crate::specs::Token::symbol_of))]
fn symbol_of(alloc: Global, token: &str) -> Result<Option<Value>, AllocError>
    ensures { IfOk result (λ v. IsValue v (symbol_of token.now)) }
{
    if is_symbol_text(token.as_bytes()) {
        Ok(Some(Value::Symbol(ArcStr::from_str(alloc, token)?)))
    } else {
        Ok(None)
    }
}

/// Whether the token is a slash, or has none, or has one with something on both sides.
#[tactic(auto, unfolding(crate::specs::Token::is_symbol_text))]
fn is_symbol_text(token: &[u8]) -> bool
    ensures { result ≡ is_symbol_text token.now }
{
    match count_slashes(token) {
        0 => true,
        1 => token.len() == 1 || !touches_slash(token),
        _ => false,
    }
}

fn count_slashes(token: &[u8]) -> usize
    ensures { result ≡ slashes token.now }
{
    let mut count = 0;
    for byte in token {
        if *byte == b'/' {
            count += 1;
        }
    }
    count
}

fn touches_slash(token: &[u8]) -> bool
    ensures { result ≡ touches_slash token.now }
{
    token.first() == Some(&b'/') || token.last() == Some(&b'/')
}
