// The digits of integers and of lengths.
ghost use Rattle.std.specs.Prelude.{◌≡◌, ℕ, ◌≤◌, ◌+◌, ◌*◌, List, Some, None, nat_le, if◌then◌else◌};
ghost use Rattle.bencode_wire.specs.Inside.Cut as cuts;
ghost use Rattle.bencode_wire.specs.Inside.ByteEffects as effects;
ghost use Rattle.bencode_wire.specs.Inside.ByteSteps.{judged};
ghost use Rattle.bencode_wire.specs.Spelling.{put_sorted};
ghost use Rattle.bencode_wire.specs.Inside.Reader.{open_view, token_view};
ghost use Rattle.bencode_wire.specs.Inside.Gives.{Yields};
ghost use Rattle.bencode_wire.specs.Inside.Undoing.{Undoable};

use crate::ben::Ben;
use crate::cut::{Frames, PartOfInteger, PartOfString, Token, TokenProgress};
use crate::fault::WireFaultKind;
use crate::sign::Sign;
use std::alloc::Global;

// Behind `i`: a minus or the first digit.
pub(crate) fn integer_open(sign: Sign) -> Result<TokenProgress, WireFaultKind>
    ensures { (fs : List cuts.OpenContainer)
        → Yields (judged (effects.integer_open fs sign)) fs result }
{
    match sign {
        Sign::Minus => Ok(TokenProgress::Partial(Token::IntegerMinus)),
        Sign::Digit(digit) => Ok(TokenProgress::Partial(integer_part(false, u64::from(digit)))),
        Sign::Integer | Sign::List | Sign::Dictionary => Err(WireFaultKind::Malformed),
        Sign::End | Sign::Colon | Sign::Other => Err(WireFaultKind::Malformed),
    }
}

// Behind `i-`: a digit that is not zero.
pub(crate) fn integer_minus(sign: Sign) -> Result<TokenProgress, WireFaultKind>
    ensures { (fs : List cuts.OpenContainer)
        → Yields (judged (effects.integer_minus fs sign)) fs result }
{
    match sign {
        Sign::Digit(digit) => {
            if digit == 0 {
                Err(WireFaultKind::Malformed)
            } else {
                Ok(TokenProgress::Partial(integer_part(true, u64::from(digit))))
            }
        }
        Sign::Integer | Sign::List | Sign::Dictionary => Err(WireFaultKind::Malformed),
        Sign::End | Sign::Minus | Sign::Colon | Sign::Other => Err(WireFaultKind::Malformed),
    }
}

// Behind a digit of an integer: another digit, unless the number is zero, or the end.
pub(crate) fn integer_digits(
    alloc: Global,
    frames: &mut Frames,
    part: PartOfInteger,
    sign: Sign,
) -> Result<TokenProgress, WireFaultKind>
    ensures yields { Yields (judged (effects.integer_digits put_sorted
        (open_view frames.old) part.is_negative part.value sign))
        (open_view frames.new) result }
    ensures undoable { Undoable frames.old frames.new }
{
    let PartOfInteger { is_negative, value } = part;
    match sign {
        Sign::End => {
            let value = integer_with_sign(is_negative, value);
            frames.put_whole(alloc, Ben::Integer(value))
        },
        Sign::Digit(digit) => more_digits(is_negative, value, digit),
        Sign::Integer | Sign::List | Sign::Dictionary => Err(WireFaultKind::Malformed),
        Sign::Minus | Sign::Colon | Sign::Other => Err(WireFaultKind::Malformed),
    }
}

fn more_digits(is_negative: bool, value: u64, digit: u8) -> Result<TokenProgress, WireFaultKind>
    ensures { (fs : List cuts.OpenContainer) → Yields
        (judged (effects.more_digits fs is_negative value digit)) fs result }
{
    if value == 0 {
        return Err(WireFaultKind::Malformed);
    }
    match with_digit(value, digit, greatest(is_negative)) {
        None => Err(WireFaultKind::Malformed),
        Some(value) => Ok(TokenProgress::Partial(integer_part(is_negative, value))),
    }
}

fn integer_part(is_negative: bool, value: u64) -> Token
    requires { value ≤ cuts.greatest is_negative }
    ensures { (string : List ℕ) → token_view string result ≡ cuts.digits is_negative value }
{
    Token::IntegerDigits(PartOfInteger { is_negative, value })
}

// The greatest number behind no minus, and behind one.
fn greatest(is_negative: bool) -> u64
    ensures { result ≡ cuts.greatest is_negative }
{
    if is_negative {
        9_223_372_036_854_775_808
    } else {
        9_223_372_036_854_775_807
    }
}

// The number with one more digit, unless it passes the greatest.
fn with_digit(value: u64, digit: u8, greatest: u64) -> Option<u64>
    ensures { result ≡ (if nat_le (10 * value + digit) greatest then Some (10 * value + digit)
        else None) }
{
    let longer = value.checked_mul(10)?.checked_add(u64::from(digit))?;
    if longer <= greatest {
        Some(longer)
    } else {
        None
    }
}

// The integer of these digits.
fn integer_with_sign(is_negative: bool, value: u64) -> i64
    requires { value ≤ cuts.greatest is_negative }
    ensures { result ≡ effects.integer_with_sign is_negative value }
{
    if is_negative {
        -(value.saturating_sub(1) as i64) - 1
    } else {
        value as i64
    }
}

// Behind a digit of a string's length: another digit, unless the length is zero, or the colon.
pub(crate) fn length_digits(
    alloc: Global,
    frames: &mut Frames,
    len: usize,
    sign: Sign,
) -> Result<TokenProgress, WireFaultKind>
    ensures yields { Yields (judged (effects.length_digits put_sorted
        (open_view frames.old) len sign)) (open_view frames.new) result }
    ensures undoable { Undoable frames.old frames.new }
{
    match sign {
        Sign::Colon => open_string(alloc, frames, len),
        Sign::Digit(digit) => more_length(len, digit),
        Sign::Integer | Sign::List | Sign::Dictionary => Err(WireFaultKind::Malformed),
        Sign::End | Sign::Minus | Sign::Other => Err(WireFaultKind::Malformed),
    }
}

fn more_length(len: usize, digit: u8) -> Result<TokenProgress, WireFaultKind>
    ensures { (fs : List cuts.OpenContainer) → Yields (judged (effects.more_length fs len digit)) fs
        result }
{
    if len == 0 {
        return Err(WireFaultKind::Malformed);
    }
    match with_digit(len as u64, digit, u64::MAX) {
        Some(len) => Ok(TokenProgress::Partial(Token::Length(len as usize))),
        // It is above each limit.
        None => Err(WireFaultKind::TooLong),
    }
}

fn open_string(
    alloc: Global,
    frames: &mut Frames,
    len: usize,
) -> Result<TokenProgress, WireFaultKind>
    ensures yields { Yields (judged (effects.open_string put_sorted (open_view frames.old) len))
        (open_view frames.new) result }
    ensures undoable { Undoable frames.old frames.new }
{
    if len == 0 {
        frames.put_whole(alloc, Ben::String(Vec::new(alloc)))
    } else {
        let bytes = Vec::with_capacity(alloc, len)?;
        Ok(TokenProgress::OpenString(bytes, PartOfString { left: len }))
    }
}
