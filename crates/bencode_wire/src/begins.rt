// The first byte of a token.
ghost use Rattle.bencode_wire.specs.Inside.Cut as cuts;
ghost use Rattle.bencode_wire.specs.Inside.Beginnings as beginnings;
ghost use Rattle.bencode_wire.specs.Inside.ByteSteps.{judged};
ghost use Rattle.bencode_wire.specs.Tree as tree;
ghost use Rattle.bencode_wire.specs.Spelling.{put_sorted};
ghost use Rattle.bencode_wire.specs.Inside.Reader.{open_view};
ghost use Rattle.bencode_wire.specs.Inside.Gives.{Yields};
ghost use Rattle.bencode_wire.specs.Inside.Undoing.{Undoable};

use crate::ben::Dictionary;
use crate::cut::{Expected, Frames, OpenContainer, OpenDictionary, Token, TokenProgress};
use crate::fault::WireFaultKind;
use crate::sign::Sign;
use std::alloc::Global;

pub(crate) fn begin(
    alloc: Global,
    frames: &mut Frames,
    sign: Sign,
) -> Result<TokenProgress, WireFaultKind>
    ensures yields { Yields (judged (beginnings.begin put_sorted (open_view frames.old) sign))
        (open_view frames.new) result }
    ensures undoable { Undoable frames.old frames.new }
{
    match frames.expected() {
        Expected::Message => begin_message(alloc, frames, sign),
        Expected::Value => begin_value(alloc, frames, sign),
        Expected::ItemOrEnd => begin_item(alloc, frames, sign),
        Expected::KeyOrEnd => begin_key(alloc, frames, sign),
    }
}

fn begin_message(
    alloc: Global,
    frames: &mut Frames,
    sign: Sign,
) -> Result<TokenProgress, WireFaultKind>
    ensures yields { Yields (judged (beginnings.begin_message (open_view frames.old) sign))
        (open_view frames.new) result }
    ensures undoable { Undoable frames.old frames.new }
{
    match sign {
        Sign::Dictionary => open_dictionary(alloc, frames),
        Sign::Integer | Sign::List | Sign::End | Sign::Minus | Sign::Colon => {
            Err(WireFaultKind::Malformed)
        }
        Sign::Digit(_) | Sign::Other => Err(WireFaultKind::Malformed),
    }
}

fn begin_value(
    alloc: Global,
    frames: &mut Frames,
    sign: Sign,
) -> Result<TokenProgress, WireFaultKind>
    ensures yields { Yields (judged (beginnings.begin_value (open_view frames.old) sign))
        (open_view frames.new) result }
    ensures undoable { Undoable frames.old frames.new }
{
    match sign {
        Sign::Integer => Ok(TokenProgress::Partial(Token::IntegerOpen)),
        Sign::List => frames.open(OpenContainer::List(Vec::new(alloc))),
        Sign::Dictionary => open_dictionary(alloc, frames),
        Sign::Digit(digit) => Ok(TokenProgress::Partial(Token::Length(usize::from(digit)))),
        Sign::End | Sign::Minus | Sign::Colon | Sign::Other => Err(WireFaultKind::Malformed),
    }
}

fn begin_item(
    alloc: Global,
    frames: &mut Frames,
    sign: Sign,
) -> Result<TokenProgress, WireFaultKind>
    ensures yields { Yields
        (judged (beginnings.begin_item put_sorted (open_view frames.old) sign))
        (open_view frames.new) result }
    ensures undoable { Undoable frames.old frames.new }
{
    match sign {
        Sign::End => frames.close(alloc),
        Sign::Integer | Sign::List | Sign::Dictionary | Sign::Digit(_) => {
            begin_value(alloc, frames, sign)
        }
        Sign::Minus | Sign::Colon | Sign::Other => Err(WireFaultKind::Malformed),
    }
}

fn begin_key(alloc: Global, frames: &mut Frames, sign: Sign) -> Result<TokenProgress, WireFaultKind>
    ensures yields { Yields
        (judged (beginnings.begin_key put_sorted (open_view frames.old) sign))
        (open_view frames.new) result }
    ensures undoable { Undoable frames.old frames.new }
{
    match sign {
        Sign::End => frames.close(alloc),
        Sign::Digit(digit) => Ok(TokenProgress::Partial(Token::Length(usize::from(digit)))),
        Sign::Integer | Sign::List | Sign::Dictionary => Err(WireFaultKind::Malformed),
        Sign::Minus | Sign::Colon | Sign::Other => Err(WireFaultKind::Malformed),
    }
}

fn open_dictionary(alloc: Global, frames: &mut Frames) -> Result<TokenProgress, WireFaultKind>
    ensures yields { Yields
        (judged (beginnings.opens (cuts.at_key tree.no_pairs) (open_view frames.old)))
        (open_view frames.new) result }
    ensures undoable { Undoable frames.old frames.new }
{
    let pairs = Dictionary::new(alloc);
    frames.open(OpenContainer::Dictionary(OpenDictionary { pairs, key: None }))
}
