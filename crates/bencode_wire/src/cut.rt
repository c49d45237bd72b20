// What has come of a message.
ghost use Rattle.std.specs.Prelude.{◌≡◌, ◌<◌, ◌≤◌, true, vec_len, is_some, if◌then◌else◌};
ghost use Rattle.bencode_wire.specs.Inside.Cut.{greatest};
ghost use Rattle.bencode_wire.specs.Inside.NewKeys.{is_new};

use crate::ben::{Ben, Dictionary};
use crate::fault::WireFaultKind;

#[derive(Drop)]
pub(crate) struct Reader {
    pub(crate) frames: Frames,
    pub(crate) token: Token,
    // What has come of the token where it is a string.
    pub(crate) string: Vec<u8>,
    pub(crate) mark: Mark,
}

// The token before the last piece, and how many bytes had come of it where it is a string.
#[derive(Clone, Copy)]
pub(crate) struct Mark {
    pub(crate) token: Token,
    pub(crate) come: usize,
}

// The lists and dictionaries that are open.
#[derive(Drop)]
pub(crate) struct Frames {
    // Those that were open before the last piece, the innermost last. Behind the first `live` are
    // shells of those that ended in it.
    pub(crate) settled: Vec<OpenContainer>,
    pub(crate) live: usize,
    // The outermost of them, where the message ended in the last piece.
    pub(crate) ended: Option<OpenContainer>,
    // What the last piece did to the others, oldest first.
    pub(crate) changes: Vec<Change>,
    // Those that were opened since, the innermost last.
    pub(crate) fresh: Vec<OpenContainer>,
    ghost within: { live ≤ vec_len settled },
    ghost ended_alone: { (if is_some ended then live else 0) ≡ 0 },
}

// A change of what was open before the last piece.
#[derive(Drop)]
pub(crate) enum Change {
    // A value was put into the innermost.
    Put(Place),
    // The innermost ended, and was put into the one around it.
    Ended(Place),
}

// Where a value stands that was put last into a list or a dictionary.
#[derive(Drop)]
pub(crate) enum Place {
    Item,
    Key,
    // The value of this key.
    Value(Vec<u8>),
}

// A list or a dictionary that is open, with what it holds so far.
#[derive(Drop)]
pub(crate) enum OpenContainer {
    List(Vec<Ben>),
    Dictionary(OpenDictionary),
}

#[derive(Drop)]
pub(crate) struct OpenDictionary {
    pub(crate) pairs: Dictionary,
    // The key whose value has to come. Without one a key may come, or the end.
    pub(crate) key: Option<Vec<u8>>,
    ghost key_is_new: { is_new pairs.entries key ≡ true },
}

// The part of a token that has come.
#[derive(Clone, Copy)]
pub(crate) enum Token {
    // Nothing: the last byte ended a token.
    Between,
    // `i`
    IntegerOpen,
    // `i-`
    IntegerMinus,
    IntegerDigits(PartOfInteger),
    // The digits of a string's length.
    Length(usize),
    String(PartOfString),
}

// Digits of an integer, behind a minus or not.
#[derive(Clone, Copy)]
pub(crate) struct PartOfInteger {
    pub(crate) is_negative: bool,
    pub(crate) value: u64,
    ghost in_range: { value ≤ greatest is_negative },
}

// A string of which so many bytes are still to come, at least one.
#[derive(Clone, Copy)]
pub(crate) struct PartOfString {
    pub(crate) left: usize,
    ghost is_partial: { 0 < left },
}

// What a byte comes to.
#[derive(Drop)]
pub(crate) enum TokenProgress {
    Partial(Token),
    // A string of so many bytes, of which none has come.
    OpenString(Vec<u8>, PartOfString),
    Whole(Ben),
}

// A value that was not put anywhere, and why.
#[derive(Drop)]
pub(crate) struct Refused {
    pub(crate) kind: WireFaultKind,
    pub(crate) value: Ben,
}

// What may come between two tokens.
#[derive(Clone, Copy)]
pub(crate) enum Expected {
    Message,
    Value,
    ItemOrEnd,
    KeyOrEnd,
}

// The unfinished message, of which so many bytes have come.
#[derive(Drop)]
pub(crate) struct Unfinished {
    pub(crate) reader: Reader,
    pub(crate) come: usize,
}
