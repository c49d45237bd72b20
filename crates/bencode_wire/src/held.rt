// How much of a token has come.
ghost use Rattle.std.specs.Prelude.{◌≡◌, ℕ, ◌≤◌, ◌++◌, List, length, decimal};
ghost use Rattle.bencode_wire.specs.Tree.{Tree};
ghost use Rattle.bencode_wire.specs.Inside.Cut.{token_text};
ghost use Rattle.bencode_wire.specs.Inside.Decoder.{ready_of, DecoderStands};
ghost use Rattle.bencode_wire.specs.Inside.Reader.{token_view};
ghost use Rattle.bencode_wire.specs.Stream.{Streams, rest};
ghost use Rattle.bencode_wire.specs.TokenPart.{HoldsOfToken};

use crate::cut::{Reader, Token};
use crate::decoder::Decoder;
use itoa::Buffer;

impl Decoder {
    /// How many bytes of the token that is partly read have come: 0 between two tokens. Behind a
    /// fault it means nothing. It takes no memory.
    pub fn held(&self) -> usize
        ensures { (limit : ℕ) (all : List ℕ) (taken : List Tree) (m : List ℕ)
            → DecoderStands limit self.now all taken
            → Streams limit 0 all (taken ++ ready_of self.now) (rest m) → HoldsOfToken m result }
    {
        self.message.reader.held()
    }
}

impl Reader {
    pub(crate) fn held(&self) -> usize
        ensures { result ≡ length (token_text (token_view self.now.string.items self.now.token)) }
    {
        match self.token {
            Token::Between => 0,
            Token::IntegerOpen => 1,
            Token::IntegerMinus => 2,
            Token::IntegerDigits(part) => {
                let sign = if part.is_negative { 2 } else { 1 };
                sign + digits_of(u128::from(part.value))
            }
            Token::Length(len) => digits_of(len as u128),
            Token::String(part) => {
                let come = self.string.len();
                digits_of(come as u128 + part.left as u128) + 1 + come
            }
        }
    }
}

// How many decimal digits a number has.
fn digits_of(n: u128) -> usize
    ensures is { result ≡ length (decimal n) }
    ensures short { result ≤ 40 }
{
    let mut digits = Buffer::new();
    digits.format(n).len()
}
