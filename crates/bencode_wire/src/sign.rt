// What a byte may mean outside a string.
ghost use Rattle.std.specs.Prelude.{◌≡◌};

#[derive(Clone, Copy)]
pub(crate) enum Sign {
    Integer,
    List,
    Dictionary,
    End,
    Minus,
    Colon,
    Digit(u8),
    Other,
}

impl Sign {
    ghost use Rattle.bencode_wire.specs.Inside.Sign.{sign_of};

    pub(crate) fn of(byte: u8) -> Sign
        ensures { result ≡ sign_of byte }
    {
        match byte {
            b'i' => Sign::Integer,
            b'l' => Sign::List,
            b'd' => Sign::Dictionary,
            b'e' => Sign::End,
            b'-' => Sign::Minus,
            b':' => Sign::Colon,
            b'0'..=b'9' => Sign::Digit(byte - b'0'),
            _ => Sign::Other,
        }
    }
}
