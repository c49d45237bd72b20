// White space and comments.
ghost use Rattle.std.specs.Prelude.{◌≡◌};
ghost use Rattle.repl_reader.specs.Text.{is_white, is_delimiter, ends_token, bare};

/// A comma counts as white space.
#[tactic(auto, unfolding(crate::specs::Text::is_white))]
fn is_white(byte: u8) -> bool
    ensures { result ≡ is_white byte }
{
    matches!(byte, b' ' | b'\t' | b'\n' | b'\r' | 12 | b',')
}

#[tactic(auto, unfolding(crate::specs::Text::is_delimiter))]
fn is_delimiter(byte: u8) -> bool
    ensures { result ≡ is_delimiter byte }
{
    matches!(
        byte,
        b'(' | b')' | b'[' | b']' | b'{' | b'}' | b'"' | b';' | b'@' | b'^' | b'~' | b'\\' | b'`'
    )
}

#[tactic(auto, unfolding(crate::specs::Text::ends_token))]
pub(crate) fn ends_token(byte: u8) -> bool
    ensures { result ≡ ends_token byte }
{
    is_white(byte) || is_delimiter(byte)
}

/// The text from the first byte on that is neither white space nor inside a comment.
pub(crate) fn skip_blank(text: &str) -> &str
    ensures { result.now ≡ bare text.now }
{
    let mut comment = false;
    for (i, byte) in text.as_bytes().iter().enumerate() {
        if comment {
            comment = *byte != b'\n';
        } else if *byte == b';' {
            comment = true;
        } else if !is_white(*byte) {
            return &text[i..];
        }
    }
    ""
}
