// Steps over a text whose first byte is known.
ghost use Rattle.std.specs.Prelude.{◌≡◌, ◌<◌, length, drop, slice_index};
ghost use Rattle.repl_reader.specs.Text.{character};

/// The text behind its first byte.
pub(crate) fn tail(text: &str) -> &str
    requires some { 0 < length text.now }
    requires ascii { slice_index text.now 0 < 128 }
    ensures { result.now ≡ drop 1 text.now }
{
    &text[1..]
}

/// The first character, or nothing at the end of a text.
#[tactic(auto, unfolding(crate::specs::Text::character))]
pub(crate) fn first_character(text: &str) -> &str
    ensures { result.now ≡ character text.now }
{
    let mut characters = text.chars();
    match characters.next() {
        Some(character) => &text[..character.len_utf8()],
        None => "",
    }
}
