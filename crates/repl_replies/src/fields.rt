// What the value of a field is read as.
ghost use Rattle.std.specs.Prelude.{◌≡◌, Some, None, if◌then◌else◌, option_map, string_bytes};
ghost use Rattle.std.specs.Str.{is_utf8};
ghost use Rattle.repl_replies.specs.Fields as meant;
ghost use Rattle.repl_replies.specs.Inside.View.{field_view};

use bencode_wire::Ben;

/// The value as text, if it is a string in UTF-8. It takes no memory.
pub(crate) fn text_of(value: Option<Ben>) -> Option<String>
    ensures { option_map string_bytes result ≡ meant.text_of (field_view value) }
{
    match value {
        Some(Ben::String(bytes)) => text_in(bytes),
        _other => None,
    }
}

fn text_in(bytes: Vec<u8>) -> Option<String>
    ensures { option_map string_bytes result
        ≡ (if is_utf8 bytes.items then Some bytes.items else None) }
{
    String::from_utf8(bytes).ok()
}
