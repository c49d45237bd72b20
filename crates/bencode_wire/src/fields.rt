// The fields of a dictionary.
ghost use Rattle.std.specs.Prelude.{◌≡◌, ℕ, List, None, OnOk, OnErr, option_map, if◌then◌else◌};
ghost use Rattle.std.specs.Str.{bytes_eq};
ghost use Rattle.bencode_wire.specs.Spelling.{put_sorted};
ghost use Rattle.bencode_wire.specs.Tree.{field};
ghost use Rattle.bencode_wire.specs.Inside.View.{tree_view, entries_view};

use crate::ben::{Ben, Dictionary};
use std::alloc::AllocError;

/// Puts a value under a key, in place of one that stands there. After want of memory the fields are
/// as they were.
pub fn put_field(fields: &mut Dictionary, key: Vec<u8>, value: Ben) -> Result<(), AllocError>
    ensures ok { OnOk result (entries_view fields.new.entries
        ≡ put_sorted (entries_view fields.old.entries) key.items (tree_view value)) }
    ensures err { OnErr result (fields.new.entries ≡ fields.old.entries) }
{
    drop(fields.insert(key, value)?);
    Ok(())
}

/// Takes the value under a key out. It takes no memory.
pub fn take_field(fields: &mut Dictionary, key: &[u8]) -> Option<Ben>
    ensures value { option_map tree_view result ≡ field key.now (entries_view fields.old.entries) }
    ensures others { (other : List ℕ) → field other (entries_view fields.new.entries)
        ≡ (if bytes_eq other key.now then None else field other (entries_view fields.old.entries)) }
{
    fields.remove(key)
}
