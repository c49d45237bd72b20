// Spelling a value. A dictionary's keys come sorted as raw bytes, which is the order of its map.
ghost use Rattle.std.specs.Prelude.{◌≡◌, ◌++◌, IfOk, OnOk, OnErr, codes, length, take};
ghost use Rattle.bencode_wire.specs.Inside.View.{tree_view, trees_view, entries_view};
ghost use Rattle.bencode_wire.specs.Spelling.{canonical, sorted_trees, put_tree_pairs, trees_text};
ghost use Rattle.bencode_wire.specs.Spelling.{pairs_text, string_text, integer_text, IsInteger};
ghost use Rattle.bencode_wire.specs.Spelling.{IsString, IsSpellable, AreSpellable, ArePairs};
ghost use Rattle.bencode_wire.specs.Tree.{no_pairs};

use crate::ben::{Ben, Dictionary};
use itoa::Buffer;
use std::alloc::{AllocError, Global};

// Most messages take no more bytes than these.
const FIRST_ROOM: usize = 128;

/// The value's canonical spelling. It fails only for want of memory. The integers and strings of
/// each `Ben` fit into the grammar, which is what the law that it is read again asks.
pub fn canonical_bytes(alloc: Global, value: &Ben) -> Result<Vec<u8>, AllocError>
    ensures ok { IfOk result (λ bytes. bytes.items ≡ canonical (tree_view value.now)) }
    ensures fits { OnOk result (IsSpellable (tree_view value.now)) }
{
    let mut bytes = Vec::with_capacity(alloc, FIRST_ROOM)?;
    spell(value, &mut bytes)?;
    Ok(bytes)
}

/// Appends the value's canonical spelling. After want of memory `out` is as it was.
pub fn write_into(value: &Ben, out: &mut Vec<u8>) -> Result<(), AllocError>
    ensures ok { OnOk result (out.new.items ≡ out.old.items ++ canonical (tree_view value.now)) }
    ensures err { OnErr result (out.new.items ≡ out.old.items) }
    ensures fits { OnOk result (IsSpellable (tree_view value.now)) }
{
    let start = out.len();
    let written = spell(value, out);
    if written.is_err() {
        out.truncate(start);
    }
    written
}

/// Appends the spelling of a byte string. After want of memory `out` is as it was.
pub fn write_string(bytes: &[u8], out: &mut Vec<u8>) -> Result<(), AllocError>
    ensures ok { OnOk result (out.new.items ≡ out.old.items ++ string_text bytes.now) }
    ensures err { OnErr result (out.new.items ≡ out.old.items) }
{
    let start = out.len();
    let written = spell_string(bytes, out);
    if written.is_err() {
        out.truncate(start);
    }
    written
}

#[cycle(spell)]
fn spell(value: &Ben, out: &mut Vec<u8>) -> Result<(), AllocError>
    ensures front { take (length out.old.items) out.new.items ≡ out.old.items }
    ensures fits { OnOk result (IsSpellable (tree_view value.now)) }
    ensures text { OnOk result (out.new.items ≡ out.old.items ++ canonical (tree_view value.now)) }
{
    match value {
        Ben::Integer(n) => spell_integer(*n, out),
        Ben::String(bytes) => spell_string(bytes, out),
        Ben::List(items) => {
            out.extend_from_slice(b"l")?;
            spell_items(items, out)?;
            out.extend_from_slice(b"e")
        }
        Ben::Dictionary(pairs) => {
            out.extend_from_slice(b"d")?;
            spell_pairs(pairs, out)?;
            out.extend_from_slice(b"e")
        }
    }
}

#[cycle(spell)]
fn spell_items(items: &[Ben], out: &mut Vec<u8>) -> Result<(), AllocError>
    ensures front { take (length out.old.items) out.new.items ≡ out.old.items }
    ensures fits { OnOk result (AreSpellable (trees_view items.now)) }
    ensures text { OnOk result (out.new.items
        ≡ out.old.items ++ trees_text (sorted_trees (trees_view items.now))) }
{
    for item in items {
        spell(item, out)?;
    }
    Ok(())
}

#[cycle(spell)]
fn spell_pairs(pairs: &Dictionary, out: &mut Vec<u8>) -> Result<(), AllocError>
    ensures front { take (length out.old.items) out.new.items ≡ out.old.items }
    ensures fits { OnOk result (ArePairs (entries_view pairs.now.entries)) }
    ensures text { OnOk result (out.new.items
        ≡ out.old.items ++ pairs_text (put_tree_pairs no_pairs (entries_view pairs.now.entries))) }
{
    for (key, value) in pairs.iter() {
        spell_string(key, out)?;
        spell(value, out)?;
    }
    Ok(())
}

fn spell_integer(n: i64, out: &mut Vec<u8>) -> Result<(), AllocError>
    ensures front { take (length out.old.items) out.new.items ≡ out.old.items }
    ensures fits { IsInteger n }
    ensures text { OnOk result (out.new.items ≡ out.old.items ++ integer_text n) }
{
    let mut digits = Buffer::new();
    out.extend_from_slice(b"i")?;
    out.extend_from_slice(digits.format(n).as_bytes())?;
    out.extend_from_slice(b"e")
}

fn spell_string(bytes: &[u8], out: &mut Vec<u8>) -> Result<(), AllocError>
    ensures front { take (length out.old.items) out.new.items ≡ out.old.items }
    ensures fits { IsString bytes.now }
    ensures text { OnOk result (out.new.items ≡ out.old.items ++ string_text bytes.now) }
{
    let mut digits = Buffer::new();
    out.extend_from_slice(digits.format(bytes.len()).as_bytes())?;
    out.extend_from_slice(b":")?;
    out.extend_from_slice(bytes)
}
