// A hash that agrees with equality, so that keys are found without comparing all with all.
ghost use Rattle.std.specs.Prelude.{◌≡◌, max, take};
ghost use Rattle.std.specs.Arc.{arc_str_bytes};
ghost use Rattle.value_data.specs.Inside.View.{view, owner_view};
ghost use Rattle.value_data.specs.Inside.Hash.{hash, mixed, salted, mixed_text, text_hash};
ghost use Rattle.value_data.specs.Inside.Hash.{owner_hash};

use crate::value::{Owner, Value};
use std::sync::ArcStr;

/// A number that is the same for equal values. It takes no memory. Of a text some 64 bytes
/// are read; the number of a list, a vector or a map was kept.
pub fn hash_of(value: &Value) -> u64
    ensures { result ≡ hash (view value.now) }
{
    match value {
        Value::Nil => mix(1, 0),
        Value::Bool(true) => mix(2, 1),
        Value::Bool(false) => mix(2, 0),
        Value::Int(n) => mix(3, n.unsigned_abs()),
        Value::Str(text) => hash_text(4, text),
        Value::Keyword(text) => hash_text(5, text),
        Value::Symbol(text) => hash_text(6, text),
        Value::List(items) => items.hash(),
        Value::Vector(items) => items.hash(),
        Value::Map(pairs) => pairs.hash(),
        Value::Ref(name) => mix(hash_owner(name.owner), name.number),
        Value::Atom(number) => mix(12, *number),
        Value::Agent(number) => mix(13, *number),
        Value::Var { space, name } => hash_text(hash_text(14, space), name),
        Value::Fault { class, text } => hash_text(hash_text(15, class), text),
    }
}

#[tactic(auto, unfolding(crate::specs::Inside::Hash::mixed))]
pub(crate) fn mix(hash: u64, word: u64) -> u64
    ensures { result ≡ mixed hash word }
{
    hash.wrapping_mul(0x9E3779B97F4A7C15).wrapping_add(word)
}

#[tactic(auto, unfolding(crate::specs::Inside::Hash::salted))]
pub(crate) fn raise(top: u64, salt: u64, word: u64) -> u64
    ensures { result ≡ max top (salted salt word) }
{
    top.max(word.wrapping_mul(salt))
}

#[tactic(auto, unfolding(crate::specs::Inside::Hash::salted))]
pub(crate) fn salt(by: u64, word: u64) -> u64
    ensures { result ≡ salted by word }
{
    word.wrapping_mul(by)
}

// How many bytes of a text are read for its hash.
const READ: usize = 64;

fn hash_text(seed: u64, text: &ArcStr) -> u64
    ensures { result ≡ text_hash seed (arc_str_bytes text.now) }
{
    let bytes = text.as_str().as_bytes();
    mix(mix_bytes(seed, front(bytes)), bytes.len() as u64)
}

fn front(bytes: &[u8]) -> &[u8]
    ensures { result.now ≡ take 64 bytes.now }
{
    if bytes.len() <= READ {
        bytes
    } else {
        &bytes[..READ]
    }
}

fn mix_bytes(seed: u64, bytes: &[u8]) -> u64
    ensures { result ≡ mixed_text seed bytes.now }
{
    let mut hash = seed;
    for byte in bytes {
        hash = mix(hash, u64::from(*byte));
    }
    hash
}

fn hash_owner(owner: Owner) -> u64
    ensures { result ≡ owner_hash (owner_view owner) }
{
    match owner {
        Owner::Shared => mix(10, 0),
        Owner::Tenant(tenant) => mix(11, tenant),
    }
}
