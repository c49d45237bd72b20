// A value of bencode.
use std::collections::BTreeMap;

/// A dictionary's values under their keys, in the order of the keys as raw bytes.
pub type Dictionary = BTreeMap<Vec<u8>, Ben>;

/// A value of bencode (BEP 3). Byte strings need not be text.
#[derive(Drop)]
pub enum Ben {
    Integer(i64),
    String(Vec<u8>),
    List(Vec<Ben>),
    Dictionary(Dictionary),
}
