//! Bencode, the format of BEP 3, as nREPL speaks it: messages in, messages out.
//!
//! - A byte string is its length in base ten, a colon and its bytes: `4:eval`.
//! - An integer is `i`, an optional minus, base ten digits and `e`: `i-3e`. `i-0e`, leading zeros
//!   and integers outside 64 signed bits are refused.
//! - A list is `l`, its items and `e`: `l4:done5:errore`.
//! - A dictionary is `d`, its keys, each before its value, and `e`: `d2:id1:72:op5:clonee`. Keys
//!   are byte strings, and no key comes twice. They are read in any order and written sorted.
//!
//! A message is one dictionary. `Decoder` takes a stream in pieces of any size and hands out its
//! messages; `canonical_bytes` and `write_into` spell one value, `write_string` one byte string.
#![tactic(auto)]

mod begins;
mod ben;
mod containers;
mod copy;
mod cut;
mod decoder;
mod digits;
mod fault;
mod fields;
mod frames;
mod held;
pub mod laws;
mod piece;
mod reader;
mod returns;
mod sign;
mod taking_back;
mod write;

pub use ben::{Ben, Dictionary};
pub use decoder::Decoder;
pub use fault::WireFault;
pub use fields::{put_field, take_field};
pub use write::{canonical_bytes, write_into, write_string};
