// Sessions are found by their ids and by their numbers, and listed.
ghost use Rattle.std.specs.Prelude.{◌≡◌, IfOk, IfSome, IsTrue, option_map, map, length, SomeIff};
ghost use Rattle.std.specs.BTreeMap.{keys};
ghost use Rattle.repl_sessions.specs.Ids.{id_text};
ghost use Rattle.repl_sessions.specs.Sessions.{is_open, state_of};
ghost use Rattle.repl_sessions.specs.Named.{number_named, ids_of};
ghost use Rattle.repl_sessions.specs.Inside.StateView.{state_view};

use crate::ids::{IdStream, IdText};
use crate::sessions::Sessions;
use crate::state::SessionState;
use std::alloc::{AllocError, Global};
use std::collections::BTreeMap;

impl Sessions {
    /// The number of the open session whose id has this text, byte for byte: an id has one
    /// spelling. It takes about the logarithm of the number of sessions, whatever the text.
    pub fn number(&self, text: &[u8]) -> Option<u64>
        ensures found { result ≡ number_named self.now text.now }
        ensures open { IfSome result (λ number. IsTrue (is_open self.now.sessions number)) }
    {
        let text = as_text(text)?;
        let (found, number) = self.index.range((text, 0)..).next()?;
        (*found == text).then_some(*number)
    }

    /// Whether the session of this number is open.
    pub fn is_open(&self, number: u64) -> bool
        ensures { result ≡ is_open self.now.sessions number }
    {
        self.live.contains_key(&number)
    }

    /// What the session of this number remembers, if it is open. It takes about the logarithm of
    /// the number of sessions.
    pub fn state(&self, number: u64) -> Option<&SessionState>
        ensures { option_map (λ state. state_view state.now) result
            ≡ state_of self.now.sessions number }
    {
        self.live.get(&number)
    }

    /// The id of the session of this number, be it open, closed or yet to come.
    pub fn id_text(&self, number: u64) -> IdText
        ensures { result ≡ id_text self.now.ids number }
    {
        self.ids.text(number)
    }

    /// The ids of the open sessions, in the order in which they were made. It takes a step for
    /// each, and fails only for want of memory.
    pub fn list(&self, alloc: Global) -> Result<Vec<IdText>, AllocError>
        ensures { IfOk result (λ texts. texts.items ≡ ids_of self.now) }
    {
        texts(alloc, &self.ids, &self.live)
    }
}

// The bytes as the text of an id, if they are as many.
pub(crate) fn as_text(bytes: &[u8]) -> Option<IdText>
    ensures { SomeIff result (length bytes.now ≡ 36) bytes.now }
{
    let mut text = [0; 36];
    if bytes.len() != text.len() {
        return None;
    }
    text.copy_from_slice(bytes);
    Some(text)
}

fn texts(
    alloc: Global,
    ids: &IdStream,
    live: &BTreeMap<u64, SessionState>,
) -> Result<Vec<IdText>, AllocError>
    ensures { IfOk result (λ texts. texts.items ≡ map (id_text ids.now) (keys live.now)) }
{
    let mut texts = Vec::with_capacity(alloc, live.len())?;
    for number in live.keys() {
        texts.push(ids.text(*number))?;
    }
    Ok(texts)
}
