// The sessions but for those that are about to be closed.
ghost use Rattle.std.specs.Prelude.{◌≡◌, IfOk, IfSome, IsTrue, map, string_bytes};
ghost use Rattle.std.specs.BTreeSet.{keys as numbers};
ghost use Rattle.std.specs.BTreeMap.{keys};
ghost use Rattle.repl_sessions.specs.Ids.{id_text};
ghost use Rattle.repl_sessions.specs.Sessions.{is_open};
ghost use Rattle.repl_sessions.specs.Named.{number_named, ids_of};
ghost use Rattle.repl_sessions.specs.Inside.Leaving.{remaining_sessions, remaining_named};
ghost use Rattle.repl_sessions.specs.Inside.Leaving.{without_leaving};

use crate::ids::IdStream;
use crate::lookup::as_text;
use crate::sessions::Sessions;
use crate::state::SessionState;
use std::alloc::{AllocError, Global};
use std::collections::{BTreeMap, BTreeSet};

impl Sessions {
    /// The number of the open session whose id has this text, as `number` gives it, where none of
    /// those that are leaving is open any more. It takes about the logarithm of the number of
    /// sessions, and a step for each that is leaving and has the same id.
    pub fn number_but(&self, text: &[u8], leaving: &BTreeSet<u64>) -> Option<u64>
        ensures found { result
            ≡ number_named (remaining_named (numbers leaving.now) self.now) text.now }
        ensures open { IfSome result (λ number.
            IsTrue (is_open (remaining_sessions (numbers leaving.now) self.now.sessions) number)) }
    {
        let text = as_text(text)?;
        let (_, number) = self
            .index
            .range((text, 0)..(text, self.opened))
            .find(|(_, number)| !leaving.contains(number))?;
        Some(*number)
    }

    /// The ids of the open sessions that are not leaving, in the order in which they were made. It
    /// takes a step for each, and fails only for want of memory.
    pub fn list_but(
        &self,
        alloc: Global,
        leaving: &BTreeSet<u64>,
    ) -> Result<Vec<String>, AllocError>
        ensures { IfOk result (λ texts. map string_bytes texts.items
            ≡ ids_of (remaining_named (numbers leaving.now) self.now)) }
    {
        strings(alloc, &self.ids, &self.live, leaving)
    }

    /// The id of the session of this number, be it open, closed or yet to come. It fails only for
    /// want of memory.
    pub fn id_string(&self, alloc: Global, number: u64) -> Result<String, AllocError>
        ensures { IfOk result (λ text. string_bytes text ≡ id_text self.now.ids number) }
    {
        self.ids.string(alloc, number)
    }
}

fn strings(
    alloc: Global,
    ids: &IdStream,
    live: &BTreeMap<u64, SessionState>,
    leaving: &BTreeSet<u64>,
) -> Result<Vec<String>, AllocError>
    ensures { IfOk result (λ texts. map string_bytes texts.items
        ≡ map (id_text ids.now) (without_leaving (numbers leaving.now) (keys live.now))) }
{
    let mut texts = Vec::new(alloc);
    for number in live.keys() {
        if !leaving.contains(number) {
            texts.push(ids.string(alloc, *number)?)?;
        }
    }
    Ok(texts)
}
