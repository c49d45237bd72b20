// The open sessions with an index by their ids.
use crate::ids::{IdStream, IdText};
use crate::state::SessionState;
use std::collections::{BTreeMap, BTreeSet};
use std::marker::Model;

/// The sessions of one tenant. Those that are open are kept in the order in which they were made.
///
/// A session is named by its number, from 0 in that order. The number of a
/// session that was closed is never used again; `retract` alone gives that of the newest back.
#[derive(Drop)]
pub struct Sessions {
    pub(crate) ids: IdStream,
    // the number of the next session
    pub(crate) opened: u64,
    pub(crate) live: BTreeMap<u64, SessionState>,
    // the id of each open session, with its number: nothing forbids that two have one id
    pub(crate) index: BTreeSet<(IdText, u64)>,
}

impl Model for Sessions {
    ghost use Rattle.repl_sessions.specs.Named.{NamedSessions};
    ghost use Rattle.repl_sessions.specs.Inside.Code.{named_code};
    ghost use Rattle.repl_sessions.specs.Inside.View.{live_view};
    ghost use Rattle.repl_sessions.specs.Inside.Keeps.{Keeps};

    ghost Value = { NamedSessions };

    ghost coded = { named_code };

    ghost view = { λ a. record {
      ids = a.ids;
      sessions = record { opened = a.opened; live = live_view a.live.entries };
    } };

    ghost invariant = { λ a. Keeps a.ids a.opened a.live a.index };
}
