// Sessions are opened, cloned and closed.
ghost use Rattle.std.specs.Prelude.{◌≡◌, false, Some, IsTrue, IfOk, OnOk, OnErr};
ghost use Rattle.std.specs.Option.{ForSome};
ghost use Rattle.repl_sessions.specs.Sessions.{none_open, is_open, state_of, opened_with};
ghost use Rattle.repl_sessions.specs.Sessions.{cloned_state, with_clone_of, without_session};
ghost use Rattle.repl_sessions.specs.Inside.Retracted.{without_newest_session};
ghost use Rattle.repl_sessions.specs.Inside.StateView.{state_view};

use crate::ids::IdStream;
use crate::sessions::Sessions;
use crate::state::SessionState;
use std::alloc::{AllocError, Global};
use std::collections::{BTreeMap, BTreeSet};

impl Sessions {
    /// No session is open, and none was.
    pub fn new(alloc: Global, ids: IdStream) -> Sessions
        ensures { result ≡ record { ids = ids; sessions = none_open } }
    {
        Sessions {
            ids,
            opened: 0,
            live: BTreeMap::new(alloc),
            index: BTreeSet::new(alloc),
        }
    }

    /// Opens a session with the state of an open one, or with a fresh one, and answers its number.
    /// Later changes of one do not show in the other. It takes about the logarithm of the number of
    /// sessions. It fails only for want of memory, or of numbers: the last one is 2^64 - 2.
    pub fn clone_of(&mut self, alloc: Global, original: Option<u64>) -> Result<u64, AllocError>
        requires { ForSome original (λ number. IsTrue (is_open self.old.sessions number)) }
        ensures number { IfOk result (λ number. number ≡ self.old.sessions.opened) }
        ensures unused { IfOk result (λ number. is_open self.old.sessions number ≡ false) }
        ensures begins { IfOk result (λ number. state_of self.new.sessions number
            ≡ Some (cloned_state self.old.sessions original)) }
        ensures cloned { OnOk result (self.new
            ≡ record self.old { sessions = with_clone_of self.old.sessions original }) }
        // `retract` undoes it
        ensures undone { OnOk result (without_newest_session self.new.sessions
            ≡ self.old.sessions) }
        ensures stays { OnErr result (self.new ≡ self.old) }
    {
        let state = self.cloned_state(alloc, original)?;
        self.open(state)
    }

    fn cloned_state(&self, alloc: Global, original: Option<u64>) -> Result<SessionState, AllocError>
        requires { ForSome original (λ number. IsTrue (is_open self.now.sessions number)) }
        ensures { IfOk result (λ state. state_view state
            ≡ cloned_state self.now.sessions original) }
    {
        match original {
            Some(number) => self.live[&number].copy(),
            None => SessionState::fresh(alloc),
        }
    }

    fn open(&mut self, state: SessionState) -> Result<u64, AllocError>
        ensures number { IfOk result (λ number. number ≡ self.old.sessions.opened) }
        ensures unused { IfOk result (λ number. is_open self.old.sessions number ≡ false) }
        ensures begins { IfOk result (λ number. state_of self.new.sessions number
            ≡ Some (state_view state)) }
        ensures opened { OnOk result (self.new
            ≡ record self.old { sessions = opened_with self.old.sessions (state_view state) }) }
        ensures undone { OnOk result (without_newest_session self.new.sessions
            ≡ self.old.sessions) }
        ensures stays { OnErr result (self.new ≡ self.old) }
    {
        let number = self.opened;
        let next = number.checked_add(1).ok_or(AllocError)?;
        let name = (self.ids.text(number), number);
        self.index.insert(name)?;
        match self.live.insert(number, state) {
            Ok(replaced) => drop(replaced),
            Err(refused) => {
                self.index.remove(&name);
                return Err(AllocError::from(refused));
            }
        }
        self.opened = next;
        Ok(number)
    }

    /// Closes the session of this number, if it is open. It takes about the logarithm of the number
    /// of sessions.
    pub fn close(&mut self, number: u64)
        ensures { self.new ≡ record self.old {
          sessions =
              without_session self.old.sessions number;
        } }
    {
        drop(self.live.remove(&number));
        self.index.remove(&(self.ids.text(number), number));
    }

    /// The same sessions once more, in one step for each. It fails only for want of memory.
    pub fn copy(&self) -> Result<Sessions, AllocError>
        ensures { IfOk result (λ copied. copied ≡ self.now) }
    {
        Ok(Sessions {
            ids: self.ids,
            opened: self.opened,
            live: self.live.clone()?,
            index: self.index.clone()?,
        })
    }
}
