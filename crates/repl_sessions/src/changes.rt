// What changes in an open session.
ghost use Rattle.std.specs.Prelude.{◌≡◌};
ghost use Rattle.std.specs.Arc.{arc_str_bytes};
ghost use Rattle.value_data.specs.Inside.View.{view};
ghost use Rattle.repl_sessions.specs.State.{after_value, after_fault, in_namespace};
ghost use Rattle.repl_sessions.specs.Sessions.{with_change};
ghost use Rattle.repl_sessions.specs.Inside.StateView.{state_view};

use crate::sessions::Sessions;
use crate::state::SessionState;
use repl_values::{Fault, Value};
use std::sync::ArcStr;

// Each takes about the logarithm of the number of sessions.
impl Sessions {
    /// Notes the value of a form in the session of this number, if it is open.
    pub fn note_value(&mut self, number: u64, value: Value)
        ensures { self.new ≡ record self.old {
          sessions = with_change self.old.sessions number (after_value (view value));
        } }
    {
        match self.live.get_mut(&number) {
            Some(state) => state.note_value(value),
            None => drop(value),
        }
    }

    /// Notes the fault that ended a form in the session of this number, if it is open.
    pub fn note_fault(&mut self, number: u64, fault: Fault)
        ensures { self.new ≡ record self.old {
          sessions = with_change self.old.sessions number
              (after_fault (arc_str_bytes fault.class) (arc_str_bytes fault.text));
        } }
    {
        match self.live.get_mut(&number) {
            Some(state) => state.note_fault(fault),
            None => drop(fault),
        }
    }

    /// Puts this state in the place of that of the session of this number, if it is open.
    pub fn set_state(&mut self, number: u64, state: SessionState)
        ensures { self.new ≡ record self.old {
          sessions = with_change self.old.sessions number (λ _. state_view state);
        } }
    {
        match self.live.get_mut(&number) {
            Some(place) => place.give_way(state),
            None => drop(state),
        }
    }

    /// Sets the namespace of the session of this number, if it is open.
    pub fn enter(&mut self, number: u64, namespace: ArcStr)
        ensures { self.new ≡ record self.old {
          sessions = with_change self.old.sessions number (in_namespace (arc_str_bytes namespace));
        } }
    {
        let Some(state) = self.live.get_mut(&number) else {
            return;
        };
        state.enter(namespace);
    }
}
