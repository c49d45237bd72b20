// One agent, with what was sent to it.
ghost use Rattle.std.specs.Prelude.{◌≡◌, ℕ, ◌+◌, ◌<◌, ◌^◌, ◌++◌, length, map, option_map, None};
ghost use Rattle.std.specs.Prelude.{Some};
ghost use Rattle.std.specs.Prelude.{IsSome};
ghost use Rattle.value_data.specs.Inside.View.{view};
ghost use Rattle.repl_values.specs.Inside.FaultView.{failure_of};
ghost use Rattle.private_cells.specs.Agents.{at_rest, with_begun, restarted, is_sent_by};
ghost use Rattle.private_cells.specs.Inside.Seen.{cell_view, sent_view};
ghost use Rattle.private_cells.specs.Inside.Turns.{open_turn, turn_at, first_session, Opens};

use crate::action::Sent;
use repl_values::{Fault, Value};
use std::alloc::Global;
use std::collections::LinkedList;

#[derive(Drop)]
pub(crate) struct Cell {
    pub(crate) state: Value,
    pub(crate) fault: Option<Fault>,
    pub(crate) waiting: LinkedList<Sent>,
    pub(crate) running: Option<Sent>,
}

impl Cell {
    pub(crate) fn new(alloc: Global, state: Value) -> Cell
        ensures { cell_view result ≡ at_rest (view state) }
    {
        Cell {
            state,
            fault: None,
            waiting: LinkedList::new(alloc),
            running: None,
        }
    }

    // The number of the first action that waits, if the agent may begin it.
    pub(crate) fn turn(&self) -> Option<u128>
        ensures { (place : ℕ) → option_map (turn_at place) result
            ≡ open_turn place (cell_view self.now) }
    {
        if self.running.is_some() || self.fault.is_some() {
            return None;
        }
        let first = self.waiting.front()?;
        Some(first.number)
    }

    // What is in these nodes waits behind the others. Where that gives the agent a turn, its
    // number is answered.
    pub(crate) fn wait(&mut self, mut nodes: LinkedList<Sent>) -> Option<u128>
        requires { length self.old.waiting + length nodes < 2 ^ 63 }
        ensures waits { cell_view self.new ≡ record (cell_view self.old) {
          waiting = (cell_view self.old).waiting ++ map sent_view nodes;
        } }
        ensures opened { Opens result (cell_view self.old) (cell_view self.new) }
    {
        let first = self.turn();
        if self.waiting.append(&mut nodes).is_err() {
            unreachable!();
        }
        if first.is_some() {
            return None;
        }
        self.turn()
    }

    // The first action that waits runs. The session from which it came is answered.
    pub(crate) fn begin(&mut self) -> Option<Option<u64>>
        ensures begun { cell_view self.new ≡ with_begun (cell_view self.old) }
        ensures session { result ≡ first_session (cell_view self.old).waiting }
    {
        let first = self.waiting.pop_front()?;
        let session = first.action.session;
        self.running = Some(first);
        Some(session)
    }

    // The action that runs is over, with this value. What waits gives the agent a turn.
    pub(crate) fn finish(&mut self, value: Value) -> Option<u128>
        requires { IsSome self.old.running }
        ensures over { cell_view self.new
            ≡ record (cell_view self.old) { state = view value; running = None } }
        ensures opened { Opens result (cell_view self.old) (cell_view self.new) }
    {
        self.state = value;
        self.running = None;
        self.turn()
    }

    // The action that runs is over, with this fault.
    pub(crate) fn fail(&mut self, fault: Fault)
        requires { IsSome self.old.running }
        ensures over { cell_view self.new
            ≡ record (cell_view self.old) { fault = Some (failure_of fault); running = None } }
        ensures opened { Opens None (cell_view self.old) (cell_view self.new) }
    {
        self.fault = Some(fault);
        self.running = None;
    }

    // Where the agent is failed, it goes on with this state. What waits gives it a turn.
    pub(crate) fn restart(&mut self, state: Value) -> Option<u128>
        ensures restarted { cell_view self.new ≡ restarted (view state) (cell_view self.old) }
        ensures opened { Opens result (cell_view self.old) (cell_view self.new) }
    {
        if self.fault.is_none() {
            drop(state);
            return None;
        }
        self.state = state;
        self.fault = None;
        self.turn()
    }

    // Whether it runs an action that came from this session, or from a bare request.
    pub(crate) fn runs_from(&self, session: Option<u64>) -> bool
        ensures { result ≡ is_sent_by session (cell_view self.now).running }
    {
        match &self.running {
            Some(sent) => sent.action.session == session,
            None => false,
        }
    }
}
