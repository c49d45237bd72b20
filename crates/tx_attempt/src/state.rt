// What is kept of a ref.
ghost use Rattle.std.specs.Prelude.{◌≡◌, not, map, OnErr, OnOk, IfOk};
ghost use Rattle.value_data.specs.Inside.View.{view};
ghost use Rattle.repl_asks.specs.Inside.View.{commute_view};
ghost use Rattle.tx_attempt.specs.Inside.States.{ref_state_view, unnamed, marked, is_marked};
ghost use Rattle.tx_attempt.specs.Inside.States.{has_value, has_commute};

use repl_asks::Commute;
use repl_values::Value;
use std::alloc::{AllocError, Global};

/// The value of a ref in an attempt, what was applied to it, in order, and what was done to it.
#[derive(Debug, Drop)]
pub(crate) struct RefState {
    pub(crate) value: Value,
    pub(crate) commutes: Vec<Commute>,
    pub(crate) is_set: bool,
    pub(crate) is_ensured: bool,
    pub(crate) is_commuted: bool,
}

/// What is done to a ref, commutes apart.
#[derive(Clone, Copy, Debug, PartialEq, Eq)]
pub(crate) enum Mark {
    Read,
    Set,
    Ensure,
}

impl RefState {
    pub(crate) fn new(alloc: Global, value: Value) -> RefState
        ensures { ref_state_view result ≡ has_value (view value) unnamed }
    {
        RefState {
            value,
            commutes: Vec::new(alloc),
            is_set: false,
            is_ensured: false,
            is_commuted: false,
        }
    }

    // Whether this was not done to it before, nothing being done by a read.
    pub(crate) fn mark(&mut self, mark: Mark) -> bool
        ensures marked { ref_state_view self.new ≡ marked mark (ref_state_view self.old) }
        ensures first { result ≡ not (is_marked mark (ref_state_view self.old)) }
    {
        match mark {
            Mark::Read => false,
            Mark::Set => {
                let is_first = !self.is_set;
                self.is_set = true;
                is_first
            }
            Mark::Ensure => {
                let is_first = !self.is_ensured;
                self.is_ensured = true;
                is_first
            }
        }
    }

    // Whether it was not commuted before. After want of memory it is as it was.
    pub(crate) fn commute(&mut self, commute: Commute) -> Result<bool, AllocError>
        ensures commuted { OnOk result (ref_state_view self.new
            ≡ has_commute (commute_view commute) (ref_state_view self.old)) }
        ensures first { IfOk result (λ first. first ≡ not self.old.is_commuted) }
        ensures stays { OnErr result (ref_state_view self.new ≡ ref_state_view self.old) }
    {
        self.commutes.push(commute)?;
        let is_first = !self.is_commuted;
        self.is_commuted = true;
        Ok(is_first)
    }

    pub(crate) fn into_commutes(self) -> Vec<Commute>
        ensures { map commute_view result.items ≡ (ref_state_view self).commutes }
    {
        self.commutes
    }
}
