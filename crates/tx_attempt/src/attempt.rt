// What an attempt has of the refs that it read, set, commuted and ensured, and what it sends.
ghost use Rattle.tx_attempt.specs.Inside.States.{states_of};
ghost use Rattle.tx_attempt.specs.Inside.Marks.{SetsAre, EnsuredAre, CommutedAre, NamesOnce};
ghost use Rattle.std.specs.Prelude.{◌≡◌, ◌<◌, ◌++◌, [], ◌∷◌, if◌then◌else◌, vec_len};
ghost use Rattle.std.specs.Prelude.{vec_capacity};

use crate::error::SetError;
use crate::key::Key;
use crate::state::Mark;
use crate::states::RefStates;
use repl_asks::{Commute, Sending};
use repl_values::{RefName, Value};
use std::alloc::{AllocError, Global};

/// One attempt at a transaction.
#[derive(Drop)]
pub struct Attempt {
    pub(crate) alloc: Global,
    pub(crate) states: RefStates,
    // The refs to which something was done, each once, in the order in which that was first done.
    pub(crate) sets: Vec<RefName>,
    pub(crate) ensured: Vec<RefName>,
    pub(crate) commuted: Vec<RefName>,
    // In the order in which they were sent.
    pub(crate) sends: Vec<Sending>,
    ghost set_marks: { SetsAre (states_of ⟦<Key as Ord>⟧.cmp states) sets.items },
    ghost ensured_marks: { EnsuredAre (states_of ⟦<Key as Ord>⟧.cmp states) ensured.items },
    ghost commuted_marks: { CommutedAre (states_of ⟦<Key as Ord>⟧.cmp states) commuted.items },
    ghost sets_once: { NamesOnce sets.items },
    ghost commuted_once: { NamesOnce commuted.items },
}

impl Attempt {
    ghost use Rattle.std.specs.Prelude.{◌≡◌, option_map, OnOk, OnErr};
    ghost use Rattle.value_data.specs.Inside.View.{view};
    ghost use Rattle.repl_asks.specs.Inside.View.{name_view, commute_view, sending_view};
    ghost use Rattle.repl_asks.specs.Accesses.{got, put, commuted, ensured, sent};
    ghost use Rattle.repl_asks.specs.Accesses.{nothing_noted, noted, attempt_value, is_commuted};
    ghost use Rattle.tx_attempt.specs.Inside.Parts.{is_refused};
    ghost use Rattle.tx_attempt.specs.Inside.Seen.{attempt_view};

    /// An attempt that begins. It takes no memory.
    pub fn new(alloc: Global) -> Attempt
        ensures { attempt_view result ≡ nothing_noted }
    {
        Attempt {
            alloc,
            states: RefStates::new(alloc),
            sets: Vec::new(alloc),
            ensured: Vec::new(alloc),
            commuted: Vec::new(alloc),
            sends: Vec::new(alloc),
        }
    }

    /// The value of a ref in this attempt, if an access named it: that of the last one. It takes
    /// about the logarithm of the number of refs that were named, and no memory.
    pub fn value_of(&self, name: RefName) -> Option<&Value>
        ensures { option_map (λ v. view v.now) result
            ≡ attempt_value (name_view name) (attempt_view self.now) }
    {
        self.states.value_of(name)
    }

    /// Notes that a ref was read, and its value. It fails only for want of memory; then all stays
    /// as it was.
    pub fn note_read(&mut self, name: RefName, value: Value) -> Result<(), AllocError>
        ensures noted { OnOk result (attempt_view self.new
            ≡ noted (got (name_view name) (view value)) (attempt_view self.old)) }
        ensures stays { OnErr result (attempt_view self.new ≡ attempt_view self.old) }
    {
        self.states.note(name, value, Mark::Read)?;
        Ok(())
    }

    /// Sets a ref, in this attempt alone. One that was commuted is not set: that is looked at
    /// first, and takes no memory. After either error all stays as it was.
    pub fn set(&mut self, name: RefName, value: Value) -> Result<(), SetError>
        ensures set { OnOk result (attempt_view self.new
            ≡ noted (put (name_view name) (view value)) (attempt_view self.old)) }
        ensures commuted { is_refused result
            ≡ is_commuted (name_view name) (attempt_view self.old) }
        ensures stays { OnErr result (attempt_view self.new ≡ attempt_view self.old) }
    {
        if self.states.is_commuted(name) {
            return Err(SetError::Commuted);
        }
        self.sets.reserve(1)?;
        let is_first = self.states.note(name, value, Mark::Set)?;
        list(&mut self.sets, name, is_first);
        Ok(())
    }

    /// Notes what was applied to the value of a ref, and what that gave. It fails only for want of
    /// memory; then all stays as it was.
    pub fn commute(
        &mut self,
        name: RefName,
        commute: Commute,
        value: Value,
    ) -> Result<(), AllocError>
        ensures noted { OnOk result (attempt_view self.new
            ≡ noted (commuted (name_view name) (commute_view commute) (view value))
            (attempt_view self.old)) }
        ensures stays { OnErr result (attempt_view self.new ≡ attempt_view self.old) }
    {
        self.commuted.reserve(1)?;
        let is_first = self.states.commute(name, commute, value)?;
        list(&mut self.commuted, name, is_first);
        Ok(())
    }

    /// Notes that nobody else is to change a ref, and its value. It fails only for want of memory;
    /// then all stays as it was.
    pub fn ensure(&mut self, name: RefName, value: Value) -> Result<(), AllocError>
        ensures noted { OnOk result (attempt_view self.new
            ≡ noted (ensured (name_view name) (view value)) (attempt_view self.old)) }
        ensures stays { OnErr result (attempt_view self.new ≡ attempt_view self.old) }
    {
        self.ensured.reserve(1)?;
        let is_first = self.states.note(name, value, Mark::Ensure)?;
        list(&mut self.ensured, name, is_first);
        Ok(())
    }

    /// Holds what is sent to an agent until the attempt is committed. It fails only for want of
    /// memory; then all stays as it was.
    pub fn hold_send(&mut self, sending: Sending) -> Result<(), AllocError>
        ensures noted { OnOk result (attempt_view self.new
            ≡ noted (sent (sending_view sending)) (attempt_view self.old)) }
        ensures stays { OnErr result (attempt_view self.new ≡ attempt_view self.old) }
    {
        self.sends.push(sending)?;
        Ok(())
    }
}

// Lists a name, where it comes for the first time.
fn list(names: &mut Vec<RefName>, name: RefName, is_first: bool)
    requires { vec_len names.old < vec_capacity names.old }
    ensures { names.new.items
        ≡ (if is_first then names.old.items ++ name ∷ [] else names.old.items) }
{
    if is_first {
        names.push_reserved(name);
    }
}
