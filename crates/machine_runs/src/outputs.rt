// What a list of turns comes to.
ghost use Rattle.std.specs.Prelude.{◌≡◌, ◌≢◌, ℕ, [], ◌∷◌, ◌++◌, OnOk};
ghost use Rattle.machine_runs.specs.Turns.{drained_of, refused_in, refused_view};

use server_rules::Refusal;
use std::alloc::{AllocError, Global};
use std::collections::BTreeMap;

/// What a list of turns comes to.
#[derive(Drop)]
pub struct Outputs {
    /// The replies that each tenant took out, joined, by the numbers of those that took one out.
    pub drained: BTreeMap<u64, Vec<u8>>,
    /// The turns that were refused, in order.
    pub refused: Vec<RefusedTurn>,
}

/// A turn that was refused.
#[derive(Clone, Copy, Debug, PartialEq, Eq)]
pub struct RefusedTurn {
    /// How many turns were before it.
    pub place: usize,
    pub why: Refusal,
}

impl Outputs {
    pub(crate) fn new(alloc: Global) -> Outputs
        ensures drained { (t : ℕ) → drained_of result t ≡ [] }
        ensures refused { refused_in result ≡ [] }
    {
        Outputs {
            drained: BTreeMap::new(alloc),
            refused: Vec::new(alloc),
        }
    }

    /// Adds a reply that a tenant took out. It fails only for want of memory.
    pub(crate) fn add(&mut self, number: u64, bytes: Vec<u8>) -> Result<(), AllocError>
        ensures added { OnOk result
            (drained_of self.new number ≡ drained_of self.old number ++ bytes.items) }
        ensures others { OnOk result ((t : ℕ) → t ≢ number
            → drained_of self.new t ≡ drained_of self.old t) }
        ensures refused { refused_in self.new ≡ refused_in self.old }
    {
        if let Some(all) = self.drained.get_mut(&number) {
            return all.extend_from_slice(&bytes);
        }
        drop(self.drained.insert(number, bytes)?);
        Ok(())
    }

    /// Notes a turn that was refused. It fails only for want of memory.
    pub(crate) fn refuse(&mut self, refused: RefusedTurn) -> Result<(), AllocError>
        ensures noted { OnOk result
            (refused_in self.new ≡ refused_in self.old ++ refused_view refused ∷ []) }
        ensures drained { (t : ℕ) → drained_of self.new t ≡ drained_of self.old t }
    {
        self.refused.push(refused)?;
        Ok(())
    }
}
