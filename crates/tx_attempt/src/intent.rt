// What an attempt wants committed.
ghost use Rattle.std.specs.Prelude.{◌≡◌, IfOk, IfErr};
ghost use Rattle.repl_asks.specs.Inside.View.{intent_view};
ghost use Rattle.repl_asks.specs.Accesses.{intent_of};
ghost use Rattle.tx_attempt.specs.Inside.Seen.{attempt_view};

use crate::attempt::Attempt;
use repl_asks::Intent;
use std::alloc::AllocError;

/// The attempt whose intent could not be made for want of memory. It is as it was.
#[derive(Drop)]
pub struct Unmade {
    pub attempt: Attempt,
}

impl From<Unmade> for AllocError {
    fn from(_unmade: Unmade) -> AllocError {
        AllocError
    }
}

impl Attempt {
    /// What is to be committed: each ref that was set, with its last value; each that was ensured;
    /// each that was commuted and not set, with its commutes; and what is sent. Each list has its
    /// refs once, in the order in which that was first done to them. It takes about n log n steps
    /// for n refs, and fails only for want of memory.
    pub fn into_intent(self) -> Result<Intent, Unmade>
        ensures made { IfOk result (λ intent.
            intent_view intent ≡ intent_of (attempt_view self)) }
        ensures handed_back { IfErr result
            (λ unmade. attempt_view unmade.attempt ≡ attempt_view self) }
    {
        let Ok(changes) = Vec::with_capacity(self.alloc, self.sets.len()) else {
            return Err(Unmade { attempt: self });
        };
        let Ok(groups) = Vec::with_capacity(self.alloc, self.commuted.len()) else {
            return Err(Unmade { attempt: self });
        };
        let Attempt {
            mut states,
            sets,
            ensured,
            commuted,
            sends,
            ..
        } = self;
        let sets = states.take_values(&sets, changes);
        let commuted = states.take_commutes(&commuted, groups);
        Ok(Intent {
            sets,
            ensured,
            commuted,
            sends,
        })
    }
}
