// Where a waiting evaluation stands: in which attempt, and with how many calls left.
ghost use Rattle.std.specs.Prelude.{◌≡◌, ◌+◌, ◌<◌, ◌^◌};
ghost use Rattle.walker_state.specs.Position.{around, outer_calls};
ghost use Rattle.repl_walker.specs.Steps.{position_of};

use crate::steps::WaitingEvaluation;
use std::boxed::Box;
use walker_state::{Transaction, Wanted};

impl WaitingEvaluation {
    /// Whether an attempt was begun at a transaction that is not over.
    pub fn is_inside(&self) -> bool
        ensures { result ≡ (position_of self.now).transaction.runs }
    {
        match &self.wanted {
            Wanted::Begin(transaction) => !transaction.is_first,
            Wanted::Verdict(_, _) => true,
            _ => self.state.transaction.is_some(),
        }
    }

    /// Twice the attempts that are left, and one more where the next is yet to begin; 0 where no
    /// attempt was begun.
    pub fn turn(&self) -> u64
        ensures value { result ≡ (position_of self.now).transaction.turn }
        ensures small { result < 2 ^ 34 }
    {
        match &self.wanted {
            Wanted::Begin(transaction) if transaction.is_first => 0,
            Wanted::Begin(transaction) => transaction.left as u64 * 2 + 1,
            Wanted::Verdict(_, transaction) => transaction.left as u64 * 2,
            _ => turn_of(&self.state.transaction),
        }
    }

    /// How many calls it may still make, in the attempt that waits or is to begin.
    pub fn calls(&self) -> u32
        ensures { result ≡ (position_of self.now).calls }
    {
        match &self.wanted {
            Wanted::Begin(transaction) => transaction.calls,
            _ => self.state.calls,
        }
    }

    /// The most calls that it may still make once the transaction is over.
    pub fn most_calls(&self) -> u32
        ensures { result ≡ outer_calls (position_of self.now) }
    {
        match &self.wanted {
            Wanted::Begin(transaction) => transaction.calls,
            Wanted::Verdict(_, transaction) => transaction.calls.max(self.state.calls),
            _ => most_calls(&self.state.transaction, self.state.calls),
        }
    }
}

fn turn_of(transaction: &Option<Box<Transaction>>) -> u64
    ensures value { result ≡ (around transaction.now).turn }
    ensures small { result < 2 ^ 34 }
{
    match transaction {
        None => 0,
        Some(transaction) => transaction.left as u64 * 2,
    }
}

fn most_calls(transaction: &Option<Box<Transaction>>, calls: u32) -> u32
    ensures { result ≡ outer_calls (record {
      transaction = around transaction.now;
      calls = calls;
      size = 0;
    }) }
{
    match transaction {
        None => calls,
        Some(transaction) => transaction.calls.max(calls),
    }
}
