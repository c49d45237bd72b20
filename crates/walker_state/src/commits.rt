// The end of a transaction's body, and what comes of its commit.
ghost use Rattle.std.specs.Prelude.{◌≡◌, [], IfOk};
ghost use Rattle.value_data.specs.Inside.View.{view};
ghost use Rattle.repl_asks.specs.Inside.View.{verdict_view};
ghost use Rattle.evaluation_rules.specs.Doing.{pure_part};
ghost use Rattle.walker_state.specs.Leaving.{end_or_commit_tree, IsEndOrCommit};
ghost use Rattle.walker_state.specs.Pending.{from_state, settled_tree, tree};
ghost use Rattle.walker_state.specs.Position.{wanted_position, control_position, IsLater};
ghost use Rattle.walker_state.specs.declared.frames.Control.{Control};
ghost use Rattle.walker_state.specs.declared.frames.Wanted.{Wanted};

use crate::attempts::begin_again;
use crate::frames::{Control, State, Transaction, Wanted};
use repl_asks::{Ask, Verdict};
use repl_values::Value;
use std::alloc::{AllocError, Global};
use std::boxed::Box;
use std::collections::VecDeque;
use std::mem;
use std::sync::Arc;
use tx_attempt::Attempt;

/// What is left behind the last frame: the whole ends, or an attempt asks to be committed.
#[derive(Drop)]
pub enum EndOrCommit {
    Ends(Value),
    Asks(Ask, Wanted),
}

/// No frame waits for the value: it is that of the whole, or of the attempt's body.
pub fn leave(alloc: Global, state: &mut State, value: Value) -> Result<EndOrCommit, AllocError>
    requires { state.old.frames.items ≡ [] }
    ensures meaning { IfOk result (λ left. end_or_commit_tree left state.new
        ≡ from_state (pure_part (view value)) state.old) }
    ensures on { IfOk result (λ left.
        IsEndOrCommit left state.new (control_position (Control.Return value) state.old)) }
{
    match state.transaction.take() {
        None => Ok(EndOrCommit::Ends(value)),
        Some(mut transaction) => {
            let attempt = mem::replace(&mut transaction.attempt, Attempt::new(alloc));
            let intent = Arc::new(alloc, attempt.into_intent()?)?;
            Ok(EndOrCommit::Asks(Ask::Commit(intent), Wanted::Verdict(value, transaction)))
        }
    }
}

/// The verdict on a body with this value: the transaction is over, or another attempt is made, if
/// one is left.
pub fn settle(
    alloc: Global,
    state: &mut State,
    value: Value,
    transaction: Box<Transaction>,
    verdict: Verdict,
) -> Result<Control, AllocError>
    ensures meaning { IfOk result (λ control. tree control state.new
        ≡ settled_tree transaction.value (view value) (verdict_view verdict) state.old) }
    ensures later { IfOk result (λ control. IsLater (control_position control state.new)
        (wanted_position (Wanted.Verdict value transaction) state.old)) }
{
    match verdict {
        Verdict::Committed => {
            let Transaction { frames, .. } = Box::into_inner(transaction);
            state.frames = frames;
            state.transaction = None;
            Ok(Control::Return(value))
        }
        Verdict::Conflict => begin_again(alloc, state, transaction),
        Verdict::Faulted(fault) => {
            state.frames = VecDeque::new(alloc);
            state.transaction = None;
            Ok(Control::Fault(fault))
        }
    }
}
