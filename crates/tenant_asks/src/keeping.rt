// The trace of a form that runs.
ghost use Rattle.std.specs.Prelude.{◌≡◌, OnOk};
ghost use Rattle.repl_asks.specs.Inside.View.{exchange_view};
ghost use Rattle.tenant_parts.specs.View.{actor_view, hand_view, run_view};
ghost use Rattle.tenant_asks.specs.Asking.{run_with, hand_with, with_exchange};
ghost use Rattle.tenant_asks.specs.Rooms.{RunHasRoom, HandHasRoom, ActorHasRoom};

use repl_asks::Exchange;
use std::alloc::AllocError;
use std::boxed::Box;
use tenant_parts::{ActorState, Run, WorkInHand};

/// Makes room for an ask with its answer in the trace of the form that runs. It fails only for want
/// of memory.
pub(crate) fn make_room(state: &mut ActorState) -> Result<(), AllocError>
    ensures room { OnOk result (ActorHasRoom state.new) }
    ensures same { actor_view state.new ≡ actor_view state.old }
{
    match &mut state.hand {
        Some(hand) => make_room_in_hand(hand),
        None => Ok(()),
    }
}

fn make_room_in_hand(hand: &mut WorkInHand) -> Result<(), AllocError>
    ensures room { OnOk result (HandHasRoom hand.new) }
    ensures same { hand_view hand.new ≡ hand_view hand.old }
{
    match &mut hand.running {
        Some(run) => make_room_in_run(run),
        None => Ok(()),
    }
}

fn make_room_in_run(run: &mut Run) -> Result<(), AllocError>
    ensures room { OnOk result (RunHasRoom run.new) }
    ensures same { run_view run.new ≡ run_view run.old }
{
    run.trace.reserve(1)
}

/// Keeps an ask with its answer in the trace of the form that runs. It takes no memory.
pub(crate) fn keep(state: &mut ActorState, exchange: Box<Exchange>)
    requires { ActorHasRoom state.old }
    ensures { actor_view state.new
        ≡ with_exchange (exchange_view exchange.value) (actor_view state.old) }
{
    match &mut state.hand {
        Some(hand) => keep_in_hand(hand, exchange),
        None => drop(exchange),
    }
}

fn keep_in_hand(hand: &mut WorkInHand, exchange: Box<Exchange>)
    requires { HandHasRoom hand.old }
    ensures { hand_view hand.new ≡ hand_with (exchange_view exchange.value) (hand_view hand.old) }
{
    match &mut hand.running {
        Some(run) => keep_in_run(run, exchange),
        None => drop(exchange),
    }
}

fn keep_in_run(run: &mut Run, exchange: Box<Exchange>)
    requires { RunHasRoom run.old }
    ensures { run_view run.new ≡ run_with (exchange_view exchange.value) (run_view run.old) }
{
    run.trace.push_reserved(exchange);
}
