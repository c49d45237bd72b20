// Where two traces differ first.
#![tactic(auto, using(crate::proofs::Matching::place_steps))]

ghost use Rattle.std.specs.Prelude.{◌≡◌, map, MatchOption};
ghost use Rattle.repl_asks.specs.Inside.View.{exchange_view, trace_view};
ghost use Rattle.trace_comparison.specs.Difference.{DiffersFirstAt};

use crate::asks::same_exchange;
use repl_asks::Exchange;
use std::boxed::Box;

/// The first place, counted from 0, at which the trace that is told differs from the recorded one:
/// that of the first exchanges that differ, or the length of the shorter trace where the longer one
/// begins with it. None where the traces are the same.
///
/// No exchange behind that place is read.
pub fn first_difference(told: &[Exchange], recorded: &[Box<Exchange>]) -> Option<usize>
    ensures { let kept = map (λ e. exchange_view e.value) recorded.now in
        MatchOption result (trace_view told.now ≡ kept)
        (λ place. DiffersFirstAt place (trace_view told.now) kept) }
{
    for (place, exchange) in told.iter().enumerate() {
        let Some(kept) = recorded.get(place) else {
            return Some(place);
        };
        if !same_exchange(exchange, kept) {
            return Some(place);
        }
    }
    if recorded.len() > told.len() {
        return Some(told.len());
    }
    None
}
