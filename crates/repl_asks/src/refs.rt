// Who answers an evaluation.
ghost use Rattle.std.specs.Prelude.{◌≡◌, ◌++◌, [], ◌∷◌, true, IfOk, IfErr, IsErr};
ghost use Rattle.repl_asks.specs.Exchange.{Heard, Fits};
ghost use Rattle.repl_asks.specs.Inside.View.{ask_view, answer_view};

use crate::answer::Answer;
use crate::ask::Ask;
use std::alloc::Global;

/// Why an ask has no answer.
#[derive(Clone, Copy, Debug, PartialEq, Eq)]
pub enum StopReason {
    /// None is left, as in a replay.
    NoAnswer,
    Interrupted,
    Refused,
    NoMemory,
}

/// An ask that was left without an answer, and why.
#[derive(Debug, Drop)]
pub struct Stop {
    pub why: StopReason,
    pub ask: Ask,
}

/// Answers the asks of one evaluation, in order. One that stopped answers no more.
pub trait Refs {
    // The trace so far, and whether it has stopped.
    ghost heard: { Self → Heard };

    fn ask(&mut self, alloc: Global, ask: Ask) -> Result<Answer, Stop>
        ensures grows { IfOk result (λ answer. (heard self.new).trace
            ≡ (heard self.old).trace ++ record { ask = ask_view ask; answer = answer_view answer }
            ∷ []) }
        ensures fits { IfOk result (λ answer. Fits (ask_view ask) (answer_view answer)) }
        ensures goes_on { IfOk result (λ _. (heard self.new).stopped ≡ (heard self.old).stopped) }
        ensures stays { IfErr result (λ _. (heard self.new).trace ≡ (heard self.old).trace) }
        ensures stops { IfErr result (λ _. (heard self.new).stopped ≡ true) }
        ensures handed_back { IfErr result (λ stop. ask_view stop.ask ≡ ask_view ask) }
        ensures no_more { (heard self.old).stopped ≡ true → IsErr result };
}
