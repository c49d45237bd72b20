// Answers that are known beforehand.
ghost use Rattle.std.specs.Prelude.{◌≡◌, ◌++◌, ◌↔◌, [], ◌∷◌, true, false, map, IsTrue, IsErr, IfOk};
ghost use Rattle.std.specs.Prelude.{IfErr, OnErr};
ghost use Rattle.repl_asks.specs.Exchange.{Fits};
ghost use Rattle.repl_asks.specs.Inside.View.{ask_view, answer_view};

use crate::answer::Answer;
use crate::ask::Ask;
use crate::exchange::{Exchange, Trace};
use crate::refs::{Refs, Stop, StopReason};
use std::alloc::Global;
use std::collections::VecDeque;

/// Gives answers that are known beforehand, in order, and stops where none is left. An answer that
/// does not fit its ask counts as none.
#[derive(Drop)]
pub struct Replay {
    left: VecDeque<Answer>,
    trace: Trace,
    has_stopped: bool,
}

impl Replay {
    ghost use Rattle.repl_asks.specs.Inside.Replay.{heard_by, answers_left};

    /// A replay of these answers, which was asked nothing yet. It takes no memory.
    pub fn new(alloc: Global, answers: Vec<Answer>) -> Replay
        ensures left { answers_left result ≡ map answer_view answers.items }
        ensures heard { heard_by result ≡ record { trace = []; stopped = false } }
    {
        Replay {
            left: VecDeque::from_vec(answers),
            trace: Vec::new(alloc),
            has_stopped: false,
        }
    }
}

// Whether the answer is of the kind that the ask wants.
fn fits(ask: &Ask, answer: &Answer) -> bool
    ensures { IsTrue result ↔ Fits (ask_view ask.now) (answer_view answer.now) }
{
    answer.kind() == ask.kind()
}

impl Refs for Replay {
    ghost use Rattle.repl_asks.specs.Inside.Replay.{heard_by, answers_left, MaySay};

    ghost heard = { heard_by };

    /// The next answer, recorded beside its ask.
    fn ask(&mut self, alloc: Global, ask: Ask) -> Result<Answer, Stop>
        ensures grows { IfOk result (λ answer. (heard_by self.new).trace
            ≡ (heard_by self.old).trace ++ record {
              ask = ask_view ask;
              answer =
                  answer_view answer;
            } ∷ []) }
        ensures fits { IfOk result (λ answer. Fits (ask_view ask) (answer_view answer)) }
        ensures left { IfOk result (λ answer. answers_left self.old
            ≡ answer_view answer ∷ answers_left self.new) }
        ensures goes_on { IfOk result (λ _. (heard_by self.new).stopped
            ≡ (heard_by self.old).stopped) }
        ensures stays { IfErr result (λ _. (heard_by self.new).trace ≡ (heard_by self.old).trace) }
        ensures kept { IfErr result (λ _. answers_left self.new ≡ answers_left self.old) }
        ensures stops { IfErr result (λ _. (heard_by self.new).stopped ≡ true) }
        ensures handed_back { IfErr result (λ stop. ask_view stop.ask ≡ ask_view ask) }
        ensures why { IfErr result (λ stop. MaySay stop.why self.old (ask_view ask)) }
        ensures no_more { (heard_by self.old).stopped ≡ true → IsErr result }
    {
        match self.next_for(&ask) {
            Ok(answer) => Ok(answer),
            Err(why) => {
                self.has_stopped = true;
                Err(Stop { why, ask })
            }
        }
    }
}

impl Replay {
    ghost use Rattle.repl_asks.specs.Inside.Replay.{heard_by, answers_left, MaySay};

    fn next_for(&mut self, ask: &Ask) -> Result<Answer, StopReason>
        ensures grows { IfOk result (λ answer. (heard_by self.new).trace
            ≡ (heard_by self.old).trace ++ record {
              ask = ask_view ask.now;
              answer =
                  answer_view answer;
            } ∷ []) }
        ensures fits { IfOk result (λ answer. Fits (ask_view ask.now) (answer_view answer)) }
        ensures left { IfOk result (λ answer. answers_left self.old
            ≡ answer_view answer ∷ answers_left self.new) }
        ensures stopped { (heard_by self.new).stopped ≡ (heard_by self.old).stopped }
        ensures stays { OnErr result ((heard_by self.new).trace ≡ (heard_by self.old).trace) }
        ensures kept { OnErr result (answers_left self.new ≡ answers_left self.old) }
        ensures why { IfErr result (λ why. MaySay why self.old (ask_view ask.now)) }
        ensures no_more { (heard_by self.old).stopped ≡ true → IsErr result }
    {
        if self.has_stopped {
            return Err(StopReason::NoAnswer);
        }
        let Some(answer) = self.left.front() else {
            return Err(StopReason::NoAnswer);
        };
        if !fits(ask, answer) {
            return Err(StopReason::NoAnswer);
        }
        let Ok(asked) = ask.copy() else {
            return Err(StopReason::NoMemory);
        };
        let Ok(exchange) = Exchange::of(asked, answer) else {
            return Err(StopReason::NoMemory);
        };
        if self.trace.push(exchange).is_err() {
            return Err(StopReason::NoMemory);
        }
        match self.left.pop_front() {
            Some(answer) => Ok(answer),
            None => Err(StopReason::NoAnswer),
        }
    }
}
