// An evaluation over somebody who answers.
ghost use Rattle.std.specs.Prelude.{◌≡◌, ◌++◌, [], ◌∷◌, true, false, OnOk, IfOk, IfErr};
ghost use Rattle.repl_asks.specs.Inside.View.{ask_view, answer_view};
ghost use Rattle.repl_asks.specs.Inside.Jobs.{job_view};
ghost use Rattle.evaluation_rules.specs.Evaluation.{evaluation};
ghost use Rattle.repl_walker.specs.Ends.{ending_view, IsEndOf};
ghost use Rattle.repl_walker.specs.Waits.{walk_tree, WentOn};
ghost use Rattle.repl_walker.specs.Positions.{walk_position, IsLaterProgress, IsOuterProgress};
ghost use Rattle.repl_walker.specs.Positions.{IsTurned, IsSettled, HasFewerCalls};
ghost use Rattle.repl_walker.specs.Stops.{IsStoppedBy, LeftAt};

use crate::ending::Ending;
use crate::resume::start;
use crate::waiting::{Progress, Walk};
use repl_asks::{Answer, Ask, Job, Refs};
use std::alloc::{AllocError, Global};
use thiserror::Error;

/// Why an evaluation did not end. `Stopped` has the ask that got no answer.
#[derive(Debug, Drop, Error)]
pub enum WalkError {
    #[error("out of memory")]
    NoMemory,
    #[error("no answer to {0:?}")]
    Stopped(Ask),
}

/// Evaluates the job, each ask answered by `refs`, which must not have stopped before. `Stopped`
/// comes only where the ask left `refs` stopped; after `NoMemory` it has not stopped.
pub fn walk<R: Refs>(alloc: Global, job: &Job, refs: &mut R) -> Result<Ending, WalkError>
    requires { (R.heard refs.old).stopped ≡ false }
    ensures ok { OnOk result ((R.heard refs.new).stopped ≡ false) }
    ensures stopped { IfErr result (λ error. IsStoppedBy error (R.heard refs.new)) }
    ensures meaning { IfOk result (λ ending. IsEndOf (job_view job.now)
        (R.heard refs.old).trace (R.heard refs.new).trace (ending_view ending)) }
    ensures left_at { IfErr result (λ error. LeftAt (evaluation (job_view job.now))
        (R.heard refs.old).trace (R.heard refs.new).trace error) }
{
    let mut progress = match start(alloc, job) {
        Ok(progress) => progress,
        Err(AllocError) => return Err(WalkError::NoMemory),
    };
    loop {
        match progress {
            Progress::Ends(ending) => return Ok(ending),
            Progress::Asks(walk) => match until_a_call(alloc, walk, refs) {
                Ok(later) => progress = later,
                Err(error) => return Err(error),
            },
        }
    }
}

// To the end, or until fewer calls are left outside of transactions.
fn until_a_call<R: Refs>(alloc: Global, walk: Walk, refs: &mut R) -> Result<Progress, WalkError>
    requires { (R.heard refs.old).stopped ≡ false }
    ensures ok { OnOk result ((R.heard refs.new).stopped ≡ false) }
    ensures stopped { IfErr result (λ error. IsStoppedBy error (R.heard refs.new)) }
    ensures meaning { IfOk result (λ later.
        WentOn walk (R.heard refs.old).trace (R.heard refs.new).trace later) }
    ensures left_at { IfErr result (λ error. LeftAt (walk_tree walk)
        (R.heard refs.old).trace (R.heard refs.new).trace error) }
    ensures fewer { IfOk result (λ later. HasFewerCalls later (walk_position walk)) }
{
    let calls = walk.waiting.most_calls();
    let mut walk = walk;
    loop {
        let further = match out_of_transaction(alloc, walk, refs) {
            Ok(further) => further,
            Err(error) => return Err(error),
        };
        match further {
            Progress::Ends(ending) => return Ok(Progress::Ends(ending)),
            Progress::Asks(later) => {
                if later.waiting.most_calls() < calls {
                    return Ok(Progress::Asks(later));
                }
                walk = later;
            }
        }
    }
}

// To the end, or to the next ask outside of the transaction that is under way.
fn out_of_transaction<R: Refs>(
    alloc: Global,
    walk: Walk,
    refs: &mut R,
) -> Result<Progress, WalkError>
    requires { (R.heard refs.old).stopped ≡ false }
    ensures ok { OnOk result ((R.heard refs.new).stopped ≡ false) }
    ensures stopped { IfErr result (λ error. IsStoppedBy error (R.heard refs.new)) }
    ensures meaning { IfOk result (λ later.
        WentOn walk (R.heard refs.old).trace (R.heard refs.new).trace later) }
    ensures left_at { IfErr result (λ error. LeftAt (walk_tree walk)
        (R.heard refs.old).trace (R.heard refs.new).trace error) }
    ensures outer { IfOk result (λ later. IsOuterProgress later (walk_position walk)) }
    ensures settled { IfOk result (λ later. IsSettled later) }
{
    let mut progress = one_further(alloc, walk, refs)?;
    loop {
        match progress {
            Progress::Ends(ending) => return Ok(Progress::Ends(ending)),
            Progress::Asks(walk) => {
                if !walk.waiting.is_inside() {
                    return Ok(Progress::Asks(walk));
                }
                progress = match until_a_turn(alloc, walk, refs) {
                    Ok(later) => later,
                    Err(error) => return Err(error),
                };
            }
        }
    }
}

// To the end or out of the transaction, or until fewer attempts or fewer calls are left in it.
fn until_a_turn<R: Refs>(alloc: Global, walk: Walk, refs: &mut R) -> Result<Progress, WalkError>
    requires goes_on { (R.heard refs.old).stopped ≡ false }
    requires inside { (walk_position walk).transaction.runs ≡ true }
    ensures ok { OnOk result ((R.heard refs.new).stopped ≡ false) }
    ensures stopped { IfErr result (λ error. IsStoppedBy error (R.heard refs.new)) }
    ensures meaning { IfOk result (λ later.
        WentOn walk (R.heard refs.old).trace (R.heard refs.new).trace later) }
    ensures left_at { IfErr result (λ error. LeftAt (walk_tree walk)
        (R.heard refs.old).trace (R.heard refs.new).trace error) }
    ensures outer { IfOk result (λ later. IsOuterProgress later (walk_position walk)) }
    ensures turned { IfOk result (λ later. IsTurned later (walk_position walk)) }
{
    let turn = walk.waiting.turn();
    let calls = walk.waiting.calls();
    let mut walk = walk;
    loop {
        let further = match one_further(alloc, walk, refs) {
            Ok(further) => further,
            Err(error) => return Err(error),
        };
        match further {
            Progress::Ends(ending) => return Ok(Progress::Ends(ending)),
            Progress::Asks(later) => {
                if !later.waiting.is_inside() {
                    return Ok(Progress::Asks(later));
                }
                let calls_left = later.waiting.calls();
                if later.waiting.turn() < turn {
                    return Ok(Progress::Asks(later));
                }
                if calls_left < calls {
                    return Ok(Progress::Asks(later));
                }
                walk = later;
            }
        }
    }
}

// Has the ask of a walk answered, and goes on with the answer.
fn one_further<R: Refs>(alloc: Global, walk: Walk, refs: &mut R) -> Result<Progress, WalkError>
    requires { (R.heard refs.old).stopped ≡ false }
    ensures ok { OnOk result ((R.heard refs.new).stopped ≡ false) }
    ensures stopped { IfErr result (λ error. IsStoppedBy error (R.heard refs.new)) }
    ensures meaning { IfOk result (λ later.
        WentOn walk (R.heard refs.old).trace (R.heard refs.new).trace later) }
    ensures left_at { IfErr result (λ error. LeftAt (walk_tree walk)
        (R.heard refs.old).trace (R.heard refs.new).trace error) }
    ensures later { IfOk result (λ later. IsLaterProgress later (walk_position walk)) }
{
    let answer = answer_to(alloc, &walk, refs)?;
    match walk.resume(alloc, answer) {
        Ok(later) => Ok(later),
        Err(AllocError) => Err(WalkError::NoMemory),
    }
}

// Has the ask of a walk answered.
fn answer_to<R: Refs>(alloc: Global, walk: &Walk, refs: &mut R) -> Result<Answer, WalkError>
    requires { (R.heard refs.old).stopped ≡ false }
    ensures ok { OnOk result ((R.heard refs.new).stopped ≡ false) }
    ensures stopped { IfErr result (λ error. IsStoppedBy error (R.heard refs.new)) }
    ensures grows { IfOk result (λ answer. (R.heard refs.new).trace
        ≡ (R.heard refs.old).trace ++ record {
          ask = ask_view walk.now.ask;
          answer =
              answer_view answer;
        } ∷ []) }
    ensures left_at { IfErr result (λ error. LeftAt (walk_tree walk.now)
        (R.heard refs.old).trace (R.heard refs.new).trace error) }
{
    let Ok(asked) = walk.ask.copy() else {
        return Err(WalkError::NoMemory);
    };
    match refs.ask(alloc, asked) {
        Ok(answer) => Ok(answer),
        Err(stop) => Err(WalkError::Stopped(stop.ask)),
    }
}
