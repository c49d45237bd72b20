// The rounds behind a piece: each actor goes on once, and the replies that wait are written.
ghost use Rattle.std.specs.Prelude.{◌≡◌, ◌<◌, ◌≤◌, [], true, false, not, IfOk, OnOk, OnErr};
ghost use Rattle.server_rules.specs.Ground.{Ground};
ghost use Rattle.server_rules.specs.Grounds.{IsRight};
ghost use Rattle.server_rules.specs.LoneTurns.{LoneTenant, actors_of};
ghost use Rattle.nrepl_pipe.specs.Schedule.{go_each, round};
ghost use Rattle.nrepl_pipe.specs.Failing.{MarksFailure, is_read_failed, is_text_fault, is_write_failed};
ghost use Rattle.nrepl_pipe.specs.Reads.{IsPassedOn};
ghost use Rattle.nrepl_pipe.specs.Inside.Parts.{IsRound, MakesTurns, Begins, MakesRounds, BeginsRounds};

use crate::actors::{Round, go_each};
use crate::ends::PipeError;
use crate::ports::Sink;
use crate::replies::write_replies;
use server_rules::Core;
use std::alloc::Global;

// How the rounds behind a piece ended.
#[derive(Clone, Copy, PartialEq, Eq)]
pub(crate) enum Rounds {
    Idle,
    // Some actor met the end of the steps.
    Worn,
}

// Rounds, until the first in which every actor is refused and none for replies that wait.
pub(crate) fn run_rounds<C: Core, W: Sink>(
    alloc: Global,
    core: &mut C,
    writer: &mut W,
) -> Result<Rounds, PipeError>
    ensures steps { (C.left core.new).steps ≤ (C.left core.old).steps }
    ensures ok { (g : Ground) (l : LoneTenant) → IsRight g → C.stands g core.old l
        → IfOk result (λ end. MakesRounds g (C.stands g core.new) l
        (W.contents writer.old) (W.contents writer.new) end) }
    ensures err { (g : Ground) (l : LoneTenant) → IsRight g → C.stands g core.old l
        → OnErr result (BeginsRounds g l (W.contents writer.old) (W.contents writer.new)) }
    ensures passed { IsPassedOn (W.contents writer.old) (W.passed writer.old)
        → OnOk result (IsPassedOn (W.contents writer.new) (W.passed writer.new)) }
    ensures told { MarksFailure (W.failed writer.old) (W.failed writer.new) (is_write_failed result) }
    ensures no_read { is_read_failed result ≡ false }
    ensures no_text { is_text_fault result ≡ false }
{
    let first = run_round(alloc, core, writer)?;
    let mut is_last = first.is_last;
    let mut is_worn = first.is_worn;
    while !is_last {
        let round = run_round(alloc, core, writer)?;
        // No reply waited as it began, so a turn was held only behind one that used up a step.
        is_last = !round.uses_step;
        is_worn |= round.is_worn;
    }
    if is_worn {
        return Ok(Rounds::Worn);
    }
    Ok(Rounds::Idle)
}

// Each actor goes on once, and then the replies that wait are written.
fn run_round<C: Core, W: Sink>(
    alloc: Global,
    core: &mut C,
    writer: &mut W,
) -> Result<Round, PipeError>
    ensures steps { (C.left core.new).steps ≤ (C.left core.old).steps }
    ensures used { IfOk result (λ told. told.uses_step ≡ true
        → (C.left core.new).steps < (C.left core.old).steps) }
    ensures goes_on { (g : Ground) (l : LoneTenant) → IsRight g → C.stands g core.old l
        → l.state.replies ≡ [] → IfOk result (λ told. told.is_last ≡ not told.uses_step) }
    ensures ok { (g : Ground) (l : LoneTenant) → IsRight g → C.stands g core.old l
        → IfOk result (λ told. IsRound told g l (go_each (actors_of l))
        × MakesTurns g (C.stands g core.new) l (round g l)
        (W.contents writer.old) (W.contents writer.new)) }
    ensures err { (g : Ground) (l : LoneTenant) → IsRight g → C.stands g core.old l
        → OnErr result (Begins g l (round g l) (W.contents writer.old) (W.contents writer.new)) }
    ensures passed { IsPassedOn (W.contents writer.old) (W.passed writer.old)
        → OnOk result (IsPassedOn (W.contents writer.new) (W.passed writer.new)) }
    ensures told { MarksFailure (W.failed writer.old) (W.failed writer.new) (is_write_failed result) }
    ensures no_read { is_read_failed result ≡ false }
    ensures no_text { is_text_fault result ≡ false }
{
    let round = go_each(alloc, core)?;
    write_replies(core, writer)?;
    Ok(round)
}
