// The actors' turns in a round.
ghost use Rattle.std.specs.Prelude.{◌≡◌, ◌+◌, ◌<◌, ◌≤◌, [], Ok, true, not, IfOk, IfErr};
ghost use Rattle.server_rules.specs.Ground.{Ground};
ghost use Rattle.server_rules.specs.Grounds.{IsRight};
ghost use Rattle.server_rules.specs.LoneTurns.{LoneTenant, goes, actors_of, lone_step, lone_after};
ghost use Rattle.server_rules.specs.LoneTurns.{lone_run};
ghost use Rattle.nrepl_pipe.specs.Schedule.{go_each};
ghost use Rattle.nrepl_pipe.specs.Inside.Parts.{TurnsSo, with_turn, IsRound};

use crate::ends::PipeError;
use server_rules::{Actor, Core, Refusal};
use std::alloc::Global;

// What came of the turns of a round.
#[derive(Clone, Copy, PartialEq, Eq)]
pub(crate) struct Round {
    // Every actor was refused, and none for replies that wait.
    pub(crate) is_last: bool,
    // Some actor's turn was accepted.
    pub(crate) uses_step: bool,
    // Some actor met the end of the steps.
    pub(crate) is_worn: bool,
}

// What came of an actor's turn.
#[derive(Clone, Copy, PartialEq, Eq)]
pub(crate) enum Turned {
    Done,
    // Refused, since replies wait.
    Held,
    // Refused, since all steps are used up.
    Worn,
    // Refused for another reason.
    Idle,
}

// Each actor goes on once. Where no reply waits as they begin, another round follows only if a step
// was used up: a turn is held behind one that was accepted.
pub(crate) fn go_each<C: Core>(alloc: Global, core: &mut C) -> Result<Round, PipeError>
    ensures steps { (C.left core.new).steps ≤ (C.left core.old).steps }
    ensures used { IfOk result (λ told. told.uses_step ≡ true
        → (C.left core.new).steps < (C.left core.old).steps) }
    ensures goes_on { (g : Ground) (l : LoneTenant) → IsRight g → C.stands g core.old l
        → l.state.replies ≡ [] → IfOk result (λ told. told.is_last ≡ not told.uses_step) }
    ensures turned { (g : Ground) (l : LoneTenant) → IsRight g → C.stands g core.old l
        → IfOk result (λ told. IsRound told g l (go_each (actors_of l))
        × C.stands g core.new (lone_run g l (go_each (actors_of l)))) }
    ensures told { IfErr result (λ why. why ≡ PipeError.NoMemory) }
{
    let actors = core.actors(alloc)?;
    let mut round = Round {
        is_last: true,
        uses_step: false,
        is_worn: false,
    };
    for actor in &actors {
        round = round.with(go_once(core, *actor)?);
    }
    Ok(round)
}

impl Round {
    // With one more turn.
    fn with(self, turned: Turned) -> Round
        ensures { result ≡ with_turn self turned }
    {
        match turned {
            Turned::Done => Round {
                is_last: false,
                uses_step: true,
                ..self
            },
            Turned::Held => Round {
                is_last: false,
                ..self
            },
            Turned::Worn => Round {
                is_worn: true,
                ..self
            },
            Turned::Idle => self,
        }
    }
}

fn go_once<C: Core>(core: &mut C, actor: Actor) -> Result<Turned, PipeError>
    ensures steps { (C.left core.new).steps ≤ (C.left core.old).steps }
    ensures done { result ≡ Ok Turned.Done → (C.left core.old).steps ≡ (C.left core.new).steps + 1 }
    ensures turned { (g : Ground) (l : LoneTenant) → IsRight g → C.stands g core.old l
        → IfOk result (λ came. TurnsSo came (lone_step g l (goes actor))
        × C.stands g core.new (lone_after g l (goes actor))) }
    ensures told { IfErr result (λ why. why ≡ PipeError.NoMemory) }
{
    match core.go(actor) {
        Ok(()) => Ok(Turned::Done),
        Err(Refusal::Held) => Ok(Turned::Held),
        Err(Refusal::Worn) => Ok(Turned::Worn),
        Err(Refusal::NoMemory) => Err(PipeError::NoMemory),
        Err(_) => Ok(Turned::Idle),
    }
}
