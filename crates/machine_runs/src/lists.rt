// Lists of turns.
ghost use Rattle.std.specs.Prelude.{map, IfOk, IfErr, OnOk};
ghost use Rattle.server_rules.specs.Ground.{Ground};
ghost use Rattle.server_rules.specs.Machine.World.{World, opened_world};
ghost use Rattle.repl_core.specs.Configured.{IsConfigured};
ghost use Rattle.repl_core.specs.Starting.{TellsFault};
ghost use Rattle.machine_runs.specs.Alone.{IsServedAlone};
ghost use Rattle.machine_runs.specs.Attempts.{AgreesWithAnyRun};
ghost use Rattle.machine_runs.specs.Driver.{DriverStands};
ghost use Rattle.machine_runs.specs.Driven.{IsDriven, MakesTurn};
ghost use Rattle.machine_runs.specs.Turns.{turn_view};

use crate::driver::Driver;
use crate::outputs::{Outputs, RefusedTurn};
use crate::turn::Turn;
use repl_core::{Config, LoadError};
use server_rules::Refusal;
use std::alloc::{AllocError, Global};

/// Makes each turn of a list, on a server to which nobody came: gives what it serves each tenant,
/// and the turns that were refused. A tenant that names no shared ref is given what its own turns
/// alone serve. Attempts at transactions see what attempts in any other run see that agree with
/// them. It fails where the text that all share has a fault, or for want of memory.
pub fn drive(alloc: Global, config: Config, turns: &[Turn]) -> Result<Outputs, LoadError>
    ensures driven { (g : Ground) → IsConfigured g config → IfOk result
        (IsDriven g (opened_world g) (map turn_view turns.now)) }
    ensures alone { (g : Ground) → IsConfigured g config → IfOk result
        (IsServedAlone g (opened_world g) (map turn_view turns.now)) }
    ensures attempts { (g : Ground) → AgreesWithAnyRun g (map turn_view turns.now) }
    ensures grounded { OnOk result ((g : Ground) × IsConfigured g config) }
    ensures fault { IfErr result (TellsFault config) }
{
    let mut driver = Driver::new(alloc, &config)?;
    let mut outputs = Outputs::new(alloc);
    let mut place = 0;
    for turn in turns {
        make_turn(&mut driver, &mut outputs, place, turn)?;
        place += 1;
    }
    Ok(outputs)
}

// Makes a turn, and notes what it comes to.
fn make_turn(
    driver: &mut Driver,
    outputs: &mut Outputs,
    place: usize,
    turn: &Turn,
) -> Result<(), AllocError>
    ensures { (g : Ground) (w : World) → DriverStands g driver.old w → OnOk result
        (MakesTurn g w place (turn_view turn.now) driver.new outputs.old outputs.new) }
{
    match driver.turn(turn) {
        Ok(Some(bytes)) => outputs.add(turn.whose(), bytes),
        Ok(None) => Ok(()),
        Err(Refusal::NoMemory) => Err(AllocError),
        Err(why) => outputs.refuse(RefusedTurn { place, why }),
    }
}
