//! Replays an interleaving: reads a list of turns by lines from standard input, makes them on a
//! server to which nobody came, and writes what each tenant took out and which turns were refused.
#![tactic(auto)]

mod lines;

use crate::lines::{Line, LineError, read_line};
use machine_runs::{Outputs, RefusedTurn, Turn, drive};
use repl_core::{Config, LoadError, RETRIES, STEPS, SharedText};
use repl_values::Fault;
use server_rules::Refusal;
use std::alloc::{AllocError, Global};
use std::io::{self, Read, Write};
use std::process::ExitCode;

// A configuration and a list of turns.
#[derive(Drop)]
struct Script {
    config: Config,
    turns: Vec<Turn>,
}

// Why a script is not run.
#[derive(Clone, Copy)]
enum ScriptError {
    NoMemory,
    // the number of the line, from 1 on
    Malformed(u64),
    // standard input or output failed
    Failed,
}

impl From<AllocError> for ScriptError {
    ghost use Rattle.std.specs.Prelude.{◌≡◌};
    ghost use Rattle.run_turns.specs.declared.ScriptError.TheVariants.{NoMemory};

    ghost from_gives = { λ _ e. e ≡ NoMemory };

    fn from(_e: AllocError) -> ScriptError {
        ScriptError::NoMemory
    }
}

fn add_turn(turns: &mut Vec<Turn>, turn: Turn) -> Result<(), AllocError> {
    turns.push(turn)?;
    Ok(())
}

fn read_script(alloc: Global, text: &str) -> Result<Script, ScriptError> {
    let mut config = Config {
        seed: [0; 32],
        retries: RETRIES,
        steps: STEPS,
        shared: SharedText::Empty,
    };
    let mut turns = Vec::new(alloc);
    let mut number: u64 = 0;
    for line in text.lines() {
        number = number.saturating_add(1);
        match read_line(alloc, line) {
            Ok(Line::Seed(seed)) => config.seed = seed,
            Ok(Line::Retries(retries)) => config.retries = retries,
            Ok(Line::Steps(steps)) => config.steps = steps,
            Ok(Line::Shared(text)) => config.shared = SharedText::Text(text),
            Ok(Line::Version) => {}
            Ok(Line::Turn(turn)) => add_turn(&mut turns, turn)?,
            Err(LineError::NoMemory) => return Err(ScriptError::NoMemory),
            Err(LineError::Malformed) => return Err(ScriptError::Malformed(number)),
        }
    }
    Ok(Script { config, turns })
}

fn write_refused<W: Write>(refused: RefusedTurn, writer: &mut W) -> io::Result<()> {
    let RefusedTurn { place, why } = refused;
    match why {
        Refusal::Wire(fault) => writeln!(writer, "refused {place} {fault:?}"),
        why => writeln!(writer, "refused {place} {why:?}"),
    }
}

// What each tenant took out, and then the turns that were refused.
fn write_outputs<W: Write>(alloc: Global, outputs: &Outputs, writer: &mut W) -> io::Result<()> {
    for (number, bytes) in outputs.drained.iter() {
        let digits = hex::encode(alloc, bytes.as_slice())?;
        writeln!(writer, "out {number} {digits}")?;
    }
    for refused in &outputs.refused {
        write_refused(*refused, writer)?;
    }
    writer.flush()
}

fn run<R: Read, W: Write>(
    alloc: Global,
    reader: &mut R,
    writer: &mut W,
) -> Result<(), ScriptError> {
    let Ok(text) = io::read_to_string(alloc, reader) else {
        return Err(ScriptError::Failed);
    };
    let script = read_script(alloc, &text)?;
    let written = match drive(alloc, script.config, &script.turns) {
        Ok(outputs) => write_outputs(alloc, &outputs, writer),
        Err(LoadError::Fault(fault)) => write_fault(&fault, writer),
        Err(LoadError::NoMemory) => return Err(ScriptError::NoMemory),
    };
    match written {
        Ok(()) => Ok(()),
        Err(_) => Err(ScriptError::Failed),
    }
}

// The fault of the text that all share, for which nobody was served.
fn write_fault<W: Write>(fault: &Fault, writer: &mut W) -> io::Result<()> {
    writeln!(writer, "error {}", fault.text.as_str())?;
    writer.flush()
}

// A line that cannot be written is no new cause of failure.
fn complain<W: Write>(errors: &mut W, error: ScriptError) -> u8 {
    match error {
        ScriptError::NoMemory => {
            let _ = writeln!(errors, "run_turns: out of memory");
            1
        }
        ScriptError::Failed => {
            let _ = writeln!(errors, "run_turns: reading or writing failed");
            1
        }
        ScriptError::Malformed(number) => {
            let _ = writeln!(errors, "run_turns: line {number} is malformed");
            2
        }
    }
}

fn main(rt: HostRuntime) -> ExitCode {
    let status = match run(rt.alloc(), &mut rt.reader(), &mut rt.stdout()) {
        Ok(()) => 0,
        Err(error) => complain(&mut rt.stderr(), error),
    };
    ExitCode::from(status)
}
