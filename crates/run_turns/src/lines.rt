// The lines of a list of turns.
use bytes::Bytes;
use hex::{FromHex, FromHexError};
use machine_runs::Turn;
use server_rules::Actor;
use std::alloc::{AllocError, Global};
use std::sync::ArcStr;

// A line: a part of the configuration, or a turn.
#[derive(Drop)]
pub(crate) enum Line {
    Seed([u8; 32]),
    Retries(u32),
    Steps(u32),
    // the text of the shared namespace
    Shared(ArcStr),
    // the version of the lines themselves, which is 1
    Version,
    Turn(Turn),
}

// Why a line is not read.
#[derive(Clone, Copy)]
pub(crate) enum LineError {
    NoMemory,
    Malformed,
}

impl From<AllocError> for LineError {
    ghost use Rattle.std.specs.Prelude.{◌≡◌};
    ghost use Rattle.run_turns.specs.declared.lines.LineError.TheVariants.{NoMemory};

    ghost from_gives = { λ _ e. e ≡ NoMemory };

    fn from(_e: AllocError) -> LineError {
        LineError::NoMemory
    }
}

// A line is a word, and behind a space what it is said of.
pub(crate) fn read_line(alloc: Global, line: &str) -> Result<Line, LineError> {
    let Some((word, rest)) = line.split_once(' ') else {
        return Err(LineError::Malformed);
    };
    match word {
        "seed" => Ok(Line::Seed(read_seed(rest)?)),
        "retries" => Ok(Line::Retries(read_count(rest)?)),
        "steps" => Ok(Line::Steps(read_count(rest)?)),
        "version" => read_version(rest),
        "shared" => Ok(Line::Shared(read_text(alloc, rest)?)),
        _ => Ok(Line::Turn(read_turn(alloc, word, rest)?)),
    }
}

fn read_turn(alloc: Global, word: &str, rest: &str) -> Result<Turn, LineError> {
    match word {
        "open" => Ok(Turn::Open(read_number(rest)?)),
        "bytes" => {
            let (number, digits) = split_number(rest)?;
            Ok(Turn::Bytes(number, read_piece(alloc, digits)?))
        }
        "go" => {
            let (number, name) = split_number(rest)?;
            Ok(Turn::Go(number, read_actor(name)?))
        }
        "drain" => Ok(Turn::Drain(read_number(rest)?)),
        "bye" => Ok(Turn::Bye(read_number(rest)?)),
        _ => Err(LineError::Malformed),
    }
}

// The number of a tenant, and what stands behind it.
fn split_number(text: &str) -> Result<(u64, &str), LineError> {
    match text.split_once(' ') {
        Some((number, rest)) => Ok((read_number(number)?, rest)),
        None => Err(LineError::Malformed),
    }
}

fn read_number(text: &str) -> Result<u64, LineError> {
    match text.parse::<u64>() {
        Ok(number) => Ok(number),
        Err(_) => Err(LineError::Malformed),
    }
}

fn read_count(text: &str) -> Result<u32, LineError> {
    match text.parse::<u32>() {
        Ok(number) => Ok(number),
        Err(_) => Err(LineError::Malformed),
    }
}

fn read_version(text: &str) -> Result<Line, LineError> {
    if text == "1" {
        Ok(Line::Version)
    } else {
        Err(LineError::Malformed)
    }
}

fn read_actor(name: &str) -> Result<Actor, LineError> {
    match name {
        "bare" => Ok(Actor::Bare),
        "agents" => Ok(Actor::Agents),
        _ => Ok(Actor::Session(read_number(name)?)),
    }
}

fn read_seed(digits: &str) -> Result<[u8; 32], LineError> {
    match <[u8; 32] as FromHex>::from_hex(digits) {
        Ok(seed) => Ok(seed),
        Err(_) => Err(LineError::Malformed),
    }
}

// A text as its bytes, two digits each.
fn read_text(alloc: Global, digits: &str) -> Result<ArcStr, LineError> {
    match String::from_utf8(read_bytes(alloc, digits)?) {
        Ok(text) => Ok(ArcStr::from_string(text)?),
        Err(_) => Err(LineError::Malformed),
    }
}

fn read_piece(alloc: Global, digits: &str) -> Result<Bytes, LineError> {
    Ok(Bytes::copy_from_slice(alloc, &read_bytes(alloc, digits)?)?)
}

// Bytes, two digits each.
fn read_bytes(alloc: Global, digits: &str) -> Result<Vec<u8>, LineError> {
    match hex::decode(alloc, digits) {
        Ok(bytes) => Ok(bytes),
        Err(FromHexError::OutOfMemory) => Err(LineError::NoMemory),
        Err(_) => Err(LineError::Malformed),
    }
}
