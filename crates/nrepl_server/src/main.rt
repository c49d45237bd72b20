//! An nREPL server: `nrepl_server serve` serves connections, and `nrepl_server pipe` one stream
//! from standard input to standard output.
#![tactic(auto)]

mod options;
mod serving;

use clap::error::ErrorKind;
use clap::{Arg, ArgAction, ArgMatches, Command};
use machine_runs::pipe_command;
use nrepl_pipe::{bad_options, out_of_memory, unreadable_file};
use options::{Service, config_of, service_of};
use repl_core::{Config, SharedText};
use serving::serve_command;
use std::alloc::{AllocError, Global};
use std::process::ExitCode;
use std::rt::{Env, Files};
use std::sync::ArcStr;
use std::{env, fs, io};

// What the command line asks for.
#[derive(Drop)]
enum Chosen {
    // One stream, of a server that begins with this.
    Pipe(Config),
    // Connections, of such a server.
    Serve(Config, Service),
    BadOptions,
    NoMemory,
    // The file of this path cannot be read as a text.
    Unreadable(String),
}

fn option<'a>(alloc: Global, name: &'a str) -> Arg<'a> {
    Arg::new(alloc, name).long(name).action(ArgAction::Set)
}

fn command_line<'a>(alloc: Global) -> Result<Command<'a>, AllocError> {
    let pipe = Command::new(alloc, "pipe")
        .arg(option(alloc, "seed"))?
        .arg(option(alloc, "retries"))?
        .arg(option(alloc, "shared"))?;
    let serve = Command::new(alloc, "serve")
        .arg(option(alloc, "port"))?
        .arg(option(alloc, "connections"))?
        .arg(option(alloc, "crews"))?
        .arg(option(alloc, "seed"))?
        .arg(option(alloc, "retries"))?
        .arg(option(alloc, "shared"))?;
    Command::new(alloc, "nrepl_server")
        .subcommand_required(true)
        .subcommand(pipe)?
        .subcommand(serve)
}

fn choice_of<R: Files + Alloc<A = Global>>(rt: &R, words: &[String]) -> Chosen {
    let Ok(command) = command_line(rt.alloc()) else {
        return Chosen::NoMemory;
    };
    match command.try_get_matches_from(words) {
        Ok(matches) => match chosen_in(rt, &matches) {
            Ok(chosen) => chosen,
            Err(chosen) => chosen,
        },
        Err(error) => match error.kind() {
            ErrorKind::OutOfMemory => Chosen::NoMemory,
            _ => Chosen::BadOptions,
        },
    }
}

// What is asked for, if its options are right and the text that all share can be read.
fn chosen_in<R: Files + Alloc<A = Global>>(
    rt: &R,
    matches: &ArgMatches<'_>,
) -> Result<Chosen, Chosen> {
    if let Some(pipe) = matches.subcommand_matches("pipe") {
        let config = config_of(pipe).ok_or(Chosen::BadOptions)?;
        return Ok(Chosen::Pipe(with_text(rt, config, pipe)?));
    }
    let Some(serve) = matches.subcommand_matches("serve") else {
        return Err(Chosen::BadOptions);
    };
    let config = config_of(serve).ok_or(Chosen::BadOptions)?;
    let service = service_of(serve).ok_or(Chosen::BadOptions)?;
    Ok(Chosen::Serve(with_text(rt, config, serve)?, service))
}

// The configuration with the text of the file that the options name, if they name one.
fn with_text<R: Files + Alloc<A = Global>>(
    rt: &R,
    config: Config,
    options: &ArgMatches<'_>,
) -> Result<Config, Chosen> {
    let Some(path) = options.get_str("shared") else {
        return Ok(config);
    };
    match read_text(rt, path) {
        Ok(text) => Ok(Config {
            shared: SharedText::Text(text),
            ..config
        }),
        Err(error) if error.kind() == io::ErrorKind::OutOfMemory => Err(Chosen::NoMemory),
        Err(_) => match String::from_str(rt.alloc(), path) {
            Ok(path) => Err(Chosen::Unreadable(path)),
            Err(_) => Err(Chosen::NoMemory),
        },
    }
}

fn read_text<R: Files + Alloc<A = Global>>(rt: &R, path: &str) -> io::Result<ArcStr> {
    Ok(ArcStr::from_string(fs::read_to_string(rt, path)?)?)
}

// The words of the command line. What is no text is a bad option.
fn words<R: Env + Alloc<A = Global>>(rt: &R) -> Result<Vec<String>, Chosen> {
    let words = match env::args(rt) {
        Ok(words) => words.collect(rt.alloc()),
        Err(error) if error.kind() == io::ErrorKind::InvalidData => return Err(Chosen::BadOptions),
        Err(_) => return Err(Chosen::NoMemory),
    };
    match words {
        Ok(words) => Ok(words),
        Err(_) => Err(Chosen::NoMemory),
    }
}

fn main(rt: HostRuntime) -> ExitCode {
    let alloc = rt.alloc();
    let mut errors = rt.stderr();
    let chosen = match words(&rt) {
        Ok(words) => choice_of(&rt, words.as_slice()),
        Err(chosen) => chosen,
    };
    let status = match chosen {
        Chosen::Pipe(config) => {
            let mut reader = rt.reader();
            let mut writer = rt.stdout();
            pipe_command(alloc, config, &mut reader, &mut writer, &mut errors)
        }
        Chosen::Serve(config, service) => {
            let mut writer = rt.stdout();
            serve_command(rt, alloc, config, service, &mut writer, &mut errors)
        }
        Chosen::BadOptions => bad_options(&mut errors),
        Chosen::NoMemory => out_of_memory(&mut errors),
        Chosen::Unreadable(path) => unreadable_file(&mut errors, path.as_str()),
    };
    ExitCode::from(status)
}
