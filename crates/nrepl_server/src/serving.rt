// Connections are served, and the lines and the exit status tell how that went.
ghost use Rattle.std.specs.Prelude.{◌≡◌};

use crate::options::Service;
use connection_crews::{OpenGate, Options, ServeError, serve};
use journal_book::{PARTS, Report};
use nrepl_pipe::{faulty_text, out_of_memory};
use repl_core::{Config, LoadError, Machine};
use std::alloc::Global;
use std::io;
use std::io::Write;
use std::marker::Brand;
use std::net::{Ipv4Addr, Net, TcpListener, TcpStream};
use std::sync::Wait;
use std::sync::ledger::{Blank, Ledger};
use std::thread::Threads;
use thiserror::Error;

// Why not all was served, or not told.
#[derive(Debug, Drop, Error)]
enum ServingFailure {
    #[error("{0}")]
    Serve(ServeError),
    #[error("read failed")]
    Listen,
    #[error("write failed")]
    Write,
}

/// Serves connections of this machine, tells on `writer` where it listens and then what each tenant
/// came to, and gives the exit status. Where that is 1, a line on `errors` says why.
pub(crate) fn serve_command<
    R: Threads
        + Wait
        + Net<Listener = TcpListener, Stream = TcpStream>
        + Copy
        + Send
        + Sync
        + 'static,
    W: Write,
    E: Write,
>(rt: R, alloc: Global, config: Config, service: Service, writer: &mut W, errors: &mut E) -> u8 {
    // A fault of the text comes before any of listening.
    if let Err(error) = Machine::new(alloc, &config) {
        return unloaded(error, errors);
    }
    match listen_and_serve(rt, alloc, config, service, writer) {
        Ok(()) => 0,
        Err(ServingFailure::Serve(ServeError::SharedText(fault))) => faulty_text(errors, &fault),
        Err(failure) => {
            let _ = writeln!(errors, "nrepl: {failure}");
            1
        }
    }
}

fn unloaded<E: Write>(error: LoadError, errors: &mut E) -> u8 {
    match error {
        LoadError::Fault(fault) => faulty_text(errors, &fault),
        LoadError::NoMemory => out_of_memory(errors),
    }
}

fn listen_and_serve<
    R: Threads
        + Wait
        + Net<Listener = TcpListener, Stream = TcpStream>
        + Copy
        + Send
        + Sync
        + 'static,
    W: Write,
>(
    rt: R,
    alloc: Global,
    config: Config,
    service: Service,
    writer: &mut W,
) -> Result<(), ServingFailure> {
    let Ok(listener) = TcpListener::bind(&rt, (Ipv4Addr::LOCALHOST, service.port)) else {
        return Err(ServingFailure::Listen);
    };
    let Ok(address) = listener.local_addr() else {
        return Err(ServingFailure::Listen);
    };
    if tell_port(address.port(), writer).is_err() {
        return Err(ServingFailure::Write);
    }
    let options = Options {
        connections: u64::from(service.connections),
        crews: u64::from(service.crews),
    };
    let blank = Blank::new(PARTS);
    match serve_as::<Brand, R>(rt, alloc, blank, &listener, config, options) {
        Ok(report) => match tell_rows(&report, writer) {
            Ok(()) => Ok(()),
            Err(_) => Err(ServingFailure::Write),
        },
        Err(error) => Err(ServingFailure::Serve(error)),
    }
}

// Serves under a ledger of this name.
fn serve_as<L: Ledger + Send + Sync + 'static, R: Threads + Wait + Copy + Send + Sync + 'static>(
    rt: R,
    alloc: Global,
    blank: Blank,
    listener: &TcpListener,
    config: Config,
    options: Options,
) -> Result<Report, ServeError>
    requires name { blank.name ≡ L.name }
    requires parts { (blank.parts ≡ L.parts) × (blank.parts ≡ 5000001) }
{
    let (_book, report) = serve::<L, R, OpenGate>(
        rt, alloc, listener, blank, config, options, OpenGate,
    )?;
    Ok(report)
}

fn tell_port<W: Write>(port: u16, writer: &mut W) -> io::Result<()> {
    writeln!(writer, "listening on 127.0.0.1:{port}")?;
    writer.flush()
}

// A line for each tenant: its number, how many steps the journal has of it, and how many were made
// from its seats.
fn tell_rows<W: Write>(report: &Report, writer: &mut W) -> io::Result<()> {
    for (tenant, row) in report.rows.iter() {
        writeln!(
            writer,
            "tenant {tenant} steps {} made {}",
            row.journalled, row.made
        )?;
    }
    writer.flush()
}
