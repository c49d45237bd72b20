// One stream, served by a server that was just made.
ghost use Rattle.std.specs.Prelude.{◌≡◌, Result, Err};
ghost use Rattle.server_rules.specs.Ground.{Ground};
ghost use Rattle.server_rules.specs.LoneTurns.{opened_lone};
ghost use Rattle.nrepl_pipe.specs.Failing.{TellsFailures};
ghost use Rattle.nrepl_pipe.specs.Reads.{ReadsPromptly, HoldsNothingBack};
ghost use Rattle.nrepl_pipe.specs.Served.{IsPipeOutcome};
ghost use Rattle.nrepl_pipe.specs.Status.{status_of};
ghost use Rattle.nrepl_pipe.specs.declared.ends.PipeEnd.{PipeEnd};
ghost use Rattle.nrepl_pipe.specs.declared.ends.PipeError.{PipeError};
ghost use Rattle.repl_core.specs.Configured.{IsConfigured, TextFaults};
ghost use Rattle.repl_values.specs.Inside.FaultView.{failure_of};
ghost use Rattle.repl_values.specs.declared.fault.Fault.{Fault};
ghost use Rattle.machine_runs.specs.Streams.{IsGrounded, ServesStream};
ghost use Rattle.nrepl_pipe.specs.Ports.{input, output};

use crate::runner::Runner;
use nrepl_pipe::{PipeEnd, PipeError, Sink, Source, exit_status, serve_stream};
use repl_core::{Config, LoadError};
use std::alloc::Global;
use std::io::Write;

/// Serves one stream, from its first byte to its end, by a server that begins so and that nobody
/// used before.
///
/// It reads pieces of at most 4,096 bytes. After each piece come rounds: each actor that is there
/// has a turn, first the one without a session and then those of sessions in order of creation, and
/// then the replies that wait are written. They end with the first round in which every turn is
/// refused, and none for replies that wait; then the next piece is read. Reading stops at the end
/// of the input, at a fault of the stream and at the last step. After an error what was written is
/// a part of the whole from its front.
///
/// Each reply is flushed. A flush that fails is not told, nor what it loses: with a writer that
/// holds bytes back, flush it again at the end.
pub fn pipe<R: Source, W: Sink>(
    alloc: Global,
    config: Config,
    reader: &mut R,
    writer: &mut W,
) -> Result<PipeEnd, PipeError>
    ensures served { ServesStream config
        (input (R.remaining reader.old) (R.failed reader.old) (R.reads reader.old))
        (input (R.remaining reader.new) (R.failed reader.new) (R.reads reader.new))
        (output (W.contents writer.old) (W.passed writer.old) (W.failed writer.old))
        (output (W.contents writer.new) (W.passed writer.new) (W.failed writer.new)) result }
    ensures fault { (fault : Fault) → result ≡ Err (PipeError.SharedText fault)
        → TextFaults config (failure_of fault) }
{
    serve_first(alloc, config, reader, writer)
}

// Serves the stream as the first tenant of a server that begins so.
fn serve_first<R: Source, W: Sink>(
    alloc: Global,
    config: Config,
    reader: &mut R,
    writer: &mut W,
) -> Result<PipeEnd, PipeError>
    ensures served { (g : Ground) → IsConfigured g config → IsPipeOutcome g (opened_lone g)
        (R.remaining reader.old) (R.remaining reader.new)
        (W.contents writer.old) (W.contents writer.new) result }
    ensures prompt { (g : Ground) → IsConfigured g config → ReadsPromptly g (opened_lone g)
        (R.remaining reader.old) (W.contents writer.old) (R.reads reader.old) (R.reads reader.new) }
    ensures passed { HoldsNothingBack (W.contents writer.old) (W.passed writer.old)
        (W.contents writer.new) (W.passed writer.new) (R.reads reader.old) (R.reads reader.new)
        result }
    ensures told { TellsFailures (R.failed reader.old) (R.failed reader.new)
        (W.failed writer.old) (W.failed writer.new) result }
    ensures fault { (fault : Fault) → result ≡ Err (PipeError.SharedText fault)
        → TextFaults config (failure_of fault) }
    ensures grounded { IsGrounded config result }
    ensures unserved { ((g : Ground) → ¬ IsConfigured g config)
        → (input (R.remaining reader.new) (R.failed reader.new) (R.reads reader.new)
        ≡ input (R.remaining reader.old) (R.failed reader.old) (R.reads reader.old))
        × (output (W.contents writer.new) (W.passed writer.new) (W.failed writer.new)
        ≡ output (W.contents writer.old) (W.passed writer.old) (W.failed writer.old)) }
{
    match Runner::new(alloc, &config) {
        Ok(mut runner) => serve_stream(alloc, &mut runner, reader, writer),
        Err(LoadError::Fault(fault)) => Err(PipeError::SharedText(fault)),
        Err(LoadError::NoMemory) => Err(PipeError::NoMemory),
    }
}

/// The same, as a command: 0 where the input was whole messages and all was answered, else one line
/// on `errors` that says why, and 2 for a fault of the text that all share, 1 for all else.
pub fn pipe_command<R: Source, W: Sink, E: Write>(
    alloc: Global,
    config: Config,
    reader: &mut R,
    writer: &mut W,
    errors: &mut E,
) -> u8
    ensures { (outcome : Result PipeEnd PipeError) × (result ≡ status_of outcome)
        × ServesStream config
        (input (R.remaining reader.old) (R.failed reader.old) (R.reads reader.old))
        (input (R.remaining reader.new) (R.failed reader.new) (R.reads reader.new))
        (output (W.contents writer.old) (W.passed writer.old) (W.failed writer.old))
        (output (W.contents writer.new) (W.passed writer.new) (W.failed writer.new)) outcome }
{
    let outcome = pipe(alloc, config, reader, writer);
    exit_status(outcome, errors)
}
