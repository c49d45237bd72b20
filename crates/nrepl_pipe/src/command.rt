// The exit status of a stream's serving, and its line on standard error.
ghost use Rattle.std.specs.Prelude.{◌≡◌};
ghost use Rattle.nrepl_pipe.specs.Status.{status_of};

use crate::ends::{PipeEnd, PipeError};
use bencode_wire::WireFault;
use repl_values::Fault;
use std::io::Write;

/// The exit status: 0 where the input was whole messages and all was answered, else one line on
/// `errors` that says why and 2 for a fault of the shared text, 1 for all else.
pub fn exit_status<E: Write>(outcome: Result<PipeEnd, PipeError>, errors: &mut E) -> u8
    ensures { result ≡ status_of outcome }
{
    match outcome {
        Ok(PipeEnd::Whole) => 0,
        Ok(PipeEnd::Truncated) => complain(errors, "truncated input"),
        Ok(PipeEnd::Worn) => complain(errors, "step limit reached"),
        Ok(PipeEnd::Broken(fault)) => complain_of_fault(errors, fault),
        Err(PipeError::SharedText(fault)) => faulty_text(errors, &fault),
        Err(error) => complain_of_error(errors, &error),
    }
}

// A line that cannot be written is no new cause of failure.
fn complain<E: Write>(errors: &mut E, text: &str) -> u8
    ensures { result ≡ 1 }
{
    let _ = writeln!(errors, "nrepl: {text}");
    1
}

fn complain_of_fault<E: Write>(errors: &mut E, fault: WireFault) -> u8
    ensures { result ≡ 1 }
{
    let _ = writeln!(errors, "nrepl: {fault}");
    1
}

fn complain_of_error<E: Write>(errors: &mut E, error: &PipeError) -> u8
    ensures { result ≡ 1 }
{
    let _ = writeln!(errors, "nrepl: {error}");
    1
}

/// Tells `errors` the fault of the text that all tenants share, and gives the exit status.
pub fn faulty_text<E: Write>(errors: &mut E, fault: &Fault) -> u8
    ensures { result ≡ 2 }
{
    let (class, text) = (fault.class.as_str(), fault.text.as_str());
    let _ = writeln!(errors, "nrepl: shared file: {class}: {text}");
    2
}

/// Tells `errors` that a file cannot be read as a text, and gives the exit status.
pub fn unreadable_file<E: Write>(errors: &mut E, path: &str) -> u8
    ensures { result ≡ 2 }
{
    let _ = writeln!(errors, "nrepl: cannot read {path}");
    2
}

/// Tells `errors` that the command line is none that the program knows, and gives the exit status.
pub fn bad_options<E: Write>(errors: &mut E) -> u8
    ensures { result ≡ 2 }
{
    let _ = writeln!(errors, "nrepl: bad options");
    2
}

/// Tells `errors` that there was no memory to begin, and gives the exit status.
pub fn out_of_memory<E: Write>(errors: &mut E) -> u8
    ensures { result ≡ 1 }
{
    complain(errors, "out of memory")
}
