// The replies that wait are written.
ghost use Rattle.std.specs.Prelude.{◌≡◌, ℕ, List, [], ◌++◌, false, OnOk, OnErr};
ghost use Rattle.std.specs.Io.KnownBytes.{Appends};
ghost use Rattle.server_rules.specs.Ground.{Ground};
ghost use Rattle.server_rules.specs.LoneTurns.{LoneTenant};
ghost use Rattle.nrepl_pipe.specs.Schedule.{drain_all};
ghost use Rattle.nrepl_pipe.specs.Failing.{MarksFailure, is_read_failed, is_text_fault, is_write_failed};
ghost use Rattle.nrepl_pipe.specs.Reads.{IsPassedOn};
ghost use Rattle.nrepl_pipe.specs.Inside.Parts.{MakesTurns, Begins};

use crate::ends::PipeError;
use crate::ports::Sink;
use server_rules::Core;

// Takes the replies out, and writes each at once.
pub(crate) fn write_replies<C: Core, W: Sink>(core: &mut C, writer: &mut W) -> Result<(), PipeError>
    ensures steps { (C.left core.new).steps ≡ (C.left core.old).steps }
    ensures ok { (g : Ground) (l : LoneTenant) → C.stands g core.old l
        → OnOk result (MakesTurns g (C.stands g core.new) l (drain_all l.state.replies)
        (W.contents writer.old) (W.contents writer.new)) }
    ensures err { (g : Ground) (l : LoneTenant) → C.stands g core.old l
        → OnErr result (Begins g l (drain_all l.state.replies)
        (W.contents writer.old) (W.contents writer.new)) }
    ensures passed { IsPassedOn (W.contents writer.old) (W.passed writer.old)
        → OnOk result (IsPassedOn (W.contents writer.new) (W.passed writer.new)) }
    ensures told { MarksFailure (W.failed writer.old) (W.failed writer.new) (is_write_failed result) }
    ensures no_read { is_read_failed result ≡ false }
    ensures no_text { is_text_fault result ≡ false }
{
    while let Some(reply) = core.drain() {
        write_reply(reply.as_slice(), writer)?;
    }
    Ok(())
}

// Writes the whole reply, and has the writer pass it on. After an error a part of it was written
// from its front.
fn write_reply<W: Sink>(reply: &[u8], writer: &mut W) -> Result<(), PipeError>
    ensures ok { OnOk result (Appends (W.contents writer.old) (W.contents writer.new) reply.now) }
    ensures err { OnErr result ((front back : List ℕ) × (reply.now ≡ front ++ back)
        × Appends (W.contents writer.old) (W.contents writer.new) front) }
    ensures passed { OnOk result (IsPassedOn (W.contents writer.new) (W.passed writer.new)) }
    ensures told { MarksFailure (W.failed writer.old) (W.failed writer.new) (is_write_failed result) }
    ensures no_read { is_read_failed result ≡ false }
    ensures no_text { is_text_fault result ≡ false }
{
    let mut rest = reply;
    while !rest.is_empty() {
        match writer.write_bytes(rest) {
            Ok(0) => return Err(PipeError::WriteFailed),
            Ok(n) => rest = &rest[n..],
            Err(_) => return Err(PipeError::WriteFailed),
        }
    }
    writer.pass_on();
    Ok(())
}
