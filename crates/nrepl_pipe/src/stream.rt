// One stream served to its end: pieces in, replies out.
ghost use Rattle.std.specs.Prelude.{◌≡◌, ◌+◌, ℕ, [], ◌∷◌, false, Ok, OnErr, IfOk, IfErr};
ghost use Rattle.std.specs.Prelude.{MatchOption};
ghost use Rattle.std.specs.Io.KnownBytes.{Consumes, IsAtEnd};
ghost use Rattle.server_rules.specs.Ground.{Ground};
ghost use Rattle.server_rules.specs.Grounds.{IsRight};
ghost use Rattle.server_rules.specs.LoneTurns.{LoneTenant, hears, lone_step};
ghost use Rattle.nrepl_pipe.specs.Schedule.{stream_end};
ghost use Rattle.nrepl_pipe.specs.Ports.{input, output};
ghost use Rattle.nrepl_pipe.specs.Reads.{ReadsSince};
ghost use Rattle.nrepl_pipe.specs.Inside.Fresh.{IsReady};
ghost use Rattle.nrepl_pipe.specs.Inside.OneTenant.{ServesTenant};
ghost use Rattle.nrepl_pipe.specs.Failing.{MarksFailure, is_read_failed, is_text_fault};
ghost use Rattle.nrepl_pipe.specs.Failing.{is_write_failed};
ghost use Rattle.nrepl_pipe.specs.Inside.Parts.{IsPiece, LosesPiece, HearsSo};
ghost use Rattle.nrepl_pipe.specs.declared.stream.TheConstants.{PIECE};

use crate::ends::{PipeEnd, PipeError};
use crate::ports::{Sink, Source};
use crate::rounds::{Rounds, run_rounds};
use bytes::Bytes;
use server_rules::{Core, Refusal, Wire};
use std::alloc::Global;

// The greatest length of a piece.
const PIECE: usize = 4_096;

/// Serves one stream to a tenant that heard nothing yet: reads pieces of at most 4,096 bytes, and
/// writes each reply at once.
///
/// After each piece come rounds: each actor that is there has a turn, first the one without a
/// session and then those of sessions in order of creation, and then the replies that wait are
/// written. They end with the first round in which every turn is refused, and none for replies
/// that wait. Reading stops at the end of the input, at a fault of the stream and at the last step.
/// After an error what was written is a part of the whole from its front. No read is made before
/// the replies to what was read are written and passed on.
///
/// Each reply is flushed. A flush that fails is not told, nor what it loses: with a writer that
/// holds bytes back, flush it again at the end.
pub fn serve_stream<C: Core, R: Source, W: Sink>(
    alloc: Global,
    core: &mut C,
    reader: &mut R,
    writer: &mut W,
) -> Result<PipeEnd, PipeError>
    ensures { ServesTenant (λ g l. C.stands g core.old l)
        (input (R.remaining reader.old) (R.failed reader.old) (R.reads reader.old))
        (input (R.remaining reader.new) (R.failed reader.new) (R.reads reader.new))
        (output (W.contents writer.old) (W.passed writer.old) (W.failed writer.old))
        (output (W.contents writer.new) (W.passed writer.new) (W.failed writer.new)) result }
{
    let mut buffer = [0u8; PIECE];
    loop {
        let Some(piece) = next_piece(alloc, reader, writer, &mut buffer)? else {
            return Ok(end_of(core));
        };
        if let HearAnswer::Worn = hear_piece(core, &piece)? {
            return Ok(PipeEnd::Worn);
        }
        if let Rounds::Worn = run_rounds(alloc, core, writer)? {
            return Ok(PipeEnd::Worn);
        }
        if let Wire::Broken(_) = core.wire() {
            return Ok(end_of(core));
        }
    }
}

fn end_of<C: Core>(core: &C) -> PipeEnd
    ensures { (g : Ground) (l : LoneTenant) → C.stands g core.now l
        → result ≡ stream_end (g.readings.stream l.state.heard).ending }
{
    match core.wire() {
        Wire::Whole => PipeEnd::Whole,
        Wire::Partial => PipeEnd::Truncated,
        Wire::Broken(fault) => PipeEnd::Broken(fault),
    }
}

// The next piece, read into this buffer; none at the end of the input.
fn next_piece<R: Source, W: Sink>(
    alloc: Global,
    reader: &mut R,
    writer: &W,
    buffer: &mut [u8; PIECE],
) -> Result<Option<Bytes>, PipeError>
    ensures ok { IfOk result (λ next. MatchOption next
        (Consumes (R.remaining reader.old) (R.remaining reader.new) []
        × IsAtEnd (R.remaining reader.new))
        (λ piece. IsPiece piece
        × Consumes (R.remaining reader.old) (R.remaining reader.new) piece)) }
    ensures err { OnErr result (LosesPiece (R.remaining reader.old) (R.remaining reader.new)) }
    ensures told { MarksFailure (R.failed reader.old) (R.failed reader.new) (is_read_failed result) }
    ensures no_write { is_write_failed result ≡ false }
    ensures no_text { is_text_fault result ≡ false }
    ensures noted { ReadsSince (R.reads reader.old) (R.reads reader.new) (record {
      room = PIECE;
      unread = R.remaining reader.old;
      written = W.contents writer.now;
      passed = W.passed writer.now;
    } ∷ []) }
{
    match reader.read_bytes(writer, buffer) {
        Ok(0) => Ok(None),
        Ok(n) => Ok(Some(Bytes::copy_from_slice(alloc, &buffer[..n])?)),
        Err(_) => Err(PipeError::ReadFailed),
    }
}

// What came of a piece.
#[derive(Clone, Copy, PartialEq, Eq)]
enum HearAnswer {
    Done,
    // Refused, since all steps are used up.
    Worn,
}

// Has the core hear a piece. Where the stream has no fault and no reply waits, it is refused at the
// end of the steps alone, or for want of memory.
fn hear_piece<C: Core>(core: &mut C, piece: &Bytes) -> Result<HearAnswer, PipeError>
    ensures steps { result ≡ Ok HearAnswer.Done
        → (C.left core.old).steps ≡ (C.left core.new).steps + 1 }
    ensures heard { (g : Ground) (l : LoneTenant) → IsRight g → C.stands g core.old l → IsReady g l
        → IfOk result (λ came. HearsSo came (C.stands g core.new)
        (lone_step g l (hears piece.now))) }
    ensures told { IfErr result (λ why. why ≡ PipeError.NoMemory) }
{
    match core.hear(piece) {
        Ok(()) => Ok(HearAnswer::Done),
        Err(Refusal::NoMemory) => Err(PipeError::NoMemory),
        Err(_) => Ok(HearAnswer::Worn),
    }
}
