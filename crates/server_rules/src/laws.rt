//! Laws of the server's definitions. The functions do nothing: what they ensure is proved.
ghost use Rattle.std.specs.Prelude.{◌≡◌, ℕ, List};
ghost use Rattle.server_rules.specs.Comparisons.{Comparisons, AreExact};
ghost use Rattle.server_rules.specs.Readings.{Readings, AreRight};
ghost use Rattle.server_rules.specs.Isolation.Laws.{OthersLeaveIt, AlikeStaysAlike, ServedAlone};
ghost use Rattle.server_rules.specs.Machine.Laws.{ReadyHasWork};

use bencode_wire::laws::{a_stream_has_one_reading, every_stream_reads};
use repl_reader::laws::{every_text_reads, readings_are_unique};

/// Another tenant's step leaves what a tenant sees.
pub fn others_leave_it()
    ensures { OthersLeaveIt }
{}

/// Where two servers look alike to a tenant that was opened, a step of it that names no shared ref
/// is answered alike, and leaves them looking alike.
pub fn alike_stays_alike()
    ensures { AlikeStaysAlike }
{}

/// A tenant whose first turn opens it, and which names no shared ref, is served, byte for byte, as
/// if its turns were alone.
pub fn served_alone()
    ensures { ServedAlone }
{}

/// The actor that `ready` names has work: whatever happened, a start of it is refused only where no
/// step is left, or where too many replies wait.
pub fn ready_has_work()
    ensures { ReadyHasWork }
{}

/// The steps speak of the right readings of streams and programs. There are such, and all agree.
pub fn there_is_one_right_reading()
    ensures there { (r : Readings) × AreRight r }
    ensures one { (r q : Readings) → AreRight r → AreRight q
        → ((bytes : List ℕ) → r.stream bytes ≡ q.stream bytes)
        × ((text : List ℕ) → r.program text ≡ q.program text) }
{
    every_stream_reads();
    a_stream_has_one_reading();
    every_text_reads();
    readings_are_unique();
}

/// There are functions that compare jobs and traces exactly.
pub fn exact_comparisons_exist()
    ensures { (c : Comparisons) × AreExact c }
{}
