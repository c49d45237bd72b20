// Where the bytes of a stream come from, and where they go.
ghost use Rattle.std.specs.Prelude.{◌≡◌, ℕ, List, [], ◌∷◌, length, Bool, Option, None};
ghost use Rattle.std.specs.Io.{ReadsAtMost, WritesAtMost};
ghost use Rattle.std.specs.Io.KnownBytes.{Keeps, ReadConsumes, WriteAppends};
ghost use Rattle.nrepl_pipe.specs.Failing.{MarksFailure, read_fails, write_fails};
ghost use Rattle.nrepl_pipe.specs.Reads.{ReadAt, ReadsSince, IsPassedOn};

use std::io;
use std::io::{Read, Write};

/// Where bytes come from: any `Read` is one.
///
/// It remembers whether a read has failed, and of each read what had been written and passed on by
/// then, as far as that is known. A `Read` tells no contract so; but code over any `Source` cannot
/// see whether this one does, so what it does is the same.
pub trait Source {
    /// The bytes that reads will give from here on, where they are known.
    ghost remaining: { Self → Option (List ℕ) };
    /// Whether a read has failed by now, where that is known.
    ghost failed: { Self → Option Bool };
    /// The reads that were made, oldest first, where they are known.
    ghost reads: { Self → Option (List ReadAt) };

    /// Reads some bytes: none at the end, or where there is no room for them. It is shown the
    /// writer as it stands, to remember what has been written.
    fn read_bytes<W: Sink>(&mut self, writer: &W, buf: &mut [u8]) -> io::Result<usize>
        ensures bound { ReadsAtMost result buf.new }
        ensures bytes { ReadConsumes (remaining self.old) (remaining self.new) result buf.new }
        ensures failed { MarksFailure (failed self.old) (failed self.new) (read_fails result) }
        ensures noted { ReadsSince (reads self.old) (reads self.new) (record {
          room = length buf.old;
          unread = remaining self.old;
          written = W.contents writer.now;
          passed = W.passed writer.now;
        } ∷ []) };
}

impl<R: Read> Source for R {
    ghost remaining = { λ r. R.remaining r };

    ghost failed = { λ _. None };

    ghost reads = { λ _. None };

    fn read_bytes<W: Sink>(&mut self, _writer: &W, buf: &mut [u8]) -> io::Result<usize> {
        self.read(buf)
    }
}

/// Where bytes go: any `Write` is one. It remembers failed writes as a `Source` does failed
/// reads.
pub trait Sink {
    /// The bytes that were written, where they are known.
    ghost contents: { Self → Option (List ℕ) };
    /// Those of them that were passed on, where they are known.
    ghost passed: { Self → Option (List ℕ) };
    /// Whether a write has failed or taken nothing by now, where that is known.
    ghost failed: { Self → Option Bool };

    /// Writes some of the bytes, from the front.
    fn write_bytes(&mut self, bytes: &[u8]) -> io::Result<usize>
        ensures bound { WritesAtMost result bytes.now }
        ensures bytes { WriteAppends (contents self.old) (contents self.new) result bytes.now }
        ensures failed { MarksFailure (failed self.old) (failed self.new) (write_fails result) };

    /// Passes on what was written, where it was held back. It is no write, so nobody is told that
    /// it fails.
    fn pass_on(&mut self)
        ensures bytes { Keeps (contents self.old) (contents self.new) }
        ensures passed { IsPassedOn (contents self.new) (passed self.new) }
        ensures failed { failed self.new ≡ failed self.old };
}

impl<W: Write> Sink for W {
    ghost contents = { λ w. W.contents w };

    ghost passed = { λ _. None };

    ghost failed = { λ _. None };

    fn write_bytes(&mut self, bytes: &[u8]) -> io::Result<usize> {
        self.write(bytes)
    }

    fn pass_on(&mut self) {
        let _ = self.flush();
    }
}
