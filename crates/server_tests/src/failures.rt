// Readers and writers that fail, at each of their calls in turn.
ghost use Rattle.std.specs.Prelude.{◌≡◌, Some, None, false};
ghost use Rattle.nrepl_pipe.specs.Failing.{MarksFailure, read_fails, write_fails};
ghost use Rattle.nrepl_pipe.specs.Failing.{is_read_failed, is_write_failed};

use crate::runners::{SUM, SUM_REPLIES, server};
use machine_runs::{pipe, pipe_command};
use nrepl_pipe::{PipeEnd, PipeError, Sink, Source};
use std::alloc::Global;
use std::io;
use std::io::{Error, ErrorKind, Read, Write};
use std::test::Fail;

// Gives a few bytes at each read, and fails once its reads are used up.
#[derive(Drop)]
struct FailingReader {
    input: &'static [u8],
    reads: usize,
}

impl Read for FailingReader {
    fn read(&mut self, buf: &mut [u8]) -> io::Result<usize> {
        if self.reads == 0 {
            return Err(Error::from(ErrorKind::Other));
        }
        self.reads -= 1;
        let n = self.input.len().min(buf.len()).min(8);
        let (front, rest) = self.input.split_at(n);
        buf[..n].copy_from_slice(front);
        self.input = rest;
        Ok(n)
    }
}

// Takes a few bytes at each write. Once its writes are used up it fails, or takes nothing.
#[derive(Drop)]
struct FailingWriter {
    written: Vec<u8>,
    writes: usize,
    takes_nothing: bool,
}

impl Write for FailingWriter {
    fn write(&mut self, buf: &[u8]) -> io::Result<usize> {
        if self.writes == 0 {
            if self.takes_nothing {
                return Ok(0);
            }
            return Err(Error::from(ErrorKind::Other));
        }
        self.writes -= 1;
        let n = buf.len().min(8);
        self.written.extend_from_slice(&buf[..n])?;
        Ok(n)
    }

    fn flush(&mut self) -> io::Result<()> {
        Ok(())
    }
}

// The request comes in six reads, the last of them empty.
#[test]
fn failing_reads(rt: HostRuntime) -> Result<(), Fail> {
    for reads in 0..7usize {
        let mut reader = FailingReader { input: SUM, reads };
        let mut output = Vec::new(rt.alloc());
        let mut errors = Vec::new(rt.alloc());
        let status = pipe_command(rt.alloc(), server(), &mut reader, &mut output, &mut errors);
        let is_whole = reads == 6;
        let line = if is_whole { "" } else { "nrepl: read failed\n" };
        assert_eq!(rt; errors.as_slice(), line.as_bytes(), "{reads}");
        assert_eq!(rt; status == 0, is_whole, "{reads}");
        assert!(rt; SUM_REPLIES.starts_with(output.as_slice()), "{reads}");
        assert_eq!(rt; output.is_empty(), reads < 5, "{reads}");
    }
    Ok(())
}

// The two replies take four writes each.
#[test]
fn failing_writes(rt: HostRuntime) -> Result<(), Fail> {
    for writes in 0..9usize {
        for takes_nothing in [false, true] {
            let mut input = SUM;
            let written = Vec::new(rt.alloc());
            let mut writer = FailingWriter {
                written,
                writes,
                takes_nothing,
            };
            let mut errors = Vec::new(rt.alloc());
            let status = pipe_command(rt.alloc(), server(), &mut input, &mut writer, &mut errors);
            let is_whole = writes == 8;
            let line = if is_whole {
                ""
            } else {
                "nrepl: write failed\n"
            };
            assert_eq!(rt; errors.as_slice(), line.as_bytes(), "{writes}");
            assert_eq!(rt; status == 0, is_whole, "{writes}");
            assert!(rt;
                SUM_REPLIES.starts_with(writer.written.as_slice()),
                "{writes}"
            );
            assert!(rt; writer.written.len() >= 8 * writes.min(3), "{writes}");
        }
    }
    Ok(())
}

// Remembers whether a read or a write of it has failed, as no `Read` and no `Write` does.
#[derive(Drop)]
struct Remembering<T> {
    inner: T,
    has_failed: bool,
}

impl<R: Read> Source for Remembering<R> {
    ghost remaining = { λ it. R.remaining it.inner };

    ghost failed = { λ it. Some it.has_failed };

    ghost reads = { λ _. None };

    fn read_bytes<V: Sink>(&mut self, _writer: &V, buf: &mut [u8]) -> io::Result<usize> {
        let answer = self.inner.read(buf);
        self.has_failed = self.has_failed || answer.is_err();
        answer
    }
}

impl<W: Write> Sink for Remembering<W> {
    ghost contents = { λ it. W.contents it.inner };

    ghost passed = { λ _. None };

    ghost failed = { λ it. Some it.has_failed };

    fn write_bytes(&mut self, bytes: &[u8]) -> io::Result<usize> {
        let answer = self.inner.write(bytes);
        self.has_failed = self.has_failed || matches!(answer, Ok(0) | Err(_));
        answer
    }

    fn pass_on(&mut self) {
        let _ = self.inner.flush();
    }
}

fn served<R: Read, W: Write>(
    alloc: Global,
    reader: &mut Remembering<R>,
    writer: &mut Remembering<W>,
) -> Result<PipeEnd, PipeError>
    requires { (reader.old.has_failed ≡ false) × (writer.old.has_failed ≡ false) }
    ensures reads { reader.new.has_failed ≡ is_read_failed result }
    ensures writes { writer.new.has_failed ≡ is_write_failed result }
{
    pipe(alloc, server(), reader, writer)
}

fn told(outcome: &Result<PipeEnd, PipeError>) -> &'static str {
    match outcome {
        Ok(PipeEnd::Whole) => "whole",
        Err(PipeError::ReadFailed) => "read failed",
        Err(PipeError::WriteFailed) => "write failed",
        _ => "something else",
    }
}

// The last write fails, and then the last read.
#[test]
fn failures_that_are_remembered(rt: HostRuntime) -> Result<(), Fail> {
    for (reads, writes, expected) in [
        (6usize, 7usize, "write failed"),
        (5, 8, "read failed"),
        (6, 8, "whole"),
    ] {
        let mut reader = Remembering {
            inner: FailingReader { input: SUM, reads },
            has_failed: false,
        };
        let mut writer = Remembering {
            inner: FailingWriter {
                written: Vec::new(rt.alloc()),
                writes,
                takes_nothing: false,
            },
            has_failed: false,
        };
        let outcome = served(rt.alloc(), &mut reader, &mut writer);
        assert_eq!(&rt; told(&outcome), expected, "{reads} {writes}");
    }
    Ok(())
}
