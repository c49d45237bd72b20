// Serves a stream as `serve` does, act by act, and tells how long the longest act of each kind
// took: so long `serve` holds the lock of its book.
ghost use Rattle.std.specs.Prelude.{◌≡◌, []};

use bytes::Bytes;
use journal_book::{Beside, Book, JournalEntry, Places};
use knowing_book::{Answered, Begun, Finish, KnowingBook, Naming, Opened, Question, Stage};
use repl_core::{Config, RETRIES, STEPS, SharedText, Step};
use repl_reader::ReadText;
use server_rules::Actor;
use std::alloc::{AllocError, Global};
use std::io;
use std::marker::Brand;
use std::sync::ledger::{Blank, Ledger};
use std::time::{Clock, Instant};

// The greatest length of a piece, and of a text that is read within an act.
const PIECE: usize = 2_048;

const SHORT_TEXT: usize = 2_048;

// How many refs of tenants that are gone are dropped at once.
const REFS_AT_ONCE: usize = 256;

/// The longest act of each kind, in nanoseconds.
#[derive(Clone, Copy, Debug, Default)]
pub(crate) struct Longest {
    pub(crate) hear: u128,
    pub(crate) start: u128,
    pub(crate) ask: u128,
    pub(crate) end: u128,
    pub(crate) drain: u128,
    pub(crate) leave: u128,
    /// Of refs whose tenant is gone, so many as `serve` drops under one hold of the lock.
    pub(crate) refs: u128,
}

/// How long it takes to copy these bytes into new memory, in nanoseconds.
pub(crate) fn time_of_copy<R: Clock>(clock: &R, alloc: Global, bytes: &[u8]) -> io::Result<u128> {
    let begun = Instant::now(clock)?;
    let copy = Bytes::copy_from_slice(alloc, bytes)?;
    let took = begun.elapsed(clock)?.as_nanos();
    drop(copy);
    Ok(took)
}

// A book with one tenant.
#[derive(Drop)]
struct Bench<'a, L: Ledger, N: Naming, R> {
    clock: &'a R,
    alloc: Global,
    book: KnowingBook<L, N>,
    places: Places<L>,
    longest: Longest,
}

fn refused() -> io::Error {
    io::Error::from(io::ErrorKind::InvalidData)
}

/// Serves the stream to its end.
pub(crate) fn run<L: Ledger, R: Clock>(
    clock: &R,
    alloc: Global,
    blank: Blank,
    stream: &[u8],
) -> io::Result<Longest>
    requires name { blank.name ≡ L.name }
    requires parts { (blank.parts ≡ L.parts) × (blank.parts ≡ 5000001) }
{
    let config = Config {
        seed: [0u8; 32],
        retries: RETRIES,
        steps: STEPS,
        shared: SharedText::Empty,
    };
    let Ok(book) = Book::<L>::new(blank, alloc, config) else {
        return Err(refused());
    };
    let opened = Opened::new();
    run_over::<L, Brand, R>(clock, alloc, book, opened, stream)
}

// The same over a book, under a name for the history of its journal.
fn run_over<L: Ledger, N: Naming, R: Clock>(
    clock: &R,
    alloc: Global,
    book: Book<L>,
    opened: Opened<JournalEntry>,
    stream: &[u8],
) -> io::Result<Longest>
    requires empty { book.journal ≡ [] }
    requires name { opened.seen.book ≡ N.book }
{
    let mut book = KnowingBook::<L, N>::new(alloc, book, opened);
    let Ok(places) = book.admit() else {
        return Err(refused());
    };
    let mut bench = Bench {
        clock,
        alloc,
        book,
        places,
        longest: Longest::default(),
    };
    for piece in stream.chunks(PIECE) {
        bench.hear(piece)?;
        bench.serve()?;
    }
    bench.leave()?;
    Ok(bench.longest)
}

impl<'a, L: Ledger, N: Naming, R: Clock> Bench<'a, L, N, R> {
    fn hear(&mut self, piece: &[u8]) -> io::Result<()> {
        let piece = Bytes::copy_from_slice(self.alloc, piece)?;
        let seat = &mut self.places.reader;
        let tenant = seat.tenant();
        let begun = Instant::now(self.clock)?;
        let heard = self.book.act(seat, Step::Hear(tenant, piece));
        let took = begun.elapsed(self.clock)?.as_nanos();
        self.longest.hear = self.longest.hear.max(took);
        match heard {
            Ok(_) => Ok(()),
            Err(_) => Err(refused()),
        }
    }

    // Evaluates all that is to be evaluated.
    fn serve(&mut self) -> io::Result<()> {
        for _ in 0..u64::MAX {
            if !self.serve_next()? {
                break;
            }
        }
        Ok(())
    }

    // Evaluates the next form, if one is to be evaluated, and takes the replies out.
    fn serve_next(&mut self) -> io::Result<bool> {
        let tenant = self.places.worker.tenant();
        let Some(actor) = self.book.book().ready(tenant) else {
            return self.serve_action();
        };
        let mut beside = Beside::nothing();
        if let Some(text) = self.book.book().next_text(tenant, actor) {
            if text.len() > SHORT_TEXT {
                let text = String::from_str(self.alloc, text)?;
                beside.aside.read = Some(ReadText::new(self.alloc, text)?);
            }
        }
        self.start(actor, beside)
    }

    fn serve_action(&mut self) -> io::Result<bool> {
        self.start(Actor::Agents, Beside::nothing())
    }

    fn start(&mut self, actor: Actor, mut beside: Beside) -> io::Result<bool> {
        let begun = Instant::now(self.clock)?;
        let started = self.book.start(&mut self.places.worker, actor, &mut beside);
        let took = begun.elapsed(self.clock)?.as_nanos();
        self.longest.start = self.longest.start.max(took);
        let Ok(form) = started else {
            return Ok(false);
        };
        if let Some(form) = form {
            self.evaluate(form)?;
        }
        self.drain()?;
        Ok(true)
    }

    fn evaluate(&mut self, form: Begun<N>) -> io::Result<()> {
        let mut stage = form.evaluate(self.alloc)?;
        for _ in 0..u64::MAX {
            match stage {
                Stage::Asks(question) => stage = self.ask(question)?.resume(self.alloc)?,
                Stage::Ends(finish) => return self.end(finish.spell(self.alloc)?),
            }
        }
        Ok(())
    }

    fn ask(&mut self, question: Question<N>) -> io::Result<Answered<N>> {
        let mut beside = Beside::nothing();
        let begun = Instant::now(self.clock)?;
        let asked = self
            .book
            .ask(&mut self.places.worker, question, &mut beside);
        let took = begun.elapsed(self.clock)?.as_nanos();
        self.longest.ask = self.longest.ask.max(took);
        match asked {
            Ok(Some(answered)) => Ok(answered),
            _ => Err(refused()),
        }
    }

    fn end(&mut self, finish: Finish<N>) -> io::Result<()> {
        let mut beside = Beside::nothing();
        let begun = Instant::now(self.clock)?;
        let ended = self.book.end(&mut self.places.worker, finish, &mut beside);
        let took = begun.elapsed(self.clock)?.as_nanos();
        self.longest.end = self.longest.end.max(took);
        beside.free(self.alloc);
        match ended {
            Ok(_) => Ok(()),
            Err(_) => Err(refused()),
        }
    }

    // Takes all replies out.
    fn drain(&mut self) -> io::Result<()> {
        for _ in 0..u64::MAX {
            if !self.drain_next()? {
                break;
            }
        }
        Ok(())
    }

    fn drain_next(&mut self) -> io::Result<bool> {
        let seat = &mut self.places.writer;
        let tenant = seat.tenant();
        let begun = Instant::now(self.clock)?;
        let drained = self.book.act(seat, Step::Drain(tenant));
        let took = begun.elapsed(self.clock)?.as_nanos();
        self.longest.drain = self.longest.drain.max(took);
        Ok(drained.is_ok())
    }

    fn leave(&mut self) -> io::Result<()> {
        let mut beside = Beside::nothing();
        let begun = Instant::now(self.clock)?;
        let _is_gone = self
            .book
            .leave(&mut self.places.reader, &mut beside)
            .is_ok();
        self.longest.leave = begun.elapsed(self.clock)?.as_nanos();
        self.drop_refs()
    }

    // Drops what is left of the tenant's refs.
    fn drop_refs(&mut self) -> io::Result<()> {
        let mut values = Vec::with_capacity(self.alloc, REFS_AT_ONCE)?;
        for _ in 0..u64::MAX {
            let begun = Instant::now(self.clock)?;
            let is_more = self.book.drop_departed(REFS_AT_ONCE, &mut values);
            let took = begun.elapsed(self.clock)?.as_nanos();
            self.longest.refs = self.longest.refs.max(took);
            values.clear();
            if !is_more {
                break;
            }
        }
        Ok(())
    }
}
