// Connections are accepted and handed to crews, and the book is closed.
ghost use Rattle.std.specs.Prelude.{◌≡◌, ◌<◌, [], true, false, IfOk};
ghost use Rattle.crossbeam_channel.specs.Claims.{view, IsSeatAt};
ghost use Rattle.crossbeam_channel.specs.Ends.{sends_on, receives_on};
ghost use Rattle.connection_waits.specs.Numbers.{hand};
ghost use Rattle.connection_crews.specs.Reports.{IsReportOf};

use crate::crew::{Crew, Post, Shift};
use crate::errors::ServeError;
use crate::gate::Gate;
use connection_waits::{Accepted, Feed, Ticket, another_ticket, queue, send};
use journal_book::{Book, JournalEntry, Report, Seat};
use knowing_book::{KnowingBook, Naming, Opened};
use repl_core::Config;
use std::alloc::{AllocError, Global};
use std::marker::Brand;
use std::net::{TcpListener, TcpStream};
use std::sync::ledger::{Blank, Ledger};
use std::sync::{Arc, Mutex, Wait};
use std::thread::{JoinHandle, Threads};
use std::{io, thread};

// How many connections wait in the queue for a crew.
const MOST_WAITING: usize = 16;

/// How many connections are served in all, and how many at a time.
#[derive(Clone, Copy, Debug)]
pub struct Options {
    pub connections: u64,
    pub crews: u64,
}

/// Serves so many connections, and gives the book with its report. Before each ask of an evaluation
/// the gate is passed.
///
/// A connection is a tenant of its own. A server that can accept no more serves those that it has
/// to their end, and then fails.
pub fn serve<
    L: Ledger + Send + Sync + 'static,
    R: Threads + Wait + Copy + Send + Sync + 'static,
    G: Gate + Drop + Send + Sync + 'static,
>(
    rt: R,
    alloc: Global,
    listener: &TcpListener,
    blank: Blank,
    config: Config,
    options: Options,
    gate: G,
) -> Result<(Book<L>, Report), ServeError>
    requires name { blank.name ≡ L.name }
    requires parts { (blank.parts ≡ L.parts) × (blank.parts ≡ 5000001) }
    ensures { IfOk result (λ r. IsReportOf r.0 r.1) }
{
    let book = Book::<L>::new(blank, alloc, config)?;
    let opened = Opened::new();
    serve_book::<L, Brand, R, G>(rt, alloc, listener, book, opened, options, gate)
}

// Serves so many connections from a book, under a name for the history of its journal.
fn serve_book<
    L: Ledger + Send + Sync + 'static,
    N: Naming + Send + Sync + 'static,
    R: Threads + Wait + Copy + Send + Sync + 'static,
    G: Gate + Drop + Send + Sync + 'static,
>(
    rt: R,
    alloc: Global,
    listener: &TcpListener,
    book: Book<L>,
    opened: Opened<JournalEntry>,
    options: Options,
    gate: G,
) -> Result<(Book<L>, Report), ServeError>
    requires parts { L.parts ≡ 5000001 }
    requires empty { book.journal ≡ [] }
    requires name { opened.seen.book ≡ N.book }
    ensures { IfOk result (λ r. IsReportOf r.0 r.1) }
{
    let book = KnowingBook::<L, N>::new(alloc, book, opened);
    let book = shared(alloc, Mutex::new(book))?;
    let gate = shared(alloc, gate)?;
    let seats = served(rt, alloc, &book, &gate, listener, options)?;
    // no crew holds it any more
    let Ok(lock) = Arc::try_unwrap(book) else {
        return Err(ServeError::NoMemory);
    };
    closed(lock.into_inner().into_book(), seats)
}

// A seat is lost only where there was no memory to keep it.
fn closed<L: Ledger>(book: Book<L>, seats: Vec<Seat<L>>) -> Result<(Book<L>, Report), ServeError>
    requires { L.parts ≡ 5000001 }
    ensures { IfOk result (λ r. IsReportOf r.0 r.1) }
{
    if seats.len() as u64 != 5 * book.tenants() {
        return Err(ServeError::NoMemory);
    }
    match book.close(seats) {
        Ok((book, report)) => Ok((book, report)),
        Err(_) => Err(ServeError::NoMemory),
    }
}

fn shared<T: Drop>(alloc: Global, value: T) -> Result<Arc<T>, AllocError> {
    Ok(Arc::new(alloc, value)?)
}

// Has crews serve what is accepted, and gives the seats of all.
fn served<
    L: Ledger + Send + Sync + 'static,
    N: Naming + Send + Sync + 'static,
    R: Threads + Wait + Copy + Send + Sync + 'static,
    G: Gate + Drop + Send + Sync + 'static,
>(
    rt: R,
    alloc: Global,
    book: &Arc<Mutex<KnowingBook<L, N>>>,
    gate: &Arc<G>,
    listener: &TcpListener,
    options: Options,
) -> Result<Vec<Seat<L>>, ServeError> {
    let (feed, from, mut own) = queue(alloc, MOST_WAITING)?;
    let mut running = Vec::new(alloc);
    for _i in 0..options.crews {
        let crew = Crew {
            alloc,
            book: Arc::try_clone(book)?,
            gate: Arc::try_clone(gate)?,
        };
        let post = Post {
            from: from.try_clone()?,
            ticket: another_ticket(&feed, &mut own),
        };
        begin(rt, crew, post, &mut running)?;
    }
    drop(from);
    let is_whole = accept_all(&rt, listener, &feed, &mut own, options.connections);
    drop(feed);
    let mut seats = Vec::new(alloc);
    while let Some(crew) = running.pop() {
        let Shift { seats: mut more } = crew.join(&rt);
        seats.append(&mut more)?;
    }
    if is_whole {
        Ok(seats)
    } else {
        Err(ServeError::AcceptFailed)
    }
}

// Starts a crew in a thread of its own.
fn begin<
    L: Ledger + Send + Sync + 'static,
    N: Naming + Send + Sync + 'static,
    R: Threads + Wait + Copy + Send + Sync + 'static,
    G: Gate + Drop + Send + Sync + 'static,
>(
    rt: R,
    crew: Crew<L, N, G>,
    post: Post,
    running: &mut Vec<JoinHandle<Shift<L>>>,
) -> Result<(), AllocError>
    requires { IsSeatAt (receives_on post.from) post.ticket × (view post.ticket ≡ hand false 0) }
{
    let job = move || -> Shift<L>
        requires { IsSeatAt (receives_on post.from) post.ticket
            × (view post.ticket ≡ hand false 0) }
    { crew.serve_all(&rt, post) };
    running.push(thread::spawn(&rt, job)?)?;
    Ok(())
}

// Sends each connection with the next number. Tells whether all were accepted.
fn accept_all<R: Wait>(
    rt: &R,
    listener: &TcpListener,
    feed: &Feed,
    own: &mut Ticket,
    connections: u64,
) -> bool
    requires ticket { IsSeatAt (sends_on feed.now) own.old }
    requires view { view own.old ≡ hand true 0 }
{
    for number in 0..connections {
        let Some(stream) = accept(rt, listener) else {
            return false;
        };
        if !send(rt, feed, own, Accepted { number, stream }) {
            return false;
        }
    }
    true
}

// The next connection. One that its peer gave up before it was accepted is none.
fn accept<R: Wait>(rt: &R, listener: &TcpListener) -> Option<TcpStream> {
    for _ in rt.forever() {
        match listener.accept() {
            Ok((stream, _)) => return Some(stream),
            Err(error) => match error.kind() {
                io::ErrorKind::ConnectionAborted | io::ErrorKind::Interrupted => {}
                _ => return None,
            },
        }
    }
    unreachable!()
}
