// A crew serves one connection after another.
ghost use Rattle.std.specs.Prelude.{◌≡◌, false};
ghost use Rattle.crossbeam_channel.specs.Claims.{view, IsSeatAt};
ghost use Rattle.crossbeam_channel.specs.Ends.{receives_on};
ghost use Rattle.connection_waits.specs.Numbers.{hand};

use crate::gate::Gate;
use crate::moves::{Connection, bid_farewell, locked};
use crate::reading::read_away;
use crate::working::{serve_actions, serve_requests};
use crate::writing::write_what_waits;
use connection_waits::{Desk, Takings, Ticket, take};
use journal_book::{Places, SEATS, Seat};
use knowing_book::{KnowingBook, Naming};
use std::alloc::Global;
use std::net::TcpStream;
use std::sync::ledger::Ledger;
use std::sync::{Arc, Mutex, Wait};
use std::thread;
use std::thread::Threads;

/// Serves connections: for each one three threads that read and evaluate by turns, a runner of
/// actions and a writer.
#[derive(Drop)]
pub struct Crew<L: Ledger, N: Naming, G: Drop> {
    pub(crate) alloc: Global,
    pub(crate) book: Arc<Mutex<KnowingBook<L, N>>>,
    pub(crate) gate: Arc<G>,
}

/// Where a crew takes connections, and its ticket there.
#[derive(Drop)]
pub struct Post {
    pub(crate) from: Takings,
    pub(crate) ticket: Ticket,
}

/// The seats of all tenants that a crew served.
#[derive(Drop)]
pub struct Shift<L: Ledger> {
    pub seats: Vec<Seat<L>>,
}

impl<L: Ledger + Send + Sync, N: Naming + Send + Sync, G: Gate + Drop + Send + Sync> Crew<L, N, G> {
    /// Serves connections from the queue until it ends.
    pub fn serve_all<R: Threads + Wait + Sync>(&self, rt: &R, post: Post) -> Shift<L>
        requires { IsSeatAt (receives_on post.from) post.ticket
            × (view post.ticket ≡ hand false 0) }
    {
        let Post { from, mut ticket } = post;
        let mut seats = Vec::new(self.alloc);
        for _ in rt.forever() {
            let Some(accepted) = take(rt, &from, &mut ticket) else {
                break;
            };
            self.serve(rt, &accepted.stream, &mut seats);
        }
        Shift { seats }
    }

    // Serves one connection. Where there is no place or no memory for it, it is closed at once.
    fn serve<R: Threads + Wait + Sync>(
        &self,
        rt: &R,
        stream: &TcpStream,
        seats: &mut Vec<Seat<L>>,
    ) {
        if seats.reserve(SEATS as usize).is_err() {
            return;
        }
        let Ok(places) = locked(rt, &*self.book).admit() else {
            return;
        };
        let _ = stream.set_nodelay(true);
        let desk = Desk::new();
        let connection = Connection {
            alloc: self.alloc,
            book: &*self.book,
            gate: &*self.gate,
            desk: &desk,
            stream,
        };
        let Places {
            tenant: _,
            reader,
            worker,
            other_worker,
            writer,
            runner,
        } = places;
        // who cannot be given a thread of their own work here one after another, from below
        let (writer, (runner, (other_worker, (worker, mut reader)))) = thread::join(
            rt,
            || write_what_waits(rt, &connection, writer),
            || {
                thread::join(
                    rt,
                    || serve_actions(rt, &connection, runner),
                    || {
                        thread::join(
                            rt,
                            || serve_requests(rt, &connection, other_worker, false),
                            || {
                                thread::join(
                                    rt,
                                    || serve_requests(rt, &connection, worker, false),
                                    || serve_requests(rt, &connection, reader, true),
                                )
                            },
                        )
                    },
                )
            },
        );
        bid_farewell(rt, self.alloc, &*self.book, &mut reader);
        if desk.is_broken(rt) {
            read_away(stream);
        }
        keep(seats, reader);
        keep(seats, worker);
        keep(seats, other_worker);
        keep(seats, writer);
        keep(seats, runner);
    }
}

// There is room for it.
fn keep<L: Ledger>(seats: &mut Vec<Seat<L>>, seat: Seat<L>) {
    let _ = seats.push(seat);
}
