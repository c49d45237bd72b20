// The steps that a crew makes through the book, each under one hold of its lock.
ghost use Rattle.std.specs.Prelude.{◌≡◌};

use crate::gate::Gate;
use bytes::Bytes;
use connection_waits::{Desk, Duty, Event, SeenCounts, Woken};
use journal_book::{Beside, Seat};
use knowing_book::{Answered, Begun, Finish, KnowingBook, Naming, Question, Unasked, Unended};
use repl_asks::Ask;
use repl_core::{Refused, Step, StepAnswer};
use repl_reader::ReadText;
use server_rules::{Actor, Refusal, Wire};
use std::alloc::Global;
use std::hint::spin_loop;
use std::net::{Shutdown, TcpStream};
use std::sync::ledger::Ledger;
use std::sync::{Mutex, MutexGuard, Wait};
use std::thread;

// How often the book's lock is tried before a thread sleeps for it, how many pauses lie between two
// tries, and after how many tries other threads may run.
const TRIES: u32 = 1_000;

const PAUSES: u32 = 10;

const TRIES_IN_A_ROW: u32 = 10;

// The length of a text, in bytes, that may be read while others wait for the book. A longer one is
// read before its request begins.
const SHORT_TEXT: usize = 2_048;

// How many refs of tenants that are gone are dropped under one hold of the lock.
const REFS_AT_ONCE: usize = 256;

// The greatest length of a piece that is small, in bytes.
const SMALL_PIECE: usize = 1_024;

/// A connection, as each thread of its crew sees it.
#[derive(Drop)]
pub(crate) struct Connection<'a, L: Ledger, N: Naming, G> {
    pub(crate) alloc: Global,
    pub(crate) book: &'a Mutex<KnowingBook<L, N>>,
    pub(crate) gate: &'a G,
    pub(crate) desk: &'a Desk,
    pub(crate) stream: &'a TcpStream,
}

/// What came of a piece of the stream.
#[derive(Drop)]
pub(crate) enum PieceHeard<N: Naming> {
    // whether the stream goes on, replies to write, and what who read the piece is to do, if it is
    // one that may be done at once
    Taken {
        goes_on: bool,
        replies: Vec<Vec<u8>>,
        found: Option<NextWork<N>>,
    },
    // too many replies wait; the piece, and how often replies were taken out
    Held(Bytes, u64),
    Refused,
}

/// What a worker found to do.
#[derive(Drop)]
pub(crate) enum NextWork<N: Naming> {
    Form(Begun<N>),
    // the text of an actor's request, which is to be read first
    Text(Actor, String),
    // a request that is done at once, with its replies
    Answered(Vec<Vec<u8>>),
    // nothing; how often a request came, or something was sent to agents
    Nothing(u64),
    // nothing, and no more can come
    Done,
    Held(u64),
    Refused,
}

/// What an evaluation was told.
#[derive(Drop)]
pub(crate) enum EvaluationTold<N: Naming> {
    Answered(Answered<N>),
    // an await that is not met when so much had come
    Waiting(Question<N>, SeenCounts),
    Interrupted(Vec<Vec<u8>>),
    Refused,
}

/// What came of an ending.
#[derive(Drop)]
pub(crate) enum Ended<N: Naming> {
    // its replies; and behind a request, where no actor has anything to begin now but more may
    // come, how often one came
    Taken(Vec<Vec<u8>>, Option<u64>),
    Held(Finish<N>, u64),
    Refused,
}

impl<'a, L: Ledger, N: Naming, G: Gate> Connection<'a, L, N, G> {
    /// Ends a connection that cannot go on: nobody waits for its peer any more.
    pub(crate) fn cut<R: Wait>(&self, rt: &R) {
        self.desk.end(rt);
        let _ = self.stream.shutdown(Shutdown::Both);
    }

    /// The tenant hears a piece. What a single small message asks for is begun at once.
    pub(crate) fn hear<R: Wait>(&self, rt: &R, seat: &mut Seat<L>, piece: Bytes) -> PieceHeard<N>
        ensures { seat.new.tenant ≡ seat.old.tenant }
    {
        let tenant = seat.tenant();
        let mut beside = Beside::nothing();
        let mut book = locked(rt, self.book);
        let is_small = piece.len() <= SMALL_PIECE
            && matches!(book.book().wire(tenant), Some(Wire::Whole));
        match book.act(seat, Step::Hear(tenant, piece)) {
            Ok(receipt) => {
                let messages = messages_in(&receipt.answer);
                let goes_on = !matches!(book.book().wire(tenant), Some(Wire::Broken(_)));
                let replies = self.replies(rt, &mut *book, seat);
                let call = self.desk.note_messages(rt, messages, is_small && goes_on);
                let found = match call {
                    Woken::Reader => Some(self.first_found(
                        rt,
                        &mut *book,
                        seat,
                        &mut beside,
                        None,
                    )),
                    Woken::Others | Woken::Nobody => None,
                };
                drop(book);
                self.desk.wake(call);
                PieceHeard::Taken {
                    goes_on,
                    replies,
                    found,
                }
            }
            Err(
                Refused {
                    why: Refusal::Held,
                    step: Step::Hear(_, piece),
                },
            ) => { PieceHeard::Held(piece, self.desk.seen(rt, Event::Room)) }
            Err(_) => PieceHeard::Refused,
        }
    }

    /// Begins what the first actor that is ready has to do, unless as many forms are evaluated as
    /// may be at a time: then who ends one begins the next.
    pub(crate) fn begin<R: Wait>(&self, rt: &R, seat: &mut Seat<L>) -> NextWork<N>
        ensures { seat.new.tenant ≡ seat.old.tenant }
    {
        let mut beside = Beside::nothing();
        let mut book = locked(rt, self.book);
        self.first_found(rt, &mut *book, seat, &mut beside, None)
    }

    /// The same, where this text of an actor's request was read before, of so many bytes.
    pub(crate) fn begin_read<R: Wait>(
        &self,
        rt: &R,
        seat: &mut Seat<L>,
        read: ReadText,
        whose: (Actor, usize),
    ) -> NextWork<N>
        ensures { seat.new.tenant ≡ seat.old.tenant }
    {
        let mut beside = Beside::nothing();
        beside.aside.read = Some(read);
        let mut book = locked(rt, self.book);
        self.first_found(rt, &mut *book, seat, &mut beside, Some(whose))
    }

    // A long text is to be read first, unless it is the one that was.
    fn first_found<R: Wait>(
        &self,
        rt: &R,
        book: &mut KnowingBook<L, N>,
        seat: &mut Seat<L>,
        beside: &mut Beside,
        whose: Option<(Actor, usize)>,
    ) -> NextWork<N>
        ensures { seat.new.tenant ≡ seat.old.tenant }
    {
        let tenant = seat.tenant();
        if self.desk.is_busy(rt) {
            return self.nothing(rt);
        }
        let Some(actor) = book.book().ready(tenant) else {
            return self.nothing(rt);
        };
        if let Some(text) = book.book().next_text(tenant, actor) {
            if text.len() > SHORT_TEXT && !is_same(whose, actor, text.len()) {
                return match String::from_str(self.alloc, text) {
                    Ok(text) => NextWork::Text(actor, text),
                    Err(_) => NextWork::Refused,
                };
            }
        }
        match self.start(rt, book, seat, actor, beside) {
            Ok(found) => found,
            Err(_) => NextWork::Refused,
        }
    }

    // Nothing is to be begun by this thread now; and never more where the peer sends no more, since
    // who evaluates looks again.
    fn nothing<R: Wait>(&self, rt: &R) -> NextWork<N> {
        match self.desk.is_reading(rt) {
            true => NextWork::Nothing(self.desk.seen(rt, Event::Request)),
            false => NextWork::Done,
        }
    }

    /// Begins the next action, if one waits.
    pub(crate) fn begin_action<R: Wait>(&self, rt: &R, seat: &mut Seat<L>) -> NextWork<N>
        ensures { seat.new.tenant ≡ seat.old.tenant }
    {
        let tenant = seat.tenant();
        let mut beside = Beside::nothing();
        let mut book = locked(rt, self.book);
        match self.start(rt, &mut *book, seat, Actor::Agents, &mut beside) {
            Ok(found) => found,
            Err(Refusal::Idle) => {
                let seen = self.desk.rest_agents(rt);
                if book.book().ready(tenant).is_some() || self.desk.may_send(rt) {
                    NextWork::Nothing(seen)
                } else {
                    NextWork::Done
                }
            }
            Err(_) => NextWork::Refused,
        }
    }

    // Begins what an actor has to do, unless too many replies wait.
    fn start<R: Wait>(
        &self,
        rt: &R,
        book: &mut KnowingBook<L, N>,
        seat: &mut Seat<L>,
        actor: Actor,
        beside: &mut Beside,
    ) -> Result<NextWork<N>, Refusal>
        ensures { seat.new.tenant ≡ seat.old.tenant }
    {
        match book.start(seat, actor, beside) {
            Ok(Some(begun)) => {
                self.desk.begin_evaluation(rt, duty_of(actor));
                Ok(NextWork::Form(begun))
            }
            Ok(None) => Ok(NextWork::Answered(self.replies(rt, book, seat))),
            Err(Refusal::Held) => Ok(NextWork::Held(self.desk.seen(rt, Event::Room))),
            Err(why) => Err(why),
        }
    }

    /// A form asks.
    pub(crate) fn ask<R: Wait>(
        &self,
        rt: &R,
        seat: &mut Seat<L>,
        question: Question<N>,
    ) -> EvaluationTold<N>
        ensures { seat.new.tenant ≡ seat.old.tenant }
    {
        let mut beside = Beside::nothing();
        let told = self.ask_under_lock(rt, seat, question, &mut beside);
        if matches!(told, EvaluationTold::Interrupted(_)) {
            beside.free(self.alloc);
        }
        told
    }

    fn ask_under_lock<R: Wait>(
        &self,
        rt: &R,
        seat: &mut Seat<L>,
        question: Question<N>,
        beside: &mut Beside,
    ) -> EvaluationTold<N>
        ensures { seat.new.tenant ≡ seat.old.tenant }
    {
        let wakes = may_wake_agents(question.ask());
        let mut book = locked(rt, self.book);
        match book.ask(seat, question, beside) {
            Ok(Some(answered)) => {
                if wakes {
                    self.desk.wake_agents(rt);
                }
                EvaluationTold::Answered(answered)
            }
            Ok(None) => EvaluationTold::Interrupted(self.replies(rt, &mut *book, seat)),
            Err(
                Unasked {
                    why: Refusal::Waiting,
                    question,
                },
            ) => EvaluationTold::Waiting(question, self.desk.turns_seen(rt)),
            Err(_) => EvaluationTold::Refused,
        }
    }

    /// A form has ended.
    pub(crate) fn end_form<R: Wait>(
        &self,
        rt: &R,
        seat: &mut Seat<L>,
        finish: Finish<N>,
    ) -> Ended<N>
        ensures { seat.new.tenant ≡ seat.old.tenant }
    {
        let mut beside = Beside::nothing();
        let ended = self.end_under_lock(rt, seat, finish, &mut beside);
        beside.free(self.alloc);
        ended
    }

    fn end_under_lock<R: Wait>(
        &self,
        rt: &R,
        seat: &mut Seat<L>,
        finish: Finish<N>,
        beside: &mut Beside,
    ) -> Ended<N>
        ensures { seat.new.tenant ≡ seat.old.tenant }
    {
        let actor = finish.actor();
        let mut book = locked(rt, self.book);
        match book.end(seat, finish, beside) {
            Ok(_) => {
                let replies = self.replies(rt, &mut *book, seat);
                if actor == Actor::Agents {
                    self.desk.note(rt, Event::Turn);
                    return Ended::Taken(replies, None);
                }
                if book.book().ready(seat.tenant()).is_some() || !self.desk.is_reading(rt) {
                    return Ended::Taken(replies, None);
                }
                Ended::Taken(replies, Some(self.desk.seen(rt, Event::Request)))
            }
            Err(
                Unended {
                    why: Refusal::Held,
                    finish,
                },
            ) => Ended::Held(finish, self.desk.seen(rt, Event::Room)),
            Err(_) => Ended::Refused,
        }
    }

    /// The replies that wait, for the writer; and whether the connection is done.
    pub(crate) fn look<R: Wait>(&self, rt: &R, seat: &mut Seat<L>) -> (Vec<Vec<u8>>, bool)
        ensures { seat.new.tenant ≡ seat.old.tenant }
    {
        let tenant = seat.tenant();
        let mut book = locked(rt, self.book);
        // before the replies: nobody has the pen then, so that none is left
        let is_at_rest = self.desk.is_at_rest(rt);
        let replies = self.replies(rt, &mut *book, seat);
        let is_done = is_at_rest && replies.is_empty() && book.book().ready(tenant).is_none();
        (replies, is_done)
    }

    // Takes the replies out that wait, and the pen with them, if nobody has it and there are any.
    fn replies<R: Wait>(
        &self,
        rt: &R,
        book: &mut KnowingBook<L, N>,
        seat: &mut Seat<L>,
    ) -> Vec<Vec<u8>>
        ensures { seat.new.tenant ≡ seat.old.tenant }
    {
        if !self.desk.take_pen(rt) {
            return Vec::new(self.alloc);
        }
        let (replies, are_all) = drain_all(self.alloc, book, seat);
        if !are_all {
            self.cut(rt);
        }
        if replies.is_empty() {
            self.desk.return_pen(rt);
        } else {
            self.desk.note(rt, Event::Room);
        }
        replies
    }
}

/// The book, as soon as nobody else has it.
pub(crate) fn locked<'b, L: Ledger, N: Naming, R: Wait>(
    rt: &R,
    book: &'b Mutex<KnowingBook<L, N>>,
) -> MutexGuard<'b, KnowingBook<L, N>> {
    for tried in 1..=TRIES {
        if let Some(guard) = book.try_lock() {
            return guard;
        }
        if tried % TRIES_IN_A_ROW == 0 {
            thread::yield_now();
        } else {
            for _ in 0..PAUSES {
                spin_loop();
            }
        }
    }
    book.lock(rt)
}

/// The tenant goes, and its refs are dropped.
pub(crate) fn bid_farewell<L: Ledger, N: Naming, R: Wait>(
    rt: &R,
    alloc: Global,
    book: &Mutex<KnowingBook<L, N>>,
    seat: &mut Seat<L>,
)
    ensures { seat.new.tenant ≡ seat.old.tenant }
{
    let mut beside = Beside::nothing();
    let _is_gone = locked(rt, book).leave(seat, &mut beside).is_ok();
    beside.free(alloc);
    drop_departed(rt, alloc, book);
}

// Drops what is left of the refs of tenants that are gone, some under each hold of the lock.
fn drop_departed<L: Ledger, N: Naming, R: Wait>(
    rt: &R,
    alloc: Global,
    book: &Mutex<KnowingBook<L, N>>,
) {
    let mut values = Vec::new(alloc);
    // without that memory they are dropped under the lock
    let _ = values.reserve(REFS_AT_ONCE);
    for _held in 0..usize::MAX {
        if !locked(rt, book).drop_departed(REFS_AT_ONCE, &mut values) {
            return;
        }
        values.clear();
    }
}

// Whether a text was read of this actor, and of so many bytes.
fn is_same(whose: Option<(Actor, usize)>, actor: Actor, length: usize) -> bool {
    match whose {
        Some((other, bytes)) => other == actor && bytes == length,
        None => false,
    }
}

/// What kind of evaluation an actor's is.
pub(crate) fn duty_of(actor: Actor) -> Duty {
    match actor {
        Actor::Agents => Duty::Actions,
        Actor::Bare | Actor::Session(_) => Duty::Requests,
    }
}

// Whether an action may have something to begin behind this.
fn may_wake_agents(ask: &Ask) -> bool {
    match ask {
        Ask::Send(_) | Ask::RestartAgent { .. } => true,
        Ask::Commit(intent) => !intent.sends.is_empty(),
        _ => false,
    }
}

// All replies that wait; and whether there was memory to take them all out.
fn drain_all<L: Ledger, N: Naming>(
    alloc: Global,
    book: &mut KnowingBook<L, N>,
    seat: &mut Seat<L>,
) -> (Vec<Vec<u8>>, bool)
    ensures { seat.new.tenant ≡ seat.old.tenant }
{
    let mut replies = Vec::new(alloc);
    for _ in 0..u64::MAX {
        if replies.reserve(1).is_err() {
            return (replies, false);
        }
        let Some(reply) = drain(book, seat) else {
            return (replies, true);
        };
        if replies.push(reply).is_err() {
            return (replies, false);
        }
    }
    (replies, true)
}

// The oldest reply that waits.
fn drain<L: Ledger, N: Naming>(book: &mut KnowingBook<L, N>, seat: &mut Seat<L>) -> Option<Vec<u8>>
    ensures { seat.new.tenant ≡ seat.old.tenant }
{
    let tenant = seat.tenant();
    let Ok(receipt) = book.act(seat, Step::Drain(tenant)) else {
        return None;
    };
    bytes_in(receipt.answer)
}

fn bytes_in(answer: StepAnswer) -> Option<Vec<u8>> {
    match answer {
        StepAnswer::Bytes(reply) => Some(reply),
        _ => None,
    }
}

fn messages_in(answer: &StepAnswer) -> usize {
    match answer {
        StepAnswer::Heard(messages) => *messages,
        _ => 0,
    }
}
