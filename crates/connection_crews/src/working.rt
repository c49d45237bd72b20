// The threads of a crew that read and evaluate: each ask and each end is handed in.
use crate::gate::Gate;
use crate::moves::{Connection, Ended, EvaluationTold, NextWork};
use crate::reading::{EMPTY_PIECE, Piece, ReadOutcome, read_piece};
use connection_waits::{Duty, Event};
use journal_book::Seat;
use knowing_book::{Answered, Begun, Finish, Naming, Question, Stage};
use repl_asks::Ask;
use repl_reader::ReadText;
use std::sync::Wait;
use std::sync::ledger::Ledger;

// How many more starts and asks a thread makes for a message that it read. Behind that another
// thread reads on. An action that makes as many is long.
const MOST_MOVES: u32 = 16;

// The length of replies, in bytes, that a peer may be slow to read. Behind that another thread
// reads.
const LONG_REPLIES: usize = 4_096;

// How many agents an await may name for each end of an action behind which it is asked again.
const AGENTS_FOR_A_TURN: u64 = 64;

/// A thread that evaluates, with its seat.
#[derive(Drop)]
pub(crate) struct Worker<'c, 'a, L: Ledger, N: Naming, R, G> {
    rt: &'c R,
    connection: &'c Connection<'a, L, N, G>,
    seat: Seat<L>,
    duty: Duty,
    // whether it is the one that reads from the peer
    reads: bool,
    // how many more starts and asks it makes before it reads on
    moves_left: u32,
}

// What a worker does behind an evaluation.
#[derive(Drop)]
enum NextMove {
    Begin,
    // Nobody had anything to begin when so many requests had come.
    Wait(u64),
    // The connection cannot go on.
    Cut,
}

/// Reads what the peer sends and evaluates what it asks for, by turns with two threads more, until
/// the connection is over or no more can come. One of the three is the one that reads. It begins at
/// once what a single message asks for, and reads on when that is done: so no thread is woken for
/// what takes little. Where it takes more, another reads on.
pub(crate) fn serve_requests<L: Ledger, N: Naming, R: Wait, G: Gate>(
    rt: &R,
    connection: &Connection<'_, L, N, G>,
    seat: Seat<L>,
    reads: bool,
) -> Seat<L> {
    let mut buffer = EMPTY_PIECE;
    let mut worker = Worker {
        rt,
        connection,
        seat,
        duty: Duty::Requests,
        reads,
        moves_left: 0,
    };
    for _ in rt.forever() {
        if connection.desk.is_over(rt) {
            break;
        }
        if worker.reads && worker.moves_left == 0 {
            worker.read(&mut buffer);
        } else if !worker.work() {
            // the runner may be done too
            connection.desk.note(rt, Event::Send);
            break;
        }
    }
    worker.seat
}

/// Runs one action after another, until the connection is over or no more can come.
pub(crate) fn serve_actions<L: Ledger, N: Naming, R: Wait, G: Gate>(
    rt: &R,
    connection: &Connection<'_, L, N, G>,
    seat: Seat<L>,
) -> Seat<L> {
    let mut worker = Worker {
        rt,
        connection,
        seat,
        duty: Duty::Actions,
        reads: false,
        moves_left: 0,
    };
    for _ in rt.forever() {
        if connection.desk.is_over(rt) || !worker.work() {
            break;
        }
    }
    worker.seat
}

impl<'c, 'a, L: Ledger, N: Naming, R: Wait, G: Gate> Worker<'c, 'a, L, N, R, G> {
    // Reads a piece, and does at once what a small message asks for.
    fn read(&mut self, buffer: &mut Piece) {
        match read_piece(self.rt, self.connection, &mut self.seat, buffer) {
            ReadOutcome::Nothing => {}
            ReadOutcome::Message(found) => {
                self.moves_left = MOST_MOVES;
                let _more_may_come = self.go(found);
            }
            ReadOutcome::End => {
                self.reads = false;
                self.connection.desk.end_reading(self.rt);
            }
        }
    }

    // Leaves it to another thread to read.
    fn stop_reading(&mut self) {
        if self.reads {
            self.reads = false;
            self.connection.desk.offer_reading(self.rt);
        }
    }

    // One start or ask more. With the last that it may make for a message a thread stops reading.
    fn count_move(&mut self) {
        if self.moves_left == 0 {
            return;
        }
        self.moves_left -= 1;
        if self.moves_left == 0 {
            match self.duty {
                Duty::Requests => self.stop_reading(),
                Duty::Actions => self.connection.desk.note_long_action(self.rt),
            }
        }
    }

    // Begins and evaluates what is next. Tells whether more may come.
    fn work(&mut self) -> bool {
        match self.duty {
            Duty::Requests => self.count_move(),
            Duty::Actions => self.moves_left = MOST_MOVES,
        }
        let found = match self.duty {
            Duty::Requests => self.connection.begin(self.rt, &mut self.seat),
            Duty::Actions => self.connection.begin_action(self.rt, &mut self.seat),
        };
        self.go(found)
    }

    // Does what was found. Tells whether more may come.
    fn go(&mut self, found: NextWork<N>) -> bool {
        match self.read_ahead(found) {
            // another text waits by now
            NextWork::Text(_actor, _text) => {}
            NextWork::Form(begun) => self.run(begun),
            NextWork::Answered(replies) => self.connection.write(self.rt, replies),
            NextWork::Nothing(seen) => self.rest(seen),
            NextWork::Done => return false,
            NextWork::Held(seen) => self.wait_for_room(seen),
            NextWork::Refused => self.connection.cut(self.rt),
        }
        true
    }

    // Evaluates a form to its end, and waits where nobody has anything to begin.
    fn run(&mut self, begun: Begun<N>) {
        let next = self.evaluate(begun);
        if matches!(next, NextMove::Cut) {
            self.connection.cut(self.rt);
        }
        self.connection.desk.end_evaluation(self.rt, self.duty);
        if let NextMove::Wait(seen) = next {
            self.rest(seen);
        }
    }

    // What is found once a text is read, where one was to be read first. Nobody waits meanwhile.
    fn read_ahead(&mut self, found: NextWork<N>) -> NextWork<N> {
        match found {
            NextWork::Text(actor, text) => {
                self.stop_reading();
                let whose = (actor, text.len());
                match ReadText::new(self.connection.alloc, text) {
                    Ok(read) => self
                        .connection
                        .begin_read(self.rt, &mut self.seat, read, whose),
                    Err(_) => NextWork::Refused,
                }
            }
            found => found,
        }
    }

    fn wait_for_room(&mut self, seen: u64) {
        self.stop_reading();
        self.connection.desk.wait(self.rt, Event::Room, seen);
    }

    // Nothing is to be begun when what may bring more has come so often. Who reads goes on to read.
    fn rest(&mut self, seen: u64) {
        if self.reads {
            self.moves_left = 0;
            return;
        }
        match self.duty {
            Duty::Requests => self.reads = self.connection.desk.wait_for_request(self.rt, seen),
            Duty::Actions => self.connection.desk.wait(self.rt, Event::Send, seen),
        }
    }

    // Evaluates a form to its end. It is cut off where memory is refused.
    fn evaluate(&mut self, begun: Begun<N>) -> NextMove {
        let mut reached = begun.evaluate(self.connection.alloc);
        for _ in self.rt.forever() {
            let answered = match reached {
                Ok(Stage::Asks(question)) => self.ask(question),
                Ok(Stage::Ends(finish)) => Err(self.end(finish)),
                Err(_) => Err(NextMove::Cut),
            };
            match answered {
                Ok(answered) => reached = answered.resume(self.connection.alloc),
                Err(next) => return next,
            }
        }
        unreachable!()
    }

    // Passes the gate, and has the ask of a form answered, an await once it is met.
    fn ask(&mut self, mut question: Question<N>) -> Result<Answered<N>, NextMove> {
        self.count_move();
        if self.connection.desk.is_over(self.rt) {
            return Err(NextMove::Cut);
        }
        if self.connection.gate.may_hold() {
            self.stop_reading();
        }
        let tenant = self.seat.tenant();
        self.connection
            .gate
            .pass(tenant, question.actor(), question.ask());
        let turns = turns_for(question.ask());
        for _ in self.rt.forever() {
            match self.connection.ask(self.rt, &mut self.seat, question) {
                EvaluationTold::Answered(answered) => return Ok(answered),
                EvaluationTold::Waiting(back, seen) => {
                    self.stop_reading();
                    self.connection.desk.wait_for_turns(self.rt, seen, turns);
                    if self.connection.desk.is_over(self.rt) {
                        return Err(NextMove::Cut);
                    }
                    question = back;
                }
                EvaluationTold::Interrupted(replies) => {
                    self.connection.write(self.rt, replies);
                    return Err(NextMove::Begin);
                }
                EvaluationTold::Refused => return Err(NextMove::Cut),
            }
        }
        unreachable!()
    }

    // Makes the replies, and hands the ending in, as soon as there is room for its replies.
    fn end(&mut self, mut finish: Finish<N>) -> NextMove {
        for _ in self.rt.forever() {
            let Ok(spelled) = finish.spell(self.connection.alloc) else {
                return NextMove::Cut;
            };
            match self.connection.end_form(self.rt, &mut self.seat, spelled) {
                Ended::Taken(replies, seen) => {
                    if are_long(&replies) {
                        self.stop_reading();
                    }
                    self.connection.write(self.rt, replies);
                    return match seen {
                        Some(seen) => NextMove::Wait(seen),
                        None => NextMove::Begin,
                    };
                }
                Ended::Held(back, seen) => {
                    self.wait_for_room(seen);
                    if self.connection.desk.is_over(self.rt) {
                        return NextMove::Cut;
                    }
                    finish = back;
                }
                Ended::Refused => return NextMove::Cut,
            }
        }
        unreachable!()
    }
}

// After how many ends of actions an await is asked again: to look at one agent takes a step.
fn turns_for(ask: &Ask) -> u64 {
    match ask {
        Ask::Await(agents) => 1 + agents.len() as u64 / AGENTS_FOR_A_TURN,
        _ => 1,
    }
}

fn are_long(replies: &[Vec<u8>]) -> bool {
    let mut length: usize = 0;
    for reply in replies {
        length = length.saturating_add(reply.len());
    }
    LONG_REPLIES < length
}
