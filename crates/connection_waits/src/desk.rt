// What the threads of a crew tell one another of a connection, beside the book.
use std::sync::{Condvar, Mutex, Wait};

/// What a thread of a crew evaluates.
#[derive(Clone, Copy, PartialEq, Eq)]
pub enum Duty {
    /// What was asked for, in sessions and without one.
    Requests,
    /// The actions that were sent to agents.
    Actions,
}

// How many forms of requests are evaluated at a time. There is one thread more for them, which
// reads meanwhile.
const MOST_FORMS: u64 = 2;

/// What a thread of a crew waits for.
#[derive(Clone, Copy)]
pub enum Event {
    /// A message came, so that an actor may have something to begin.
    Request,
    /// Replies were taken out, so that there is room for more.
    Room,
    /// Something was sent to agents, so that an action may have something to begin.
    Send,
    /// An action ended, so that an await may be met.
    Turn,
}

/// How often an event came, and how many threads wait for the next: to notify nobody takes a
/// call of the system, too.
#[derive(Drop)]
struct Count {
    came: u64,
    waiting: u64,
}

/// Who is to go on behind messages that came.
#[derive(Clone, Copy)]
pub enum Woken {
    /// Nobody waits for them.
    Nobody,
    /// Who read them.
    Reader,
    /// Those who wait.
    Others,
}

/// How often actions had ended and messages had come.
#[derive(Clone, Copy)]
pub struct SeenCounts {
    turns: u64,
    requests: u64,
}

/// How it stands with a connection. Who holds both locks took the book's first.
#[derive(Drop)]
struct Signs {
    requests: Count,
    rooms: Count,
    sends: Count,
    turns: Count,
    // whether no action had anything to begin since the last was sent
    are_agents_at_rest: bool,
    // whether the action that runs has asked often
    is_action_long: bool,
    // how many evaluations are under way: of forms, and of actions
    forms: u64,
    actions: u64,
    // whether the peer may send more
    is_reading: bool,
    // whether a thread has taken it on to read
    is_read: bool,
    // whether its stream has a fault
    is_broken: bool,
    // whether somebody writes: nobody else takes replies out meanwhile
    is_writing: bool,
    // whether the writer is to look for replies, or whether all is done
    is_due: bool,
    // whether all threads are to end
    is_over: bool,
}

impl Count {
    fn none() -> Count {
        Count {
            came: 0,
            waiting: 0,
        }
    }
}

impl Signs {
    fn count(&self, event: Event) -> &Count {
        match event {
            Event::Request => &self.requests,
            Event::Room => &self.rooms,
            Event::Send => &self.sends,
            Event::Turn => &self.turns,
        }
    }

    fn count_mut(&mut self, event: Event) -> &mut Count {
        match event {
            Event::Request => &mut self.requests,
            Event::Room => &mut self.rooms,
            Event::Send => &mut self.sends,
            Event::Turn => &mut self.turns,
        }
    }

    // Whether an await may be met that was not when so much had come: so many actions more ended,
    // or some and no other ends soon; or a message came, which may close its session.
    fn may_meet(&self, seen: SeenCounts, least: u64) -> bool {
        let ended = self.turns.came.wrapping_sub(seen.turns);
        let ends_none_soon = self.are_agents_at_rest || self.is_action_long;
        let are_enough = least <= ended || (0 < ended && ends_none_soon);
        are_enough || self.requests.came != seen.requests
    }

    fn evaluations_mut(&mut self, duty: Duty) -> &mut u64 {
        match duty {
            Duty::Requests => &mut self.forms,
            Duty::Actions => &mut self.actions,
        }
    }

    // Counts it once more, and tells whether somebody waits for it.
    fn note(&mut self, event: Event) -> bool {
        let count = self.count_mut(event);
        count.came = count.came.wrapping_add(1);
        0 < count.waiting
    }
}

/// Where the threads of a crew meet. Each waits for what concerns it.
#[derive(Drop)]
pub struct Desk {
    signs: Mutex<Signs>,
    requested: Condvar,
    emptied: Condvar,
    sent: Condvar,
    turned: Condvar,
    due: Condvar,
}

impl Desk {
    pub fn new() -> Desk {
        Desk {
            signs: Mutex::new(Signs {
                requests: Count::none(),
                rooms: Count::none(),
                sends: Count::none(),
                turns: Count::none(),
                are_agents_at_rest: true,
                is_action_long: false,
                forms: 0,
                actions: 0,
                is_reading: true,
                is_read: true,
                is_broken: false,
                is_writing: false,
                is_due: false,
                is_over: false,
            }),
            requested: Condvar::new(),
            emptied: Condvar::new(),
            sent: Condvar::new(),
            turned: Condvar::new(),
            due: Condvar::new(),
        }
    }

    /// Has all threads end.
    pub fn end<R: Wait>(&self, rt: &R) {
        self.signs.lock(rt).is_over = true;
        self.requested.notify_all();
        self.emptied.notify_all();
        self.sent.notify_all();
        self.turned.notify_all();
        self.due.notify_all();
    }

    pub fn is_over<R: Wait>(&self, rt: &R) -> bool {
        self.signs.lock(rt).is_over
    }

    /// The stream of the peer has a fault: nothing more of it is heard.
    pub fn note_fault<R: Wait>(&self, rt: &R) {
        self.signs.lock(rt).is_broken = true;
    }

    pub fn is_broken<R: Wait>(&self, rt: &R) -> bool {
        self.signs.lock(rt).is_broken
    }

    /// The peer sends no more.
    pub fn end_reading<R: Wait>(&self, rt: &R) {
        let mut signs = self.signs.lock(rt);
        signs.is_reading = false;
        signs.is_due = true;
        drop(signs);
        self.requested.notify_all();
        self.due.notify_one();
    }

    /// Whether the peer may send more.
    pub fn is_reading<R: Wait>(&self, rt: &R) -> bool {
        self.signs.lock(rt).is_reading
    }

    /// Whether something may still be sent to agents, if no request waits: by a form that runs, or
    /// by what the peer asks for.
    pub fn may_send<R: Wait>(&self, rt: &R) -> bool {
        let signs = self.signs.lock(rt);
        signs.is_reading || 0 < signs.forms || 0 < signs.actions
    }

    /// So many messages came. Each may be a request, or close a session that awaits. Answers who is
    /// to go on: who read them begins what a single small one asks for, where another thread is
    /// free to read.
    pub fn note_messages<R: Wait>(&self, rt: &R, count: usize, is_small: bool) -> Woken {
        if count == 0 {
            return Woken::Nobody;
        }
        let mut signs = self.signs.lock(rt);
        let is_waited_for = signs.note(Event::Request);
        let is_turn_awaited = 0 < signs.turns.waiting;
        let is_one = count == 1 && is_small;
        if is_one && is_waited_for && !is_turn_awaited && signs.forms < MOST_FORMS {
            Woken::Reader
        } else if is_waited_for || is_turn_awaited {
            Woken::Others
        } else {
            Woken::Nobody
        }
    }

    /// Wakes those who are to go on.
    pub fn wake(&self, call: Woken) {
        if matches!(call, Woken::Others) {
            self.requested.notify_all();
            self.turned.notify_all();
        }
    }

    /// Whether as many forms are evaluated as may be at a time.
    pub fn is_busy<R: Wait>(&self, rt: &R) -> bool {
        MOST_FORMS <= self.signs.lock(rt).forms
    }

    /// Leaves it to another thread to read.
    pub fn offer_reading<R: Wait>(&self, rt: &R) {
        self.signs.lock(rt).is_read = false;
        self.requested.notify_one();
    }

    /// Waits until a message comes once more than so often, nobody reads, or the peer sends no
    /// more. Answers whether it is now this thread that is to read.
    pub fn wait_for_request<R: Wait>(&self, rt: &R, seen: u64) -> bool {
        let mut signs = self.signs.lock(rt);
        signs.requests.waiting = signs.requests.waiting.saturating_add(1);
        let mut signs = self.requested.wait_while(rt, signs, |signs| {
            let is_read = signs.is_read && signs.is_reading;
            is_read && signs.requests.came == seen && !signs.is_over
        });
        signs.requests.waiting = signs.requests.waiting.saturating_sub(1);
        let is_free = signs.is_reading && !signs.is_read;
        if is_free {
            signs.is_read = true;
        }
        is_free
    }

    /// Something was sent to agents, or one was restarted.
    pub fn wake_agents<R: Wait>(&self, rt: &R) {
        self.signs.lock(rt).are_agents_at_rest = false;
        self.note(rt, Event::Send);
    }

    /// No action has anything to begin. Where the peer sends no more, all may be done. How often
    /// something was sent until now is answered.
    pub fn rest_agents<R: Wait>(&self, rt: &R) -> u64 {
        let mut signs = self.signs.lock(rt);
        signs.are_agents_at_rest = true;
        let sends = signs.sends.came;
        let is_turn_awaited = 0 < signs.turns.waiting;
        let may_be_done = !signs.is_reading;
        if may_be_done {
            signs.is_due = true;
        }
        drop(signs);
        if is_turn_awaited {
            self.turned.notify_all();
        }
        if may_be_done {
            self.due.notify_one();
        }
        sends
    }

    /// How often actions have ended and messages have come until now.
    pub fn turns_seen<R: Wait>(&self, rt: &R) -> SeenCounts {
        let signs = self.signs.lock(rt);
        SeenCounts {
            turns: signs.turns.came,
            requests: signs.requests.came,
        }
    }

    /// The action that runs has asked often: nobody is to wait for the next to end.
    pub fn note_long_action<R: Wait>(&self, rt: &R) {
        let mut signs = self.signs.lock(rt);
        signs.is_action_long = true;
        let is_turn_awaited = 0 < signs.turns.waiting;
        drop(signs);
        if is_turn_awaited {
            self.turned.notify_all();
        }
    }

    /// Waits until an await may be met: until so many actions more ended, or some and no other ends
    /// soon, or a message came.
    pub fn wait_for_turns<R: Wait>(&self, rt: &R, seen: SeenCounts, least: u64) {
        let mut signs = self.signs.lock(rt);
        signs.turns.waiting = signs.turns.waiting.saturating_add(1);
        let mut signs = self.turned.wait_while(rt, signs, |signs| {
            !signs.may_meet(seen, least) && !signs.is_over
        });
        signs.turns.waiting = signs.turns.waiting.saturating_sub(1);
    }

    /// The event came. All that wait for it go on.
    pub fn note<R: Wait>(&self, rt: &R, event: Event) {
        let is_waited_for = self.signs.lock(rt).note(event);
        if is_waited_for {
            self.bell(event).notify_all();
        }
    }

    /// How often the event came until now.
    pub fn seen<R: Wait>(&self, rt: &R, event: Event) -> u64 {
        self.signs.lock(rt).count(event).came
    }

    /// Waits until the event comes once more than so often.
    pub fn wait<R: Wait>(&self, rt: &R, event: Event, seen: u64) {
        let mut signs = self.signs.lock(rt);
        let count = signs.count_mut(event);
        count.waiting = count.waiting.saturating_add(1);
        let mut signs = self.bell(event).wait_while(rt, signs, |signs| {
            signs.count(event).came == seen && !signs.is_over
        });
        let count = signs.count_mut(event);
        count.waiting = count.waiting.saturating_sub(1);
    }

    fn bell(&self, event: Event) -> &Condvar {
        match event {
            Event::Request => &self.requested,
            Event::Room => &self.emptied,
            Event::Send => &self.sent,
            Event::Turn => &self.turned,
        }
    }

    /// An evaluation is under way.
    pub fn begin_evaluation<R: Wait>(&self, rt: &R, duty: Duty) {
        let mut signs = self.signs.lock(rt);
        let count = signs.evaluations_mut(duty);
        *count = count.saturating_add(1);
        if duty == Duty::Actions {
            signs.is_action_long = false;
        }
    }

    /// An evaluation ended. Where the peer sends no more, all may be done.
    pub fn end_evaluation<R: Wait>(&self, rt: &R, duty: Duty) {
        let mut signs = self.signs.lock(rt);
        let count = signs.evaluations_mut(duty);
        *count = count.saturating_sub(1);
        if !signs.is_reading {
            signs.is_due = true;
            drop(signs);
            self.due.notify_one();
        }
    }

    /// Takes the pen: whether nobody wrote. Where somebody does, the writer is to look once more.
    pub fn take_pen<R: Wait>(&self, rt: &R) -> bool {
        let mut signs = self.signs.lock(rt);
        if signs.is_writing {
            signs.is_due = true;
            return false;
        }
        signs.is_writing = true;
        true
    }

    /// Lays the pen down where there was nothing to write. Nobody else wanted it, since the book's
    /// lock was held; but the writer may have seen that somebody wrote.
    pub fn return_pen<R: Wait>(&self, rt: &R) {
        let mut signs = self.signs.lock(rt);
        signs.is_writing = false;
        let is_due = signs.is_due;
        drop(signs);
        if is_due {
            self.due.notify_one();
        }
    }

    /// Lays the pen down. Where others wanted it, or all may be done, the writer is to look.
    pub fn lay_pen_down<R: Wait>(&self, rt: &R) {
        let mut signs = self.signs.lock(rt);
        signs.is_writing = false;
        if signs.is_due || !signs.is_reading {
            signs.is_due = true;
            drop(signs);
            self.due.notify_one();
        }
    }

    /// Waits until the writer is to look, and nobody writes.
    pub fn wait_until_due<R: Wait>(&self, rt: &R) {
        let signs = self.signs.lock(rt);
        let mut signs = self.due.wait_while(rt, signs, |signs| {
            (!signs.is_due || signs.is_writing) && !signs.is_over
        });
        signs.is_due = false;
    }

    /// Whether the peer sends no more, nothing is evaluated, no action is to begin, and nobody
    /// writes.
    pub fn is_at_rest<R: Wait>(&self, rt: &R) -> bool {
        let signs = self.signs.lock(rt);
        let is_idle = signs.forms == 0 && signs.actions == 0 && signs.are_agents_at_rest;
        !signs.is_reading && is_idle && !signs.is_writing
    }
}
