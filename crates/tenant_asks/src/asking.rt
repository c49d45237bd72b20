// A form asks.
ghost use Rattle.std.specs.Prelude.{◌≡◌, ◌≢◌, ◌<◌, true, false, None, Some, Err};
ghost use Rattle.std.specs.Prelude.{IfOk, OnOk, OnErr, is_some, map};
ghost use Rattle.std.specs.Arc.{arc_value};
ghost use Rattle.repl_asks.specs.Inside.View.{ask_view, sending_view};
ghost use Rattle.repl_replies.specs.Inside.View.{origin_view};
ghost use Rattle.server_rules.specs.Tenant.{seat_of};
ghost use Rattle.ref_table.specs.Calls.{performed};
ghost use Rattle.server_rules.specs.Cells.{with_sends_if, must_wait};
ghost use Rattle.ref_table.specs.Store.{Store};
ghost use Rattle.server_rules.specs.Asking.{call_of, sender_of, session_number};
ghost use Rattle.server_rules.specs.Asking as meant;
ghost use Rattle.ref_table.specs.Refs.{TableRefs};
ghost use Rattle.ref_table.specs.Standing.{counter_of};
ghost use Rattle.tenant_parts.specs.View.{actor_view, hand_view};
ghost use Rattle.tenant_asks.specs.Memories.{opened_by};
ghost use Rattle.tenant_asks.specs.Answers.{ask_answer_view, AreSameAnswers};
ghost use Rattle.tenant_asks.specs.Asking.{is_of_names};
ghost use Rattle.tenant_asks.specs.Asking.{is_of_cells, why_waiting};
ghost use Rattle.tenant_asks.specs.Sends.{committed_sends, is_told_yes, sender_view};
ghost use Rattle.tenant_asks.specs.Cells.{cells_data};
ghost use Rattle.tenant_asks.specs.Promises.{ServesAsk, site, holdings, performed_ask};
ghost use Rattle.tenant_asks.specs.Promises.{AcceptsAnswer, RefusesAnswer, LacksMemoryForAnswer};
ghost use Rattle.tenant_asks.specs.Promises.{GivesUp, StaysUntold, AnswersIfTold, HoldsStill};
ghost use Rattle.tenant_asks.specs.Rooms.{ActorHasRoom};
ghost use Rattle.tenant_parts.specs.Promises.{TellsCall, ServesStill, CountsOne, CountsIfTold};
ghost use Rattle.tenant_parts.specs.Serving.{ServesWithAttempts};
ghost use Rattle.tenant_parts.specs.AnswerCopies.{told_answer, AreCopies};

use crate::acting::interrupt;
use crate::answers::{AskAnswer, AskAnswers};
use crate::cells::Cells;
use crate::keeping::{keep, make_room};
use crate::memory::Remembered;
use crate::naming::name;
use crate::sends;
use crate::sends::{Sender, session_of};
use crate::telling::is_told;
use ref_history::RingHistory;
use ref_table::RefTable;
use repl_asks::{Answer, Ask, Exchange, Sending, is_fixed};
use repl_replies::Origin;
use server_rules::{Actor, Refusal};
use std::alloc::{AllocError, Global};
use std::boxed::Box;
use std::sync::Arc;
use tenant_parts::{ActorState, AnswerCopies, Attempts, WorkInHand, call};

// The first number that is none of the language.
const END_OF_NUMBERS: u64 = 0x8000_0000_0000_0000;

/// The form of the actor that runs asks this. Where it is refused nothing has changed.
pub fn ask(
    alloc: Global,
    memory: &mut Remembered,
    refs: &mut RefTable<RingHistory>,
    attempts: &mut Attempts,
    actor: Actor,
    state: &mut ActorState,
    ask: &Ask,
) -> Result<AskAnswers, Refusal>
    requires { counter_of refs.old < u128.MAX }
    ensures served { ServesAsk actor (ask_view ask.now)
        (site memory.old refs.old attempts.old (actor_view state.old))
        (site memory.new refs.new attempts.new (actor_view state.new))
        result (λ it. ask_answer_view it.given) }
    ensures same { IfOk result AreSameAnswers }
    ensures counted { CountsOne refs.old refs.new result }
{
    let Some(hand) = &state.hand else {
        return Err(Refusal::Idle);
    };
    let Some(_run) = &hand.running else {
        return Err(Refusal::Idle);
    };
    if !may_ask(actor, ask) {
        return Err(Refusal::Idle);
    }
    if !is_allowed(&memory.cells, ask) {
        return Err(Refusal::Idle);
    }
    if state.is_closed {
        give_up(alloc, memory, refs, attempts, actor, &hand.origin, ask)?;
        return Ok(AskAnswers::interrupted());
    }
    if must_wait(&memory.cells, actor, ask) {
        return Err(why_waiting(alloc, refs, attempts, actor, ask));
    }
    answer(alloc, memory, refs, attempts, actor, state, ask)
}

// Outside of attempts an action sends nothing before it ends, and it awaits nothing.
fn may_ask(actor: Actor, ask: &Ask) -> bool
    ensures { result ≡ meant.may_ask actor (ask_view ask.now) }
{
    match actor {
        Actor::Agents => !matches!(ask, Ask::Send(_) | Ask::Await(_)),
        Actor::Bare | Actor::Session(_) => true,
    }
}

// Whether the ask breaks no rule of its own: nothing is defined in a namespace that is fixed, nor
// is it entered, the bounds of a history are numbers of the language, and atoms and agents are
// there.
fn is_allowed(cells: &Cells, ask: &Ask) -> bool
    ensures { result ≡ meant.is_allowed (ask_view ask.now) (cells_data cells.now) }
{
    match ask {
        Ask::Define { namespace, .. } => !is_fixed(namespace.as_str()),
        Ask::Enter(name) => !is_fixed(name.as_str()),
        Ask::NewRef {
            min_history,
            max_history,
            ..
        } => *min_history < END_OF_NUMBERS && *max_history < END_OF_NUMBERS,
        Ask::MinHistory { set, .. } => may_be_set(*set),
        Ask::MaxHistory { set, .. } => may_be_set(*set),
        Ask::ReadAtom(number) | Ask::SetAtom { number, .. } | Ask::TryAtom { number, .. } => {
            cells.has_atom(*number)
        }
        Ask::ReadAgent(number) | Ask::AgentFault(number) | Ask::RestartAgent { number, .. } => {
            cells.has_agent(*number)
        }
        Ask::Send(sending) | Ask::MaySend(sending) => cells.has_agent(sending.agent),
        Ask::Commit(intent) => cells.has_receivers(intent.sends.as_slice()),
        Ask::Await(numbers) => cells.has_agents(numbers.as_slice()),
        Ask::Resolve { .. } | Ask::Begin | Ask::Read(_) | Ask::History(_) => true,
        Ask::NewAtom(_) | Ask::NewAgent(_) => true,
    }
}

fn may_be_set(bound: Option<u64>) -> bool
    ensures { result ≡ meant.may_be_set bound }
{
    match bound {
        Some(bound) => bound < END_OF_NUMBERS,
        None => true,
    }
}

// Whether the ask is an await that is not met.
fn must_wait(cells: &Cells, actor: Actor, ask: &Ask) -> bool
    ensures { result
        ≡ must_wait (session_number actor) (ask_view ask.now) (cells_data cells.now) }
{
    match ask {
        Ask::Await(numbers) => cells.is_unmet(numbers.as_slice(), session_of(actor)),
        _ => false,
    }
}

// What an await is refused for that is not met: it may not stand where it does anyway.
fn why_waiting(
    alloc: Global,
    refs: &RefTable<RingHistory>,
    attempts: &Attempts,
    actor: Actor,
    ask: &Ask,
) -> Refusal
    ensures why { (s : Store) (r : TableRefs) → ServesWithAttempts refs.now attempts.now s r → result
        ≡ why_waiting (is_some (performed s (call_of (seat_of actor) (ask_view ask.now))).told) }
    ensures frugal { result ≢ Refusal.NoMemory }
    ensures free { result ≢ Refusal.Held }
{
    if is_told(alloc, refs, attempts, actor, ask) {
        Refusal::Waiting
    } else {
        Refusal::Idle
    }
}

// The session was closed: its request is answered so, and its attempt is over. An ask of which
// nothing would be told is refused here too.
fn give_up(
    alloc: Global,
    memory: &mut Remembered,
    refs: &RefTable<RingHistory>,
    attempts: &mut Attempts,
    actor: Actor,
    origin: &Arc<Origin>,
    ask: &Ask,
) -> Result<(), Refusal>
    ensures gone { GivesUp actor (ask_view ask.now) (origin_view (arc_value origin.now))
        (holdings memory.old refs.now attempts.old) (holdings memory.new refs.now attempts.new)
        result }
    ensures stays { StaysUntold actor (ask_view ask.now)
        (holdings memory.old refs.now attempts.old) (holdings memory.new refs.now attempts.new)
        result }
    ensures no_memory { (s : Store) (r : TableRefs) → ServesWithAttempts refs.now attempts.old s r
        → result ≡ Err Refusal.NoMemory
        → is_some (performed_ask actor (ask_view ask.now) s).told ≡ true }
    ensures opened { opened_by memory.new ≡ opened_by memory.old }
    ensures free { result ≢ Err Refusal.Held }
{
    if !is_told(alloc, refs, attempts, actor, ask) {
        return Err(Refusal::Idle);
    }
    interrupt(alloc, memory, origin)?;
    attempts.leave(actor);
    Ok(())
}

// The answer, which is kept with its ask. Where it is refused nothing has changed. Whether anything
// would be told is asked where memory is refused, and only there: elsewhere the answer itself shows.
fn answer(
    alloc: Global,
    memory: &mut Remembered,
    refs: &mut RefTable<RingHistory>,
    attempts: &mut Attempts,
    actor: Actor,
    state: &mut ActorState,
    ask: &Ask,
) -> Result<AskAnswers, Refusal>
    requires counted { counter_of refs.old < u128.MAX }
    requires hand { is_some state.old.hand ≡ true }
    ensures acted { AcceptsAnswer actor (ask_view ask.now)
        (site memory.old refs.old attempts.old (actor_view state.old))
        (site memory.new refs.new attempts.new (actor_view state.new)) result }
    ensures declined { RefusesAnswer actor (ask_view ask.now)
        (site memory.old refs.old attempts.old (actor_view state.old))
        (site memory.new refs.new attempts.new (actor_view state.new)) result }
    ensures no_memory { LacksMemoryForAnswer actor (ask_view ask.now)
        (site memory.old refs.old attempts.old (actor_view state.old)) result }
    ensures same { IfOk result AreSameAnswers }
    ensures stays { OnErr result (actor_view state.new ≡ actor_view state.old) }
    ensures opened { opened_by memory.new ≡ opened_by memory.old }
    ensures counted { CountsOne refs.old refs.new result }
    ensures free { result ≢ Err Refusal.Held }
{
    let Ok(mut exchange) = exchange_with_room(alloc, state, ask) else {
        return Err(why_refused(alloc, refs, attempts, actor, ask));
    };
    let Some(hand) = &state.hand else {
        unreachable!()
    };
    let Ok(told) = perform_ask(alloc, memory, refs, attempts, actor, hand, ask) else {
        return Err(why_refused(alloc, refs, attempts, actor, ask));
    };
    let Some(answer) = told else {
        return Err(Refusal::Idle);
    };
    let AnswerCopies { kept, given, noted } = answer;
    exchange.answer = kept;
    keep(state, exchange);
    Ok(AskAnswers {
        given: AskAnswer::Answer(given),
        noted: AskAnswer::Answer(noted),
    })
}

// What an ask is refused for to which memory was: nothing may be told of it anyway.
fn why_refused(
    alloc: Global,
    refs: &RefTable<RingHistory>,
    attempts: &Attempts,
    actor: Actor,
    ask: &Ask,
) -> Refusal
    ensures idle { (s : Store) (r : TableRefs) → ServesWithAttempts refs.now attempts.now s r
        → result ≢ Refusal.NoMemory → (result ≡ Refusal.Idle)
        × ((performed_ask actor (ask_view ask.now) s).told ≡ None) }
    ensures no_memory { (s : Store) (r : TableRefs) → ServesWithAttempts refs.now attempts.now s r
        → result ≡ Refusal.NoMemory
        → is_some (performed_ask actor (ask_view ask.now) s).told ≡ true }
    ensures free { result ≢ Refusal.Held }
{
    if is_told(alloc, refs, attempts, actor, ask) {
        Refusal::NoMemory
    } else {
        Refusal::Idle
    }
}

// The ask as it is kept, with room for its answer, and room for both in the trace. It fails only
// for want of memory.
fn exchange_with_room(
    alloc: Global,
    state: &mut ActorState,
    ask: &Ask,
) -> Result<Box<Exchange>, AllocError>
    ensures copied { IfOk result (λ it. ask_view it.value.ask ≡ ask_view ask.now) }
    ensures room { OnOk result (ActorHasRoom state.new) }
    ensures same { actor_view state.new ≡ actor_view state.old }
{
    let exchange = Exchange {
        ask: ask.copy()?,
        answer: Answer::Done,
    };
    let exchange = Box::new(alloc, exchange)?;
    make_room(state)?;
    Ok(exchange)
}

// What the answer is, if anything is told, and whatever is asked is done. It fails only for want of
// memory; then, and where nothing is told, nothing has changed.
fn perform_ask(
    alloc: Global,
    memory: &mut Remembered,
    refs: &mut RefTable<RingHistory>,
    attempts: &mut Attempts,
    actor: Actor,
    hand: &WorkInHand,
    ask: &Ask,
) -> Result<Option<AnswerCopies>, AllocError>
    requires { counter_of refs.old < u128.MAX }
    ensures answered { AnswersIfTold actor (sender_of actor (hand_view hand.now))
        (ask_view ask.now) (holdings memory.old refs.old attempts.old)
        (holdings memory.new refs.new attempts.new) result }
    ensures stays { HoldsStill (holdings memory.old refs.old attempts.old)
        (holdings memory.new refs.new attempts.new) result }
    ensures opened { opened_by memory.new ≡ opened_by memory.old }
    ensures counted { CountsIfTold refs.old refs.new result }
    ensures copies { IfOk result AreCopies }
{
    if is_of_names(ask) {
        return Ok(Some(name(alloc, memory, actor, ask)?));
    }
    let sender = Sender::of(actor, hand);
    if is_of_cells(ask) {
        if !is_told(alloc, refs, attempts, actor, ask) {
            return Ok(None);
        }
        return Ok(Some(memory.cells.ask(alloc, sender, ask)?));
    }
    call_and_send(alloc, &mut memory.cells, refs, attempts, actor, sender, ask)
}

// What the refs tell; where a commit is told to be made, also what it sends is sent. It fails only
// for want of memory. Then, and where nothing is told, nothing has changed.
fn call_and_send(
    alloc: Global,
    cells: &mut Cells,
    refs: &mut RefTable<RingHistory>,
    attempts: &mut Attempts,
    actor: Actor,
    sender: Sender<'_>,
    ask: &Ask,
) -> Result<Option<AnswerCopies>, AllocError>
    requires { counter_of refs.old < u128.MAX }
    ensures called { TellsCall actor (ask_view ask.now) refs.old attempts.old refs.new attempts.new
        result }
    ensures sent { IfOk result (λ it. cells_data cells.new
        ≡ with_sends_if (is_told_yes (told_answer it)) (sender_view sender.entry)
        (committed_sends (ask_view ask.now)) (cells_data cells.old)) }
    ensures stays { ServesStill refs.old attempts.old refs.new attempts.new result }
    ensures unsent { OnErr result (cells_data cells.new ≡ cells_data cells.old) }
    ensures counted { CountsIfTold refs.old refs.new result }
    ensures copies { IfOk result AreCopies }
{
    let prepared = sends::prepare(alloc, &mut cells.agents, sender, sends_of(ask))?;
    let told = call(alloc, refs, attempts, actor, ask)?;
    sends::settle(&mut cells.agents, &told, prepared);
    Ok(told)
}

// What is sent where a commit is told to be made. Nothing else that the refs tell sends.
fn sends_of(ask: &Ask) -> &[Sending]
    ensures { map sending_view result.now ≡ committed_sends (ask_view ask.now) }
{
    match ask {
        Ask::Commit(intent) => intent.sends.as_slice(),
        _ => &[],
    }
}

fn is_of_names(ask: &Ask) -> bool
    ensures { result ≡ is_of_names (ask_view ask.now) }
{
    matches!(
        ask,
        Ask::Resolve { .. } | Ask::Define { .. } | Ask::Enter(_)
    )
}

fn is_of_cells(ask: &Ask) -> bool
    ensures { result ≡ is_of_cells (ask_view ask.now) }
{
    matches!(
        ask,
        Ask::NewAtom(_)
            | Ask::ReadAtom(_)
            | Ask::SetAtom { .. }
            | Ask::TryAtom { .. }
            | Ask::NewAgent(_)
            | Ask::ReadAgent(_)
            | Ask::AgentFault(_)
            | Ask::RestartAgent { .. }
            | Ask::Send(_)
            | Ask::MaySend(_)
            | Ask::Await(_)
    )
}
