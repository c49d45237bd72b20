// What a form sends to agents.
ghost use Rattle.std.specs.Prelude.{◌≡◌, ◌≤◌, false, length, map, option_map};
ghost use Rattle.std.specs.Prelude.{IfOk, OnErr};
ghost use Rattle.repl_asks.specs.Exchange as told;
ghost use Rattle.repl_asks.specs.Inside.View.{ask_view, answer_view, sending_view};
ghost use Rattle.private_cells.specs.Inside.View.{agents_view, room_of};
ghost use Rattle.server_rules.specs.Asking.{sender_of, session_number, sending_session};
ghost use Rattle.server_rules.specs.Cells.{is_yes, send_permission, sends_by, stays_inside};
ghost use Rattle.tenant_parts.specs.View.{hand_view, kept_trace, manner_view, run_view};
ghost use Rattle.tenant_parts.specs.AnswerCopies.{copies_view, told_answer, AreAllSame};
ghost use Rattle.tenant_asks.specs.Sends.{all_sent, all_sent_if, is_told_yes, outgoing_from};
ghost use Rattle.tenant_asks.specs.Sends.{outgoing_view};
ghost use Rattle.tenant_asks.specs.Sends.{sender_view, sent_if, sends_listed, outgoing_in, trace_of};

use private_cells::{Action, Agents};
use repl_asks::{Answer, Ask, Exchange, Permission, Reading, Sending, Verdict};
use repl_replies::Origin;
use repl_values::{Rule, broken_rule};
use server_rules::Actor;
use std::alloc::{AllocError, Global};
use std::collections::VecDeque;
use std::sync::Arc;
use tenant_parts::{AnswerCopies, Manner, Run, WorkInHand};

/// Who sends: what the replies to its request carry, and the number of its session, if it has one.
#[derive(Clone, Copy)]
pub struct Sender<'a> {
    origin: &'a Arc<Origin>,
    session: Option<u64>,
}

/// An action, and the number of the agent to which it is sent.
#[derive(Drop)]
pub struct Outgoing {
    agent: u64,
    action: Action,
}

impl<'a> Sender<'a> {
    /// An actor, with the request that it has in hand.
    pub fn of(actor: Actor, hand: &'a WorkInHand) -> Sender<'a>
        ensures { sender_view result ≡ sender_of actor (hand_view hand.now) }
    {
        Sender {
            origin: &hand.origin,
            session: sending_session(actor, &hand.manner),
        }
    }
}

// What an action sends comes from the session that sent the action.
fn sending_session(actor: Actor, manner: &Manner) -> Option<u64>
    ensures { result ≡ sending_session actor (manner_view manner.now) }
{
    match manner {
        Manner::OfAction(session) => *session,
        _ => session_of(actor),
    }
}

/// The number of the session of an actor, if it has one.
pub(crate) fn session_of(actor: Actor) -> Option<u64>
    ensures { result ≡ session_number actor }
{
    match actor {
        Actor::Agents | Actor::Bare => None,
        Actor::Session(number) => Some(number),
    }
}

// It fails only where 2^63 owners share a part of it.
fn to_send(sender: Sender<'_>, sending: &Sending) -> Result<Outgoing, AllocError>
    ensures { IfOk result (λ it. outgoing_view it
        ≡ outgoing_from (sender_view sender.entry) (sending_view sending.now)) }
{
    Ok(Outgoing {
        agent: sending.agent,
        action: Action {
            task: Arc::try_clone(&sending.task)?,
            origin: Arc::try_clone(sender.origin)?,
            session: sender.session,
        },
    })
}

/// Whether something may be sent to the agent of this number: not where it is failed. It fails only
/// for want of memory.
pub(crate) fn permission(
    alloc: Global,
    agents: &Agents,
    number: u64,
) -> Result<AnswerCopies, AllocError>
    ensures answered { IfOk result (λ it. copies_view it
        ≡ told.permission (send_permission number (agents_view agents.now))) }
    ensures copies { IfOk result AreAllSame }
{
    match agents.fault(number) {
        None => Ok(AnswerCopies::granted()),
        Some(_) => {
            let fault = broken_rule(alloc, Rule::AgentHasNotFailed)?;
            AnswerCopies::of(Answer::Permission(Permission::Denied(fault)))
        }
    }
}

/// This is sent, if it may be. It fails only for want of memory, and has then changed nothing.
pub(crate) fn send(
    alloc: Global,
    agents: &mut Agents,
    sender: Sender<'_>,
    sending: &Sending,
) -> Result<AnswerCopies, AllocError>
    ensures answered { IfOk result (λ it. copies_view it ≡ told.permission
        (send_permission (sending_view sending.now).agent (agents_view agents.old))) }
    ensures sent { IfOk result (λ it. agents_view agents.new
        ≡ sent_if (is_yes (copies_view it)) (sender_view sender.entry)
        (sending_view sending.now) (agents_view agents.old)) }
    ensures stays { OnErr result (agents_view agents.new ≡ agents_view agents.old) }
    ensures copies { IfOk result AreAllSame }
{
    if agents.fault(sending.agent).is_some() {
        return permission(alloc, agents, sending.agent);
    }
    let Outgoing { agent, action } = to_send(sender, sending)?;
    agents.reserve(1)?;
    agents.send(agent, action);
    Ok(AnswerCopies::granted())
}

/// What an attempt sends, with room for all of it. It fails only for want of memory, and sends
/// nothing yet.
pub(crate) fn prepare(
    alloc: Global,
    agents: &mut Agents,
    sender: Sender<'_>,
    sends: &[Sending],
) -> Result<VecDeque<Outgoing>, AllocError>
    ensures made { IfOk result (λ it. map outgoing_view it.items
        ≡ map (outgoing_from (sender_view sender.entry)) (map sending_view sends.now)) }
    ensures room { IfOk result (λ it. length it.items ≤ room_of agents.new) }
    ensures same { agents_view agents.new ≡ agents_view agents.old }
{
    let mut prepared = VecDeque::new(alloc);
    for sending in sends {
        prepared.push_back(to_send(sender, sending)?)?;
    }
    agents.reserve(prepared.len())?;
    Ok(prepared)
}

/// All of this is sent, in order, where what was asked for was told to be so. There is room for it.
pub(crate) fn settle(agents: &mut Agents, told: &Option<AnswerCopies>, prepared: VecDeque<Outgoing>)
    requires { length prepared.items ≤ room_of agents.old }
    ensures { agents_view agents.new ≡ all_sent_if (is_told_yes (told_answer told.now))
        (map outgoing_view prepared.items) (agents_view agents.old) }
{
    if !is_yes(told) {
        return;
    }
    send_all(agents, prepared);
}

/// All of this is sent, in order. There is room for it.
pub fn send_all(agents: &mut Agents, prepared: VecDeque<Outgoing>)
    requires { length prepared.items ≤ room_of agents.old }
    ensures { agents_view agents.new
        ≡ all_sent (map outgoing_view prepared.items) (agents_view agents.old) }
{
    let mut prepared = prepared;
    while let Some(it) = prepared.pop_front() {
        agents.send(it.agent, it.action);
    }
}

fn is_yes(told: &Option<AnswerCopies>) -> bool
    ensures { result ≡ is_told_yes (told_answer told.now) }
{
    let Some(it) = told else {
        return false;
    };
    matches!(
        it.kept,
        Answer::Verdict(Verdict::Committed) | Answer::Permission(Permission::Granted)
    )
}

/// What an action is to send that runs so: what it was granted outside of attempts. It takes a step
/// for each ask, and fails only for want of memory.
pub fn sends_in(
    alloc: Global,
    sender: Sender<'_>,
    running: &Option<Run>,
) -> Result<VecDeque<Outgoing>, AllocError>
    ensures { IfOk result (λ it. map outgoing_view it.items
        ≡ outgoing_in (sender_view sender.entry) false
        (trace_of (option_map run_view running.now))) }
{
    match running {
        Some(run) => sends_outside(alloc, sender, run.trace.as_slice()),
        None => Ok(VecDeque::new(alloc)),
    }
}

fn sends_outside(
    alloc: Global,
    sender: Sender<'_>,
    trace: &[Box<Exchange>],
) -> Result<VecDeque<Outgoing>, AllocError>
    ensures { IfOk result (λ it. map outgoing_view it.items
        ≡ outgoing_in (sender_view sender.entry) false (kept_trace trace.now)) }
{
    let mut sends = VecDeque::new(alloc);
    let mut is_inside = false;
    for exchange in trace {
        if let Some(sending) = sent_by(is_inside, exchange) {
            sends.push_back(to_send(sender, sending)?)?;
        }
        is_inside = stays_inside(is_inside, exchange);
    }
    Ok(sends)
}

// What an ask that was answered so may send, behind the others, if it may send anything.
fn sent_by(is_inside: bool, exchange: &Exchange) -> Option<&Sending>
    ensures { sends_listed (option_map (λ s. sending_view s.now) result)
        ≡ sends_by is_inside (ask_view exchange.now.ask) (answer_view exchange.now.answer) }
{
    if is_inside {
        return None;
    }
    let Ask::MaySend(sending) = &exchange.ask else {
        return None;
    };
    match &exchange.answer {
        Answer::Permission(Permission::Granted) => Some(sending),
        _ => None,
    }
}

// Whether an attempt runs behind an ask that was answered so.
fn stays_inside(is_inside: bool, exchange: &Exchange) -> bool
    ensures { result ≡ stays_inside is_inside (ask_view exchange.now.ask)
        (answer_view exchange.now.answer) }
{
    match &exchange.ask {
        Ask::Begin => true,
        Ask::Commit(_) => false,
        Ask::Read(_) => {
            if matches!(&exchange.answer, Answer::Reading(Reading::Retry)) {
                return false;
            }
            is_inside
        }
        _ => is_inside,
    }
}
