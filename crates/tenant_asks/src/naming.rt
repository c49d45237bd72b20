// What a form asks of names.
ghost use Rattle.std.specs.Prelude.{◌≡◌, ℕ, true, IfOk, OnOk, OnErr};
ghost use Rattle.value_data.specs.Inside.View.{view};
ghost use Rattle.repl_asks.specs.Exchange.{AnswerData, done};
ghost use Rattle.repl_asks.specs.Inside.View.{ask_view, answer_view, resolution_view};
ghost use Rattle.repl_sessions.specs.Inside.StateView.{state_view};
ghost use Rattle.name_spaces.specs.Inside.Seen.{found_view};
ghost use Rattle.server_rules.specs.Cells.{SenderData};
ghost use Rattle.server_rules.specs.Ground.{Ground};
ghost use Rattle.server_rules.specs.Tenant.{TenantState, actor_state};
ghost use Rattle.server_rules.specs.Asking.{answer_to, state_after};
ghost use Rattle.server_rules.specs.Asking as meant;
ghost use Rattle.tenant_asks.specs.Memories.{Remembers, opened_by};
ghost use Rattle.tenant_asks.specs.Asking.{is_of_names};
ghost use Rattle.tenant_parts.specs.AnswerCopies.{copies_view, AreAllSame};

use crate::memory::Remembered;
use name_spaces::{Found, Latest};
use repl_asks::{Answer, Ask, Resolution};
use repl_sessions::SessionState;
use repl_values::{Value, copy, copy_text};
use server_rules::Actor;
use std::alloc::{AllocError, Global};
use tenant_parts::AnswerCopies;

/// Answers an ask of names, and does what is asked. It fails only for want of memory, and has then
/// changed nothing.
pub(crate) fn name(
    alloc: Global,
    memory: &mut Remembered,
    actor: Actor,
    ask: &Ask,
) -> Result<AnswerCopies, AllocError>
    requires { is_of_names (ask_view ask.now) ≡ true }
    ensures answered { (g : Ground) (t : ℕ) (sender : SenderData) (q : TenantState)
        → Remembers g t memory.old q → IfOk result (λ it.
        (copies_view it ≡ answer_to g actor q (ask_view ask.now) done)
        × Remembers g t memory.new (state_after sender (ask_view ask.now) (copies_view it) q)) }
    ensures stays { (g : Ground) (t : ℕ) (q : TenantState) → Remembers g t memory.old q
        → OnErr result (Remembers g t memory.new q) }
    ensures opened { opened_by memory.new ≡ opened_by memory.old }
    ensures copies { IfOk result AreAllSame }
{
    let answer = AnswerCopies::of(answer_of(alloc, memory, actor, ask)?)?;
    change(alloc, memory, ask)?;
    Ok(answer)
}

fn answer_of(
    alloc: Global,
    memory: &Remembered,
    actor: Actor,
    ask: &Ask,
) -> Result<Answer, AllocError>
    requires { is_of_names (ask_view ask.now) ≡ true }
    ensures { (g : Ground) (t : ℕ) (q : TenantState) → Remembers g t memory.now q
        → IfOk result (λ a. answer_view a ≡ answer_to g actor q (ask_view ask.now) done) }
{
    match ask {
        Ask::Resolve { namespace, symbol } => {
            let found = memory
                .spaces
                .resolve(alloc, namespace.as_str(), symbol.as_str())?;
            Ok(Answer::Resolution(resolution_of(memory, actor, found)?))
        }
        Ask::Define { .. } | Ask::Enter(_) => Ok(Answer::Done),
        _ => unreachable!(),
    }
}

fn resolution_of(memory: &Remembered, actor: Actor, found: Found) -> Result<Resolution, AllocError>
    ensures { (g : Ground) (t : ℕ) (q : TenantState) → Remembers g t memory.now q
        → IfOk result (λ named. resolution_view named
        ≡ meant.resolution_of (actor_state actor q) (found_view found)) }
{
    match found {
        Found::Resolution(resolution) => Ok(resolution),
        Found::Latest(latest) => Ok(Resolution::Value(latest_value(memory, actor, latest)?)),
    }
}

// It fails only where 2^63 owners share a part of the value.
fn latest_value(memory: &Remembered, actor: Actor, latest: Latest) -> Result<Value, AllocError>
    ensures { (g : Ground) (t : ℕ) (q : TenantState) → Remembers g t memory.now q
        → IfOk result (λ value. view value ≡ meant.latest_of latest (actor_state actor q)) }
{
    match memory.shown(actor) {
        Some(state) => copy(latest_of(state, latest)),
        None => Ok(Value::Nil),
    }
}

fn latest_of(state: &SessionState, latest: Latest) -> &Value
    ensures { view result.now ≡ meant.latest_of latest (state_view state.now) }
{
    match latest {
        Latest::One => &state.one,
        Latest::Two => &state.two,
        Latest::Three => &state.three,
        Latest::Fault => &state.fault,
    }
}

// A name is bound, or a namespace made. It fails only for want of memory, and then changes nothing.
fn change(alloc: Global, memory: &mut Remembered, ask: &Ask) -> Result<(), AllocError>
    requires { is_of_names (ask_view ask.now) ≡ true }
    ensures changed { (g : Ground) (t : ℕ) (sender : SenderData) (answer : AnswerData)
        (q : TenantState) → Remembers g t memory.old q
        → OnOk result (Remembers g t memory.new (state_after sender (ask_view ask.now) answer q)) }
    ensures stays { (g : Ground) (t : ℕ) (q : TenantState) → Remembers g t memory.old q
        → OnErr result (Remembers g t memory.new q) }
    ensures opened { opened_by memory.new ≡ opened_by memory.old }
{
    match ask {
        Ask::Define {
            namespace,
            name,
            binding,
        } => {
            let (name, binding) = (copy_text(name)?, binding.copy()?);
            memory
                .spaces
                .define(alloc, namespace.as_str(), name, binding)
        }
        Ask::Enter(name) => memory.spaces.enter(alloc, name.as_str()),
        Ask::Resolve { .. } => Ok(()),
        _ => unreachable!(),
    }
}
