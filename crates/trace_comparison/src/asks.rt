// When two asks, or two exchanges, are the same.
ghost use Rattle.std.specs.Prelude.{◌≡◌, ◌↔◌, IsTrue};
ghost use Rattle.std.specs.Arc.{arc_str_bytes};
ghost use Rattle.value_data.specs.Inside.View.{view};
ghost use Rattle.repl_asks.specs.Exchange.{resolve, define, new_ref, set_atom, try_atom};
ghost use Rattle.repl_asks.specs.Exchange.{restart_agent};
ghost use Rattle.repl_asks.specs.Inside.View.{ask_view, binding_view, exchange_view};

use crate::answers::same_answer;
use crate::functions::same_function;
use crate::intents::{same_intent, same_name};
use crate::sends::same_sending;
use crate::values::{same_text, same_value};
use repl_asks::{Ask, Binding, Exchange};
use repl_values::Value;
use std::sync::ArcStr;

/// Whether a name is bound to the same by both.
pub fn same_binding(left: &Binding, right: &Binding) -> bool
    ensures { IsTrue result ↔ (binding_view left.now ≡ binding_view right.now) }
{
    match (left, right) {
        (Binding::Value(a), Binding::Value(b)) => same_value(a, b),
        (Binding::Function(a), Binding::Function(b)) => same_function(a, b),
        _ => false,
    }
}

/// Whether the same is asked, in all parts of the ask.
pub fn same_ask(left: &Ask, right: &Ask) -> bool
    ensures { IsTrue result ↔ (ask_view left.now ≡ ask_view right.now) }
{
    match (left, right) {
        (Ask::Resolve { namespace, symbol }, _) => resolves(right, namespace, symbol),
        (
            Ask::Define {
                namespace,
                name,
                binding,
            },
            _,
        ) => defines(right, namespace, name, binding),
        (Ask::Enter(a), Ask::Enter(b)) => same_text(a, b),
        (
            Ask::NewRef {
                value,
                min_history,
                max_history,
            },
            _,
        ) => makes_ref(right, value, *min_history, *max_history),
        (Ask::Begin, Ask::Begin) => true,
        (Ask::Read(a), Ask::Read(b)) => same_name(a, b),
        (Ask::History(a), Ask::History(b)) => same_name(a, b),
        (Ask::MinHistory { name: a, set: m }, Ask::MinHistory { name: b, set: n }) => {
            m == n && same_name(a, b)
        }
        (Ask::MaxHistory { name: a, set: m }, Ask::MaxHistory { name: b, set: n }) => {
            m == n && same_name(a, b)
        }
        (Ask::Commit(a), Ask::Commit(b)) => same_intent(a, b),
        (Ask::NewAtom(a), Ask::NewAtom(b)) => same_value(a, b),
        (Ask::ReadAtom(a), Ask::ReadAtom(b)) => a == b,
        (Ask::SetAtom { number, value }, _) => sets_atom(right, *number, value),
        (Ask::TryAtom { number, seen, next }, _) => tries_atom(right, *number, seen, next),
        (Ask::NewAgent(a), Ask::NewAgent(b)) => same_value(a, b),
        (Ask::ReadAgent(a), Ask::ReadAgent(b)) => a == b,
        (Ask::AgentFault(a), Ask::AgentFault(b)) => a == b,
        (Ask::RestartAgent { number, state }, _) => restarts_agent(right, *number, state),
        (Ask::Send(a), Ask::Send(b)) => same_sending(a, b),
        (Ask::MaySend(a), Ask::MaySend(b)) => same_sending(a, b),
        (Ask::Await(a), Ask::Await(b)) => a.as_slice() == b.as_slice(),
        _ => false,
    }
}

// Whether it is asked what this symbol names in this namespace.
fn resolves(ask: &Ask, in_namespace: &ArcStr, named: &ArcStr) -> bool
    ensures { IsTrue result
        ↔ (resolve (arc_str_bytes in_namespace.now) (arc_str_bytes named.now) ≡ ask_view ask.now) }
{
    match ask {
        Ask::Resolve { namespace, symbol } => {
            same_text(in_namespace, namespace) && same_text(named, symbol)
        }
        _ => false,
    }
}

// Whether the ask binds this name in this namespace to the same.
fn defines(ask: &Ask, in_namespace: &ArcStr, named: &ArcStr, bound: &Binding) -> bool
    ensures { IsTrue result ↔ (define (arc_str_bytes in_namespace.now) (arc_str_bytes named.now)
        (binding_view bound.now) ≡ ask_view ask.now) }
{
    match ask {
        Ask::Define {
            namespace,
            name,
            binding,
        } => {
            same_text(in_namespace, namespace)
                && same_text(named, name)
                && same_binding(bound, binding)
        }
        _ => false,
    }
}

// Whether the ask makes a ref with this value and these bounds.
fn makes_ref(ask: &Ask, with: &Value, least: u64, most: u64) -> bool
    ensures { IsTrue result ↔ (new_ref (view with.now) least most ≡ ask_view ask.now) }
{
    match ask {
        Ask::NewRef {
            value,
            min_history,
            max_history,
        } => { same_value(with, value) && least == *min_history && most == *max_history }
        _ => false,
    }
}

// Whether the ask gives this value to the atom of this number.
fn sets_atom(ask: &Ask, atom: u64, given: &Value) -> bool
    ensures { IsTrue result ↔ (set_atom atom (view given.now) ≡ ask_view ask.now) }
{
    match ask {
        Ask::SetAtom { number, value } => atom == *number && same_value(given, value),
        _ => false,
    }
}

// Whether the ask is the try to put this value in the place of that one.
fn tries_atom(ask: &Ask, atom: u64, expected: &Value, replacement: &Value) -> bool
    ensures { IsTrue result ↔ (try_atom atom (view expected.now) (view replacement.now)
        ≡ ask_view ask.now) }
{
    match ask {
        Ask::TryAtom { number, seen, next } => {
            atom == *number && same_value(expected, seen) && same_value(replacement, next)
        }
        _ => false,
    }
}

// Whether the ask restarts the agent of this number with this state.
fn restarts_agent(ask: &Ask, agent: u64, given: &Value) -> bool
    ensures { IsTrue result ↔ (restart_agent agent (view given.now) ≡ ask_view ask.now) }
{
    match ask {
        Ask::RestartAgent { number, state } => agent == *number && same_value(given, state),
        _ => false,
    }
}

/// Whether the same was asked and the same was answered.
pub fn same_exchange(left: &Exchange, right: &Exchange) -> bool
    ensures { IsTrue result ↔ (exchange_view left.now ≡ exchange_view right.now) }
{
    same_ask(&left.ask, &right.ask) && same_answer(&left.answer, &right.answer)
}
