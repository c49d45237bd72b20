// The key under which an actor's entries stand.
ghost use Rattle.std.specs.Prelude.{◌≡◌, option_map};
ghost use Rattle.repl_core.specs.Steps.{step_view};
ghost use Rattle.knowing_book.specs.Keys.{actor_number, actor_key, step_key};

use repl_core::Step;
use server_rules::Actor;

fn actor_number(actor: Actor) -> u64
    ensures { result ≡ actor_number actor }
{
    match actor {
        Actor::Agents => 0,
        Actor::Bare => 1,
        Actor::Session(number) => number.wrapping_add(2),
    }
}

/// That of an actor.
pub(crate) fn actor_key(tenant: u64, actor: Actor) -> u64
    ensures { result ≡ actor_key tenant actor }
{
    tenant
        .wrapping_mul(1 << 40)
        .wrapping_add(actor_number(actor))
}

/// That of a step, if an actor begins, asks or ends by it.
pub(crate) fn step_key(step: &Step) -> Option<u64>
    ensures { result ≡ step_key (step_view step.now) }
{
    match step {
        Step::Start(tenant, actor)
        | Step::Asked(tenant, actor, _)
        | Step::Ended(tenant, actor, _) => Some(actor_key(*tenant, *actor)),
        Step::Open(_) | Step::Hear(_, _) | Step::Drain(_) | Step::Bye(_) => None,
    }
}
