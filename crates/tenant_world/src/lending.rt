// The state of an actor is lent to a step of it, and changed in its place.
ghost use Rattle.std.specs.Prelude.{◌≡◌, ◌≢◌, ◌<◌, ◌==◌, Some, Err, IfOk};
ghost use Rattle.std.specs.Borrow.{sem};
ghost use Rattle.ref_table.specs.Numbered.{part_under};
ghost use Rattle.server_rules.specs.Tenant.{seat_of};
ghost use Rattle.tenant_parts.specs.View.{actor_view, actors_view};
ghost use Rattle.tenant_world.specs.Acting.{left_after};
ghost use Rattle.tenant_world.specs.Comparing.{refusal_in};
ghost use Rattle.tenant_world.specs.Lending.{LendsState, unlent};

use server_rules::{Actor, Refusal};
use tenant_parts::{ActorState, Actors};

/// The state of the actor, if steps are left and it is there with something to do. What has nothing
/// to do makes no step, as the rules have it. Of that of agents this is not asked here.
pub(crate) fn lend(
    actors: &mut Actors,
    steps: u32,
    actor: Actor,
) -> Result<&mut ActorState, Refusal>
    ensures* writes_back { sem 𝓛 (LendsState actors.entry actor result) }
    ensures lent { IfOk result (λ state.
        part_under (seat_of actor) (actors_view actors.old) ≡ Some (actor_view state.now)) }
    ensures some { IfOk result (λ _. 0 < steps) }
    ensures refused { refusal_in result
        ≡ unlent actor (steps == 0) (part_under (seat_of actor) (actors_view actors.old)) }
    ensures held { result ≢ Err Refusal.Held }
    ensures free { result ≢ Err Refusal.NoMemory }
{
    check(actors, steps, actor)?;
    match actors.get_mut(actor) {
        Some(state) => Ok(state),
        None => unreachable!(),
    }
}

fn check(actors: &Actors, steps: u32, actor: Actor) -> Result<(), Refusal>
    ensures told { refusal_in result
        ≡ unlent actor (steps == 0) (part_under (seat_of actor) (actors_view actors.now)) }
    ensures some { IfOk result (λ _. 0 < steps) }
    ensures held { result ≢ Err Refusal.Held }
    ensures free { result ≢ Err Refusal.NoMemory }
{
    if steps == 0 {
        return Err(Refusal::Worn);
    }
    let Some(state) = actors.get(actor) else {
        return Err(Refusal::NoSuchActor);
    };
    if matches!(actor, Actor::Agents) {
        return Ok(());
    }
    if !state.is_busy() {
        return Err(Refusal::Idle);
    }
    Ok(())
}

/// Behind its step the actor is gone, and given, or it rests.
pub(crate) fn leave(actors: &mut Actors, actor: Actor, is_gone: bool) -> Option<ActorState>
    ensures { actors_view actors.new ≡ left_after is_gone actor (actors_view actors.old) }
{
    if is_gone {
        return actors.remove(actor);
    }
    actors.rest(actor);
    None
}
