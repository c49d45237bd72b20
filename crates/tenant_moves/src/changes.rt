// What was changed is undone, without memory.
ghost use Rattle.std.specs.Prelude.{◌≡◌, ◌<◌, ◌∷◌, ◌++◌, [], vec_len, vec_capacity};
ghost use Rattle.tenant_parts.specs.View.{actors_view};
ghost use Rattle.tenant_moves.specs.Undone.{sessions_and_actors, all_undone, undone};

use repl_sessions::Sessions;
use server_rules::Actor;
use tenant_parts::Actors;

// A change that is undone by its opposite.
#[derive(Clone, Copy)]
pub(crate) enum LoggedChange {
    // The session of this number was made, with its actor.
    Cloned(u64),
    // A request was let wait for this actor.
    Queued(Actor),
}

// Notes a change, for which there is room.
pub(crate) fn note(log: &mut Vec<LoggedChange>, change: LoggedChange)
    requires { vec_len log.old < vec_capacity log.old }
    ensures { log.new.items ≡ log.old.items ++ change ∷ [] }
{
    if let Err(refused) = log.push(change) {
        drop(refused);
    }
}

// Undoes all that was noted, the newest first.
pub(crate) fn undo_all(mut log: Vec<LoggedChange>, sessions: &mut Sessions, actors: &mut Actors)
    ensures { sessions_and_actors sessions.new (actors_view actors.new)
        ≡ all_undone log.items (sessions_and_actors sessions.old (actors_view actors.old)) }
{
    while let Some(change) = log.pop() {
        undo(change, sessions, actors);
    }
}

fn undo(change: LoggedChange, sessions: &mut Sessions, actors: &mut Actors)
    ensures { sessions_and_actors sessions.new (actors_view actors.new)
        ≡ undone change (sessions_and_actors sessions.old (actors_view actors.old)) }
{
    match change {
        LoggedChange::Cloned(number) => {
            actors.remove(Actor::Session(number));
            sessions.retract();
        }
        LoggedChange::Queued(actor) => actors.unqueue(actor),
    }
}
