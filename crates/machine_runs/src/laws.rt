//! Laws of runs. The functions do nothing: what they ensure is proved.
ghost use Rattle.std.specs.Prelude.{◌≡◌, ◌≤◌, ℕ, List, [], ◌∷◌, map};
ghost use Rattle.server_rules.specs.Ground.{Ground};
ghost use Rattle.server_rules.specs.LoneTurns.{LoneTurn, opened_lone, lone_served};
ghost use Rattle.server_rules.specs.Machine.Turns.{Turn, given, serve};
ghost use Rattle.server_rules.specs.Machine.World.{opened_world, opens};
ghost use Rattle.machine_runs.specs.Alone.{GivesTheSame};
ghost use Rattle.machine_runs.specs.AmongMany.{turn_of};

/// What `pipe` says of a tenant that is served alone is said of the server of many tenants: where
/// there is a place, its first tenant is served the same by the same turns.
pub fn served_alone_is_served()
    ensures { (g : Ground) (turns : List LoneTurn) → 1 ≤ g.places
        → serve g (opened_world g) (given (opens 0) ∷ map turn_of turns) 0
        ≡ lone_served g (opened_lone g) turns }
{}

/// Where one run makes the turns of all and another the turns of one tenant alone, both give that
/// tenant the same bytes, if its first Open was accepted and it names no shared ref.
pub fn alone_is_given_the_same()
    ensures { (g : Ground) (turns : List Turn) (t : ℕ) → GivesTheSame g (opened_world g) turns t }
{}
