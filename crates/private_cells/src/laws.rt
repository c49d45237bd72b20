//! What holds of the atoms and the agents of a tenant. Each law is the contract of a function that
//! does nothing.
ghost use Rattle.std.specs.Prelude.{◌≡◌, ◌≢◌, ℕ, ◌≤◌, List, ◌++◌, ◌∷◌, [], false, true, Option};
ghost use Rattle.std.specs.Prelude.{Some};
ghost use Rattle.std.specs.Prelude.{None, ◌==◌, option_map, IfSome};
ghost use Rattle.std.specs.List.{list_any};
ghost use Rattle.value_data.specs.Datum.{Datum};
ghost use Rattle.repl_values.specs.Failure.{Failure};
ghost use Rattle.private_cells.specs.Atoms.{AtomsData, atom_value, is_unchanged, with_try};
ghost use Rattle.private_cells.specs.Actions.{ActionData};
ghost use Rattle.private_cells.specs.Agents.{AgentData, AgentsData, ActionTurn, agent_at};
ghost use Rattle.private_cells.specs.Agents.{agent_fault};
ghost use Rattle.private_cells.specs.Agents.{agent_state};
ghost use Rattle.private_cells.specs.Agents.{is_failed, first_waiting, agent_running, action_turn};
ghost use Rattle.private_cells.specs.Agents.{next_turn};
ghost use Rattle.private_cells.specs.Agents.{with_agent, with_send, with_next_begun, with_result};
ghost use Rattle.private_cells.specs.Agents.{with_failure, with_restart, is_busy_for, awaited};
ghost use Rattle.private_cells.specs.Agents.{waiting_for};
ghost use Rattle.private_cells.specs.Numbers.{AreNumbered};
ghost use Rattle.private_cells.specs.declared.awaiting.Await.{Await};

/// A try of an atom that changed meanwhile leaves all atoms as they are.
pub fn failed_try_changes_nothing()
    ensures { (s : AtomsData) (n : ℕ) (seen next : Datum)
        → is_unchanged n seen s ≡ false → with_try n seen next s ≡ s }
{}

/// An atom whose try succeeded has its next value.
pub fn try_is_kept()
    ensures { (s : AtomsData) (n : ℕ) (seen next : Datum)
        → is_unchanged n seen s ≡ true → atom_value n (with_try n seen next s) ≡ Some next }
{}

/// The next action is the first that waits for its agent, which is not failed.
pub fn next_action_waits_first()
    ensures { (s : AgentsData) (turn : ActionTurn) → next_turn s ≡ Some turn
        → (option_map (λ x. x.number) (first_waiting turn.agent s) ≡ Some turn.number)
        × (agent_fault turn.agent s ≡ None) }
{}

/// No agent that is not failed has an action of a lower number that waits first.
pub fn next_action_has_the_least_number()
    ensures { (s : AgentsData) (turn : ActionTurn) (n : ℕ) (a : AgentData) → next_turn s ≡ Some turn
        → agent_at n s ≡ Some a → IfSome (action_turn n a) (λ other. turn.number ≤ other.number) }
{}

/// The action that begins is the one that waited first.
pub fn begun_action_is_the_first()
    ensures { (s : AgentsData) (turn : ActionTurn) → next_turn s ≡ Some turn
        → agent_running turn.agent (with_next_begun s) ≡ first_waiting turn.agent s }
{}

/// What waits for an agent stays, in its order, where an action fails it.
pub fn failure_keeps_what_waits()
    ensures { (s : AgentsData) (f : Failure) (n : ℕ)
        → waiting_for n (with_failure f s) ≡ waiting_for n s }
{}

/// And a restart goes on with it.
pub fn restart_goes_on_with_what_waits()
    ensures { (s : AgentsData) (n : ℕ) (state : Datum) → is_failed n s ≡ true
        → (agent_fault n (with_restart n state s) ≡ None)
        × (agent_state n (with_restart n state s) ≡ Some state)
        × (waiting_for n (with_restart n state s) ≡ waiting_for n s) }
{}

/// Where an await is met, none of its agents is failed or has an action of the session.
pub fn met_await_has_nothing_left()
    ensures { (s : AgentsData) (numbers : List ℕ) (session : Option ℕ) (n : ℕ)
        → awaited numbers session s ≡ Await.Met → list_any (λ m. m == n) numbers ≡ true
        → (is_failed n s ≡ false) × (is_busy_for session (agent_at n s) ≡ false) }
{}

/// The numbers of what waits for an agent rise, and stay below that of the next sending.
pub fn numbers_rise()
    ensures sent { (s : AgentsData) (n : ℕ) (action : ActionData)
        → AreNumbered s → AreNumbered (with_send n action s) }
    ensures made { (s : AgentsData) (state : Datum)
        → AreNumbered s → AreNumbered (with_agent state s) }
    ensures begun { (s : AgentsData) → AreNumbered s → AreNumbered (with_next_begun s) }
    ensures finished { (s : AgentsData) (value : Datum)
        → AreNumbered s → AreNumbered (with_result value s) }
    ensures failed { (s : AgentsData) (f : Failure)
        → AreNumbered s → AreNumbered (with_failure f s) }
    ensures restarted { (s : AgentsData) (n : ℕ) (state : Datum)
        → AreNumbered s → AreNumbered (with_restart n state s) }
{}
