// Changes of one agent among all.
ghost use Rattle.std.specs.Prelude.{◌≡◌, ℕ, ◌+◌, ◌<◌, ◌^◌, length, map, Some, None, true};
ghost use Rattle.value_data.specs.Inside.View.{view};
ghost use Rattle.repl_values.specs.Inside.FaultView.{failure_of};
ghost use Rattle.repl_values.specs.Places.{changed_at};
ghost use Rattle.private_cells.specs.Agents.{ActionTurn, with_begun, restarted};
ghost use Rattle.private_cells.specs.Inside.Seen.{cells_view, sent_view};
ghost use Rattle.private_cells.specs.Inside.Turns.{turn_at, open_at, open_sum, first_session};
ghost use Rattle.private_cells.specs.Inside.Kept.{waiting_at, runs_at};
ghost use Rattle.private_cells.specs.Inside.Changes.{with_these, with_agent_state, with_fault, OpensAt};

use crate::action::Sent;
use crate::cells::Cell;
use paged_list::PagedRow;
use repl_values::{Fault, Value};
use std::collections::LinkedList;

// What is in these nodes waits. Where that gives the agent a turn, its number is answered.
pub(crate) fn wait_at(
    cells: &mut PagedRow<Cell>,
    number: u64,
    nodes: LinkedList<Sent>,
) -> Option<u128>
    requires there { number < length cells.old.items }
    requires fits { length (waiting_at number (cells_view cells.old.items)) + length nodes
        < 2 ^ 63 }
    ensures waits { cells_view cells.new.items
        ≡ changed_at number (with_these (map sent_view nodes)) (cells_view cells.old.items) }
    ensures len { length cells.new.items ≡ length cells.old.items }
    ensures opened { OpensAt number result
        (cells_view cells.old.items) (cells_view cells.new.items) }
{
    let Some(cell) = cells.get_mut(number as usize) else {
        unreachable!();
    };
    cell.wait(nodes)
}

// The agent's turn of this number is taken. The session is answered from which the action came.
pub(crate) fn begin_at(cells: &mut PagedRow<Cell>, number: u64, first: u128) -> Option<Option<u64>>
    requires { open_at number (cells_view cells.old.items) ≡ Some (turn_at number first) }
    ensures begun { cells_view cells.new.items
        ≡ changed_at number with_begun (cells_view cells.old.items) }
    ensures len { length cells.new.items ≡ length cells.old.items }
    ensures session { result
        ≡ first_session (waiting_at number (cells_view cells.old.items)) }
    ensures closed { (f : ActionTurn → ℕ) → open_sum f 0 (cells_view cells.old.items)
        ≡ f (turn_at number first) + open_sum f 0 (cells_view cells.new.items) }
{
    let Some(cell) = cells.get_mut(number as usize) else {
        unreachable!();
    };
    cell.begin()
}

// The action that runs is over, with this value. Where an action waits, its number is answered.
pub(crate) fn finish_at(cells: &mut PagedRow<Cell>, number: u64, value: Value) -> Option<u128>
    requires { runs_at number (cells_view cells.old.items) ≡ true }
    ensures over { cells_view cells.new.items
        ≡ changed_at number (with_agent_state (view value)) (cells_view cells.old.items) }
    ensures len { length cells.new.items ≡ length cells.old.items }
    ensures opened { OpensAt number result
        (cells_view cells.old.items) (cells_view cells.new.items) }
{
    match cells.get_mut(number as usize) {
        Some(cell) => cell.finish(value),
        None => {
            drop(value);
            None
        }
    }
}

// The action that runs is over, with this fault.
pub(crate) fn fail_at(cells: &mut PagedRow<Cell>, number: u64, fault: Fault)
    requires { runs_at number (cells_view cells.old.items) ≡ true }
    ensures over { cells_view cells.new.items
        ≡ changed_at number (with_fault (failure_of fault)) (cells_view cells.old.items) }
    ensures len { length cells.new.items ≡ length cells.old.items }
    ensures opened { OpensAt number None
        (cells_view cells.old.items) (cells_view cells.new.items) }
{
    match cells.get_mut(number as usize) {
        Some(cell) => cell.fail(fault),
        None => drop(fault),
    }
}

// Where the agent is failed, it goes on with this state. Where an action waits, its number is
// answered.
pub(crate) fn restart_at(cells: &mut PagedRow<Cell>, number: u64, state: Value) -> Option<u128>
    ensures restarted { cells_view cells.new.items
        ≡ changed_at number (restarted (view state)) (cells_view cells.old.items) }
    ensures len { length cells.new.items ≡ length cells.old.items }
    ensures opened { OpensAt number result
        (cells_view cells.old.items) (cells_view cells.new.items) }
{
    match cells.get_mut(number as usize) {
        Some(cell) => cell.restart(state),
        None => {
            drop(state);
            None
        }
    }
}
