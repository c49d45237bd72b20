// An evaluation, from one ask to the next.
#![tactic(auto, using(walker_state::proofs::Stepping::steps))]

ghost use Rattle.std.specs.Prelude.{◌≡◌, ◌≤◌, [], string_bytes, IfOk};
ghost use Rattle.repl_asks.specs.Inside.View.{answer_view};
ghost use Rattle.repl_asks.specs.Inside.Jobs.{end_view, job_view};
ghost use Rattle.evaluation_rules.specs.Tree.{ends};
ghost use Rattle.evaluation_rules.specs.Evaluation.{evaluation};
ghost use Rattle.walker_state.specs.Pending.{from_state, tree, kept_of};
ghost use Rattle.value_data.specs.Inside.View.{view};
ghost use Rattle.evaluation_rules.specs.Doing.{pure_part};
ghost use Rattle.walker_state.specs.Position.{Position, control_position};
ghost use Rattle.walker_state.specs.declared.frames.Control.{Control};
ghost use Rattle.repl_walker.specs.Steps.{leg_tree, stop_tree, tree_behind, reached_tree};
ghost use Rattle.repl_walker.specs.Steps.{position_of, most_calls_of, IsOnLeg, IsOnStop};
ghost use Rattle.repl_walker.specs.Steps.{IsOnReached, IsLaterReached};

use crate::give::give;
use crate::work::begin_work;
use evaluation_rules::{CALLS, Occasion};
use repl_asks::{Answer, Ask, End, Finished, Job};
use repl_values::{Value, copy_text};
use special_forms::{Function, Locals};
use std::alloc::{AllocError, Global};
use std::boxed::Box;
use std::collections::VecDeque;
use std::sync::Arc;
use walker_machine::{enter, evaluate, use_answer};
use walker_state::{Control, EndOrCommit, Place, Setting, State, Wanted, leave};

/// An evaluation that waits for the answer to its last ask. Whoever hands it on moves a few words:
/// its state stays where it was put at the first ask.
pub struct WaitingEvaluation {
    pub(crate) state: Box<State>,
    pub(crate) wanted: Wanted,
}

impl Drop for WaitingEvaluation {
    fn drop(self) {
        let WaitingEvaluation {
            state: _state,
            wanted: _wanted,
        } = self;
    }
}

/// How far an evaluation came: to its next ask, or to its end.
#[derive(Drop)]
pub enum Reached {
    Asks(WaitingEvaluation, Ask),
    Ends(Finished),
}

// What an evaluation asks next, or its end.
#[derive(Drop)]
enum AskOrEnd {
    Asks(Ask, Wanted),
    Ends(End),
}

// How far an evaluation comes without the body of another function.
#[derive(Drop)]
enum Leg {
    Asks(Ask, Wanted),
    Enters(Arc<Function>, Vec<Value>, u32),
    Ends(End),
}

/// Begins the job, up to its first ask or its end. It fails only for want of memory.
pub fn begin(alloc: Global, job: &Job) -> Result<Reached, AllocError>
    ensures meaning { IfOk result (λ reached. reached_tree reached
        ≡ evaluation (job_view job.now)) }
    ensures calls { IfOk result (λ reached. most_calls_of reached ≤ CALLS) }
{
    let mut state = State {
        frames: VecDeque::new(alloc),
        place: Place {
            locals: Locals::none(alloc),
            home: None,
        },
        calls: CALLS,
        namespace: copy_text(&job.namespace)?,
        text: String::new(alloc),
        setting: Setting {
            retries: job.retries,
            occasion: Occasion::of(&job.work),
        },
        transaction: None,
    };
    let control = begin_work(alloc, &mut state, &job.work)?;
    match go_on(alloc, &mut state, control)? {
        AskOrEnd::Ends(end) => Ok(end_reached(state, end)),
        AskOrEnd::Asks(ask, wanted) => {
            let state = Box::new(alloc, state)?;
            Ok(Reached::Asks(WaitingEvaluation { state, wanted }, ask))
        }
    }
}

impl WaitingEvaluation {
    /// Goes on with this answer, up to the next ask or the end. It fails only for want of memory.
    pub fn go_on(self, alloc: Global, answer: Answer) -> Result<Reached, AllocError>
        ensures meaning { IfOk result (λ reached. reached_tree reached
            ≡ tree_behind self (answer_view answer)) }
        ensures later { IfOk result (λ reached. IsLaterReached reached (position_of self)) }
    {
        let WaitingEvaluation { mut state, wanted } = self;
        let control = use_answer(alloc, &mut state, wanted, answer)?;
        match go_on(alloc, &mut state, control)? {
            AskOrEnd::Ends(end) => Ok(end_reached(Box::into_inner(state), end)),
            AskOrEnd::Asks(ask, wanted) => {
                Ok(Reached::Asks(WaitingEvaluation { state, wanted }, ask))
            }
        }
    }
}

// Each further leg has taken a call from the budget.
fn go_on(alloc: Global, state: &mut State, control: Control) -> Result<AskOrEnd, AllocError>
    ensures meaning { IfOk result (λ stop. stop_tree stop state.new ≡ tree control state.old) }
    ensures on { IfOk result (λ stop.
        IsOnStop stop state.new (control_position control state.old)) }
{
    let mut control = control;
    loop {
        control = match run_leg(alloc, state, control)? {
            Leg::Ends(end) => return Ok(AskOrEnd::Ends(end)),
            Leg::Asks(ask, wanted) => return Ok(AskOrEnd::Asks(ask, wanted)),
            Leg::Enters(function, values, room) => enter(alloc, state, function, values, room)?,
        };
    }
}

fn run_leg(alloc: Global, state: &mut State, control: Control) -> Result<Leg, AllocError>
    ensures meaning { IfOk result (λ leg. leg_tree leg state.new ≡ tree control state.old) }
    ensures on { IfOk result (λ leg. IsOnLeg leg state.new (control_position control state.old)) }
{
    let mut control = control;
    loop {
        control = match control {
            Control::Evaluate(form, room) => evaluate(alloc, state, form, room)?,
            Control::Return(value) => match state.frames.pop_front() {
                Some(frame) => give(alloc, state, frame, value)?,
                None => return end_or_commit(alloc, state, value),
            },
            Control::Fault(fault) => return Ok(Leg::Ends(End::Fault(fault))),
            Control::Ask(ask, wanted) => return Ok(Leg::Asks(ask, wanted)),
            Control::Enter(function, values, room) => {
                return Ok(Leg::Enters(function, values, room));
            }
        };
    }
}

// No frame waits for the value: the whole ends, or an attempt asks to be committed.
fn end_or_commit(alloc: Global, state: &mut State, value: Value) -> Result<Leg, AllocError>
    requires { state.old.frames.items ≡ [] }
    ensures meaning { IfOk result (λ leg. leg_tree leg state.new
        ≡ from_state (pure_part (view value)) state.old) }
    ensures on { IfOk result (λ leg. IsOnLeg leg state.new
        (control_position (Control.Return value) state.old)) }
{
    match leave(alloc, state, value)? {
        EndOrCommit::Ends(value) => Ok(Leg::Ends(End::Value(value))),
        EndOrCommit::Asks(ask, wanted) => Ok(Leg::Asks(ask, wanted)),
    }
}

fn end_reached(state: State, end: End) -> Reached
    ensures meaning { reached_tree result
        ≡ ends (end_view end) (string_bytes state.text) (kept_of state) }
    ensures on { (old : Position) → IsOnReached result old }
{
    let State {
        namespace,
        text,
        ..
    } = state;
    Reached::Ends(Finished::new(end, text, namespace))
}
