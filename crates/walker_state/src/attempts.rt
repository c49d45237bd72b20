// Attempts at a transaction: how they begin, and how they are made again.
ghost use Rattle.std.specs.Prelude.{◌≡◌, ◌<◌, [], false, None, IfOk, string_bytes};
ghost use Rattle.evaluation_rules.specs.Doing.{left, retried};
ghost use Rattle.evaluation_rules.specs.Tree.{written_tree};
ghost use Rattle.evaluation_rules.specs.Rows.{value_of_last};
ghost use Rattle.evaluation_rules.specs.Evaluation.{value_at};
ghost use Rattle.evaluation_rules.specs.Transactions.{transacted_value};
ghost use Rattle.value_data.specs.declared.value.RefName.{RefName};
ghost use Rattle.value_data.specs.Datum.{nil};
ghost use Rattle.special_forms.specs.Inside.Seen.{forms_view};
ghost use Rattle.walker_state.specs.Pending as machine;
ghost use Rattle.walker_state.specs.Pending.{begun_tree};
ghost use Rattle.walker_state.specs.UnderWay.{again};
ghost use Rattle.walker_state.specs.Frames.{place_view, behind_frame, bottom};
ghost use Rattle.walker_state.specs.Pending.{from_state, kept_of, place_of, tree, whole};
ghost use Rattle.walker_state.specs.Position.{IsLater, LeadsOnWithin, IsRetried, control_position};
ghost use Rattle.walker_state.specs.Position.{wanted_position};
ghost use Rattle.walker_state.specs.declared.frames.Wanted.{Wanted};

use crate::frames::{Control, Frame, Place, State, Transaction, Wanted};
use crate::rows::next_in_body;
use repl_asks::Ask;
use repl_values::{Rule, Value, broken_rule, copy_text};
use special_forms::Forms;
use std::alloc::{AllocError, Global};
use std::boxed::Box;
use std::collections::VecDeque;
use std::mem;
use tx_attempt::Attempt;

/// A transaction begins, where none runs: its first attempt is asked for.
pub fn begin_transaction(
    alloc: Global,
    state: &mut State,
    body: Forms,
    room: u32,
) -> Result<Control, AllocError>
    requires { state.old.transaction ≡ None }
    ensures on { IfOk result (LeadsOnWithin 3 state.old state.new) }
    ensures meaning { IfOk result (λ control. tree control state.new
        ≡ from_state (transacted_value false
        (value_of_last (value_at room (place_of state.old)) nil (forms_view body))) state.old) }
{
    if state.setting.retries == 0 {
        return Ok(Control::Fault(broken_rule(alloc, Rule::AttemptsAreLimited)?));
    }
    let namespace = copy_text(&state.namespace)?;
    let frames = mem::replace(&mut state.frames, VecDeque::new(alloc));
    let transaction = Transaction {
        body,
        room,
        calls: state.calls,
        namespace,
        left: state.setting.retries - 1,
        is_first: true,
        frames,
        attempt: Attempt::new(alloc),
    };
    let wanted = Wanted::Begin(Box::new(alloc, transaction)?);
    Ok(Control::Ask(Ask::Begin, wanted))
}

/// An attempt has begun: its body is evaluated as the first was.
pub fn begin_attempt(
    alloc: Global,
    state: &mut State,
    transaction: Box<Transaction>,
) -> Result<Control, AllocError>
    ensures meaning { IfOk result (λ control. tree control state.new
        ≡ begun_tree transaction.value state.old) }
    ensures later { IfOk result (λ control. IsLater (control_position control state.new)
        (wanted_position (Wanted.Begin transaction) state.old)) }
{
    let mut transaction = transaction;
    let body = transaction.body.copy()?;
    let room = transaction.room;
    state.calls = transaction.calls;
    state.namespace = copy_text(&transaction.namespace)?;
    transaction.attempt = Attempt::new(alloc);
    state.frames = VecDeque::new(alloc);
    state.transaction = Some(transaction);
    next_in_body(state, Value::Nil, body, room)
}

/// The attempt is over, since a value is kept no longer: another is made, if one is left.
pub fn retry(alloc: Global, state: &mut State) -> Result<Control, AllocError>
    ensures meaning { IfOk result (λ control. tree control state.new
        ≡ whole state.old (left retried (kept_of state.old))) }
    ensures later { IfOk result (λ control. (name : RefName)
        → IsLater (control_position control state.new)
        (wanted_position (Wanted.Reading name) state.old)) }
{
    match state.transaction.take() {
        None => Ok(Control::Fault(broken_rule(alloc, Rule::AttemptsAreLimited)?)),
        Some(transaction) => {
            unwind(state);
            begin_again(alloc, state, transaction)
        }
    }
}

// The frames lead back to the place in which they leave what they give.
fn unwind(state: &mut State)
    ensures frames { state.new.frames.items ≡ [] }
    ensures place { place_of state.new ≡ bottom state.old.frames.items (place_of state.old) }
    ensures kept { kept_of state.new ≡ kept_of state.old }
    ensures text { state.new.text ≡ state.old.text }
    ensures setting { state.new.setting ≡ state.old.setting }
    ensures calls { state.new.calls ≡ state.old.calls }
    ensures transaction { state.new.transaction ≡ state.old.transaction }
{
    while let Some(frame) = state.frames.pop_front() {
        go_behind(frame, &mut state.place);
    }
}

// The place behind a frame.
fn go_behind(frame: Frame, place: &mut Place)
    ensures { place_view place.new ≡ behind_frame frame (place_view place.old) }
{
    match frame {
        Frame::Unbind => place.locals.unbind(),
        Frame::Leave(outer) => *place = outer,
        Frame::Arguments(..)
        | Frame::Collection(..)
        | Frame::Body(..)
        | Frame::Choice(..)
        | Frame::Logic(..)
        | Frame::Let(..)
        | Frame::Define(..)
        | Frame::Throw
        | Frame::Namespace
        | Frame::Store(..) => {}
    }
}

/// The next attempt is asked for, if one is left. The place is that of the transaction.
pub fn begin_again(
    alloc: Global,
    state: &mut State,
    transaction: Box<Transaction>,
) -> Result<Control, AllocError>
    ensures meaning { IfOk result (λ control. tree control state.new
        ≡ written_tree (string_bytes state.old.text)
        (again state.old.setting transaction.value (place_of state.old)
        (machine.kept_inside state.old))) }
    ensures retried { IfOk result (λ control.
        IsRetried control state.new transaction.value state.old.calls) }
{
    state.frames = VecDeque::new(alloc);
    state.transaction = None;
    if transaction.left == 0 {
        return Ok(Control::Fault(broken_rule(alloc, Rule::AttemptsAreLimited)?));
    }
    let mut transaction = transaction;
    transaction.left -= 1;
    transaction.is_first = false;
    Ok(Control::Ask(Ask::Begin, Wanted::Begin(transaction)))
}
