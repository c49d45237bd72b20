// A form of the request in hand has ended.
ghost use Rattle.std.specs.Prelude.{◌≡◌, Some, option_map, Ok, Err, IfOk, IfSome};
ghost use Rattle.repl_values.specs.Inside.FaultView.{failure_of};
ghost use Rattle.value_data.specs.Inside.View.{view};
ghost use Rattle.repl_asks.specs.Inside.Jobs.{finished_view};
ghost use Rattle.repl_sessions.specs.Inside.StateView.{state_view};
ghost use Rattle.server_rules.specs.Request.{each_form, each_form_elsewhere, of_action};
ghost use Rattle.server_rules.specs.Moves.{form_ended, form_ended_as, form_loaded, going_on};
ghost use Rattle.tenant_parts.specs.Spelled.{TellsEnd, TellsOutput, TellsResult};
ghost use Rattle.tenant_parts.specs.View.{hand_view};
ghost use Rattle.tenant_moves.specs.Told.{told_state};
ghost use Rattle.tenant_moves.specs.Endings.{are_none, last_kept, hand_after, EndsForm, EndsFormBy};

use crate::effects::RequestEffects;
use repl_asks::{End, Finished};
use repl_sessions::SessionState;
use repl_values::{Fault, Value, copy, copy_text};
use std::alloc::{AllocError, Global};
use std::sync::ArcStr;
use tenant_parts::{Batch, EndReplies, Manner, ToldResult, WorkInHand};

/// What of the request in hand is still to do behind a form.
#[derive(Drop)]
pub enum After {
    Over,
    /// The next form is evaluated in this namespace. Of a file the last value is kept.
    Next {
        namespace: ArcStr,
        last: Option<Value>,
    },
}

/// What becomes of the request in hand, whose session has this state, where its form ended so. It
/// fails only for want of memory.
#[tactic(auto, unfolding(server_rules::specs::Moves::form_ended))]
pub fn form_end(
    alloc: Global,
    hand: &WorkInHand,
    finished: &Finished,
    replies: EndReplies,
    state: SessionState,
) -> Result<(RequestEffects, After), AllocError>
    requires { TellsEnd (hand_view hand.now).origin (finished_view finished.now) replies }
    ensures { IfOk result (EndsForm
        (form_ended (hand_view hand.now) (finished_view finished.now) (state_view state))
        (hand_view hand.now)) }
{
    let mut effects = RequestEffects::new(alloc, state);
    let after = end_form(&mut effects, hand, finished, replies)?;
    Ok((effects, after))
}

fn end_form(
    effects: &mut RequestEffects,
    hand: &WorkInHand,
    finished: &Finished,
    replies: EndReplies,
) -> Result<After, AllocError>
    requires { TellsEnd (hand_view hand.now).origin (finished_view finished.now) replies }
    ensures { IfOk result (EndsFormBy
        (form_ended_as (hand_view hand.now) (finished_view finished.now) (told_state effects.old)
        (hand_view hand.now).manner) (hand_view hand.now) effects.old effects.new) }
{
    match &hand.manner {
        Manner::EachForm => end_here(effects, hand, finished, replies),
        Manner::EachFormElsewhere => end_elsewhere(effects, hand, finished, replies),
        Manner::LastForm(_) => {
            let EndReplies { output, result } = replies;
            match finished.end() {
                End::Value(value) => {
                    end_with_value(effects, hand, finished, value, output, result)
                }
                End::Fault(fault) => {
                    end_with_fault(effects, hand, finished, fault, output, result)
                }
            }
        }
        Manner::OfAction(session) => {
            let EndReplies { output, result: _ } = replies;
            end_action(effects, hand, finished, *session, output)
        }
    }
}

// Of an action what it printed is told, and nothing else.
fn end_action(
    effects: &mut RequestEffects,
    hand: &WorkInHand,
    finished: &Finished,
    session: Option<u64>,
    output: Option<Batch>,
) -> Result<After, AllocError>
    requires { IfSome output (TellsOutput (hand_view hand.now).origin
        (finished_view finished.now).text) }
    ensures { IfOk result (λ after. EndsFormBy
        (form_ended_as (hand_view hand.now) (finished_view finished.now) (told_state effects.old)
        (of_action session)) (hand_view hand.now) effects.old effects.new after) }
{
    effects
        .batch
        .add_printed(&*hand.origin, finished.text(), output)?;
    Ok(After::Over)
}

fn end_here(
    effects: &mut RequestEffects,
    hand: &WorkInHand,
    finished: &Finished,
    replies: EndReplies,
) -> Result<After, AllocError>
    requires { TellsEnd (hand_view hand.now).origin (finished_view finished.now) replies }
    ensures { IfOk result (λ after. EndsFormBy
        (form_ended_as (hand_view hand.now) (finished_view finished.now) (told_state effects.old)
        each_form) (hand_view hand.now) effects.old effects.new after) }
{
    effects.batch.add_end(&*hand.origin, finished, replies)?;
    effects.note_result(finished.end())?;
    effects.state.enter(copy_text(finished.namespace())?);
    go_on_behind(effects, hand, finished)
}

fn end_elsewhere(
    effects: &mut RequestEffects,
    hand: &WorkInHand,
    finished: &Finished,
    replies: EndReplies,
) -> Result<After, AllocError>
    requires { TellsEnd (hand_view hand.now).origin (finished_view finished.now) replies }
    ensures { IfOk result (λ after. EndsFormBy
        (form_ended_as (hand_view hand.now) (finished_view finished.now) (told_state effects.old)
        each_form_elsewhere) (hand_view hand.now) effects.old effects.new after) }
{
    effects.batch.add_end(&*hand.origin, finished, replies)?;
    effects.note_result(finished.end())?;
    go_on_behind(effects, hand, finished)
}

fn end_with_value(
    effects: &mut RequestEffects,
    hand: &WorkInHand,
    finished: &Finished,
    value: &Value,
    output: Option<Batch>,
    told: Option<ToldResult>,
) -> Result<After, AllocError>
    requires output { IfSome output (TellsOutput (hand_view hand.now).origin
        (finished_view finished.now).text) }
    requires told { IfSome told (TellsResult (hand_view hand.now).origin (Ok (view value.now))) }
    ensures { IfOk result (λ after. EndsFormBy
        (form_loaded (hand_view hand.now) (finished_view finished.now) (Ok (view value.now))
        (told_state effects.old)) (hand_view hand.now) effects.old effects.new after) }
{
    effects
        .batch
        .add_printed(&*hand.origin, finished.text(), output)?;
    let namespace = copy_text(finished.namespace())?;
    let last = copy(value)?;
    if is_last(hand) {
        let manner = Manner::LastForm(last);
        effects.end_request(&hand.origin, &manner, &hand.fault, told)?;
        return Ok(After::Over);
    }
    Ok(After::Next {
        namespace,
        last: Some(last),
    })
}

fn end_with_fault(
    effects: &mut RequestEffects,
    hand: &WorkInHand,
    finished: &Finished,
    fault: &Fault,
    output: Option<Batch>,
    told: Option<ToldResult>,
) -> Result<After, AllocError>
    requires output { IfSome output (TellsOutput (hand_view hand.now).origin
        (finished_view finished.now).text) }
    requires told { IfSome told (TellsResult (hand_view hand.now).origin
        (Err (failure_of fault.now))) }
    ensures { IfOk result (λ after. EndsFormBy
        (form_loaded (hand_view hand.now) (finished_view finished.now) (Err (failure_of fault.now))
        (told_state effects.old)) (hand_view hand.now) effects.old effects.new after) }
{
    effects
        .batch
        .add_printed(&*hand.origin, finished.text(), output)?;
    effects.end_by_fault(&hand.origin, fault, told)?;
    Ok(After::Over)
}

// Behind a form whose end was told: the next form comes, or the request is done.
fn go_on_behind(
    effects: &mut RequestEffects,
    hand: &WorkInHand,
    finished: &Finished,
) -> Result<After, AllocError>
    ensures { IfOk result (λ after. EndsFormBy
        (going_on (record (hand_view hand.now) {
          namespace =
              (finished_view finished.now).namespace;
        })
        (hand_view hand.now).forms (told_state effects.old))
        (hand_view hand.now) effects.old effects.new after) }
{
    if is_last(hand) {
        effects.end_request(&hand.origin, &hand.manner, &hand.fault, None)?;
        return Ok(After::Over);
    }
    Ok(After::Next {
        namespace: copy_text(finished.namespace())?,
        last: None,
    })
}

// Whether no form is left.
fn is_last(hand: &WorkInHand) -> bool
    ensures { result ≡ are_none (hand_view hand.now).forms }
{
    hand.forms.is_empty()
}

/// The request in hand behind a form, if there is more of it to do.
pub fn go_on(hand: WorkInHand, after: After) -> Option<WorkInHand>
    ensures { option_map hand_view result ≡ hand_after (hand_view hand) after }
{
    match after {
        After::Over => None,
        After::Next { namespace, last } => Some(hand_between_forms(hand, namespace, last)),
    }
}

fn hand_between_forms(mut hand: WorkInHand, namespace: ArcStr, last: Option<Value>) -> WorkInHand
    ensures { Some (hand_view result) ≡ hand_after (hand_view hand) (After.Next namespace last) }
{
    hand.running = None;
    hand.namespace = namespace;
    with_last(hand, last)
}

fn with_last(mut hand: WorkInHand, last: Option<Value>) -> WorkInHand
    ensures { hand_view result ≡ last_kept last (hand_view hand) }
{
    match last {
        Some(value) => {
            hand.manner = Manner::LastForm(value);
            hand
        }
        None => hand,
    }
}
