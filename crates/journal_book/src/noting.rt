// What is kept of a step. Its box is there before its answer is.
ghost use Rattle.std.specs.Prelude.{◌≡◌, List, IfOk};
ghost use Rattle.repl_asks.specs.Exchange.{AskData};
ghost use Rattle.repl_asks.specs.Inside.View.{ask_view};
ghost use Rattle.server_rules.specs.Machine.World.{does};
ghost use Rattle.server_rules.specs.Plan.{asks_for, starts, hears, messages_heard};
ghost use Rattle.tenant_asks.specs.Answers.{ask_answer_view};
ghost use Rattle.tenant_world.specs.Answers.{start_answer_view};
ghost use Rattle.repl_core.specs.Steps.{step_view, step_answer_view};
ghost use Rattle.journal_book.specs.Inside.Noting.{IsNoteOf, IsNarrowFor};
ghost use Rattle.tenant_world.specs.declared.answers.EndAnswer as EndAnswer;
ghost use Rattle.journal_book.specs.declared.entry.JournalEntry as JournalEntry;
ghost use Rattle.journal_book.specs.Journal.{EntryData};
ghost use Rattle.journal_book.specs.Standing.{entry_of};
ghost use Rattle.journal_book.specs.View.{entry_in, symbol_ask};

use crate::entry::{AcceptedStep, AnsweredAsk, HeardPiece, JournalEntry, ResolvedSymbol};
use repl_asks::{Answer, Ask, Finished, Resolution};
use repl_core::{Step, StepAnswer};
use repl_values::{Value, copy_text};
use repl_walker::Ending;
use server_rules::Actor;
use std::alloc::{AllocError, Global};
use std::boxed::Box;
use tenant_asks::AskAnswer;
use tenant_world::{EndAnswer, StartAnswer};

/// An ask, with room for whatever answer, and where a symbol is to be resolved for what it names.
#[derive(Drop)]
pub(crate) struct AskNote {
    wide: Box<AnsweredAsk>,
    narrow: Option<Box<ResolvedSymbol>>,
}

impl AskNote {
    /// The ask once more. It fails only for want of memory.
    pub(crate) fn of(alloc: Global, ask: &Ask) -> Result<AskNote, AllocError>
        ensures { IfOk result (λ note. IsNoteOf note (ask_view ask.now)) }
    {
        let narrow = narrow_of(alloc, ask)?;
        let ask = ask.copy()?;
        let wide = Box::new(
            alloc,
            AnsweredAsk {
                ask,
                answer: AskAnswer::Interrupted,
            },
        )?;
        Ok(AskNote { wide, narrow })
    }

    /// The entry of the ask, with this answer.
    pub(crate) fn answered(self, tenant: u64, actor: Actor, answer: AskAnswer) -> JournalEntry
        ensures { (ask : AskData) (said : List EntryData) → IsNoteOf self ask
            → entry_in said result
            ≡ entry_of (does tenant (asks_for actor ask)) (ask_answer_view answer) }
    {
        let AskNote { wide, narrow } = self;
        match narrow {
            Some(narrow) => narrow_entry(tenant, actor, wide, narrow, answer),
            None => wide_entry(tenant, actor, wide, answer),
        }
    }
}

// Room for what the symbol names, if the ask is to resolve one.
fn narrow_of(alloc: Global, ask: &Ask) -> Result<Option<Box<ResolvedSymbol>>, AllocError>
    ensures { IfOk result (λ narrow. IsNarrowFor narrow (ask_view ask.now)) }
{
    let Ask::Resolve { namespace, symbol } = ask else {
        return Ok(None);
    };
    let noted = ResolvedSymbol {
        namespace: copy_text(namespace)?,
        symbol: copy_text(symbol)?,
        resolution: Resolution::Value(Value::Nil),
    };
    Ok(Some(Box::new(alloc, noted)?))
}

// The entry of an ask to resolve a symbol.
fn narrow_entry(
    tenant: u64,
    actor: Actor,
    wide: Box<AnsweredAsk>,
    mut narrow: Box<ResolvedSymbol>,
    answer: AskAnswer,
) -> JournalEntry
    ensures { (ask : AskData) (said : List EntryData) → ask_view wide.value.ask ≡ ask
        → symbol_ask narrow.value ≡ ask → entry_in said result
        ≡ entry_of (does tenant (asks_for actor ask)) (ask_answer_view answer) }
{
    match answer {
        AskAnswer::Answer(answer) => {
            if let Answer::Resolution(_) = &answer {
                narrow.resolution = answer.into_resolution();
                return JournalEntry::Resolved(tenant, actor, narrow);
            }
            wide_entry(tenant, actor, wide, AskAnswer::Answer(answer))
        }
        AskAnswer::Interrupted => wide_entry(tenant, actor, wide, AskAnswer::Interrupted),
    }
}

// The entry of any ask.
fn wide_entry(
    tenant: u64,
    actor: Actor,
    mut wide: Box<AnsweredAsk>,
    answer: AskAnswer,
) -> JournalEntry
    ensures { (ask : AskData) (said : List EntryData) → ask_view wide.value.ask ≡ ask
        → entry_in said result
        ≡ entry_of (does tenant (asks_for actor ask)) (ask_answer_view answer) }
{
    wide.answer = answer;
    JournalEntry::Asked(tenant, actor, wide)
}

/// The entry of a start that was answered so.
pub(crate) fn start_entry(
    tenant: u64,
    actor: Actor,
    mut noted: Box<StartAnswer>,
    answer: StartAnswer,
) -> JournalEntry
    ensures { (said : List EntryData) → entry_in said result
        ≡ entry_of (does tenant (starts actor)) (start_answer_view answer) }
{
    *noted = answer;
    JournalEntry::Started(tenant, actor, noted)
}

/// The entry of an end that was answered so, and the ending where the entry needs nothing of it.
pub(crate) fn end_entry(
    tenant: u64,
    actor: Actor,
    noted: Box<Finished>,
    ending: Box<Ending>,
    answer: EndAnswer,
) -> (JournalEntry, Option<Box<Ending>>)
    ensures finished { answer ≡ EndAnswer.Finished
        → result.0 ≡ JournalEntry.Ended tenant actor noted }
    ensures interrupted { answer ≡ EndAnswer.Interrupted
        → result.0 ≡ JournalEntry.Interrupted tenant actor ending }
{
    match answer {
        EndAnswer::Finished => (JournalEntry::Ended(tenant, actor, noted), Some(ending)),
        EndAnswer::Interrupted => (JournalEntry::Interrupted(tenant, actor, ending), None),
    }
}

/// The entry of a piece by which so many messages became whole.
pub(crate) fn heard_entry(tenant: u64, mut noted: Box<HeardPiece>, messages: usize) -> JournalEntry
    ensures { (said : List EntryData) → entry_in said result
        ≡ entry_of (does tenant (hears noted.value.piece)) (messages_heard messages) }
{
    noted.messages = messages;
    JournalEntry::Heard(tenant, noted)
}

/// The entry of any step that was answered so.
pub(crate) fn step_entry(
    mut noted: Box<AcceptedStep>,
    step: Step,
    answer: StepAnswer,
) -> JournalEntry
    ensures { (said : List EntryData) → entry_in said result
        ≡ entry_of (step_view step) (step_answer_view answer) }
{
    *noted = AcceptedStep { step, answer };
    JournalEntry::Other(noted)
}
