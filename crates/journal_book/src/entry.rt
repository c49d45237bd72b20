// The entries of a journal.
ghost use Rattle.std.specs.Prelude.{◌≡◌, IfOk};
ghost use Rattle.repl_asks.specs.Inside.Jobs.{finished_view};
ghost use Rattle.journal_book.specs.Tenants.{whose_entry};

use bytes::Bytes;
use repl_asks::{Ask, Finished, Resolution};
use repl_core::{Step, StepAnswer};
use repl_walker::Ending;
use server_rules::Actor;
use std::alloc::{AllocError, Global};
use std::boxed::Box;
use std::sync::ArcStr;
use tenant_asks::AskAnswer;
use tenant_world::StartAnswer;

/// A step that was accepted, with its answer. What is large stands in a box, so that an entry is
/// small. Each begins with the number of the tenant, and then the actor, if one made it.
#[derive(Drop)]
pub enum JournalEntry {
    /// The actor began its next form, or took up its next request.
    Started(u64, Actor, Box<StartAnswer>),
    /// The form of the actor asked what a symbol names, and was told so. Most asks are such, and a
    /// box for any ask takes more than twice as much.
    Resolved(u64, Actor, Box<ResolvedSymbol>),
    /// The form of the actor asked.
    Asked(u64, Actor, Box<AnsweredAsk>),
    /// The form of the actor ended so. Its job, and what it asked and was answered, are not kept
    /// again: they are what the entries before this one tell of it.
    Ended(u64, Actor, Box<Finished>),
    /// The form of the actor ended so, and its session was closed meanwhile.
    Interrupted(u64, Actor, Box<Ending>),
    /// The tenant's oldest reply was taken out.
    Drained(u64, Vec<u8>),
    /// The tenant heard a piece of its stream.
    Heard(u64, Box<HeardPiece>),
    /// Any other step.
    Other(Box<AcceptedStep>),
}

/// A symbol in a namespace, and what it names.
#[derive(Drop)]
pub struct ResolvedSymbol {
    pub namespace: ArcStr,
    pub symbol: ArcStr,
    pub resolution: Resolution,
}

/// An ask, and what it was answered.
#[derive(Drop)]
pub struct AnsweredAsk {
    pub ask: Ask,
    pub answer: AskAnswer,
}

/// A piece of a stream, and how many messages became whole by it.
#[derive(Drop)]
pub struct HeardPiece {
    pub piece: Bytes,
    pub messages: usize,
}

/// A step, and what it was answered.
#[derive(Drop)]
pub struct AcceptedStep {
    pub step: Step,
    pub answer: StepAnswer,
}

impl JournalEntry {
    /// The number of the tenant whose step it is.
    pub fn tenant(&self) -> u64
        ensures { result ≡ whose_entry self.now }
    {
        match self {
            JournalEntry::Started(number, _, _)
            | JournalEntry::Resolved(number, _, _)
            | JournalEntry::Asked(number, _, _)
            | JournalEntry::Ended(number, _, _)
            | JournalEntry::Interrupted(number, _, _)
            | JournalEntry::Drained(number, _)
            | JournalEntry::Heard(number, _) => *number,
            JournalEntry::Other(accepted) => accepted.step.tenant(),
        }
    }
}

// Room for an answer to a start.
pub(crate) fn start_to_note(alloc: Global) -> Result<Box<StartAnswer>, AllocError> {
    Ok(Box::new(alloc, StartAnswer::Interrupted)?)
}

// How a form ended, once more.
pub(crate) fn end_to_note(alloc: Global, ending: &Ending) -> Result<Box<Finished>, AllocError>
    ensures { IfOk result (λ noted. finished_view noted.value
        ≡ finished_view ending.now.finished) }
{
    let finished = ending.end().copy(alloc)?;
    Ok(Box::new(alloc, finished)?)
}

// Room for a step of this tenant and its answer.
pub(crate) fn step_to_note(alloc: Global, tenant: u64) -> Result<Box<AcceptedStep>, AllocError> {
    Ok(Box::new(
        alloc,
        AcceptedStep {
            step: Step::Bye(tenant),
            answer: StepAnswer::Gone,
        },
    )?)
}

// A piece once more, with room for how many messages become whole by it.
pub(crate) fn piece_to_note(alloc: Global, piece: &Bytes) -> Result<Box<HeardPiece>, AllocError>
    ensures { IfOk result (λ noted. noted.value.piece ≡ piece.now) }
{
    let piece = piece.slice(..)?;
    Ok(Box::new(alloc, HeardPiece { piece, messages: 0 })?)
}
