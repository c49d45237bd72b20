// A step is made, and written down with its answer. Where it is refused nothing is written. All
// that an entry needs of memory is taken before the step is made.
ghost use Rattle.std.specs.Prelude.{◌≡◌, true, OnErr, IfErr};
ghost use Rattle.repl_walker.specs.Ends.{ending_view};
ghost use Rattle.server_rules.specs.Machine.World.{does, opens, closes};
ghost use Rattle.server_rules.specs.Plan.{hears, starts, drains};
ghost use Rattle.server_rules.specs.Plan.{tenant_opened, tenant_gone, messages_heard, reply_given};
ghost use Rattle.tenant_asks.specs.Answers.{ask_answer_view};
ghost use Rattle.tenant_world.specs.Answers.{start_answer_view, end_answer_view};
ghost use Rattle.repl_core.specs.Steps.{step_view, step_answer_view};
ghost use Rattle.repl_core.specs.declared.step.Step as Step;
ghost use Rattle.tenant_parts.specs.Spelled.{SpellsEnd};
ghost use Rattle.journal_book.specs.Beside.{SpellsStep};
ghost use Rattle.journal_book.specs.Forms.{EndsAsTold};
ghost use Rattle.journal_book.specs.Inside.Writing.{ask_step, end_step, DoesIfKnown};
ghost use Rattle.journal_book.specs.Inside.Writing.{DeclinesIfKnown};
ghost use Rattle.journal_book.specs.Standing.{KeepsOn, Writes, AddsOne, DeclinesEntry};
ghost use Rattle.journal_book.specs.View.{entries};

use crate::beside::Beside;
use crate::entry::{JournalEntry, end_to_note, piece_to_note, start_to_note, step_to_note};
use crate::noting::{AskNote, end_entry, heard_entry, start_entry, step_entry};
use bytes::Bytes;
use paged_list::Pages;
use repl_asks::Ask;
use repl_core::{Machine, Refused, Step, StepAnswer, of_ask, of_end, of_start};
use repl_walker::Ending;
use server_rules::{Actor, Refusal};
use std::alloc::Global;
use std::boxed::Box;
use tenant_asks::AskAnswer;
use tenant_parts::Aside;
use tenant_world::{EndAnswer, StartAnswer};

/// A tenant comes.
pub(crate) fn open(
    alloc: Global,
    machine: &mut Machine,
    journal: &mut Pages<JournalEntry>,
    tenant: u64,
) -> Result<(), Refusal>
    ensures keeps { KeepsOn machine.old journal.old.items machine.new journal.new.items }
    ensures written { Writes (opens tenant) machine.old journal.old.items journal.new.items result
        (λ _. tenant_opened) }
    ensures one { AddsOne journal.old.items journal.new.items result }
    ensures declined { DeclinesEntry (opens tenant) machine.old journal.old.items
        result (λ why. why) }
    ensures stays { OnErr result (journal.new.items ≡ journal.old.items) }
{
    let Ok(()) = journal.make_room() else {
        return Err(Refusal::NoMemory);
    };
    let Ok(noted) = step_to_note(alloc, tenant) else {
        return Err(Refusal::NoMemory);
    };
    match machine.open(tenant) {
        Ok(()) => {
            journal.put(step_entry(noted, Step::Open(tenant), StepAnswer::Opened));
            Ok(())
        }
        Err(why) => Err(why),
    }
}

/// Any step of a tenant. Where it is known, and ends a form, it ends just the form of which the
/// journal tells, and nothing of that is compared.
pub(crate) fn write(
    alloc: Global,
    machine: &mut Machine,
    journal: &mut Pages<JournalEntry>,
    step: Step,
    is_known: bool,
    beside: &mut Beside,
) -> Result<StepAnswer, Refused>
    requires told { is_known ≡ true → EndsAsTold (entries journal.old.items) (step_view step) }
    requires spelled { SpellsStep beside.old.aside.spelled (step_view step) }
    ensures keeps { KeepsOn machine.old journal.old.items machine.new journal.new.items }
    ensures written { Writes (step_view step) machine.old journal.old.items journal.new.items result
        step_answer_view }
    ensures one { AddsOne journal.old.items journal.new.items result }
    ensures declined { DeclinesEntry (step_view step) machine.old journal.old.items result
        (λ it. it.why) }
    ensures stays { OnErr result (journal.new.items ≡ journal.old.items) }
    ensures handed_back { IfErr result (λ it. it.step ≡ step) }
{
    match step {
        Step::Start(tenant, actor) => match begin(alloc, machine, journal, tenant, actor, beside) {
            Ok(answer) => Ok(of_start(answer)),
            Err(why) => Err(Refused {
                why,
                step: Step::Start(tenant, actor),
            }),
        },
        Step::Asked(tenant, actor, ask) => {
            match answer_ask(alloc, machine, journal, tenant, actor, &ask, beside) {
                Ok(answer) => Ok(of_ask(answer)),
                Err(why) => Err(Refused {
                    why,
                    step: Step::Asked(tenant, actor, ask),
                }),
            }
        }
        Step::Ended(tenant, actor, ending) => {
            match end(
                alloc, machine, journal, tenant, actor, ending, is_known, beside,
            ) {
                Ok(answer) => Ok(of_end(answer)),
                Err(refused) => Err(refused),
            }
        }
        Step::Drain(tenant) => match drain(machine, journal, tenant) {
            Ok(reply) => Ok(StepAnswer::Bytes(reply)),
            Err(why) => Err(Refused {
                why,
                step: Step::Drain(tenant),
            }),
        },
        Step::Open(tenant) => match open(alloc, machine, journal, tenant) {
            Ok(()) => Ok(StepAnswer::Opened),
            Err(why) => Err(Refused {
                why,
                step: Step::Open(tenant),
            }),
        },
        Step::Hear(tenant, piece) => match hear(alloc, machine, journal, tenant, &piece) {
            Ok(messages) => Ok(StepAnswer::Heard(messages)),
            Err(why) => Err(Refused {
                why,
                step: Step::Hear(tenant, piece),
            }),
        },
        Step::Bye(tenant) => match bye(alloc, machine, journal, tenant, beside) {
            Ok(()) => Ok(StepAnswer::Gone),
            Err(why) => Err(Refused {
                why,
                step: Step::Bye(tenant),
            }),
        },
    }
}

// A tenant hears a piece of its stream.
fn hear(
    alloc: Global,
    machine: &mut Machine,
    journal: &mut Pages<JournalEntry>,
    tenant: u64,
    piece: &Bytes,
) -> Result<usize, Refusal>
    ensures keeps { KeepsOn machine.old journal.old.items machine.new journal.new.items }
    ensures written { Writes (does tenant (hears piece.now)) machine.old journal.old.items
        journal.new.items result messages_heard }
    ensures one { AddsOne journal.old.items journal.new.items result }
    ensures declined { DeclinesEntry (does tenant (hears piece.now)) machine.old journal.old.items
        result (λ why. why) }
    ensures stays { OnErr result (journal.new.items ≡ journal.old.items) }
{
    let Ok(()) = journal.make_room() else {
        return Err(Refusal::NoMemory);
    };
    let Ok(noted) = piece_to_note(alloc, piece) else {
        return Err(Refusal::NoMemory);
    };
    match machine.hear(tenant, piece) {
        Ok(messages) => {
            journal.put(heard_entry(tenant, noted, messages));
            Ok(messages)
        }
        Err(why) => Err(why),
    }
}

// An actor begins its next form, or takes up its next request.
fn begin(
    alloc: Global,
    machine: &mut Machine,
    journal: &mut Pages<JournalEntry>,
    tenant: u64,
    actor: Actor,
    beside: &mut Beside,
) -> Result<StartAnswer, Refusal>
    ensures keeps { KeepsOn machine.old journal.old.items machine.new journal.new.items }
    ensures written { Writes (does tenant (starts actor)) machine.old journal.old.items
        journal.new.items result start_answer_view }
    ensures one { AddsOne journal.old.items journal.new.items result }
    ensures declined { DeclinesEntry (does tenant (starts actor)) machine.old journal.old.items
        result (λ why. why) }
    ensures stays { OnErr result (journal.new.items ≡ journal.old.items) }
{
    let Ok(()) = journal.make_room() else {
        return Err(Refusal::NoMemory);
    };
    let Ok(noted) = start_to_note(alloc) else {
        return Err(Refusal::NoMemory);
    };
    match machine.start(tenant, actor, &mut beside.aside) {
        Ok(answers) => {
            journal.put(start_entry(tenant, actor, noted, answers.noted));
            Ok(answers.given)
        }
        Err(why) => Err(why),
    }
}

// The form of an actor that runs asks this.
fn answer_ask(
    alloc: Global,
    machine: &mut Machine,
    journal: &mut Pages<JournalEntry>,
    tenant: u64,
    actor: Actor,
    ask: &Ask,
    beside: &mut Beside,
) -> Result<AskAnswer, Refusal>
    ensures keeps { KeepsOn machine.old journal.old.items machine.new journal.new.items }
    ensures written { Writes (ask_step tenant actor ask.now) machine.old journal.old.items
        journal.new.items result ask_answer_view }
    ensures one { AddsOne journal.old.items journal.new.items result }
    ensures declined { DeclinesEntry (ask_step tenant actor ask.now) machine.old journal.old.items
        result (λ why. why) }
    ensures stays { OnErr result (journal.new.items ≡ journal.old.items) }
{
    let Ok(()) = journal.make_room() else {
        return Err(Refusal::NoMemory);
    };
    let Ok(noted) = AskNote::of(alloc, ask) else {
        return Err(Refusal::NoMemory);
    };
    match machine.answer_ask(tenant, actor, ask, &mut beside.aside) {
        Ok(answers) => {
            journal.put(noted.answered(tenant, actor, answers.noted));
            Ok(answers.given)
        }
        Err(why) => Err(why),
    }
}

// The form of an actor that runs has ended so.
fn end(
    alloc: Global,
    machine: &mut Machine,
    journal: &mut Pages<JournalEntry>,
    tenant: u64,
    actor: Actor,
    ending: Box<Ending>,
    is_known: bool,
    beside: &mut Beside,
) -> Result<EndAnswer, Refused>
    requires told { is_known ≡ true
        → EndsAsTold (entries journal.old.items) (end_step tenant actor ending.value) }
    requires spelled { SpellsEnd beside.old.aside.spelled (ending_view ending.value).end }
    ensures keeps { KeepsOn machine.old journal.old.items machine.new journal.new.items }
    ensures written { Writes (end_step tenant actor ending.value) machine.old journal.old.items
        journal.new.items result end_answer_view }
    ensures one { AddsOne journal.old.items journal.new.items result }
    ensures declined { DeclinesEntry (end_step tenant actor ending.value) machine.old
        journal.old.items result (λ it. it.why) }
    ensures stays { OnErr result (journal.new.items ≡ journal.old.items) }
    ensures handed_back { IfErr result (λ it. it.step ≡ Step.Ended tenant actor ending) }
{
    let Ok(()) = journal.make_room() else {
        return Err(refused(Refusal::NoMemory, tenant, actor, ending));
    };
    let Ok(noted) = end_to_note(alloc, &ending) else {
        return Err(refused(Refusal::NoMemory, tenant, actor, ending));
    };
    match end_form(machine, tenant, actor, &ending, is_known, &mut beside.aside) {
        Ok(answer) => {
            let (entry, spent) = end_entry(tenant, actor, noted, ending, answer);
            journal.put(entry);
            beside.ending = spent;
            Ok(answer)
        }
        Err(why) => Err(refused(why, tenant, actor, ending)),
    }
}

// The machine ends a form. Where the ending is known to be the form's, nothing of it is compared.
fn end_form(
    machine: &mut Machine,
    tenant: u64,
    actor: Actor,
    ending: &Ending,
    is_known: bool,
    aside: &mut Aside,
) -> Result<EndAnswer, Refusal>
    requires { SpellsEnd aside.old.spelled (ending_view ending.now).end }
    ensures done { DoesIfKnown is_known (end_step tenant actor ending.now) machine.old machine.new
        result end_answer_view }
    ensures refused { DeclinesIfKnown is_known (end_step tenant actor ending.now) machine.old
        machine.new result }
{
    if is_known {
        machine.end_known(tenant, actor, ending, aside)
    } else {
        machine.end_form(tenant, actor, ending, aside)
    }
}

// An end that is refused so.
fn refused(why: Refusal, tenant: u64, actor: Actor, ending: Box<Ending>) -> Refused
    ensures why { result.why ≡ why }
    ensures step { result.step ≡ Step.Ended tenant actor ending }
{
    Refused {
        why,
        step: Step::Ended(tenant, actor, ending),
    }
}

// A tenant's oldest reply is taken out.
fn drain(
    machine: &mut Machine,
    journal: &mut Pages<JournalEntry>,
    tenant: u64,
) -> Result<Vec<u8>, Refusal>
    ensures keeps { KeepsOn machine.old journal.old.items machine.new journal.new.items }
    ensures written { Writes (does tenant drains) machine.old journal.old.items journal.new.items
        result (λ reply. reply_given reply.items) }
    ensures one { AddsOne journal.old.items journal.new.items result }
    ensures declined { DeclinesEntry (does tenant drains) machine.old journal.old.items result
        (λ why. why) }
    ensures stays { OnErr result (journal.new.items ≡ journal.old.items) }
{
    let Ok(()) = journal.make_room() else {
        return Err(Refusal::NoMemory);
    };
    match machine.drain_copied(tenant) {
        Ok(replies) => {
            journal.put(JournalEntry::Drained(tenant, replies.noted));
            Ok(replies.given)
        }
        Err(why) => Err(why),
    }
}

// A tenant goes.
fn bye(
    alloc: Global,
    machine: &mut Machine,
    journal: &mut Pages<JournalEntry>,
    tenant: u64,
    beside: &mut Beside,
) -> Result<(), Refusal>
    ensures keeps { KeepsOn machine.old journal.old.items machine.new journal.new.items }
    ensures written { Writes (closes tenant) machine.old journal.old.items journal.new.items result
        (λ _. tenant_gone) }
    ensures one { AddsOne journal.old.items journal.new.items result }
    ensures declined { DeclinesEntry (closes tenant) machine.old journal.old.items
        result (λ why. why) }
    ensures stays { OnErr result (journal.new.items ≡ journal.old.items) }
{
    let Ok(()) = journal.make_room() else {
        return Err(Refusal::NoMemory);
    };
    let Ok(noted) = step_to_note(alloc, tenant) else {
        return Err(Refusal::NoMemory);
    };
    match machine.close(tenant) {
        Ok(gone) => {
            journal.put(step_entry(noted, Step::Bye(tenant), StepAnswer::Gone));
            beside.tenant = Some(gone);
            Ok(())
        }
        Err(why) => Err(why),
    }
}
