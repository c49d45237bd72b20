// What tenants do.
ghost use Rattle.std.specs.Prelude.{◌≡◌, ◌≢◌, ◌+◌, ◌<◌, ◌∷◌, true, Err, IfOk, OnOk, OnErr};
ghost use Rattle.repl_asks.specs.Inside.View.{ask_view};
ghost use Rattle.server_rules.specs.Plan.{hears, starts, asks_for, ends, drains};
ghost use Rattle.server_rules.specs.Plan.{messages_heard, reply_given};
ghost use Rattle.server_rules.specs.Machine.World.{does};
ghost use Rattle.ref_table.specs.Standing.{counter_of};
ghost use Rattle.repl_walker.specs.Ends.{ending_view};
ghost use Rattle.tenant_parts.specs.Spelled.{SpellsEnd};
ghost use Rattle.tenant_world.specs.Answers.{AreSameStarts, AreSameReplies};
ghost use Rattle.tenant_asks.specs.Answers.{AreSameAnswers, ask_answer_view};
ghost use Rattle.tenant_world.specs.Answers.{start_answer_view, end_answer_view};

use crate::machine::Machine;
use bytes::Bytes;
use ref_history::RingHistory;
use ref_table::RefTable;
use repl_asks::Ask;
use repl_walker::Ending;
use server_rules::{Actor, Refusal};
use tenant_parts::Aside;
use tenant_world as world;
use tenant_world::{AskAnswers, EndAnswer, Replies, StartAnswers};

impl Machine {
    ghost use Rattle.repl_core.specs.Left.{left_at, steps_at, NoneWaits};
    ghost use Rattle.repl_core.specs.Promises.{DoesStep, DeclinesStep, StepLacksMemory};
    ghost use Rattle.repl_core.specs.Promises.{CountedLacksMemory};
    ghost use Rattle.repl_core.specs.Promises.{DoesKnown, DeclinesKnown, KnownLacksMemory};

    /// A tenant hears a piece of its stream.
    pub fn hear(&mut self, number: u64, piece: &Bytes) -> Result<usize, Refusal>
        ensures done { DoesStep (does number (hears piece.now)) self.old self.new result
            messages_heard }
        ensures refused { DeclinesStep (does number (hears piece.now)) self.old self.new result }
        ensures no_memory { StepLacksMemory (does number (hears piece.now)) self.old result }
        ensures steps { OnOk result
            ((left_at number self.old).steps ≡ (left_at number self.new).steps + 1) }
        ensures kept { OnErr result
            ((left_at number self.new).steps ≡ (left_at number self.old).steps) }
    {
        let Some(tenant) = self.tenants.get_mut(number) else {
            return Err(Refusal::NoSuchTenant);
        };
        tenant.hear(piece)
    }

    /// An actor begins its next form, or takes up its next request. What it is answered comes
    /// twice.
    pub fn start(
        &mut self,
        number: u64,
        actor: Actor,
        aside: &mut Aside,
    ) -> Result<StartAnswers, Refusal>
        ensures done { DoesStep (does number (starts actor)) self.old self.new result
            (λ it. start_answer_view it.given) }
        ensures refused { DeclinesStep (does number (starts actor)) self.old self.new result }
        ensures same { IfOk result AreSameStarts }
        ensures no_memory { StepLacksMemory (does number (starts actor)) self.old result }
    {
        let Some(tenant) = self.tenants.get_mut(number) else {
            return Err(Refusal::NoSuchTenant);
        };
        tenant.start_copied(actor, aside)
    }

    /// The form of an actor that runs asks this. What it is answered comes twice.
    pub fn answer_ask(
        &mut self,
        number: u64,
        actor: Actor,
        ask: &Ask,
        aside: &mut Aside,
    ) -> Result<AskAnswers, Refusal>
        ensures done { DoesStep (does number (asks_for actor (ask_view ask.now))) self.old
            self.new result (λ it. ask_answer_view it.given) }
        ensures refused { DeclinesStep (does number (asks_for actor (ask_view ask.now))) self.old
            self.new result }
        ensures same { IfOk result AreSameAnswers }
        ensures no_memory { CountedLacksMemory (does number (asks_for actor (ask_view ask.now)))
            self.old (counter_of self.old.refs < u128.MAX) result }
    {
        if !has_stamps(&self.refs) {
            return Err(Refusal::NoMemory);
        }
        let Some(tenant) = self.tenants.get_mut(number) else {
            return Err(Refusal::NoSuchTenant);
        };
        tenant.answer_copied(&mut self.refs, actor, ask, aside)
    }

    /// The form of an actor that runs has ended so.
    pub fn end_form(
        &mut self,
        number: u64,
        actor: Actor,
        ending: &Ending,
        aside: &mut Aside,
    ) -> Result<EndAnswer, Refusal>
        requires { SpellsEnd aside.old.spelled (ending_view ending.now).end }
        ensures done { DoesStep (does number (ends actor (ending_view ending.now))) self.old
            self.new result end_answer_view }
        ensures refused { DeclinesStep (does number (ends actor (ending_view ending.now)))
            self.old self.new result }
        ensures no_memory { StepLacksMemory (does number (ends actor (ending_view ending.now)))
            self.old result }
    {
        let Some(tenant) = self.tenants.get_mut(number) else {
            return Err(Refusal::NoSuchTenant);
        };
        let parts = world::EndedEvaluation {
            job: ending.job(),
            trace: ending.trace(),
            finished: ending.end(),
        };
        tenant.end_form(actor, &parts, aside)
    }

    /// The same of an ending that is known to be the form's, with the job and the trace that are
    /// kept of it. Nothing is compared.
    pub fn end_known(
        &mut self,
        number: u64,
        actor: Actor,
        ending: &Ending,
        aside: &mut Aside,
    ) -> Result<EndAnswer, Refusal>
        requires { SpellsEnd aside.old.spelled (ending_view ending.now).end }
        ensures done { DoesKnown (does number (ends actor (ending_view ending.now))) self.old
            self.new result end_answer_view }
        ensures refused { DeclinesKnown (does number (ends actor (ending_view ending.now)))
            self.old self.new result }
        ensures no_memory { KnownLacksMemory (does number (ends actor (ending_view ending.now)))
            self.old result }
    {
        let Some(tenant) = self.tenants.get_mut(number) else {
            return Err(Refusal::NoSuchTenant);
        };
        tenant.finish(actor, ending.end(), aside)
    }

    /// A tenant's oldest reply is taken out, and the same once more.
    pub fn drain_copied(&mut self, number: u64) -> Result<Replies, Refusal>
        ensures done { DoesStep (does number drains) self.old self.new result
            (λ it. reply_given it.given.items) }
        ensures refused { DeclinesStep (does number drains) self.old self.new result }
        ensures same { IfOk result AreSameReplies }
        ensures no_memory { StepLacksMemory (does number drains) self.old result }
    {
        let Some(tenant) = self.tenants.get_mut(number) else {
            return Err(Refusal::NoSuchTenant);
        };
        match tenant.drain_copied()? {
            Some(replies) => Ok(replies),
            None => Err(Refusal::Idle),
        }
    }

    /// A tenant's oldest reply is taken out. It takes no memory.
    pub fn drain(&mut self, number: u64) -> Result<Vec<u8>, Refusal>
        ensures done { DoesStep (does number drains) self.old self.new result
            (λ reply. reply_given reply.items) }
        ensures refused { DeclinesStep (does number drains) self.old self.new result }
        ensures steps { steps_at number self.new ≡ steps_at number self.old }
        ensures oldest { IfOk result (λ reply. (left_at number self.old).outbox
            ≡ reply.items ∷ (left_at number self.new).outbox) }
        ensures emptied { OnErr result (NoneWaits number self.old self.new) }
        ensures free { result ≢ Err Refusal.NoMemory }
    {
        let Some(tenant) = self.tenants.get_mut(number) else {
            return Err(Refusal::NoSuchTenant);
        };
        match tenant.drain() {
            Some(bytes) => Ok(bytes),
            None => Err(Refusal::Idle),
        }
    }
}

// Whether there is a stamp for one more commit. There always is: no run has 2^128 commits.
pub(crate) fn has_stamps(refs: &RefTable<RingHistory>) -> bool
    ensures enough { result ≡ true → counter_of refs.now < u128.MAX }
    ensures all { counter_of refs.now < u128.MAX → result ≡ true }
{
    refs.begin().stamp < u128::MAX
}
