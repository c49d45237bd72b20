// The steps of a tenant's actors.
ghost use Rattle.std.specs.Prelude.{◌≡◌, ◌+◌, ◌<◌, true, IfOk};
ghost use Rattle.repl_asks.specs.Inside.Jobs.{finished_view};
ghost use Rattle.server_rules.specs.Ground.{Ground};
ghost use Rattle.ref_table.specs.Store.{Store};
ghost use Rattle.server_rules.specs.Tenant.{ActorData, TenantState};
ghost use Rattle.server_rules.specs.DeedResult.{deed_result};
ghost use Rattle.server_rules.specs.Plan.{starts, ends, refuses, with_step_spent};
ghost use Rattle.ref_table.specs.Standing.{counter_of};
ghost use Rattle.tenant_world.specs.Answers.{start_answer_view, end_answer_view};
ghost use Rattle.tenant_asks.specs.Answers.{ask_answer_view, AreSameAnswers};
ghost use Rattle.tenant_world.specs.Answers.{told_ending, AreSameStarts};
ghost use Rattle.tenant_asks.specs.Acting.{actors_after};
ghost use Rattle.tenant_parts.specs.Spelled.{SpellsEnd};
ghost use Rattle.tenant_parts.specs.Attempts.{Reaches};
ghost use Rattle.tenant_parts.specs.Promises.{CountsOne};
ghost use Rattle.tenant_asks.specs.Memories.{Remembers};

use crate::actions::next_for;
use crate::answers::{EndAnswer, EndedEvaluation, StartAnswer, StartAnswers};
use crate::ending::{end, finish};
use crate::lending::{leave, lend};
use crate::starting::start;
use crate::tenant::Tenant;
use ref_history::RingHistory;
use ref_table::RefTable;
use repl_asks::{Ask, Finished};
use server_rules::{Actor, Refusal};
use tenant_asks::{AskAnswer, AskAnswers, ask};
use tenant_parts::{ActorState, Aside, Left};

impl Tenant {
    ghost use Rattle.tenant_world.specs.Standing.{StandsForState, Lends, CountsStep};
    ghost use Rattle.tenant_world.specs.Promises.{DoesBy, Declines, LacksMemory};
    ghost use Rattle.tenant_world.specs.Promises.{DoesAsk, DeclinesAsk, AskLacksMemory};
    ghost use Rattle.tenant_world.specs.Promises.{DoesEnd, DeclinesEnd, EndLacksMemory};

    /// The actor begins its next form, or takes up its next request.
    pub fn start(&mut self, actor: Actor) -> Result<StartAnswer, Refusal>
        ensures done { DoesBy actor (starts actor) self.old self.new result start_answer_view }
        ensures refused { Declines (starts actor) self.old self.new result }
        ensures no_memory { LacksMemory (starts actor) self.old result }
        ensures counted { CountsStep self.old self.new result }
    {
        if self.lacks_actions(actor) {
            return Err(Refusal::Idle);
        }
        Ok(self.start_copied(actor, &mut Aside::nothing())?.given)
    }

    // Whether this is the actor of agents, and has nothing to begin. It has a turn in each round,
    // so this is found out before anything is made for its step.
    fn lacks_actions(&self, actor: Actor) -> bool
        ensures { (g : Ground) (q : TenantState) (s : Store) → StandsForState g self.now q s
            → result ≡ true → (deed_result g s q (starts actor)).outcome ≡ refuses Refusal.Idle }
    {
        if actor != Actor::Agents || self.steps == 0 {
            return false;
        }
        let Some(state) = self.actors.get(actor) else {
            return false;
        };
        if state.is_busy() {
            return false;
        }
        next_for(actor, &self.memory.cells.agents).is_none()
    }

    /// The same, with its answer twice. A text that was read before is not read again.
    pub fn start_copied(&mut self, actor: Actor, aside: &mut Aside) -> Result<StartAnswers, Refusal>
        ensures done { DoesBy actor (starts actor) self.old self.new result
            (λ it. start_answer_view it.given) }
        ensures refused { Declines (starts actor) self.old self.new result }
        ensures no_memory { LacksMemory (starts actor) self.old result }
        ensures same { IfOk result AreSameStarts }
        ensures counted { CountsStep self.old self.new result }
    {
        let state = lend(&mut self.actors, self.steps, actor)?;
        let started = start(
            self.alloc,
            &mut self.memory,
            self.retries,
            actor,
            state,
            aside,
        )?;
        self.settle(actor, started.given.is_interrupted(), &mut aside.left);
        Ok(started)
    }

    /// The form of the actor that runs asks this. The answer is kept with its ask. What is asked of
    /// refs is asked of this table, which serves the tenant.
    pub fn answer(
        &mut self,
        refs: &mut RefTable<RingHistory>,
        actor: Actor,
        asked: &Ask,
    ) -> Result<AskAnswer, Refusal>
        requires { counter_of refs.old < u128.MAX }
        ensures done { DoesAsk actor asked.now self.old self.new refs.old refs.new result
            ask_answer_view }
        ensures refused { DeclinesAsk actor asked.now self.old self.new refs.old refs.new result }
        ensures no_memory { AskLacksMemory actor asked.now self.old refs.old result }
        ensures counted { CountsStep self.old self.new result }
        ensures commits { CountsOne refs.old refs.new result }
    {
        let mut left = Left::Nothing;
        match self.answer_leaving(refs, actor, asked, &mut left) {
            Ok(answers) => Ok(answers.given),
            Err(why) => Err(why),
        }
    }

    /// The same, with its answer twice.
    pub fn answer_copied(
        &mut self,
        refs: &mut RefTable<RingHistory>,
        actor: Actor,
        asked: &Ask,
        aside: &mut Aside,
    ) -> Result<AskAnswers, Refusal>
        requires { counter_of refs.old < u128.MAX }
        ensures done { DoesAsk actor asked.now self.old self.new refs.old refs.new result
            (λ it. ask_answer_view it.given) }
        ensures refused { DeclinesAsk actor asked.now self.old self.new refs.old refs.new result }
        ensures no_memory { AskLacksMemory actor asked.now self.old refs.old result }
        ensures same { IfOk result AreSameAnswers }
        ensures counted { CountsStep self.old self.new result }
        ensures commits { CountsOne refs.old refs.new result }
    {
        self.answer_leaving(refs, actor, asked, &mut aside.left)
    }

    // The same. Of what goes beside a step it needs only the place for what is left to nobody.
    fn answer_leaving(
        &mut self,
        refs: &mut RefTable<RingHistory>,
        actor: Actor,
        asked: &Ask,
        left: &mut Left,
    ) -> Result<AskAnswers, Refusal>
        requires { counter_of refs.old < u128.MAX }
        ensures done { DoesAsk actor asked.now self.old self.new refs.old refs.new result
            (λ it. ask_answer_view it.given) }
        ensures refused { DeclinesAsk actor asked.now self.old self.new refs.old refs.new result }
        ensures no_memory { AskLacksMemory actor asked.now self.old refs.old result }
        ensures same { IfOk result AreSameAnswers }
        ensures counted { CountsStep self.old self.new result }
        ensures commits { CountsOne refs.old refs.new result }
    {
        let state = lend(&mut self.actors, self.steps, actor)?;
        let answered = ask(
            self.alloc,
            &mut self.memory,
            refs,
            &mut self.attempts,
            actor,
            state,
            asked,
        )?;
        self.settle(actor, answered.given.is_interrupted(), left);
        Ok(answered)
    }

    /// The form of the actor that runs has ended so.
    pub fn end_form(
        &mut self,
        actor: Actor,
        ending: &EndedEvaluation<'_>,
        aside: &mut Aside,
    ) -> Result<EndAnswer, Refusal>
        requires { SpellsEnd aside.old.spelled (told_ending ending.now).end }
        ensures done { DoesBy actor (ends actor (told_ending ending.now)) self.old self.new
            result end_answer_view }
        ensures refused { Declines (ends actor (told_ending ending.now)) self.old self.new result }
        ensures no_memory { LacksMemory (ends actor (told_ending ending.now)) self.old result }
        ensures counted { CountsStep self.old self.new result }
    {
        let state = lend(&mut self.actors, self.steps, actor)?;
        let ended = end(
            self.alloc,
            &mut self.memory,
            &mut self.attempts,
            actor,
            state,
            ending,
            aside,
        )?;
        self.settle(actor, ended.is_interrupted(), &mut aside.left);
        Ok(ended)
    }

    /// The form of the actor that runs is finished so, by the job and the trace that are kept of
    /// it. Nothing is compared: it takes as long for a long trace as for a short one.
    pub fn finish(
        &mut self,
        actor: Actor,
        finished: &Finished,
        aside: &mut Aside,
    ) -> Result<EndAnswer, Refusal>
        requires { SpellsEnd aside.old.spelled (finished_view finished.now) }
        ensures done { DoesEnd actor (finished_view finished.now) self.old self.new result
            end_answer_view }
        ensures refused { DeclinesEnd actor (finished_view finished.now) self.old self.new result }
        ensures no_memory { EndLacksMemory actor (finished_view finished.now) self.old result }
        ensures counted { CountsStep self.old self.new result }
    {
        let state = lend(&mut self.actors, self.steps, actor)?;
        let ended = finish(
            self.alloc,
            &mut self.memory,
            &mut self.attempts,
            actor,
            state,
            finished,
            aside,
        )?;
        self.settle(actor, ended.is_interrupted(), &mut aside.left);
        Ok(ended)
    }

    // The step is accepted: its actor rests, or is gone where its request was interrupted.
    fn settle(&mut self, actor: Actor, is_interrupted: bool, left: &mut Left)
        requires { 0 < self.old.steps }
        ensures steps { self.old.steps ≡ self.new.steps + 1 }
        ensures stands { (g : Ground) (q after : TenantState) (s : Store) (state : ActorData)
            → Lends g actor state self.old q
            → Remembers g s.tenant self.old.memory after → Reaches self.old.attempts s
            → after.actors ≡ actors_after is_interrupted actor state q.actors
            → after.steps ≡ q.steps → after.heard ≡ q.heard
            → StandsForState g self.new (with_step_spent after) s }
    {
        leave_actor(left, leave(&mut self.actors, actor, is_interrupted));
        self.steps -= 1;
    }
}

fn leave_actor(left: &mut Left, state: Option<ActorState>) {
    if let Some(state) = state {
        *left = Left::Actor(state);
    }
}
