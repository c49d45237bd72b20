// An actor goes on as its evaluation says.
ghost use Rattle.std.specs.Prelude.{◌≡◌, ◌≢◌, ◌<◌, true, Some, None, Err, OnOk};
ghost use Rattle.std.specs.Prelude.{IfErr};
ghost use Rattle.repl_asks.specs.Inside.View.{ask_view, answer_view};
ghost use Rattle.server_rules.specs.Ground.{Ground};
ghost use Rattle.server_rules.specs.Tenant.{seat_of};
ghost use Rattle.server_rules.specs.Plan as deeds;
ghost use Rattle.server_rules.specs.Request as rules;
ghost use Rattle.ref_table.specs.Refs.{TableRefs};
ghost use Rattle.ref_table.specs.Standing.{counter_of};
ghost use Rattle.server_rules.specs.Grounds.{IsRight};
ghost use Rattle.server_rules.specs.LoneTurns.{LoneTenant};
ghost use Rattle.tenant_asks.specs.Acting.{is_accepted};
ghost use Rattle.tenant_asks.specs.Asking.{exchange_from, run_with};
ghost use Rattle.tenant_parts.specs.Promises.{CountsOne};
ghost use Rattle.tenant_world.specs.Running.{running_in};
ghost use Rattle.tenant_world.specs.Standing.{CountsStep};
ghost use Rattle.repl_core.specs.Inside.Seen.{keeps_walk};
ghost use Rattle.repl_core.specs.Inside.Walked.{IsWalkOf, walk_ended};
ghost use Rattle.repl_core.specs.Inside.WalkAt.{walk_at, IsAsking, IsEnded};
ghost use Rattle.repl_walker.specs.declared.steps.WaitingEvaluation.{WaitingEvaluation};
ghost use Rattle.repl_asks.specs.declared.ask.Ask.{Ask};
ghost use Rattle.repl_asks.specs.declared.job.Finished.{Finished};

use crate::walks::Walks;
use ref_history::RingHistory;
use ref_table::RefTable;
use repl_asks::Answer;
use repl_walker::Reached;
use server_rules::{Actor, Refusal};
use std::alloc::AllocError;
use tenant_parts::Aside;
use tenant_world::{AskAnswer, Tenant};

impl Walks {
    ghost use Rattle.repl_core.specs.Inside.Standing.{parts, PartsStand, AcceptsHonestDeed};
    ghost use Rattle.repl_core.specs.Inside.Standing.{RefusesHonestDeed, comes_to};
    ghost use Rattle.repl_core.specs.Inside.Promises.{DoesNext, DeclinesNext, NextLacksMemory};

    /// Does what is next for an actor of the tenant whose evaluations these are: begins a form,
    /// answers one ask of it or ends it. What a form asks of refs is asked of this table.
    pub(crate) fn go(
        &mut self,
        tenant: &mut Tenant,
        refs: &mut RefTable<RingHistory>,
        actor: Actor,
    ) -> Result<(), Refusal>
        requires { counter_of refs.old < u128.MAX }
        ensures done { DoesNext actor (parts tenant.old refs.old self.old)
            (parts tenant.new refs.new self.new) result }
        ensures refused { DeclinesNext actor (parts tenant.old refs.old self.old)
            (parts tenant.new refs.new self.new) result }
        ensures no_memory { NextLacksMemory actor (parts tenant.old refs.old self.old)
            (keeps_walk self.old self.new actor) result }
        ensures unworn { result ≡ Err Refusal.NoMemory → 0 < tenant.old.steps }
        ensures counted { CountsStep tenant.old tenant.new result }
        ensures commits { CountsOne refs.old refs.new result }
    {
        if tenant.is_worn() {
            return Err(Refusal::Worn);
        }
        let Some(run) = tenant.running(actor) else {
            return self.begin(tenant, refs, actor);
        };
        self.find(actor, run)?;
        match self.get(actor) {
            Some(Reached::Asks(_walk, _asked)) => self.ask(tenant, refs, actor),
            Some(Reached::Ends(_finished)) => self.end(tenant, refs, actor),
            None => unreachable!(),
        }
    }

    // No form of the actor runs: it begins one, or takes up a request.
    fn begin(
        &mut self,
        tenant: &mut Tenant,
        refs: &RefTable<RingHistory>,
        actor: Actor,
    ) -> Result<(), Refusal>
        ensures done { (g : Ground) (l : LoneTenant) (r : TableRefs) → IsRight g
            → PartsStand g (parts tenant.old refs.now self.old) l r → OnOk result
            (AcceptsHonestDeed g l r (deeds.starts actor) (parts tenant.new refs.now self.new)) }
        ensures refused { (g : Ground) (l : LoneTenant) (r : TableRefs) → IsRight g
            → PartsStand g (parts tenant.old refs.now self.old) l r → IfErr result
            (RefusesHonestDeed g l r (deeds.starts actor) (parts tenant.new refs.now self.new)) }
        ensures no_memory { (g : Ground) (l : LoneTenant) (r : TableRefs) → IsRight g
            → PartsStand g (parts tenant.old refs.now self.old) l r
            → result ≡ Err Refusal.NoMemory
            → is_accepted (comes_to g l (deeds.starts actor)).outcome ≡ true }
        ensures counted { CountsStep tenant.old tenant.new result }
    {
        tenant.start(actor)?;
        self.remove(actor);
        Ok(())
    }

    // Its form asks what its evaluation asks.
    fn ask(
        &mut self,
        tenant: &mut Tenant,
        refs: &mut RefTable<RingHistory>,
        actor: Actor,
    ) -> Result<(), Refusal>
        requires asks { IsAsking (walk_at self.old actor) }
        requires counter { counter_of refs.old < u128.MAX }
        ensures done { (g : Ground) (l : LoneTenant) (r : TableRefs) (run : rules.Run)
            (w : WaitingEvaluation) (k : Ask) → IsRight g
            → PartsStand g (parts tenant.old refs.old self.old) l r
            → running_in actor l.state ≡ Some run
            → walk_at self.old actor ≡ Some (Reached.Asks w k)
            → OnOk result (AcceptsHonestDeed g l r (deeds.asks_for actor (ask_view k))
            (parts tenant.new refs.new self.new)) }
        ensures refused { (g : Ground) (l : LoneTenant) (r : TableRefs) (w : WaitingEvaluation)
            (k : Ask) → IsRight g
            → PartsStand g (parts tenant.old refs.old self.old) l r
            → walk_at self.old actor ≡ Some (Reached.Asks w k)
            → IfErr result (RefusesHonestDeed g l r (deeds.asks_for actor (ask_view k))
            (parts tenant.new refs.new self.new)) }
        ensures no_memory { (g : Ground) (l : LoneTenant) (r : TableRefs) (w : WaitingEvaluation)
            (k : Ask)
            → PartsStand g (parts tenant.old refs.old self.old) l r
            → walk_at self.old actor ≡ Some (Reached.Asks w k)
            → result ≡ Err Refusal.NoMemory
            → is_accepted (comes_to g l (deeds.asks_for actor (ask_view k))).outcome ≡ true }
        ensures counted { CountsStep tenant.old tenant.new result }
        ensures commits { CountsOne refs.old refs.new result }
    {
        let Some(Reached::Asks(_walk, asked)) = self.get(actor) else {
            unreachable!();
        };
        match tenant.answer(refs, actor, asked)? {
            AskAnswer::Answer(answer) => drop(self.resume(actor, answer)),
            AskAnswer::Interrupted => self.remove(actor),
        }
        Ok(())
    }

    // Its form ends as its evaluation ends.
    fn end(
        &mut self,
        tenant: &mut Tenant,
        refs: &RefTable<RingHistory>,
        actor: Actor,
    ) -> Result<(), Refusal>
        requires { IsEnded (walk_at self.old actor) }
        ensures done { (g : Ground) (l : LoneTenant) (r : TableRefs) (run : rules.Run)
            (e : Finished) → IsRight g → PartsStand g (parts tenant.old refs.now self.old) l r
            → running_in actor l.state ≡ Some run
            → walk_at self.old actor ≡ Some (Reached.Ends e) → OnOk result
            (AcceptsHonestDeed g l r (deeds.ends actor (walk_ended run e))
            (parts tenant.new refs.now self.new)) }
        ensures refused { (g : Ground) (l : LoneTenant) (r : TableRefs) (run : rules.Run)
            (e : Finished) → IsRight g → PartsStand g (parts tenant.old refs.now self.old) l r
            → running_in actor l.state ≡ Some run
            → walk_at self.old actor ≡ Some (Reached.Ends e) → IfErr result
            (RefusesHonestDeed g l r (deeds.ends actor (walk_ended run e))
            (parts tenant.new refs.now self.new)) }
        ensures no_memory { (g : Ground) (l : LoneTenant) (r : TableRefs) (run : rules.Run)
            (e : Finished) → IsRight g → PartsStand g (parts tenant.old refs.now self.old) l r
            → running_in actor l.state ≡ Some run
            → walk_at self.old actor ≡ Some (Reached.Ends e)
            → result ≡ Err Refusal.NoMemory
            → is_accepted (comes_to g l (deeds.ends actor (walk_ended run e))).outcome ≡ true }
        ensures counted { CountsStep tenant.old tenant.new result }
    {
        let Some(Reached::Ends(finished)) = self.get(actor) else {
            unreachable!();
        };
        tenant.finish(actor, finished, &mut Aside::nothing())?;
        self.remove(actor);
        Ok(())
    }

    // The evaluation goes on with its answer. It fails only for want of memory: then the evaluation
    // is lost, and made again when its actor goes on.
    fn resume(&mut self, actor: Actor, answer: Answer) -> Result<(), AllocError>
        requires { IsAsking (walk_at self.old actor) }
        ensures kept { OnOk result (walk_at self.new actor ≢ None) }
        ensures resumed { (run : rules.Run) (w : WaitingEvaluation) (k : Ask) (p : Reached)
            → walk_at self.old actor ≡ Some (Reached.Asks w k)
            → IsWalkOf run (Reached.Asks w k) → walk_at self.new actor ≡ Some p
            → IsWalkOf (run_with (exchange_from (ask_view k) (answer_view answer)) run) p }
        ensures others { (b : Actor) → seat_of b ≢ seat_of actor
            → walk_at self.new b ≡ walk_at self.old b }
    {
        let Some(Reached::Asks(walk, _asked)) = self.take(actor) else {
            unreachable!();
        };
        match walk.go_on(self.alloc, answer) {
            Ok(later) => self.put(actor, later),
            Err(error) => Err(error),
        }
    }
}
