// An evaluation that was not begun, or was lost, is made over the recorded answers.
ghost use Rattle.std.specs.Prelude.{◌≡◌, ◌≢◌, Some, None, [], ◌∷◌, IfOk, OnOk, OnErr};
ghost use Rattle.repl_asks.specs.Inside.View.{exchange_view};
ghost use Rattle.repl_asks.specs.Leading.{tree_after};
ghost use Rattle.repl_walker.specs.Steps.{reached_tree};
ghost use Rattle.server_rules.specs.Tenant.{TenantState};
ghost use Rattle.tenant_parts.specs.View.{run_view};
ghost use Rattle.tenant_world.specs.Running.{running_in};
ghost use Rattle.repl_core.specs.Inside.Walked.{IsWalkOf, AreWalked};
ghost use Rattle.repl_core.specs.Inside.WalkAt.{walk_at};

use crate::walks::Walks;
use repl_asks::Exchange;
use repl_walker::{Reached, begin};
use server_rules::Actor;
use std::alloc::{AllocError, Global};
use tenant_parts::Run;

impl Walks {
    // The evaluation of this form, which the actor runs, is kept: where it is not, it is made over
    // the answers that are recorded. It fails only for want of memory, and then changes nothing.
    pub(crate) fn find(&mut self, actor: Actor, run: &Run) -> Result<(), AllocError>
        ensures kept { OnOk result (walk_at self.new actor ≢ None) }
        ensures lost { OnErr result (walk_at self.old actor ≡ None) }
        ensures stays { OnErr result ((b : Actor) → walk_at self.new b ≡ walk_at self.old b) }
        ensures walked { (q : TenantState) → running_in actor q ≡ Some (run_view run.now)
            → AreWalked (walk_at self.old) q → AreWalked (walk_at self.new) q }
    {
        if self.get(actor).is_some() {
            return Ok(());
        }
        match evaluation_of(self.alloc, run) {
            Ok(found) => self.put(actor, found),
            Err(error) => Err(error),
        }
    }
}

// The evaluation of a form that runs, as far as its recorded answers take it. It takes as long as
// the form took up to there. It fails only for want of memory.
fn evaluation_of(alloc: Global, run: &Run) -> Result<Reached, AllocError>
    ensures { IfOk result (IsWalkOf (run_view run.now)) }
{
    if run.trace.is_empty() {
        return begin(alloc, &run.job);
    }
    let mut reached = begin(alloc, &run.job)?;
    for exchange in &run.trace {
        reached = answered(alloc, reached, exchange)?;
    }
    Ok(reached)
}

// One recorded answer further. Behind the end there is nothing.
fn answered(alloc: Global, reached: Reached, exchange: &Exchange) -> Result<Reached, AllocError>
    ensures { IfOk result (λ later. reached_tree later
        ≡ tree_after (reached_tree reached) (exchange_view exchange.now ∷ [])) }
{
    match reached {
        Reached::Asks(walk, _asked) => walk.go_on(alloc, exchange.answer.copy()?),
        Reached::Ends(finished) => Ok(Reached::Ends(finished)),
    }
}
