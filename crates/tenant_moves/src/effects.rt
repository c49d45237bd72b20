// What is told of a request.
ghost use Rattle.std.specs.Prelude.{◌≡◌, [], None, Err, option_map, OnOk, IfSome};
ghost use Rattle.std.specs.Arc.{arc_value};
ghost use Rattle.repl_values.specs.Inside.FaultView.{failure_of};
ghost use Rattle.repl_asks.specs.Inside.Jobs.{end_view};
ghost use Rattle.repl_replies.specs.Inside.View.{origin_view};
ghost use Rattle.repl_sessions.specs.Inside.StateView.{state_view};
ghost use Rattle.server_rules.specs.Moves.{over_by, closing_move, result_noted};
ghost use Rattle.tenant_parts.specs.View.{manner_view};
ghost use Rattle.tenant_parts.specs.Spelled.{TellsResult};
ghost use Rattle.tenant_moves.specs.Endings.{TellsLast};
ghost use Rattle.tenant_moves.specs.Told.{told_bytes, told_state, Adds};

use repl_asks::End;
use repl_replies::{Body, Origin};
use repl_sessions::SessionState;
use repl_values::{Fault, Value, copy, copy_text};
use std::alloc::{AllocError, Global};
use std::sync::Arc;
use tenant_parts::{Batch, Manner, ToldResult};

/// The replies to a request, and what its session then remembers.
#[derive(Drop)]
pub struct RequestEffects {
    pub batch: Batch,
    pub state: SessionState,
}

// Each fails only for want of memory.
impl RequestEffects {
    /// Nothing is told yet.
    pub fn new(alloc: Global, state: SessionState) -> RequestEffects
        ensures replies { told_bytes result ≡ [] }
        ensures state { told_state result ≡ state_view state }
    {
        RequestEffects {
            batch: Batch::new(alloc),
            state,
        }
    }

    // The request is done by a fault.
    pub(crate) fn end_by_fault(
        &mut self,
        origin: &Arc<Origin>,
        fault: &Fault,
        told: Option<ToldResult>,
    ) -> Result<(), AllocError>
        requires { IfSome told (TellsResult (origin_view (arc_value origin.now))
            (Err (failure_of fault.now))) }
        ensures { OnOk result (Adds
            (over_by (origin_view (arc_value origin.now)) (failure_of fault.now) (told_state self.old))
            self.old self.new) }
    {
        self.batch.add_fault(&**origin, fault, told)?;
        self.batch.add(&**origin, Body::Done)?;
        self.state.note_fault(fault.copy()?);
        Ok(())
    }

    // The request is done behind its last form.
    pub(crate) fn end_request(
        &mut self,
        origin: &Arc<Origin>,
        manner: &Manner,
        fault: &Option<Fault>,
        told: Option<ToldResult>,
    ) -> Result<(), AllocError>
        requires { IfSome told (TellsLast (origin_view (arc_value origin.now))
            (manner_view manner.now)) }
        ensures { OnOk result (Adds (closing_move (origin_view (arc_value origin.now)) (manner_view manner.now)
            (option_map failure_of fault.now) (told_state self.old)) self.old self.new) }
    {
        match fault {
            Some(fault) => self.end_by_fault(origin, fault, None),
            None => self.end_well(origin, manner, told),
        }
    }

    fn end_well(
        &mut self,
        origin: &Arc<Origin>,
        manner: &Manner,
        told: Option<ToldResult>,
    ) -> Result<(), AllocError>
        requires { IfSome told (TellsLast (origin_view (arc_value origin.now))
            (manner_view manner.now)) }
        ensures { OnOk result (Adds (closing_move (origin_view (arc_value origin.now)) (manner_view manner.now)
            None (told_state self.old)) self.old self.new) }
    {
        match manner {
            Manner::EachForm => self.batch.add(&**origin, Body::Done),
            Manner::EachFormElsewhere | Manner::OfAction(_) => self
                .batch
                .add(&**origin, Body::Done),
            Manner::LastForm(last) => {
                let namespace = copy_text(&self.state.namespace)?;
                self.batch
                    .add_value(&**origin, namespace.as_str(), last, told)?;
                self.batch.add(&**origin, Body::Done)?;
                self.state.note_value(copy(last)?);
                Ok(())
            }
        }
    }

    // The session remembers the value or the fault.
    pub(crate) fn note_result(&mut self, end: &End) -> Result<(), AllocError>
        ensures replies { OnOk result (told_bytes self.new ≡ told_bytes self.old) }
        ensures state { OnOk result (told_state self.new
            ≡ result_noted (end_view end.now) (told_state self.old)) }
    {
        match end {
            End::Value(value) => self.state.note_value(copy(value)?),
            End::Fault(fault) => self.state.note_fault(fault.copy()?),
        }
        Ok(())
    }
}
