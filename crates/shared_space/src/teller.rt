// Who answers the forms of the text of the shared namespace.
ghost use Rattle.std.specs.Prelude.{◌≡◌, [], false, None, IfOk};
ghost use Rattle.repl_asks.specs.Inside.View.{ask_view};
ghost use Rattle.name_spaces.specs.Inside.Seen.{shared_bindings};
ghost use Rattle.server_rules.specs.Shared.{nothing_shared, told_in_text};
ghost use Rattle.shared_space.specs.Holding.{HoldsShared};
ghost use Rattle.shared_space.specs.Told.{AreTold, exchanges, shared_so_far};

use crate::space::SharedSpace;
use crate::telling::{ToldAnswer, is_told, tell};
use name_spaces::SharedDefinitions;
use ref_history::RingHistory;
use ref_table::RefTable;
use repl_asks::{Answer, Ask, Exchange, Refs, Stop, StopReason, Trace};
use std::alloc::{AllocError, Global};
use std::marker::Model;

/// Answers the forms of the text, one after another. Whoever gets one has that each ask was
/// answered as the rules say, and that it holds what was shared by then.
#[derive(Drop)]
pub(crate) struct Teller {
    names: SharedDefinitions,
    refs: RefTable<RingHistory>,
    trace: Trace,
    has_stopped: bool,
}

impl Model for Teller {
    ghost use Rattle.std.specs.Coded.{codes};
    ghost use Rattle.repl_asks.specs.Inside.View.{trace_view};
    ghost use Rattle.repl_asks.specs.contracts.exchange.Exchange as kept;
    ghost use Rattle.name_spaces.specs.Inside.Seen.{defined_bindings};
    ghost use Rattle.server_rules.specs.Shared.{nothing_shared};
    ghost use Rattle.shared_space.specs.Holding.{HoldsShared};
    ghost use Rattle.shared_space.specs.Told.{AreTold, TellerData, shared_from};

    ghost Value = { TellerData };

    ghost coded = { Prim.hlevel (codes, kept.the_row.coded) };

    ghost view = { λ t. record { trace = t.trace.items; stopped = t.has_stopped } };

    ghost invariant = { λ t. AreTold nothing_shared (trace_view t.trace.items)
        × HoldsShared (defined_bindings t.names) t.refs
        (shared_from nothing_shared (trace_view t.trace.items)) };
}

impl Teller {
    /// It was asked nothing yet. It takes no memory.
    pub(crate) fn new(alloc: Global) -> Teller
        ensures { result ≡ record { trace = []; stopped = false } }
    {
        Teller {
            names: SharedDefinitions::none(alloc),
            refs: RefTable::new(alloc, RingHistory::new(alloc)),
            trace: Vec::new(alloc),
            has_stopped: false,
        }
    }

    /// Each ask was answered as the rules say.
    pub(crate) fn has_told(&self)
        ensures { AreTold nothing_shared (exchanges self.now) }
    {
        let _ = &self.names;
    }

    /// Whether the text may ask this now. It takes no memory.
    pub(crate) fn is_told(&self, ask: &Ask) -> bool
        ensures { result ≡ false → told_in_text (ask_view ask.now) (shared_so_far self.now) ≡ None }
    {
        is_told(&self.refs, ask)
    }

    /// What is shared by then, for good. It fails only for want of memory.
    pub(crate) fn finish(self, alloc: Global) -> Result<SharedSpace, AllocError>
        ensures { IfOk result (λ space.
            HoldsShared (shared_bindings space.names) space.refs (shared_so_far self)) }
    {
        let Teller { names, refs, .. } = self;
        Ok(SharedSpace {
            names: names.finish(alloc)?,
            refs,
        })
    }
}

impl Refs for Teller {
    ghost use Rattle.shared_space.specs.Told.{heard_of_teller};

    ghost heard = { heard_of_teller };

    /// Answers, and notes what was asked and answered. It stops at what is not for the text to ask.
    fn ask(&mut self, alloc: Global, ask: Ask) -> Result<Answer, Stop> {
        if self.has_stopped {
            let why = StopReason::NoAnswer;
            return Err(Stop { why, ask });
        }
        if self.trace.reserve(1).is_err() {
            self.has_stopped = true;
            let why = StopReason::NoMemory;
            return Err(Stop { why, ask });
        }
        match tell(alloc, &mut self.names, &mut self.refs, &ask) {
            Ok(Some(ToldAnswer { given, noted })) => {
                self.trace.push_reserved(Exchange { ask, answer: noted });
                Ok(given)
            }
            Ok(None) => {
                self.has_stopped = true;
                let why = StopReason::Refused;
                Err(Stop { why, ask })
            }
            Err(AllocError) => {
                self.has_stopped = true;
                let why = StopReason::NoMemory;
                Err(Stop { why, ask })
            }
        }
    }
}
