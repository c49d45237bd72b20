// Asks with their answers.
ghost use Rattle.std.specs.Prelude.{◌≡◌, IfOk};
ghost use Rattle.repl_asks.specs.Inside.View.{ask_view, answer_view, exchange_view, trace_view};

use crate::answer::Answer;
use crate::ask::Ask;
use std::alloc::{AllocError, Global};

/// An ask with its answer.
#[derive(Debug)]
pub struct Exchange {
    pub ask: Ask,
    pub answer: Answer,
}

impl Drop for Exchange {
    fn drop(self) {
        let Exchange {
            ask: _ask,
            answer: _answer,
        } = self;
    }
}

/// The exchanges of an evaluation so far, in order.
pub type Trace = Vec<Exchange>;

impl Exchange {
    /// An ask with a copy of its answer. It takes one step, and fails only where 2^63
    /// owners share a part of the answer.
    pub fn of(ask: Ask, answer: &Answer) -> Result<Exchange, AllocError>
        ensures { IfOk result (λ made. exchange_view made
            ≡ record { ask = ask_view ask; answer = answer_view answer.now }) }
    {
        Ok(Exchange {
            ask,
            answer: answer.copy()?,
        })
    }

    /// The same exchange once more. It takes one step, and fails only where 2^63 owners share a
    /// part of it.
    pub fn copy(&self) -> Result<Exchange, AllocError>
        ensures { IfOk result (λ copied. exchange_view copied ≡ exchange_view self.now) }
    {
        Ok(Exchange {
            ask: self.ask.copy()?,
            answer: self.answer.copy()?,
        })
    }
}

/// The same trace once more: one step for each exchange. It fails only for want of memory.
pub fn copy_trace(alloc: Global, trace: &[Exchange]) -> Result<Trace, AllocError>
    ensures { IfOk result (λ copied. trace_view copied.items ≡ trace_view trace.now) }
{
    let mut copies = Vec::with_capacity(alloc, trace.len())?;
    for exchange in trace {
        copies.push(exchange.copy()?)?;
    }
    Ok(copies)
}
