// Which agents may begin an action, by the numbers of the first that wait for them.
ghost use Rattle.std.specs.Prelude.{◌≡◌, ℕ, ◌+◌, ◌<◌, ◌≤◌, [], OnOk, IfSome, IfNone, option_map};
ghost use Rattle.std.specs.BinaryHeap.{IsHeap, IsHeap-prop, heap_items, heap_len, heap_capacity};
ghost use Rattle.private_cells.specs.Agents.{ActionTurn};
ghost use Rattle.private_cells.specs.Inside.Turns.{least_last, heap_sum, turn_at, turn_weight};
ghost use Rattle.private_cells.specs.Inside.Turns.{IsFirst};
ghost use Rattle.private_cells.specs.Inside.Turns.{IsThere};

use std::alloc::{AllocError, Global};
use std::cmp::Reverse;
use std::collections::BinaryHeap;

// Each turn is a number with its agent. The least comes first.
#[derive(Drop)]
pub(crate) struct Turns {
    pub(crate) heap: BinaryHeap<Reverse<(u128, u64)>>,
    ghost ordered: { IsHeap least_last (heap_items heap) } by { IsHeap-prop _ _ },
}

impl Turns {
    pub(crate) fn new(alloc: Global) -> Turns
        ensures { heap_items result.heap ≡ [] }
    {
        Turns {
            heap: BinaryHeap::new(alloc),
        }
    }

    // Makes room for so many turns more.
    pub(crate) fn reserve(&mut self, more: usize) -> Result<(), AllocError>
        ensures room { OnOk result
            (heap_len self.old.heap + more ≤ heap_capacity self.new.heap) }
        ensures grows { heap_capacity self.old.heap ≤ heap_capacity self.new.heap }
        ensures same { heap_items self.new.heap ≡ heap_items self.old.heap }
    {
        self.heap.reserve(more)
    }

    pub(crate) fn push(&mut self, number: u128, agent: u64)
        requires { heap_len self.old.heap < heap_capacity self.old.heap }
        ensures pushed { (f : ActionTurn → ℕ) → heap_sum f (heap_items self.new.heap)
            ≡ f (turn_at agent number) + heap_sum f (heap_items self.old.heap) }
        ensures room { heap_capacity self.old.heap ≤ heap_capacity self.new.heap }
    {
        let Ok(()) = self.heap.push(Reverse((number, agent))) else {
            unreachable!();
        };
    }

    // The agent has a turn of this number, if there is one.
    pub(crate) fn open(&mut self, number: Option<u128>, agent: u64)
        requires { IfSome number (λ _. heap_len self.old.heap < heap_capacity self.old.heap) }
        ensures opened { (f : ActionTurn → ℕ) → heap_sum f (heap_items self.new.heap)
            ≡ turn_weight f (option_map (turn_at agent) number)
            + heap_sum f (heap_items self.old.heap) }
        ensures room { heap_capacity self.old.heap ≤ heap_capacity self.new.heap }
    {
        if let Some(number) = number {
            self.push(number, agent);
        }
    }

    // The least number with its agent.
    pub(crate) fn first(&self) -> Option<(u128, u64)>
        ensures none { IfNone result (heap_items self.now.heap ≡ []) }
        ensures there { IfSome result (λ t. IsThere t (heap_items self.now.heap)) }
        ensures first { IfSome result (λ t. IsFirst t (heap_items self.now.heap)) }
    {
        let first = self.heap.peek()?;
        Some(first.0)
    }

    // The same, and it is there no more.
    pub(crate) fn pop(&mut self) -> Option<(u128, u64)>
        ensures none { IfNone result (heap_items self.old.heap ≡ []) }
        ensures unchanged { IfNone result (heap_items self.new.heap ≡ []) }
        ensures popped { IfSome result (λ t. (f : ActionTurn → ℕ)
            → heap_sum f (heap_items self.old.heap)
            ≡ f (turn_at t.1 t.0) + heap_sum f (heap_items self.new.heap)) }
        ensures first { IfSome result (λ t. IsFirst t (heap_items self.old.heap)) }
        ensures room { heap_capacity self.new.heap ≡ heap_capacity self.old.heap }
    {
        let first = self.heap.pop()?;
        Some(first.0)
    }
}
