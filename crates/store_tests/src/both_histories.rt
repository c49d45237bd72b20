// The same calls of both kinds of history, which have to tell the same. The calls come from a fixed
// generator, so each run makes the same.
ghost use Rattle.std.specs.Prelude.{◌<◌};

use crate::histories::{HistoryCall, HistoryTold, make, told_of};
use ref_history::{History, ListHistory, RefId, RingHistory};
use std::alloc::{AllocError, Global};
use std::test::Fail;

const CALLS: u64 = 4_000;

// A generator of numbers: those of Lehmer, with the modulus 2^31 - 1.
#[derive(Drop)]
struct NumberGenerator {
    last: u64,
}

impl NumberGenerator {
    fn below(&mut self, bound: u64) -> u64
        requires { 0 < bound }
        ensures { result < bound }
    {
        self.last = (self.last % 2_147_483_647) * 48_271 % 2_147_483_647;
        self.last % bound
    }
}

// A history, and the refs that were made in it.
#[derive(Drop)]
struct Side<H: History> {
    history: H,
    refs: Vec<RefId>,
}

fn with_no_refs<H: History>(alloc: Global, history: H) -> Side<H> {
    Side {
        history,
        refs: Vec::new(alloc),
    }
}

// Of the ref that was made so many refs before the last one.
fn tell<H: History>(
    side: &mut Side<H>,
    back: usize,
    call: HistoryCall,
) -> Result<HistoryTold, AllocError> {
    if let HistoryCall::Make(number, least, most) = call {
        let id = make(&mut side.history, number, least, most)?;
        side.refs.push(id)?;
        return Ok(HistoryTold::Done);
    }
    match side.refs.iter().rev().nth(back) {
        Some(id) => told_of(&mut side.history, *id, call),
        None => Ok(HistoryTold::Nothing),
    }
}

// Stamps rise, and a point is at most the last stamp.
fn call(numbers: &mut NumberGenerator, stamp: u64) -> HistoryCall {
    let number = numbers.below(1_000);
    let point = stamp.saturating_sub(numbers.below(40)) as u128;
    match numbers.below(16) {
        0 => HistoryCall::Make(number as i64, number % 3, number % 9),
        1 => HistoryCall::SetLeast(number % 6),
        2 => HistoryCall::SetMost(number % 12),
        3 => HistoryCall::Count,
        4 => HistoryCall::BoundsOf,
        5 => HistoryCall::Newest,
        6 => HistoryCall::IsNewer(point),
        7 if number < 300 => HistoryCall::DropRef,
        8..=11 => HistoryCall::Read(point),
        _ => HistoryCall::Add(stamp as u128, number as i64),
    }
}

#[test]
fn both_histories_tell_the_same(rt: HostRuntime) -> Result<(), Fail> {
    let mut lists = with_no_refs(rt.alloc(), ListHistory::new(rt.alloc()));
    let mut rings = with_no_refs(rt.alloc(), RingHistory::new(rt.alloc()));
    let mut numbers = NumberGenerator { last: 1 };
    for stamp in 1..CALLS {
        let call = call(&mut numbers, stamp);
        let back = numbers.below(8) as usize;
        let of_lists = tell(&mut lists, back, call)?;
        let of_rings = tell(&mut rings, back, call)?;
        assert_eq!(rt; of_rings, of_lists, "at {stamp}, {call:?}");
    }
    Ok(())
}
