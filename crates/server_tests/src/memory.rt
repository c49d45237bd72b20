// Memory that is refused to a step: it changes nothing, and the step is made once more. This test
// passes where any one allocation is refused (`rt try --test --fail-alloc N`).
use crate::servers::{answer_of, begun, expect_heard, expect_replies, fresh_machine};
use repl_asks::{Job, Replay};
use repl_core::{Machine, Step};
use repl_walker::{Ending, walk};
use server_rules::Actor;
use std::alloc::Global;
use std::boxed::Box;
use std::process::Abort;
use std::test::Fail;

// A message in two pieces, and then a session that is closed with a request that waits, a clone of
// it that is refused, and another clone, all in one piece with a request without a session.
const PIECES: &[&[u8]] = &[
    b"d2:id1:12:op5:clo",
    b"nee",
    b"d4:code1:12:op4:eval7:session36:76b8e0ad-a0f1-4d90-805d-6ae55386bd28e\
d2:op5:close7:session36:76b8e0ad-a0f1-4d90-805d-6ae55386bd28e\
d2:op11:ls-sessionse\
d2:op5:clone7:session36:76b8e0ad-a0f1-4d90-805d-6ae55386bd28e\
d2:op5:clonee\
d4:code1:72:op4:evale",
];

const REPLIES: &[&[u8]] = &[
    b"d2:id1:111:new-session36:76b8e0ad-a0f1-4d90-805d-6ae55386bd286:statusl4:doneee",
    b"d7:session36:76b8e0ad-a0f1-4d90-805d-6ae55386bd286:statusl4:done11:interruptedee",
    b"d7:session36:76b8e0ad-a0f1-4d90-805d-6ae55386bd286:statusl4:done14:session-closedee",
    b"d8:sessionsle6:statusl4:doneee",
    b"d7:session36:76b8e0ad-a0f1-4d90-805d-6ae55386bd286:status\
l5:error15:unknown-session4:doneee",
    b"d11:new-session36:bdd219b8-a08d-4d1a-a836-efcc8b770dc76:statusl4:doneee",
    b"d2:ns4:user5:value1:7e",
    b"d6:statusl4:doneee",
];

// How the form ends, which asks nothing.
fn ending_of(rt: &impl Abort, alloc: Global, job: &Job) -> Ending {
    for _ in 0..2 {
        if let Ok(ending) = walk(alloc, job, &mut Replay::new(alloc, Vec::new(alloc))) {
            return ending;
        }
    }
    panic!(rt; "the form does not end");
}

fn expect_ended(rt: &impl Abort, alloc: Global, machine: &mut Machine) -> Result<(), Fail> {
    let job = begun(rt, machine);
    let ending = ending_of(rt, alloc, &job);
    let step = Step::Ended(0, Actor::Bare, Box::new(alloc, ending)?);
    assert!(rt; answer_of(machine, step).is_ok(), "the form ends");
    Ok(())
}

#[test]
fn what_is_refused_memory_is_done_again(rt: HostRuntime) -> Result<(), Fail> {
    let mut machine = fresh_machine(rt.alloc())?;
    expect_heard(&rt, rt.alloc(), &mut machine, PIECES)?;
    expect_ended(&rt, rt.alloc(), &mut machine)?;
    expect_replies(&rt, &mut machine, REPLIES)
}
