// Endings that come back with the trace that the machine kept, with another, and of another form.
use crate::servers::{
    answer_of, begun, expect_accepted, expect_heard, expect_replies, fresh_machine,
};
use repl_asks::{Answer, Job, Reading, Replay, Resolution};
use repl_core::{Machine, Step, StepAnswer};
use repl_values::{Owner, RefName, Value};
use repl_walker::{Ending, Progress, start, walk};
use server_rules::{Actor, Refusal};
use std::alloc::{AllocError, Global};
use std::boxed::Box;
use std::process::Abort;
use std::test::Fail;

const FORMS: &[u8] = b"d4:code18:(def r (ref 0)) @r2:id1:12:op4:evale";

const REPLIES: &[&[u8]] = &[
    b"d2:id1:12:ns4:user5:value8:#'user/re",
    b"d2:id1:12:ns4:user5:value1:0e",
    b"d2:id1:16:statusl4:doneee",
];

fn answered(rt: &impl Abort, machine: &mut Machine, step: Step) -> Answer {
    match answer_of(machine, step) {
        Ok(StepAnswer::Answer(answer)) => answer,
        _ => panic!(rt; "no answer"),
    }
}

// How the form ends, each of its asks answered by the machine.
fn honest_ending(
    rt: &impl Abort,
    alloc: Global,
    machine: &mut Machine,
    job: &Job,
) -> Result<Ending, AllocError> {
    let mut progress = start(alloc, job)?;
    for _ in 0..10 {
        progress = match progress {
            Progress::Asks(walk) => {
                let step = Step::Asked(0, Actor::Bare, Box::new(alloc, walk.ask().copy()?)?);
                walk.resume(alloc, answered(rt, machine, step))?
            }
            Progress::Ends(ending) => return Ok(ending),
        };
    }
    panic!(rt; "the form does not end");
}

// How the form ends where its symbol names the tenant's ref of this number, in which 1 is read.
fn ending_after(
    rt: &impl Abort,
    alloc: Global,
    job: &Job,
    number: u64,
) -> Result<Ending, AllocError> {
    let named = RefName {
        owner: Owner::Tenant(0),
        number,
    };
    let mut answers = Vec::new(alloc);
    answers.push(Answer::Resolution(Resolution::Value(Value::Ref(named))))?;
    answers.push(Answer::Reading(Reading::Found(Value::Int(1))))?;
    match walk(alloc, job, &mut Replay::new(alloc, answers)) {
        Ok(ending) => Ok(ending),
        Err(_) => panic!(rt; "the form does not end"),
    }
}

// The ending is refused at this place, and comes back.
fn expect_mismatch(
    rt: &impl Abort,
    alloc: Global,
    machine: &mut Machine,
    ending: Ending,
    place: u64,
) -> Result<(), Fail> {
    let step = Step::Ended(0, Actor::Bare, Box::new(alloc, ending)?);
    let Err(refused) = machine.step(step) else {
        panic!(rt; "the ending is accepted");
    };
    assert_eq!(rt; refused.why, Refusal::TraceMismatch(place), "the place");
    assert!(rt;
        matches!(refused.step, Step::Ended(0, Actor::Bare, _)),
        "the step"
    );
    Ok(())
}

// An ending is taken where it is of the form that runs, and has the trace that was kept.
#[test]
fn endings_are_compared(rt: HostRuntime) -> Result<(), Fail> {
    let alloc = rt.alloc();
    let mut machine = fresh_machine(alloc)?;
    expect_heard(&rt, alloc, &mut machine, &[FORMS])?;
    let job = begun(&rt, &mut machine);
    let first = honest_ending(&rt, alloc, &mut machine, &job)?;
    let of_another_form = first.copy(alloc)?;
    let ended = Step::Ended(0, Actor::Bare, Box::new(alloc, first)?);
    expect_accepted(&rt, &mut machine, ended)?;
    let job = begun(&rt, &mut machine);
    let honest = honest_ending(&rt, alloc, &mut machine, &job)?;
    let first_differs = ending_after(&rt, alloc, &job, 1)?;
    let second_differs = ending_after(&rt, alloc, &job, 0)?;
    expect_mismatch(&rt, alloc, &mut machine, of_another_form, 0)?;
    expect_mismatch(&rt, alloc, &mut machine, first_differs, 0)?;
    expect_mismatch(&rt, alloc, &mut machine, second_differs, 1)?;
    let copied = Step::Ended(0, Actor::Bare, Box::new(alloc, honest)?).copy(alloc)?;
    expect_accepted(&rt, &mut machine, copied)?;
    expect_replies(&rt, &mut machine, REPLIES)
}
