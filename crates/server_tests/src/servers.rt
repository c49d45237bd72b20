// A server to which nobody came, and steps of it that are accepted.
use bytes::Bytes;
use repl_asks::Job;
use repl_core::{Config, Machine, Refused, SharedText, Step, StepAnswer};
use server_rules::{Actor, Refusal};
use std::alloc::{AllocError, Global};
use std::process::Abort;
use std::test::Fail;

// Its ids are those of the seed that is all zeros.
pub(crate) fn fresh_config() -> Config {
    Config {
        seed: [0; 32],
        retries: 10_000,
        steps: 100,
        shared: SharedText::Empty,
    }
}

pub(crate) fn fresh_machine(alloc: Global) -> Result<Machine, AllocError> {
    match Machine::new(alloc, &fresh_config()) {
        Ok(machine) => Ok(machine),
        Err(_error) => Err(AllocError),
    }
}

// A step that is refused for want of memory changes nothing, and is made once more.
pub(crate) fn answer_of(machine: &mut Machine, step: Step) -> Result<StepAnswer, Refusal> {
    let again = match machine.step(step) {
        Ok(answer) => return Ok(answer),
        Err(
            Refused {
                why: Refusal::NoMemory,
                step,
            },
        ) => step,
        Err(refused) => return Err(refused.why),
    };
    match machine.step(again) {
        Ok(answer) => Ok(answer),
        Err(refused) => Err(refused.why),
    }
}

pub(crate) fn expect_accepted(
    rt: &impl Abort,
    machine: &mut Machine,
    step: Step,
) -> Result<(), Fail> {
    assert!(rt; answer_of(machine, step).is_ok(), "accepted");
    Ok(())
}

fn piece(alloc: Global, bytes: &[u8]) -> Result<Bytes, AllocError> {
    match Bytes::copy_from_slice(alloc, bytes) {
        Ok(piece) => Ok(piece),
        Err(_refused) => Bytes::copy_from_slice(alloc, bytes),
    }
}

// Tenant 0 comes, and hears these pieces.
pub(crate) fn expect_heard(
    rt: &impl Abort,
    alloc: Global,
    machine: &mut Machine,
    pieces: &[&[u8]],
) -> Result<(), Fail> {
    expect_accepted(rt, machine, Step::Open(0))?;
    for bytes in pieces {
        expect_accepted(rt, machine, Step::Hear(0, piece(alloc, bytes)?))?;
    }
    Ok(())
}

// The next form of the requests without a session begins.
pub(crate) fn begun(rt: &impl Abort, machine: &mut Machine) -> Job {
    match answer_of(machine, Step::Start(0, Actor::Bare)) {
        Ok(StepAnswer::Begun(job)) => job,
        _ => panic!(rt; "no form begins"),
    }
}

// These replies are taken out, and then none is left.
pub(crate) fn expect_replies(
    rt: &impl Abort,
    machine: &mut Machine,
    replies: &[&[u8]],
) -> Result<(), Fail> {
    for reply in replies {
        match machine.drain(0) {
            Ok(bytes) => assert_eq!(rt; bytes.as_slice(), *reply, "the reply"),
            Err(_) => assert!(rt; false, "a reply"),
        }
    }
    assert!(rt; machine.drain(0).is_err(), "no other reply");
    Ok(())
}
