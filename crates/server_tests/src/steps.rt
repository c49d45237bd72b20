// Steps are copied, and come back where they are refused.
use crate::servers::{expect_accepted, fresh_machine};
use bytes::Bytes;
use repl_asks::Ask;
use repl_core::{Machine, Step};
use server_rules::{Actor, Refusal};
use std::alloc::{AllocError, Global};
use std::boxed::Box;
use std::process::Abort;
use std::sync::ArcStr;
use std::test::Fail;

// Of each kind one, but for an ending: each of a tenant that never came, or that comes twice.
fn refused_steps(alloc: Global) -> Result<Vec<Step>, AllocError> {
    let ask = Ask::Resolve {
        namespace: ArcStr::from_str(alloc, "user")?,
        symbol: ArcStr::from_str(alloc, "x")?,
    };
    let mut steps = Vec::new(alloc);
    steps.push(Step::Open(0))?;
    steps.push(Step::Hear(2, Bytes::copy_from_slice(alloc, b"de")?))?;
    steps.push(Step::Start(3, Actor::Session(4)))?;
    steps.push(Step::Asked(5, Actor::Bare, Box::new(alloc, ask)?))?;
    steps.push(Step::Drain(6))?;
    steps.push(Step::Bye(7))?;
    Ok(steps)
}

// A step as a text, by which a test compares it.
fn told(alloc: Global, step: &Step) -> Result<String, AllocError> {
    match step {
        Step::Open(number) => format!(in alloc; "open {number}"),
        Step::Hear(number, piece) => {
            let text = str::from_utf8(piece).unwrap_or("no text");
            format!(in alloc; "hear {number} {text}")
        }
        Step::Start(number, actor) => format!(in alloc; "start {number} {actor:?}"),
        Step::Asked(number, actor, ask) => format!(in alloc; "asked {number} {actor:?} {ask:?}"),
        Step::Ended(number, actor, _ending) => format!(in alloc; "ended {number} {actor:?}"),
        Step::Drain(number) => format!(in alloc; "drain {number}"),
        Step::Bye(number) => format!(in alloc; "bye {number}"),
    }
}

fn expect_given_back(
    rt: &impl Abort,
    alloc: Global,
    machine: &mut Machine,
    step: &Step,
) -> Result<(), Fail> {
    let wanted = told(alloc, step)?;
    let copied = step.copy(alloc)?;
    assert_eq!(rt; told(alloc, &copied)?.as_str(), wanted.as_str(), "the copy");
    let Err(refused) = machine.step(copied) else {
        panic!(rt; "{wanted} is accepted");
    };
    let back = told(alloc, &refused.step)?;
    assert_eq!(rt; back.as_str(), wanted.as_str(), "the step that comes back");
    let why = match step {
        Step::Open(_) => Refusal::NumberUsed,
        _ => Refusal::NoSuchTenant,
    };
    assert_eq!(rt; refused.why, why, "{wanted}");
    Ok(())
}

#[test]
fn refused_steps_are_given_back(rt: HostRuntime) -> Result<(), Fail> {
    let mut machine = fresh_machine(rt.alloc())?;
    expect_accepted(&rt, &mut machine, Step::Open(0))?;
    for step in &refused_steps(rt.alloc())? {
        expect_given_back(&rt, rt.alloc(), &mut machine, step)?;
    }
    Ok(())
}
