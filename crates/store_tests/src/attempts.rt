// Attempts at transactions where memory is wanting: run with one allocation after the other
// failing.
use crate::given::{FIRST, OURS, SECOND};
use core_functions::CoreFunction;
use core_scalars::{ArithmeticFunction, IntegerFunction};
use repl_asks::{Commute, Intent};
use repl_values::{RefName, Value};
use std::alloc::{AllocError, Global};
use std::process::Abort;
use std::test::Fail;
use tx_attempt::{Attempt, SetError};

const PLUS: CoreFunction = CoreFunction::Integer(IntegerFunction::Arithmetic(
    ArithmeticFunction::Add,
));

/// What is done with a ref in an attempt. Refs hold integers.
#[derive(Clone, Copy)]
enum Access {
    /// It was read, and holds this.
    Read(RefName, i64),
    Set(RefName, i64),
    Ensure(RefName, i64),
    /// One is added to it, which gave this.
    Commute(RefName, i64),
    /// The attempt is asked for its value.
    See(RefName),
}

/// What comes of an access.
#[derive(Clone, Copy, Debug, PartialEq, Eq)]
enum AccessOutcome {
    Noted,
    SetAfterCommute,
    Number(i64),
    Nothing,
}

type AccessStep = (Access, AccessOutcome);

fn take(
    rt: &impl Abort,
    alloc: Global,
    attempt: &mut Attempt,
    steps: &[AccessStep],
) -> Result<(), AllocError> {
    for (place, (access, wanted)) in steps.iter().enumerate() {
        let came = came_of(alloc, attempt, *access)?;
        assert_eq!(rt; came, *wanted, "at step {place}");
    }
    Ok(())
}

fn came_of(
    alloc: Global,
    attempt: &mut Attempt,
    access: Access,
) -> Result<AccessOutcome, AllocError> {
    match access {
        Access::Read(name, number) => attempt.note_read(name, Value::Int(number))?,
        Access::Set(name, number) => return set(attempt, name, number),
        Access::Ensure(name, number) => attempt.ensure(name, Value::Int(number))?,
        Access::Commute(name, number) => commute(alloc, attempt, name, number)?,
        Access::See(name) => return Ok(see(attempt, name)),
    }
    Ok(AccessOutcome::Noted)
}

fn set(attempt: &mut Attempt, name: RefName, number: i64) -> Result<AccessOutcome, AllocError> {
    match attempt.set(name, Value::Int(number)) {
        Ok(()) => Ok(AccessOutcome::Noted),
        Err(SetError::Commuted) => Ok(AccessOutcome::SetAfterCommute),
        Err(SetError::NoMemory) => Err(AllocError),
    }
}

fn commute(
    alloc: Global,
    attempt: &mut Attempt,
    name: RefName,
    number: i64,
) -> Result<(), AllocError> {
    let mut arguments = Vec::new(alloc);
    arguments.push(Value::Int(1))?;
    let commute = Commute {
        function: PLUS,
        arguments,
    };
    attempt.commute(name, commute, Value::Int(number))
}

fn see(attempt: &Attempt, name: RefName) -> AccessOutcome {
    match attempt.value_of(name) {
        Some(Value::Int(number)) => AccessOutcome::Number(*number),
        _ => AccessOutcome::Nothing,
    }
}

// Takes a step. Where it fails all is as it was, as the others see it, and it is taken once more.
fn take_at_last(
    rt: &impl Abort,
    alloc: Global,
    attempt: &mut Attempt,
    step: AccessStep,
    as_it_was: &[AccessStep],
) -> Result<(), AllocError> {
    if take(rt, alloc, attempt, &[step]).is_err() {
        take(rt, alloc, attempt, as_it_was)?;
        take(rt, alloc, attempt, &[step])?;
    }
    Ok(())
}

// How many refs an intent sets, how many it ensures, and how many it commutes; and how often the
// first of these.
fn counts(intent: &Intent) -> (usize, usize, usize, usize) {
    let times = match intent.commuted.first() {
        Some(commuted) => commuted.commutes.len(),
        None => 0,
    };
    (
        intent.sets.len(),
        intent.ensured.len(),
        intent.commuted.len(),
        times,
    )
}

fn wanted_by(attempt: Attempt) -> Result<Intent, AllocError> {
    Ok(attempt.into_intent()?)
}

// What the attempt wants. Where its intent cannot be made it is as it was, and is asked once more.
fn expect_wanted(
    rt: &impl Abort,
    alloc: Global,
    attempt: Attempt,
    as_it_was: &[AccessStep],
    wanted: (usize, usize, usize, usize),
) -> Result<(), Fail> {
    let intent = match attempt.into_intent() {
        Ok(intent) => intent,
        Err(unmade) => {
            let mut attempt = unmade.attempt;
            take(rt, alloc, &mut attempt, as_it_was)?;
            wanted_by(attempt)?
        }
    };
    assert!(rt; counts(&intent) == wanted);
    Ok(())
}

const NOT_READ: &[AccessStep] = &[(Access::See(FIRST), AccessOutcome::Nothing)];

const READ: &[AccessStep] = &[
    (Access::See(FIRST), AccessOutcome::Number(1)),
    (Access::See(SECOND), AccessOutcome::Nothing),
];

const READ_AND_SET: &[AccessStep] = &[
    (Access::See(FIRST), AccessOutcome::Number(1)),
    (Access::See(SECOND), AccessOutcome::Number(2)),
];

#[test]
fn what_cannot_be_noted_leaves_all_as_it_was(rt: HostRuntime) -> Result<(), Fail> {
    let alloc = rt.alloc();
    let mut attempt = Attempt::new(alloc);
    let (read, set) = (Access::Read(FIRST, 1), Access::Set(SECOND, 2));
    take_at_last(
        &rt,
        alloc,
        &mut attempt,
        (read, AccessOutcome::Noted),
        NOT_READ,
    )?;
    take_at_last(&rt, alloc, &mut attempt, (set, AccessOutcome::Noted), READ)?;
    take(&rt, alloc, &mut attempt, READ_AND_SET)?;
    expect_wanted(&rt, alloc, attempt, READ_AND_SET, (1, 0, 0, 0))
}

const COMMUTED: &[AccessStep] = &[
    (Access::Set(FIRST, 5), AccessOutcome::SetAfterCommute),
    (Access::See(FIRST), AccessOutcome::Number(1)),
];

const NOT_COMMUTED: &[AccessStep] = &[
    (Access::See(FIRST), AccessOutcome::Nothing),
    (Access::Set(FIRST, 5), AccessOutcome::Noted),
    (Access::See(FIRST), AccessOutcome::Number(5)),
];

#[test]
fn commute_that_cannot_be_noted_lets_the_ref_be_set(rt: HostRuntime) -> Result<(), Fail> {
    let alloc = rt.alloc();
    let mut attempt = Attempt::new(alloc);
    let steps = match came_of(alloc, &mut attempt, Access::Commute(FIRST, 1)) {
        Ok(_came) => COMMUTED,
        Err(AllocError) => NOT_COMMUTED,
    };
    take(&rt, alloc, &mut attempt, steps)?;
    Ok(())
}

const COMMUTED_TWICE: &[AccessStep] = &[
    (Access::Commute(FIRST, 1), AccessOutcome::Noted),
    (Access::Commute(FIRST, 2), AccessOutcome::Noted),
];

const NOT_ENSURED: &[AccessStep] = &[(Access::See(OURS), AccessOutcome::Nothing)];

const ENSURED: &[AccessStep] = &[
    (Access::See(FIRST), AccessOutcome::Number(2)),
    (Access::See(OURS), AccessOutcome::Number(7)),
];

#[test]
fn intent_that_cannot_be_made_loses_no_commute(rt: HostRuntime) -> Result<(), Fail> {
    let alloc = rt.alloc();
    let mut attempt = Attempt::new(alloc);
    if take(&rt, alloc, &mut attempt, COMMUTED_TWICE).is_err() {
        return Ok(());
    }
    let ensured = (Access::Ensure(OURS, 7), AccessOutcome::Noted);
    take_at_last(&rt, alloc, &mut attempt, ensured, NOT_ENSURED)?;
    expect_wanted(&rt, alloc, attempt, ENSURED, (0, 1, 1, 2))
}
