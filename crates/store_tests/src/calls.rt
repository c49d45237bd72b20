// Calls of functions that ask the store, as no program makes them: of refs that all tenants share,
// of atoms, and of values in the place of a function; and where memory is wanting.
use crate::given::Given::{Atom, Int, Ref};
use crate::given::{FIRST, Given, OURS, value_of, values_of};
use core_functions::StoreFunction;
use evaluation_rules::{Alteration, Altered, Call, call, ref_to_alter};
use std::alloc::{AllocError, Global};
use std::test::Fail;

const NOT_PLAIN: &str = "Only plain data goes into a shared ref";

const NOT_SET: &str = "Shared history can't be set";

const NOT_RUNNING: &str = "No transaction running";

// What a call that is not refused comes to.
const GOES_ON: &str = "goes on";

// A function, whether a transaction runs, the arguments, and the text of the fault.
const CALLS: &[(StoreFunction, bool, &[Given], &str)] = &[
    (StoreFunction::Deref, false, &[Ref(OURS)], GOES_ON),
    (StoreFunction::Ensure, true, &[Ref(OURS)], GOES_ON),
    (
        StoreFunction::Ensure,
        false,
        &[Atom],
        "Wrong argument to ensure: #atom[0]",
    ),
    (StoreFunction::RefSet, true, &[Ref(FIRST), Atom], GOES_ON),
    (StoreFunction::RefSet, true, &[Ref(OURS), Int(1)], GOES_ON),
    (
        StoreFunction::RefSet,
        true,
        &[Ref(OURS), Ref(FIRST)],
        NOT_PLAIN,
    ),
    (StoreFunction::RefSet, true, &[Ref(OURS), Atom], NOT_PLAIN),
    (
        StoreFunction::RefSet,
        false,
        &[Ref(OURS), Ref(OURS)],
        NOT_RUNNING,
    ),
    (StoreFunction::HistoryCount, false, &[Ref(OURS)], GOES_ON),
    (
        StoreFunction::HistoryCount,
        true,
        &[Ref(OURS)],
        "Shared history can't be read in a transaction",
    ),
    (StoreFunction::MinHistory, false, &[Ref(OURS)], GOES_ON),
    (
        StoreFunction::MinHistory,
        false,
        &[Ref(OURS), Int(2)],
        NOT_SET,
    ),
    (
        StoreFunction::MinHistory,
        false,
        &[Ref(OURS), Int(-2)],
        "Wrong argument to ref-min-history: -2",
    ),
    (
        StoreFunction::MaxHistory,
        true,
        &[Ref(OURS), Int(20)],
        NOT_SET,
    ),
    (
        StoreFunction::Alter,
        true,
        &[Ref(FIRST), Int(1)],
        "Wrong argument to alter: 1",
    ),
    (
        StoreFunction::Alter,
        false,
        &[Int(0), Int(1)],
        "Wrong argument to alter: 0",
    ),
    (
        StoreFunction::Commute,
        true,
        &[Ref(FIRST), Int(1)],
        "Wrong argument to commute: 1",
    ),
    (StoreFunction::Atom, true, &[Atom], GOES_ON),
    (StoreFunction::Deref, true, &[Atom], GOES_ON),
    (
        StoreFunction::Deref,
        false,
        &[Int(1)],
        "Wrong argument to deref: 1",
    ),
    (StoreFunction::Reset, true, &[Atom, Ref(OURS)], GOES_ON),
    (
        StoreFunction::Reset,
        false,
        &[Int(0), Atom],
        "Wrong argument to reset!: 0",
    ),
    (
        StoreFunction::CompareAndSet,
        false,
        &[Atom, Int(0), Int(1)],
        GOES_ON,
    ),
    (
        StoreFunction::CompareAndSet,
        false,
        &[Int(0), Atom, Int(1)],
        "Wrong argument to compare-and-set!: 0",
    ),
    (
        StoreFunction::Swap,
        false,
        &[Int(0), Int(1)],
        "Wrong argument to swap!: 0",
    ),
    (
        StoreFunction::Swap,
        true,
        &[Atom, Int(1)],
        "Wrong argument to swap!: 1",
    ),
    (
        StoreFunction::Swap,
        false,
        &[Atom],
        "Wrong number of args (1) passed to: swap!",
    ),
];

fn told_of(
    alloc: Global,
    function: StoreFunction,
    in_transaction: bool,
    given: &[Given],
) -> Result<String, AllocError> {
    let values = values_of(alloc, given)?;
    match call(alloc, function, in_transaction, values)? {
        Call::Refused(fault) => String::from_str(alloc, fault.text.as_str()),
        _asked => String::from_str(alloc, GOES_ON),
    }
}

// Where a call is refused memory it has no text, and not a part of one.
#[test]
fn calls_that_no_program_makes(rt: HostRuntime) -> Result<(), Fail> {
    for (function, in_transaction, given, wanted) in CALLS {
        let told = match told_of(rt.alloc(), *function, *in_transaction, given) {
            Ok(told) => told,
            Err(AllocError) => told_of(rt.alloc(), *function, *in_transaction, given)?,
        };
        assert_eq!(rt; told.as_str(), *wanted);
    }
    Ok(())
}

fn altered_told(
    alloc: Global,
    by: Alteration,
    in_transaction: bool,
    given: Given,
) -> Result<String, AllocError> {
    match ref_to_alter(alloc, by, in_transaction, &value_of(given))? {
        Altered::Ref(_name) => String::from_str(alloc, GOES_ON),
        Altered::Refused(fault) => String::from_str(alloc, fault.text.as_str()),
    }
}

// What alters, whether a transaction runs, what it is to alter, and the text of the fault.
const ALTERED: &[(Alteration, bool, Given, &str)] = &[
    (Alteration::Alter, true, Ref(OURS), GOES_ON),
    (Alteration::Commute, true, Ref(OURS), GOES_ON),
    (Alteration::Commute, false, Ref(OURS), NOT_RUNNING),
    (
        Alteration::Alter,
        false,
        Atom,
        "Wrong argument to alter: #atom[0]",
    ),
];

#[test]
fn shared_refs_are_altered_in_a_transaction(rt: HostRuntime) -> Result<(), Fail> {
    for (by, in_transaction, given, wanted) in ALTERED {
        let told = match altered_told(rt.alloc(), *by, *in_transaction, *given) {
            Ok(told) => told,
            Err(AllocError) => altered_told(rt.alloc(), *by, *in_transaction, *given)?,
        };
        assert_eq!(rt; told.as_str(), *wanted);
    }
    Ok(())
}
