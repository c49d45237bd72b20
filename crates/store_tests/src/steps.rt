// Calls of a table of refs, one after the other, and what each should tell.
use crate::intents::{Want, intent_of};
use ref_history::{Bounds, RingHistory};
use ref_table::{CommitOutcome, Point, RefTable};
use repl_asks::{Intent, Reading};
use repl_values::{Owner, RefName, Value};
use std::alloc::{AllocError, Global};
use std::process::Abort;
use std::test::Fail;

/// A call. Where it names a tenant, that is the caller; and a point is told by its stamp.
#[derive(Clone, Copy)]
pub(crate) enum TableCall {
    /// A ref of an integer, which keeps no version behind its newest until a read asks for one.
    Make(Owner, i64),
    Begin,
    /// A tenant commits this, of an attempt that began at this point.
    Commit(u64, &'static [Want], u128),
    /// Whether a commit of this would not be refused.
    Accepts(u64, &'static [Want]),
    Read(u64, RefName),
    ReadAt(u64, RefName, u128),
    SetLeast(u64, RefName, u64),
    SetMost(u64, RefName, u64),
    BoundsOf(u64, RefName),
    CountOf(u64, RefName),
    Release(u64),
}

/// What a call tells.
#[derive(Clone, Copy, Debug, PartialEq, Eq)]
pub(crate) enum TableTold {
    Made(RefName),
    /// The stamp of the point.
    Begun(u128),
    Committed,
    Conflict,
    Refused,
    Fault,
    Number(i64),
    Retry,
    /// There is no such ref.
    Nothing,
    Yes,
    No,
    Bounds(u64, u64),
    Count(u64),
}

pub(crate) type TableStep = (TableCall, TableTold);

type TestedTable = RefTable<RingHistory>;

pub(crate) fn new_table(alloc: Global) -> TestedTable {
    RefTable::new(alloc, RingHistory::new(alloc))
}

/// Takes these steps with a new table.
pub(crate) fn check(rt: &impl Abort, alloc: Global, steps: &[TableStep]) -> Result<(), Fail> {
    take(rt, alloc, &mut new_table(alloc), steps)?;
    Ok(())
}

pub(crate) fn take(
    rt: &impl Abort,
    alloc: Global,
    table: &mut TestedTable,
    steps: &[TableStep],
) -> Result<(), AllocError> {
    for (place, (call, wanted)) in steps.iter().enumerate() {
        let told = told_of(rt, alloc, table, *call)?;
        expect(rt, place, told, *wanted);
    }
    Ok(())
}

fn expect(rt: &impl Abort, place: usize, told: TableTold, wanted: TableTold) {
    assert_eq!(rt; told, wanted, "at step {place}");
}

fn told_of(
    rt: &impl Abort,
    alloc: Global,
    table: &mut TestedTable,
    call: TableCall,
) -> Result<TableTold, AllocError> {
    match call {
        TableCall::Make(owner, number) => make(alloc, table, owner, number),
        TableCall::Begin => Ok(TableTold::Begun(table.begin().stamp)),
        TableCall::Commit(caller, wants, stamp) => {
            let intent = intent_of(rt, alloc, wants)?;
            commit(alloc, table, caller, &intent, Point { stamp })
        }
        TableCall::Accepts(caller, wants) => {
            let intent = intent_of(rt, alloc, wants)?;
            Ok(answer(table.accepts(alloc, caller, &intent)))
        }
        TableCall::Read(caller, name) => read(table, caller, name, None),
        TableCall::ReadAt(caller, name, stamp) => read(table, caller, name, Some(Point { stamp })),
        TableCall::SetLeast(caller, name, least) => Ok(answer(table.set_least(
            caller, name, least,
        ))),
        TableCall::SetMost(caller, name, most) => Ok(answer(table.set_most(caller, name, most))),
        TableCall::BoundsOf(caller, name) => Ok(bounds(table, caller, name)),
        TableCall::CountOf(caller, name) => Ok(count(table, caller, name)),
        TableCall::Release(tenant) => {
            table.release(tenant);
            Ok(TableTold::Yes)
        }
    }
}

fn make(
    alloc: Global,
    table: &mut TestedTable,
    owner: Owner,
    number: i64,
) -> Result<TableTold, AllocError> {
    let bounds = Bounds { least: 0, most: 10 };
    Ok(TableTold::Made(table.make(alloc, owner, Value::Int(number), bounds)?))
}

fn commit(
    alloc: Global,
    table: &mut TestedTable,
    caller: u64,
    intent: &Intent,
    point: Point,
) -> Result<TableTold, AllocError> {
    if table.begin().stamp == u128::MAX {
        return Ok(TableTold::Refused);
    }
    Ok(match table.commit(alloc, caller, intent, point)? {
        CommitOutcome::Committed => TableTold::Committed,
        CommitOutcome::Conflict => TableTold::Conflict,
        CommitOutcome::Faulted(_fault) => TableTold::Fault,
        CommitOutcome::Refused => TableTold::Refused,
    })
}

fn read(
    table: &mut TestedTable,
    caller: u64,
    name: RefName,
    point: Option<Point>,
) -> Result<TableTold, AllocError> {
    match table.read(caller, name, point)? {
        Some(Reading::Found(Value::Int(number))) => Ok(TableTold::Number(number)),
        Some(Reading::Retry) => Ok(TableTold::Retry),
        _ => Ok(TableTold::Nothing),
    }
}

fn answer(is_so: bool) -> TableTold {
    if is_so { TableTold::Yes } else { TableTold::No }
}

fn bounds(table: &TestedTable, caller: u64, name: RefName) -> TableTold {
    match table.bounds(caller, name) {
        Some(bounds) => TableTold::Bounds(bounds.least, bounds.most),
        None => TableTold::Nothing,
    }
}

fn count(table: &TestedTable, caller: u64, name: RefName) -> TableTold {
    match table.history_count(caller, name) {
        Some(count) => TableTold::Count(count),
        None => TableTold::Nothing,
    }
}
