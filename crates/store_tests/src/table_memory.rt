// A table where memory is wanting: run with one allocation after the other failing.
use crate::given::Given::Int;
use crate::given::{FIRST, OTHERS, OURS, SECOND};
use crate::intents::Want;
use crate::intents::Want::{Commute, Set};
use crate::steps::TableCall::{Begin, Commit, CountOf, Make, Read, ReadAt, SetLeast};
use crate::steps::TableTold::{Begun, Committed, Count, Made, Nothing, Number, Yes};
use crate::steps::{TableStep, new_table, take};
use repl_values::Owner;
use std::test::Fail;

const BEFORE: &[TableStep] = &[
    (Make(Owner::Tenant(1), 1), Made(FIRST)),
    (Make(Owner::Tenant(1), 2), Made(SECOND)),
    (SetLeast(1, FIRST, 1), Yes),
    (SetLeast(1, SECOND, 1), Yes),
    (Begin, Begun(0)),
];

const AS_IT_WAS: &[TableStep] = &[
    (Begin, Begun(0)),
    (CountOf(1, FIRST), Count(0)),
    (CountOf(1, SECOND), Count(0)),
    (Read(1, FIRST), Number(1)),
    (Read(1, SECOND), Number(2)),
];

const WANTS: &[Want] = &[
    Set(FIRST, 3),
    Commute(SECOND, "+", &[Int(4)]),
    Commute(SECOND, "*", &[Int(3)]),
];

const COMMIT: &[TableStep] = &[(Commit(1, WANTS, 0), Committed)];

const AFTER: &[TableStep] = &[
    (Read(1, FIRST), Number(3)),
    (Read(1, SECOND), Number(18)),
    (ReadAt(1, FIRST, 0), Number(1)),
];

// Commutes may have been made again in part. Then all is as it was, and it is committed once more.
#[test]
fn commit_that_fails_changes_nothing(rt: HostRuntime) -> Result<(), Fail> {
    let alloc = rt.alloc();
    let mut table = new_table(alloc);
    if take(&rt, alloc, &mut table, BEFORE).is_err() {
        return Ok(());
    }
    if take(&rt, alloc, &mut table, COMMIT).is_err() {
        take(&rt, alloc, &mut table, AS_IT_WAS)?;
        take(&rt, alloc, &mut table, COMMIT)?;
    }
    take(&rt, alloc, &mut table, AFTER)?;
    Ok(())
}

const NUMBERED: &[TableStep] = &[
    (Make(Owner::Tenant(1), 1), Made(FIRST)),
    (Read(2, FIRST), Nothing),
    (Make(Owner::Shared, 1), Made(OURS)),
    (Read(2, OURS), Number(1)),
    (Make(Owner::Tenant(2), 1), Made(OTHERS)),
    (Read(2, OTHERS), Number(1)),
];

#[test]
fn ref_that_cannot_be_made_takes_no_number(rt: HostRuntime) -> Result<(), Fail> {
    let alloc = rt.alloc();
    let mut table = new_table(alloc);
    for step in NUMBERED {
        if take(&rt, alloc, &mut table, &[*step]).is_err() {
            take(&rt, alloc, &mut table, &[*step])?;
        }
    }
    Ok(())
}
