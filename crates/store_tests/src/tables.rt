// A table of refs of two tenants, with a ref that they share, and intents that break a rule.
use crate::given::Given::{Int, Ref};
use crate::given::{FIRST, OTHERS, OURS, SECOND};
use crate::intents::Want;
use crate::intents::Want::{Commute, Ensure, Hold, Set};
use crate::steps::TableCall::{
    Accepts, Begin, BoundsOf, Commit, CountOf, Make, Read, ReadAt, Release, SetLeast, SetMost,
};
use crate::steps::TableTold::{
    Begun, Bounds, Committed, Conflict, Count, Fault, Made, No, Nothing, Number, Refused, Retry,
    Yes,
};
use crate::steps::{TableStep, check};
use repl_values::Owner;
use std::test::Fail;

const BOTH: &[Want] = &[Set(FIRST, 2), Commute(OURS, "+", &[Int(4)])];

// The bounds of a shared ref are not set, nor does a tenant reach another's ref.
const OF_TWO_TENANTS: &[TableStep] = &[
    (Make(Owner::Tenant(1), 1), Made(FIRST)),
    (Make(Owner::Tenant(2), 1), Made(OTHERS)),
    (Make(Owner::Tenant(1), 1), Made(SECOND)),
    (Make(Owner::Shared, 1), Made(OURS)),
    (SetLeast(1, FIRST, 1), Yes),
    (SetMost(1, FIRST, 3), Yes),
    (BoundsOf(1, FIRST), Bounds(1, 3)),
    (SetLeast(1, OURS, 2), No),
    (SetMost(1, OURS, 3), No),
    (BoundsOf(1, OURS), Bounds(0, 10)),
    (SetLeast(2, FIRST, 4), No),
    (BoundsOf(2, FIRST), Nothing),
    (CountOf(2, FIRST), Nothing),
    (Begin, Begun(0)),
    (Accepts(1, BOTH), Yes),
    (Commit(1, BOTH, 0), Committed),
    (Commit(1, &[Set(FIRST, 3)], 0), Conflict),
    (Begin, Begun(1)),
    (ReadAt(1, FIRST, 0), Number(1)),
    (ReadAt(2, FIRST, 0), Nothing),
    (Read(2, FIRST), Nothing),
    (Read(1, FIRST), Number(2)),
    (CountOf(1, FIRST), Count(1)),
    (Read(2, OURS), Number(5)),
    (ReadAt(2, OURS, 0), Retry),
    (Release(1), Yes),
    (Release(1), Yes),
    (Read(1, FIRST), Nothing),
    (Read(2, OTHERS), Number(1)),
    (Read(2, OURS), Number(5)),
    (Make(Owner::Tenant(1), 6), Made(FIRST)),
    (Read(1, FIRST), Number(6)),
];

#[test]
fn tenants_have_refs_of_their_own_and_share_some(rt: HostRuntime) -> Result<(), Fail> {
    check(&rt, rt.alloc(), OF_TWO_TENANTS)
}

// A ref whose commutes do not follow one another.
const APART: &[Want] = &[
    Commute(FIRST, "+", &[Int(1)]),
    Commute(OURS, "+", &[Int(1)]),
    Commute(FIRST, "+", &[Int(1)]),
];

const SET_AND_COMMUTED: &[Want] = &[Set(FIRST, 4), Commute(FIRST, "+", &[Int(1)])];

// What stands behind the last commute of a shared ref has to be plain, and nothing before it.
const PLAIN_AT_LAST: &[Want] = &[
    Commute(OURS, "vector", &[Ref(FIRST)]),
    Commute(OURS, "count", &[]),
];

// A ref that is set twice, one that is not there, as `SECOND`, one of another tenant, a function
// without its argument; and a shared ref that is to hold another.
const WRONG: &[TableStep] = &[
    (Make(Owner::Tenant(1), 1), Made(FIRST)),
    (Make(Owner::Tenant(2), 1), Made(OTHERS)),
    (Make(Owner::Shared, 1), Made(OURS)),
    (Commit(1, &[Set(FIRST, 2), Set(FIRST, 3)], 0), Refused),
    (Accepts(1, &[Set(FIRST, 2), Set(FIRST, 3)]), No),
    (Commit(1, &[Set(SECOND, 2)], 0), Refused),
    (Commit(1, &[Set(FIRST, 2), Ensure(SECOND)], 0), Refused),
    (Commit(2, &[Set(FIRST, 2)], 0), Refused),
    (Commit(1, &[Commute(OTHERS, "+", &[Int(1)])], 0), Refused),
    (Commit(1, APART, 0), Refused),
    (Commit(1, SET_AND_COMMUTED, 0), Refused),
    (Commit(1, &[Commute(FIRST, "quot", &[])], 0), Refused),
    (Commit(1, &[Hold(OURS, FIRST)], 0), Refused),
    (
        Commit(1, &[Commute(OURS, "vector", &[Ref(FIRST)])], 0),
        Fault,
    ),
    (Begin, Begun(0)),
    (Read(1, FIRST), Number(1)),
    (Read(1, OURS), Number(1)),
    (Commit(1, PLAIN_AT_LAST, 0), Committed),
    (Read(1, OURS), Number(2)),
];

#[test]
fn what_breaks_a_rule_is_refused(rt: HostRuntime) -> Result<(), Fail> {
    check(&rt, rt.alloc(), WRONG)
}
