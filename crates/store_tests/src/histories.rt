// Calls of a history whose refs hold integers, of both kinds. How many versions it keeps is worked
// out by hand from the Clojure reference.
use crate::histories::HistoryCall::{
    Add, BoundsOf, Count, DropRef, IsNewer, Make, Newest, Read, SetLeast, SetMost,
};
use crate::histories::HistoryTold::{Done, Kept, No, Nothing, Number, Yes};
use ref_history::{Bounds, History, ListHistory, RefId, RingHistory};
use std::alloc::AllocError;
use std::process::Abort;
use std::test::Fail;
use value_data::Value;

#[derive(Clone, Copy, Debug)]
pub(crate) enum HistoryCall {
    /// A ref is made with this integer, and these bounds. The calls behind it are of this ref.
    Make(i64, u64, u64),
    /// It gets a version with this stamp and this integer, and tells how many it then keeps.
    Add(u128, i64),
    Read(u128),
    Newest,
    IsNewer(u128),
    Count,
    BoundsOf,
    SetLeast(u64),
    SetMost(u64),
    DropRef,
}

#[derive(Clone, Copy, Debug, PartialEq, Eq)]
pub(crate) enum HistoryTold {
    Done,
    Number(i64),
    Kept(u64),
    Bounds(u64, u64),
    Yes,
    No,
    Nothing,
}

pub(crate) fn make<H: History>(
    history: &mut H,
    number: i64,
    least: u64,
    most: u64,
) -> Result<RefId, AllocError> {
    history.make(Value::Int(number), Bounds { least, most })
}

pub(crate) fn told_of<H: History>(
    history: &mut H,
    id: RefId,
    call: HistoryCall,
) -> Result<HistoryTold, AllocError> {
    match call {
        HistoryCall::Add(stamp, number) => return add(history, id, stamp, number),
        HistoryCall::Read(point) => return Ok(number(history.read_at(id, point))),
        HistoryCall::Newest => return Ok(number(history.newest(id))),
        HistoryCall::IsNewer(point) => return Ok(answer(history.is_newer(id, point))),
        HistoryCall::Count => return Ok(count(history, id)),
        HistoryCall::BoundsOf => return Ok(bounds(history, id)),
        HistoryCall::SetLeast(least) => history.set_least(id, least),
        HistoryCall::SetMost(most) => history.set_most(id, most),
        HistoryCall::DropRef => history.drop_ref(id),
        HistoryCall::Make(..) => (),
    }
    Ok(HistoryTold::Done)
}

fn add<H: History>(
    history: &mut H,
    id: RefId,
    stamp: u128,
    number: i64,
) -> Result<HistoryTold, AllocError> {
    history.reserve(id)?;
    history.add_version(id, stamp, Value::Int(number));
    Ok(count(history, id))
}

fn number(found: Option<&Value>) -> HistoryTold {
    match found {
        Some(Value::Int(number)) => HistoryTold::Number(*number),
        _ => HistoryTold::Nothing,
    }
}

fn answer(is_so: bool) -> HistoryTold {
    if is_so {
        HistoryTold::Yes
    } else {
        HistoryTold::No
    }
}

fn count<H: History>(history: &H, id: RefId) -> HistoryTold {
    match history.count(id) {
        Some(count) => HistoryTold::Kept(count),
        None => HistoryTold::Nothing,
    }
}

fn bounds<H: History>(history: &H, id: RefId) -> HistoryTold {
    match history.bounds(id) {
        Some(bounds) => HistoryTold::Bounds(bounds.least, bounds.most),
        None => HistoryTold::Nothing,
    }
}

// A failed read keeps one version more, and stamps go up to the greatest of 128 bits. Of a ref that
// was dropped nothing is left, and another is made beside it.
const STEPS: &[(HistoryCall, HistoryTold)] = &[
    (Make(1, 0, 10), Done),
    (IsNewer(0), No),
    (Add(4, 2), Kept(0)),
    (Read(3), Nothing),
    (Add(6, 3), Kept(1)),
    (Read(5), Number(2)),
    (Add(u128::MAX, 4), Kept(1)),
    (Read(5), Nothing),
    (Read(u128::MAX - 1), Number(3)),
    (Read(u128::MAX), Number(4)),
    (Newest, Number(4)),
    (IsNewer(u128::MAX - 1), Yes),
    (IsNewer(u128::MAX), No),
    (SetLeast(2), Done),
    (SetMost(3), Done),
    (BoundsOf, HistoryTold::Bounds(2, 3)),
    (DropRef, Done),
    (DropRef, Done),
    (Add(1, 3), Nothing),
    (Newest, Nothing),
    (Read(1), Nothing),
    (Count, Nothing),
    (BoundsOf, Nothing),
    (IsNewer(0), No),
    (Make(5, 0, 0), Done),
    (Newest, Number(5)),
    (Count, Kept(0)),
    (Make(1, 0, 10), Done),
    (Add(4, 2), Kept(0)),
    (Read(3), Nothing),
    (Add(6, 3), Kept(1)),
    (Read(5), Number(2)),
    (Add(7, 4), Kept(1)),
    (Read(5), Nothing),
    (Read(6), Number(3)),
];

fn take<H: History>(
    rt: &impl Abort,
    mut history: H,
    steps: &[(HistoryCall, HistoryTold)],
) -> Result<(), Fail> {
    let mut id = make(&mut history, 0, 0, 0)?;
    for (place, (call, wanted)) in steps.iter().enumerate() {
        if let Make(number, least, most) = *call {
            id = make(&mut history, number, least, most)?;
        }
        let told = told_of(&mut history, id, *call)?;
        assert_eq!(rt; told, *wanted, "at step {place}");
    }
    Ok(())
}

#[test]
fn histories_keep_what_their_bounds_say(rt: HostRuntime) -> Result<(), Fail> {
    take(&rt, ListHistory::new(rt.alloc()), STEPS)?;
    take(&rt, RingHistory::new(rt.alloc()), STEPS)
}
