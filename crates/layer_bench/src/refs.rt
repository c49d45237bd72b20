// Makes refs, sets each of them in rounds, reads each as it was at every round, and commutes one
// more ref in one transaction, so that the table of refs can be timed alone.
ghost use Rattle.ref_history.specs.Changes.{IsAbsent};
ghost use Rattle.ref_history.specs.declared.ref_id.RefId.{RefId};

use crate::number_of;
use core_functions::CoreFunction;
use ref_history::{Bounds, History};
use ref_table::{CommitOutcome, Point, RefTable};
use repl_asks::{Change, Commute, Commuted, Intent, Reading};
use repl_values::{Owner, RefName, Value};
use std::alloc::{AllocError, Global};
use std::str::SplitWhitespace;

// The refs are of so many tenants.
const TENANTS: u64 = 100;

#[derive(Clone, Copy, Debug)]
pub(crate) struct Size {
    refs: u64,
    rounds: u64,
    commutes: u64,
}

#[derive(Clone, Copy, Debug, Default)]
pub(crate) struct RefCounts {
    pub(crate) committed: u64,
    pub(crate) found: u64,
    pub(crate) to_retry: u64,
}

/// The number of refs, that of rounds and that of commutes.
pub(crate) fn size_of(words: &mut SplitWhitespace<'_>) -> Size {
    Size {
        refs: number_of(words.next()),
        rounds: number_of(words.next()),
        commutes: number_of(words.next()),
    }
}

fn tenant_of(name: RefName) -> u64 {
    match name.owner {
        Owner::Tenant(tenant) => tenant,
        Owner::Shared => 0,
    }
}

// Each ref keeps the versions of all rounds.
fn make_all<H: History>(
    alloc: Global,
    table: &mut RefTable<H>,
    size: Size,
) -> Result<Vec<RefName>, AllocError> {
    let bounds = Bounds {
        least: size.rounds,
        most: size.rounds,
    };
    let mut names = Vec::new(alloc);
    for number in 0..size.refs {
        let owner = Owner::Tenant(number % TENANTS);
        names.push(table.make(alloc, owner, Value::Nil, bounds)?)?;
    }
    Ok(names)
}

// A commit that sets one ref. Answers whether it was done.
fn set<H: History>(
    alloc: Global,
    table: &mut RefTable<H>,
    name: RefName,
) -> Result<bool, AllocError> {
    let mut sets = Vec::new(alloc);
    sets.push(Change {
        name,
        now: Value::Bool(true),
    })?;
    let intent = Intent {
        sets,
        ensured: Vec::new(alloc),
        commuted: Vec::new(alloc),
        sends: Vec::new(alloc),
    };
    let point = table.begin();
    if point.stamp == u128::MAX {
        return Ok(false);
    }
    let outcome = table.commit(alloc, tenant_of(name), &intent, point)?;
    Ok(matches!(outcome, CommitOutcome::Committed))
}

// Sets each ref once.
fn set_all<H: History>(
    alloc: Global,
    table: &mut RefTable<H>,
    names: &[RefName],
    counts: &mut RefCounts,
) -> Result<(), AllocError> {
    for name in names {
        if set(alloc, table, *name)? {
            counts.committed = counts.committed.saturating_add(1);
        }
    }
    Ok(())
}

// Reads each ref as it was at a point.
fn read_all<H: History>(
    table: &mut RefTable<H>,
    names: &[RefName],
    point: Point,
    counts: &mut RefCounts,
) -> Result<(), AllocError> {
    for name in names {
        match table.read(tenant_of(*name), *name, Some(point))? {
            Some(Reading::Found(_)) => counts.found = counts.found.saturating_add(1),
            Some(Reading::Retry) => counts.to_retry = counts.to_retry.saturating_add(1),
            None => {}
        }
    }
    Ok(())
}

// The increments of one ref in one transaction.
fn increments(alloc: Global, name: RefName, times: u64) -> Result<Commuted, AllocError> {
    let mut commutes = Vec::new(alloc);
    if let Some(function) = CoreFunction::named("inc") {
        for _ in 0..times {
            let arguments = Vec::new(alloc);
            commutes.push(Commute {
                function,
                arguments,
            })?;
        }
    }
    Ok(Commuted { name, commutes })
}

// A commit that commutes one new ref so many times. Answers whether it was done.
fn commute<H: History>(
    alloc: Global,
    table: &mut RefTable<H>,
    times: u64,
) -> Result<bool, AllocError> {
    let bounds = Bounds { least: 0, most: 0 };
    let name = table.make(alloc, Owner::Tenant(0), Value::Int(0), bounds)?;
    let mut commuted = Vec::new(alloc);
    commuted.push(increments(alloc, name, times)?)?;
    let intent = Intent {
        sets: Vec::new(alloc),
        ensured: Vec::new(alloc),
        commuted,
        sends: Vec::new(alloc),
    };
    let point = table.begin();
    if point.stamp == u128::MAX {
        return Ok(false);
    }
    let outcome = table.commit(alloc, tenant_of(name), &intent, point)?;
    Ok(matches!(outcome, CommitOutcome::Committed))
}

/// The versions of the refs are kept in this history, in which no ref is yet.
pub(crate) fn run<H: History>(
    alloc: Global,
    history: H,
    size: Size,
) -> Result<RefCounts, AllocError>
    requires { (id : RefId) → IsAbsent (H.stands history) id }
{
    let mut table = RefTable::new(alloc, history);
    let mut counts = RefCounts::default();
    let names = make_all(alloc, &mut table, size)?;
    let mut points = Vec::new(alloc);
    for _ in 0..size.rounds {
        points.push(table.begin())?;
        set_all(alloc, &mut table, &names, &mut counts)?;
    }
    for point in &points {
        read_all(&mut table, &names, *point, &mut counts)?;
    }
    if size.commutes > 0 && commute(alloc, &mut table, size.commutes)? {
        counts.committed = counts.committed.saturating_add(1);
    }
    Ok(counts)
}
