// Evaluates one transaction over answers that are made up, so that the walker can be timed alone.
use crate::number_of;
use repl_asks::{Answer, Ask, End, Job, Reading, Resolution, Verdict, Work};
use repl_reader::read_all;
use repl_values::{Owner, RefName, Value};
use repl_walker::{Reached, begin};
use std::alloc::{AllocError, Global};
use std::str::SplitWhitespace;
use std::sync::ArcStr;

#[derive(Clone, Copy, Debug)]
pub(crate) struct Size {
    alters: u64,
    conflicts: u64,
}

#[derive(Clone, Copy, Debug, Default)]
pub(crate) struct WalkCounts {
    pub(crate) asked: u64,
    pub(crate) conflicts: u64,
    pub(crate) values: u64,
}

/// How often the transaction alters a ref, and how many of its commits meet a conflict first.
pub(crate) fn size_of(words: &mut SplitWhitespace<'_>) -> Size {
    Size {
        alters: number_of(words.next()),
        conflicts: number_of(words.next()),
    }
}

// One transaction, which alters one ref so many times.
fn job(alloc: Global, size: Size) -> Result<Job, AllocError> {
    let mut code = String::from_str(alloc, "(dosync")?;
    for _ in 0..size.alters {
        code.push_str(" (clojure.core/alter r clojure.core/inc)")?;
    }
    code.push_str(")")?;
    let form = read_all(alloc, code.as_str())?
        .forms
        .pop()
        .unwrap_or(Value::Nil);
    Ok(Job {
        work: Work::Form(form),
        namespace: ArcStr::from_str(alloc, "user")?,
        retries: u32::MAX,
    })
}

const REF: RefName = RefName {
    owner: Owner::Tenant(0),
    number: 0,
};

fn answer(ask: &Ask, size: Size, counts: &mut WalkCounts) -> Answer {
    counts.asked = counts.asked.saturating_add(1);
    match ask {
        Ask::Resolve { .. } => Answer::Resolution(Resolution::Value(Value::Ref(REF))),
        Ask::Read(_) => Answer::Reading(Reading::Found(Value::Int(0))),
        Ask::Commit(_) if counts.conflicts < size.conflicts => {
            counts.conflicts = counts.conflicts.saturating_add(1);
            Answer::Verdict(Verdict::Conflict)
        }
        Ask::Commit(_) => Answer::Verdict(Verdict::Committed),
        _ => Answer::Done,
    }
}

// More asks than the evaluation has: each attempt begins, reads and commits, and each alteration
// asks for its ref.
fn most_asks(size: Size) -> u64 {
    let attempts = size.conflicts.saturating_add(1);
    size.alters.saturating_add(4).saturating_mul(attempts)
}

fn one_further(
    alloc: Global,
    reached: Reached,
    size: Size,
    counts: &mut WalkCounts,
) -> Result<Reached, AllocError> {
    match reached {
        Reached::Asks(waiting, ask) => waiting.go_on(alloc, answer(&ask, size, counts)),
        Reached::Ends(finished) => Ok(Reached::Ends(finished)),
    }
}

fn values_in(reached: &Reached) -> u64 {
    match reached {
        Reached::Ends(finished) => match finished.end() {
            End::Value(_value) => 1,
            End::Fault(_fault) => 0,
        },
        Reached::Asks(_waiting, _ask) => 0,
    }
}

pub(crate) fn run(alloc: Global, size: Size) -> Result<WalkCounts, AllocError> {
    let mut counts = WalkCounts::default();
    let mut reached = begin(alloc, &job(alloc, size)?)?;
    for _ in 0..most_asks(size) {
        reached = one_further(alloc, reached, size, &mut counts)?;
    }
    counts.values = values_in(&reached);
    Ok(counts)
}
